//! What holds of bodies and of the records and carries that they spell.
ghost use Rattle.std.specs.Prelude.{◌≡◌, ◌^◌, ◌<◌, ℕ, List};
ghost use Rattle.cct_model_lines.specs.Carried.{IsRightly};
ghost use Rattle.cct_model_lines.specs.declared.carry.Carry.{Carry};
ghost use Rattle.cct_model_lines.specs.declared.record.Record.{Record};
ghost use Rattle.cct_record.specs.Body.{InRange, body_of};
ghost use Rattle.cct_record.specs.CarryBody.{bodies_of};
ghost use Rattle.cct_record.specs.OldBody.{OldSpells};
ghost use Rattle.cct_record.specs.OldCarryBody.{OldSpellsCarry};

/// No two records have the same body.
#[tactic(auto, using(crate::proofs::Spellings::one_spelling))]
pub fn a_body_spells_one_record()
    ensures { (x : Record) (y : Record) → InRange x → InRange y → body_of x ≡ body_of y → x ≡ y }
{}

/// No two carries have the same bodies.
#[tactic(auto, using(crate::proofs::CarryBack::one_carry))]
pub fn bodies_spell_one_carry()
    ensures { (x : Carry) (y : Carry) (many : ℕ) (more : ℕ) → many < 2 ^ 32 → more < 2 ^ 32 → IsRightly many x →
        IsRightly more y → bodies_of x ≡ bodies_of y → x ≡ y }
{}

/// No two records have the same old body.
pub fn an_old_body_spells_one_record()
    ensures { (x : Record) (y : Record) (body : List ℕ) → OldSpells x body → OldSpells y body → x
        ≡ y }
{}

/// No two carries have the same old bodies.
pub fn old_bodies_spell_one_carry()
    ensures { (x : Carry) (y : Carry) (many : ℕ) (more : ℕ) (bodies : List (List ℕ)) → many < 2 ^ 32 → more < 2 ^ 32 →
        OldSpellsCarry many x bodies → OldSpellsCarry more y bodies → x ≡ y }
{}
