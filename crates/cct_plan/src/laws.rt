//! What the definition of a chosen plan says by itself.
ghost use Rattle.std.specs.Prelude.{◌≡◌, ℕ, List};
ghost use Rattle.cct_model.specs.declared.change.Tray.{Tray};
ghost use Rattle.cct_model.specs.Plan.{IsChosen};

/// At most one plan of an amount is the chosen one.
pub fn one_plan_is_chosen()
    ensures { (trays : List Tray) (amount : ℕ) (counts others : List ℕ) → IsChosen trays amount counts
        → IsChosen trays amount others → counts ≡ others }
{}
