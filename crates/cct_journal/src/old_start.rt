//! What a half of version 2 begins with, as bytes.
ghost use Rattle.std.specs.Prelude.{◌≡◌, ℕ, ◌≤◌, ◌<◌, ◌↔◌, IfNone, IfSome, IsTrue, length};
ghost use Rattle.cct_model_lines.specs.Carried.{IsRightly};
ghost use Rattle.cct_model_lines.specs.declared.carry.Carry.{Carry};
ghost use Rattle.cct_journal.specs.OldImage.{BeginsSecond, MayBeginOld};
ghost use Rattle.cct_journal.specs.Start.{start_with};

use crate::format::{CARRY_BODIES, MOST_RECORDS, SECOND_VERSION, START};
use crate::start::{BODY, Start, bodies_at, four_at, has_parity, spell_with};
use cct_record::read_old_carry;

/// Whether a half of version 2 may begin so, where the carry may be that of so many records.
fn may_begin_old(start: &Start, second: bool) -> bool
    requires { IsRightly start.now.base start.now.carry }
    ensures { IsTrue result ↔ MayBeginOld second start.now.generation start.now.base start.now.carry }
{
    has_parity(start.generation, second)
        && start.generation <= start.base
        && u64::from(start.base) < MOST_RECORDS
}

/// Whether these are the bytes that a half of version 2 begins with whose carry has these bodies.
fn is_old_spelt(start: &Start, bodies: &[[u8; BODY]], bytes: &[u8; START]) -> bool
    requires { length bodies.now ≤ CARRY_BODIES }
    ensures { IsTrue result ↔ (start_with 2 start.now.generation start.now.base bodies.now
        ≡ bytes.now) }
{
    spell_with(SECOND_VERSION, start.generation, start.base, bodies) == *bytes
}

/// Whether a half of version 2 may begin so, and these are its bytes.
fn begins_old(start: &Start, bodies: &[[u8; BODY]], bytes: &[u8; START], second: bool) -> bool
    requires few { length bodies.now ≤ CARRY_BODIES }
    requires rightly { IsRightly start.now.base start.now.carry }
    ensures { IsTrue result ↔ (MayBeginOld second start.now.generation start.now.base start.now.carry
        × (start_with 2 start.now.generation start.now.base bodies.now ≡ bytes.now)) }
{
    may_begin_old(start, second) && is_old_spelt(start, bodies, bytes)
}

/// What a half of version 2 begins with that has these first bytes, or none where no such half
/// begins so.
pub(crate) fn read_old_start(bytes: &[u8; START], second: bool) -> Option<Start>
    ensures begins { IfSome result (λ s. BeginsSecond second s.generation s.base s.carry bytes.now) }
    // Only bytes with which no such half begins.
    ensures none { IfNone result ((generation base : ℕ) (carry : Carry)
        → BeginsSecond second generation base carry bytes.now → ⊥) }
{
    let bodies = bodies_at(bytes)?;
    let base = four_at(bytes, 20);
    let carry = read_old_carry(base, bodies.as_slice())?;
    let start = Start {
        generation: four_at(bytes, 16),
        base,
        carry,
    };
    if begins_old(&start, bodies.as_slice(), bytes, second) {
        Some(start)
    } else {
        None
    }
}
