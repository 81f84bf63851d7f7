//! A message whose bytes come one by one, in the caller's memory.
ghost use Rattle.std.specs.Prelude.{◌≡◌, ◌≢◌, ◌+◌, ◌<◌, ◌≤◌, ◌↔◌, ℕ, [], ◌∷◌, ◌++◌, IsSome, None};
ghost use Rattle.std.specs.Prelude.{Some, length};
ghost use Rattle.cct_model_wire.specs.declared.wire.CheckKind.{CheckKind};
ghost use Rattle.cct_model_wire.specs.declared.wire.TheConstants.{MOST_SENT};
ghost use Rattle.cct_model_wire.specs.Message.{message};
ghost use Rattle.cct_c.specs.Codes.{kind_of};
ghost use Rattle.cct_c.specs.Fed.{held_by};

use crate::codes::{BAD_CHECK, DAMAGED, MORE, OK, TOO_LONG, kind_of};
use cct_frame::read;
use cct_model_wire::{CheckKind, MOST_SENT};

/// The bytes of a message without data.
const SHORTEST: usize = 5;

/// The bytes since the last gap. Whatever is in it, a call answers: it trusts no field.
#[repr(C)]
#[derive(Drop)]
pub struct LhFramer {
    /// The code of the check.
    pub check: u8,
    /// How many bytes came since the gap, 260 at most.
    pub count: u16,
    pub bytes: [u8; MOST_SENT],
}

/// A gap: what comes next is the first byte of a message under this check.
#[unsafe(no_mangle)]
pub extern "C" fn lh_raw_framer_gap(framer: &mut LhFramer, check: u8) -> u32
    ensures gap { result ≡ OK → (held_by framer.new ≡ []) × (framer.new.check ≡ check) }
    ensures known { (result ≡ OK) ↔ IsSome (kind_of check) }
    ensures refused { result ≢ OK → (result ≡ BAD_CHECK) × (framer.new ≡ framer.old) }
{
    if kind_of(check).is_none() {
        return BAD_CHECK;
    }
    framer.check = check;
    framer.count = 0;
    OK
}

/// One byte more came: it answers whether the bytes since the gap are a message now.
#[unsafe(no_mangle)]
pub extern "C" fn lh_raw_framer_feed(framer: &mut LhFramer, byte: u8) -> u32
    ensures held { (kind : CheckKind) → kind_of framer.old.check ≡ Some kind → framer.old.count < MOST_SENT
        → (held_by framer.new ≡ held_by framer.old ++ byte ∷ []) × (framer.new.check ≡ framer.old.check) }
    ensures whole { (kind : CheckKind) → kind_of framer.old.check ≡ Some kind → framer.old.count < MOST_SENT
        → ((result ≡ OK) ↔ IsSome (message kind (held_by framer.old ++ byte ∷ []))) }
    ensures too_long { (kind : CheckKind) → kind_of framer.old.check ≡ Some kind → MOST_SENT ≤ framer.old.count
        → (result ≡ TOO_LONG) × (framer.new ≡ framer.old) }
    ensures no_check { kind_of framer.old.check ≡ None → (result ≡ BAD_CHECK)
        × (framer.new ≡ framer.old) }
{
    let Some(kind) = kind_of(framer.check) else {
        return BAD_CHECK;
    };
    let count = usize::from(framer.count);
    if count >= MOST_SENT {
        return TOO_LONG;
    }
    framer.bytes[count] = byte;
    framer.count += 1;
    state_of(kind, &framer.bytes[..count + 1])
}

/// What bytes are that came since a gap: a message, a message that is damaged, or no whole one.
#[tactic(auto, using(cct_frame::proofs::Places::none_short, cct_frame::proofs::Places::none_length))]
fn state_of(kind: CheckKind, bytes: &[u8]) -> u32
    ensures whole { (result ≡ OK) ↔ IsSome (message kind bytes.now) }
{
    if bytes.len() < SHORTEST || usize::from(bytes[1]) + SHORTEST != bytes.len() {
        return MORE;
    }
    match read(kind, bytes) {
        Ok(_) => OK,
        Err(_) => DAMAGED,
    }
}
