//! The records of a journal are replayed as they are found.
ghost use Rattle.std.specs.Prelude.{◌≡◌, ℕ, ◌<◌, ◌≤◌, ◌+◌, List, [], ◌∷◌, length};
ghost use Rattle.cct_model_lines.specs.Carried.{IsRightly};
ghost use Rattle.cct_model_lines.specs.declared.carry.Carry.{Carry};
ghost use Rattle.cct_model_lines.specs.declared.record.Record.{Record};
ghost use Rattle.cct_record.specs.Body.{Encodable};

use crate::format::MOST_RECORDS;
use cct_model_lines::{Carry, Record};

/// Whatever goes over the records of a journal as they are found: first the carry of those before
/// the current half, then each of its records, oldest first, so that each slot is read once.
pub trait Replay {
    /// What goes over the carry of so many records, and over these after it, newest first, is the
    /// first value before them and the second after them.
    ghost replayed: { Self → ℕ → Carry → List Record → Self → Type 0 };

    /// Goes over the carry of `base` records, before any record.
    fn begin(&mut self, base: u32, carry: &Carry)
        requires few { base ≤ MOST_RECORDS }
        requires rightly { IsRightly base carry.now }
        ensures { replayed self.old base carry.now [] self.new };

    /// Goes over the record of an index, after those before it.
    fn replay(&mut self, index: u32, entry: &Record)
        requires few { index < MOST_RECORDS }
        requires encodable { Encodable entry.now }
        requires behind { (first : Self) × (base : ℕ) × (carry : Carry) × (before : List Record)
            × (index ≡ base + length before) × replayed first base carry before self.old }
        ensures { (first : Self) (base : ℕ) (carry : Carry) (before : List Record) → index ≡ base + length before
            → replayed first base carry before self.old → replayed first base carry (entry.now ∷ before) self.new };
}

/// The records are only counted.
#[derive(Drop)]
pub(crate) struct OnlyCounted;

impl Replay for OnlyCounted {
    ghost replayed = { λ _ _ _ _ _. Unit {0} };

    fn begin(&mut self, _base: u32, _carry: &Carry) {}

    fn replay(&mut self, _index: u32, _entry: &Record) {}
}
