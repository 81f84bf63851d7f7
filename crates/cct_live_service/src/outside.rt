//! What a service asks of the program around it.
ghost use Rattle.std.specs.Prelude.{◌≤◌, ◌∷◌, [], ℕ, List};
ghost use Rattle.cct_live_service.specs.Hears.{HearsMore, Refusal};

use cct_model::LineKind;

/// The program around a service. It hears of refused lines.
pub trait Outside {
    /// How often the journal couldn't be opened or read beside the service: a count that never
    /// falls, and may stand still at 2^64 - 1.
    ghost misses: { Self → ℕ };

    /// Which refused lines it has heard of, newest first, by their numbers and kinds: of one that
    /// may have heard of these.
    ghost heard: { Self → List Refusal → Type 0 };

    /// The line of this number was refused. Its bytes are without the line feed; one that is too
    /// long or cut has none here.
    fn refused(&mut self, number: u32, kind: LineKind, line: &[u8])
        ensures hears { HearsMore heard self.old self.new ((number, kind) ∷ []) }
        ensures later { misses self.old ≤ misses self.new };
}
