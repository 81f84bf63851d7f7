// Where bytes go.
ghost use Rattle.std.specs.Prelude.{ℕ, Option, List, Result, IsErr, OnOk, OnErr};
ghost use Rattle.std.specs.Io.KnownBytes.{Appends};
ghost use Rattle.cct_edge.specs.Bytes.{AppendsFront, Serves};
ghost use Rattle.cct_edge.specs.declared.fault.Failed.{Failed};

use crate::Failed;

/// Where bytes go, in order.
pub trait Sink {
    /// The bytes that have been written, where the object shows them.
    ghost written: { Self → Option (List ℕ) };

    /// How often the outside has failed: a count that never falls, and may stand still at 2^64 - 1.
    ghost faults: { Self → ℕ };

    /// What one put of a piece does, by its answer, to the object before and after: so a caller can
    /// say that it made just one.
    ghost puts: { Self → List ℕ → Result (Unit {0}) Failed → Self → Type 0 };

    /// Appends the whole piece. A call that fails has appended a front of it, which may be none or
    /// all of it.
    fn put(&mut self, piece: &[u8]) -> Result<(), Failed>
        // So a caller can say that it made exactly one put.
        ensures one { puts self.old piece.now result self.new }
        ensures ok { OnOk result (Appends (written self.old) (written self.new) piece.now) }
        // A front of the bytes, which may be none or all of them.
        ensures err { OnErr result (AppendsFront (written self.old) (written self.new) piece.now) }
        ensures serves { Serves written faults self.old self.new (IsErr result) };
}
