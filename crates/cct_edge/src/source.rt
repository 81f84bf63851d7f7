// Where bytes come from.
ghost use Rattle.std.specs.Prelude.{ℕ, ◌<◌, Option, List, Result, IsErr, length};
ghost use Rattle.std.specs.Io.{ReadsAtMost};
ghost use Rattle.std.specs.Io.KnownBytes.{ReadConsumes};
ghost use Rattle.cct_edge.specs.Bytes.{Serves};
ghost use Rattle.cct_edge.specs.declared.fault.Failed.{Failed};

use crate::Failed;

/// Where bytes come from, in order, in pieces of any size.
pub trait Source {
    /// The bytes still to come, where the object shows them.
    ghost left: { Self → Option (List ℕ) };

    /// How often the outside has failed: a count that never falls, and may stand still at 2^64 - 1.
    ghost faults: { Self → ℕ };

    /// What one take into a room of so many bytes does, by its answer, to the object before and
    /// after: so a caller can state each take that it made, and claims no other.
    ghost takes: { Self → ℕ → Result ℕ Failed → Self → Type 0 };

    /// Moves the next bytes into the front of `room`, which isn't empty, and says how many they
    /// are.
    ///
    /// 0 comes only at the end of the input, and stays 0 from then on. A call that fails takes
    /// nothing.
    fn take(&mut self, room: &mut [u8]) -> Result<usize, Failed>
        requires { 0 < length room.old }
        // So a caller can state each take that it made, and claims no other.
        ensures one { takes self.old (length room.old) result self.new }
        ensures bound { ReadsAtMost result room.new }
        ensures bytes { ReadConsumes (left self.old) (left self.new) result room.new }
        ensures serves { Serves left faults self.old self.new (IsErr result) };
}
