// A line of bytes, in both directions.
ghost use Rattle.std.specs.Prelude.{ℕ, ◌<◌, Option, List, Result, length};
ghost use Rattle.std.specs.Io.{ReadsAtMost};
ghost use Rattle.cct_edge.specs.declared.fault.Failed.{Failed};
ghost use Rattle.cct_live_port.specs.Calls.{came};

use cct_edge::Failed;

/// A line on which bytes come and go.
pub trait Line {
    /// What a read does: the line before, the bytes that came, or none if it failed, and the line
    /// after. No byte is silence.
    ghost reads: { Self → Option (List ℕ) → Self → Type 0 };

    /// What a write of bytes does, by its answer, to the line before and after.
    ghost writes: { Self → List ℕ → Result (Unit {0}) Failed → Self → Type 0 };

    /// Puts what came into the front of `room`, and says how many bytes it is: 0 if none came for
    /// as long as a read waits.
    fn read(&mut self, room: &mut [u8]) -> Result<usize, Failed>
        requires { 0 < length room.old }
        ensures one { reads self.old (came result room.new) self.new }
        ensures bound { ReadsAtMost result room.new };

    /// Writes all of the bytes. If it fails, a front of them may be written.
    fn write(&mut self, bytes: &[u8]) -> Result<(), Failed>
        ensures one { writes self.old bytes.now result self.new };
}
