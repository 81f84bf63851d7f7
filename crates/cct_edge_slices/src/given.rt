//! A source of the bytes of a slice.
ghost use Rattle.std.specs.Prelude.{◌≡◌, ◌<◌, IsErr, length};
ghost use Rattle.std.specs.Io.{ReadsAtMost};
ghost use Rattle.std.specs.Io.KnownBytes.{ReadConsumes};
ghost use Rattle.cct_edge.specs.Bytes.{Serves};
ghost use Rattle.cct_edge_slices.specs.Slices.{given_bytes, given_left, given_takes};

use cct_edge::{Failed, Source};

/// A source of the bytes of a slice. It never fails.
#[derive(Drop)]
pub struct Given<'b> {
    left: &'b [u8],
}

impl<'b> Given<'b> {
    /// All of `bytes` are still to come.
    pub fn new(bytes: &'b [u8]) -> Given<'b>
        ensures { given_bytes result ≡ bytes.now }
    {
        Given { left: bytes }
    }
}

impl Source for Given<'_> {
    ghost left = { given_left };

    ghost faults = { λ _. 0 };

    ghost takes = { given_takes };

    fn take(&mut self, room: &mut [u8]) -> Result<usize, Failed>
        requires { 0 < length room.old }
        ensures one { given_takes self.old (length room.old) result self.new }
        ensures bound { ReadsAtMost result room.new }
        ensures bytes { ReadConsumes (given_left self.old) (given_left self.new) result room.new }
        ensures serves { Serves given_left (λ _. 0) self.old self.new (IsErr result) }
    {
        let count = room.len().min(self.left.len());
        room[..count].copy_from_slice(&self.left[..count]);
        self.left = &self.left[count..];
        Ok(count)
    }
}
