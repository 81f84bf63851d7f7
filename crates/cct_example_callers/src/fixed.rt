//! A script whose setup is fixed: only its steps come from outside.
ghost use Rattle.std.specs.Prelude.{◌≡◌, ◌<◌, None, length};
ghost use Rattle.std.specs.Io.{ReadsAtMost};
ghost use Rattle.cct_example_callers.specs.Fixed.{steps_of};

use cct_edge::{Failed, Source};

/// The setup of this machine: an acceptor, of which coin place 5 has a value, and a hopper.
const SETUP: &[u8] =
    b"acceptor 2 simple 1 0\nvalue 2 5 100 EU100A\nhopper 3 crc 197121 16777214 10\nbegin\n";

/// The lines of the setup, and then what another source gives. It shows none of its bytes.
#[derive(Drop)]
pub(crate) struct AfterSetup<S> {
    setup: &'static [u8],
    steps: S,
}

impl<S: Source> AfterSetup<S> {
    /// The setup, and then `steps`.
    pub(crate) fn new(steps: S) -> AfterSetup<S> {
        AfterSetup {
            setup: SETUP,
            steps,
        }
    }
}

impl<S: Source> Source for AfterSetup<S> {
    ghost left = { λ _. None };

    ghost faults = { λ s. S.faults (steps_of s) };

    ghost takes = { λ _ _ _ _. Unit {0} };

    fn take(&mut self, room: &mut [u8]) -> Result<usize, Failed> {
        if self.setup.is_empty() {
            return self.steps.take(room);
        }
        let count = self.setup.len().min(room.len());
        let (front, rest) = self.setup.split_at(count);
        room[..count].copy_from_slice(front);
        self.setup = rest;
        Ok(count)
    }
}
