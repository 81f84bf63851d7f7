//! How long a document is, before it is written.
ghost use Rattle.std.specs.Prelude.{None};

use arrayvec::ArrayVec;
use cct_edge::{Failed, Sink};

/// A document of so many bytes is held.
const MOST_HELD: usize = 4096;

/// A sink that counts its bytes, and holds them while they are few. It never fails.
#[derive(Drop)]
pub(crate) struct Measure {
    length: u64,
    held: ArrayVec<u8, MOST_HELD>,
}

impl Measure {
    /// Nothing was put.
    pub(crate) fn new() -> Measure {
        Measure {
            length: 0,
            held: ArrayVec::new(),
        }
    }

    /// How many bytes were put.
    pub(crate) fn length(&self) -> u64 {
        self.length
    }

    /// All bytes that were put, where they are held.
    pub(crate) fn all(&self) -> Option<&[u8]> {
        if self.held.len() as u64 == self.length {
            Some(self.held.as_slice())
        } else {
            None
        }
    }
}

impl Sink for Measure {
    ghost written = { λ _. None };

    ghost faults = { λ _. 0 };

    ghost puts = { λ _ _ _ _. Unit {0} };

    fn put(&mut self, piece: &[u8]) -> Result<(), Failed> {
        self.length = self.length.saturating_add(piece.len() as u64);
        // What finds no room isn't held, and then the count is higher.
        let _ = self.held.try_extend_from_slice(piece);
        Ok(())
    }
}
