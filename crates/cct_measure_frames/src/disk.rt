//! A disk of bytes in memory that counts its calls and keeps no trace of them, so it takes any
//! number.
ghost use Rattle.std.specs.Prelude.{◌≡◌, None, [], false, length};
ghost use Rattle.cct_edge.specs.Faults.{next_count};
ghost use Rattle.cct_disk.specs.Laws.{untold_fits};

use cct_disk::Disk;
use cct_edge::Failed;
use std::alloc::{AllocError, Global};

/// How often each call of a disk was made.
#[derive(Clone, Copy)]
pub(crate) struct Calls {
    pub(crate) reads: u64,
    pub(crate) writes: u64,
    pub(crate) syncs: u64,
}

/// No call.
pub(crate) const NONE: Calls = Calls {
    reads: 0,
    writes: 0,
    syncs: 0,
};

/// A disk whose calls never fail. It claims nothing of its bytes.
#[derive(Drop)]
pub(crate) struct PlainDisk {
    bytes: Vec<u8>,
    pub(crate) calls: Calls,
    cuts: u64,
}

impl PlainDisk {
    /// A disk of so many zeros.
    pub(crate) fn new(alloc: Global, len: usize) -> Result<PlainDisk, AllocError> {
        Ok(PlainDisk {
            bytes: Vec::from_elem(alloc, 0, len)?,
            calls: NONE,
            cuts: 0,
        })
    }
}

impl Disk for PlainDisk {
    ghost size = { λ s. length s.bytes.items };

    ghost honest = { λ _. false };

    ghost seen = { λ _. None };

    ghost may_leave = { λ _ _. Unit {0} };

    ghost moment = { λ _. 0 };

    ghost left_since = { λ _ _ _. Unit {0} };

    ghost faults = { λ _. 0 };

    ghost spent = { λ _ _ _. ⊥ };

    ghost cuts = { λ s. s.cuts };

    ghost below = { λ _. [] };

    ghost cut_to = { λ before _ now. now.cuts ≡ next_count before.cuts };

    ghost fits = { λ s bytes is. untold_fits (length s.bytes.items) bytes is };

    ghost is_image = { λ _ _ _ _. tt };

    ghost unfailed = { λ _ _ _ spent. absurd spent };

    ghost counts_now = { λ _ _ _ _ _. tt };

    ghost only_now = { λ _ _ _. tt };

    fn len(&self) -> u64 {
        self.bytes.len() as u64
    }

    fn read(&mut self, at: u64, room: &mut [u8]) -> Result<(), Failed> {
        let at = at as usize;
        room.copy_from_slice(&self.bytes[at..at + room.len()]);
        self.calls.reads = self.calls.reads.saturating_add(1);
        Ok(())
    }

    fn write(&mut self, at: u64, bytes: &[u8]) -> Result<(), Failed> {
        let at = at as usize;
        self.bytes[at..at + bytes.len()].copy_from_slice(bytes);
        self.calls.writes = self.calls.writes.saturating_add(1);
        Ok(())
    }

    fn sync(&mut self) -> Result<(), Failed> {
        self.calls.syncs = self.calls.syncs.saturating_add(1);
        Ok(())
    }

    fn power_cut(&mut self, _choice: u64) -> Result<(), Failed> {
        self.cuts = self.cuts.saturating_add(1);
        Ok(())
    }
}
