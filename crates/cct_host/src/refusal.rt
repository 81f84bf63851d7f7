//! Why a host isn't started.
ghost use Rattle.std.specs.Prelude.{◌≡◌};

use cct_journal::{OldNo, ReadNo};
use thiserror::Error;

/// Why a host isn't started over a journal: its carry doesn't fit the setup, or a record can't be
/// read or doesn't follow those before it.
pub use cct_journal::ReadNo as StartNo;

/// Why a host isn't started again after a power cut.
#[derive(Clone, Copy, Debug, Error, PartialEq, Eq)]
pub enum CrashNo {
    /// A call of the disk failed.
    #[error("the disk failed")]
    Disk,
    /// The disk has no journal.
    #[error("the disk has no journal")]
    Alien,
    /// The record of this index, the first at 0, can't be read or doesn't follow those before it;
    /// or it is the first one after a carry that doesn't fit the setup.
    #[error("record {index} of the journal can't be read or doesn't follow")]
    BadRecord { index: u32 },
    /// So many records were found, and so many were put: neither these, nor these and the one of
    /// the put under way.
    #[error("{found} records were found, and {put} were put")]
    Lost { found: u32, put: u32 },
}

/// Why a journal of an older version isn't brought forward, by the first of these that holds.
#[derive(Clone, Copy, Debug, Error, PartialEq, Eq)]
pub enum UpgradeNo {
    /// A call of the disk failed.
    #[error("the disk failed")]
    Disk,
    /// No half of the disk is open, or the current one begins with no header and carry of its
    /// version.
    #[error("the disk has no journal")]
    Alien,
    /// The journal is of today's version.
    #[error("the journal is of today's version")]
    Current,
    /// A journal of version 1 has so many records that the second half isn't free for a turn.
    #[error("{used} records leave no room for a turn")]
    NoRoom { used: u32 },
    /// The record of this index, the first at 0, can't be read or doesn't follow those before it;
    /// or it is the first one after a carry that doesn't fit the setup.
    #[error("record {index} of the journal can't be read or doesn't follow")]
    BadRecord { index: u32 },
    /// After all records an epoch runs, of the acceptor at this address and of none below it. An
    /// old epoch has no accept counter, so it can't go on: it has to be stopped by the older
    /// program.
    #[error("the epoch of the acceptor at {addr} runs")]
    EpochRuns { addr: u8 },
}

impl From<OldNo> for UpgradeNo {
    ghost use Rattle.cct_host.specs.Upgrading.{opened_no};

    ghost from_gives = { λ why no. no ≡ opened_no why };

    fn from(why: OldNo) -> Self {
        match why {
            OldNo::Disk => UpgradeNo::Disk,
            OldNo::Alien => UpgradeNo::Alien,
            OldNo::Current => UpgradeNo::Current,
            OldNo::NoRoom { used } => UpgradeNo::NoRoom { used },
        }
    }
}

impl From<ReadNo> for UpgradeNo {
    ghost use Rattle.cct_host.specs.Upgrading.{read_no};

    ghost from_gives = { λ why no. no ≡ read_no why };

    fn from(why: ReadNo) -> Self {
        match why {
            ReadNo::Disk => UpgradeNo::Disk,
            ReadNo::BadRecord { index } => UpgradeNo::BadRecord { index },
        }
    }
}
