//! Why a journal's call is refused.
ghost use Rattle.std.specs.Prelude.{◌≡◌};

use cct_edge::Failed;
use thiserror::Error;

/// Why no journal was created.
#[derive(Debug, Drop, Error)]
pub enum CreateNo {
    /// The disk is too short for two halves with a record each: it has `len` bytes.
    #[error("a disk of {len} bytes is too small for a journal")]
    Small { len: u64 },
    /// The disk failed.
    #[error("the disk failed")]
    Disk,
    /// The disk isn't blank: the first byte that isn't 0 is that at `at`.
    #[error("the disk isn't blank: byte {at} isn't 0")]
    NotBlank { at: u64 },
}

impl From<Failed> for CreateNo {
    ghost use Rattle.cct_journal.specs.declared.refusal.CreateNo.TheVariants.{Disk};

    ghost from_gives = { λ _ e. e ≡ Disk };

    fn from(_: Failed) -> Self {
        CreateNo::Disk
    }
}

/// Why no journal was opened.
#[derive(Debug, Drop, Error)]
pub enum OpenNo {
    /// The disk failed.
    #[error("the disk failed")]
    Disk,
    /// The disk has no half that counts, or it begins with no header and carry of this version.
    #[error("the disk has no journal")]
    Alien,
    /// The body after so many records, with those before the half, spells none, though its gate is
    /// open.
    #[error("record {index} of the journal is spelt wrongly")]
    BadRecord { index: u32 },
}

impl From<Failed> for OpenNo {
    ghost use Rattle.cct_journal.specs.declared.refusal.OpenNo.TheVariants.{Disk};

    ghost from_gives = { λ _ e. e ≡ Disk };

    fn from(_: Failed) -> Self {
        OpenNo::Disk
    }
}

/// Why a record wasn't read, or why a host isn't started over the records of a journal.
#[derive(Clone, Copy, Debug, Error, PartialEq, Eq)]
pub enum ReadNo {
    /// A call of the disk failed.
    #[error("the disk failed")]
    Disk,
    /// The record of this index, the first at 0, is bad: its body spells none, or, as a host
    /// starts, it doesn't follow those before it.
    #[error("record {index} of the journal is bad")]
    BadRecord { index: u32 },
}

impl From<Failed> for ReadNo {
    ghost use Rattle.cct_journal.specs.declared.refusal.ReadNo.TheVariants.{Disk};

    ghost from_gives = { λ _ e. e ≡ Disk };

    fn from(_: Failed) -> Self {
        ReadNo::Disk
    }
}

impl From<ReadNo> for OpenNo {
    ghost use Rattle.cct_journal.specs.Opening.{open_no};

    ghost from_gives = { λ why no. no ≡ open_no why };

    fn from(why: ReadNo) -> Self {
        match why {
            ReadNo::Disk => OpenNo::Disk,
            ReadNo::BadRecord { index } => OpenNo::BadRecord { index },
        }
    }
}

/// Why a record wasn't put.
#[derive(Debug, Drop, Error)]
pub enum JournalNo {
    /// The journal has all `used` records that it takes.
    #[error("the journal is full with {used} records")]
    Full { used: u32 },
    /// The disk failed: whether the record stands is open, and the journal has to be opened again.
    #[error("the disk failed")]
    Disk,
}

/// Why no journal of an older version was opened.
#[derive(Debug, Drop, Error)]
pub enum OldNo {
    /// The disk failed.
    #[error("the disk failed")]
    Disk,
    /// The disk has no half that counts, or it begins with no header and carry of its version.
    #[error("the disk has no journal")]
    Alien,
    /// The journal has today's version.
    #[error("the journal has today's version")]
    Current,
    /// A journal of version 1 has `used` records: so many that they reach into the second half,
    /// which a turn needs.
    #[error("{used} records leave no room for a turn")]
    NoRoom { used: u32 },
}

impl From<Failed> for OldNo {
    ghost use Rattle.cct_journal.specs.declared.refusal.OldNo.TheVariants.{Disk};

    ghost from_gives = { λ _ e. e ≡ Disk };

    fn from(_: Failed) -> Self {
        OldNo::Disk
    }
}
