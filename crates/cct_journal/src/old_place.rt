//! Where a journal of an older version is on its disk.
ghost use Rattle.std.specs.Prelude.{◌≡◌};
ghost use Rattle.cct_journal.specs.OldImage.{number_of};

use crate::format::{FIRST_VERSION, SECOND_VERSION};
use crate::place::Place;

/// The versions before this one. Of none of them is anything written any more.
#[derive(Clone, Copy)]
pub(crate) enum OldVersion {
    /// Version 1 had no halves and no carry: its records run through the whole disk.
    One,
    /// Version 2 had no accept counters.
    Two,
}

/// Where a journal of an older version is on its disk.
#[derive(Drop)]
pub(crate) struct OldPlace {
    pub(crate) version: OldVersion,
    /// The half that it counts as: of version 1 that is the first one, with generation 0, base 0
    /// and the empty carry.
    pub(crate) place: Place,
}

impl OldVersion {
    /// The number of the version.
    pub(crate) fn number(self) -> u8
        ensures { result ≡ number_of self }
    {
        match self {
            OldVersion::One => FIRST_VERSION,
            OldVersion::Two => SECOND_VERSION,
        }
    }
}
