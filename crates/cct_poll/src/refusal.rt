//! Why a host isn't started, or doesn't take what its caller says.
use thiserror::Error;

/// What the caller said isn't due now, and nothing changed: he asks first.
#[derive(Clone, Copy, Debug, Error, PartialEq, Eq)]
#[error("this isn't due now")]
pub struct NotNow;

/// Why no host is started over a part.
#[derive(Clone, Copy, Debug, Error, PartialEq, Eq)]
pub enum PollNo {
    /// The part has fewer than 2,368 bytes.
    #[error("the part is too small for a journal")]
    Small,
    /// The part isn't blank, and has no journal of this version.
    #[error("the part isn't blank, and has no journal")]
    Alien,
    /// The record of this index can't be read, or doesn't follow those before it under this setup.
    #[error("record {index} of the journal is bad")]
    BadRecord { index: u32 },
}
