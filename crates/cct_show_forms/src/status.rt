//! How a form ends.

use cct_edge::Failed;
use std::alloc::AllocError;
use std::fmt;

/// Why a form stops before its end. A sink's failure and a formatter's, which is a sink's too, are
/// writing.
#[derive(Clone, Copy)]
pub enum Stop {
    /// Reading failed.
    Read,
    /// Writing failed.
    Write,
    /// There was no memory.
    Memory,
}

impl From<Failed> for Stop {
    fn from(_failed: Failed) -> Stop {
        Stop::Write
    }
}

impl From<fmt::Error> for Stop {
    fn from(_error: fmt::Error) -> Stop {
        Stop::Write
    }
}

impl From<AllocError> for Stop {
    fn from(_error: AllocError) -> Stop {
        Stop::Memory
    }
}

/// How a form ends, with the exit status of `cct_show`.
#[derive(Clone, Copy)]
pub enum Status {
    /// 0: the input was shown to its end.
    Done,
    /// 0: there was no line.
    Empty,
    /// 0: there was no line of those of which a row says something.
    NoRows,
    /// 3: reading failed. What was read before is shown.
    ReadFault,
    /// 4: writing failed.
    WriteFault,
    /// 5: a tenth of the lines of a log, or more, wasn't understood.
    NotUnderstood,
    /// 8: there was no memory.
    OutOfMemory,
}

impl Status {
    /// The status after a form that came to the input's end, or stopped.
    pub(crate) fn of(shown: Result<(), Stop>) -> Status {
        match shown {
            Ok(()) => Status::Done,
            Err(Stop::Read) => Status::ReadFault,
            Err(Stop::Write) => Status::WriteFault,
            Err(Stop::Memory) => Status::OutOfMemory,
        }
    }

    /// This status, or where the input was shown to its end, and had no line, that.
    pub(crate) fn or_empty(self, lines: u64) -> Status {
        match self {
            Status::Done if lines == 0 => Status::Empty,
            _ => self,
        }
    }

    /// The exit status.
    pub fn code(self) -> u8 {
        match self {
            Status::Done | Status::Empty | Status::NoRows => 0,
            Status::ReadFault => 3,
            Status::WriteFault => 4,
            Status::NotUnderstood => 5,
            Status::OutOfMemory => 8,
        }
    }
}
