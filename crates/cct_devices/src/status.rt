//! How the program ends.

use cct_model::LineKind;
use cct_script::SetupNo;
use std::alloc::AllocError;

/// Which text a line is of.
#[derive(Clone, Copy)]
pub(crate) enum Text {
    /// The setup.
    Setup,
    /// The events.
    Events,
}

/// A refused line: its number, counted from 1, and why.
#[derive(Clone, Copy)]
pub(crate) struct Refused {
    pub(crate) number: u32,
    pub(crate) kind: LineKind,
}

/// Why the devices stop before the line is silent.
#[derive(Clone, Copy)]
pub(crate) enum Stop {
    /// A line is refused.
    Line(Text, Refused),
    /// The words of the command line ask for nothing.
    Words,
    /// A file or the port couldn't be opened.
    Unopened,
    /// Reading failed.
    Read,
    /// Writing failed.
    Write,
    /// There was no memory.
    Memory,
}

impl From<SetupNo> for Stop {
    fn from(why: SetupNo) -> Stop {
        match why {
            SetupNo::Read => Stop::Read,
            SetupNo::Line { number, kind } => { Stop::Line(Text::Setup, Refused { number, kind }) }
        }
    }
}

impl From<AllocError> for Stop {
    fn from(_error: AllocError) -> Stop {
        Stop::Memory
    }
}

/// How the program ends, with its exit status.
#[derive(Clone, Copy)]
pub(crate) enum Status {
    /// 0: the line is silent, and every event was read.
    Done,
    /// 1: a line is refused.
    LineRefused,
    /// 2: the words of the command line ask for nothing.
    WordsRefused,
    /// 3: a file or the port couldn't be opened or read.
    ReadFault,
    /// 4: writing failed.
    WriteFault,
    /// 8: there was no memory.
    OutOfMemory,
}

impl Status {
    /// The status after devices that came to their end, or stopped.
    pub(crate) fn of(played: &Result<(), Stop>) -> Status {
        match played {
            Ok(()) => Status::Done,
            Err(Stop::Line(..)) => Status::LineRefused,
            Err(Stop::Words) => Status::WordsRefused,
            Err(Stop::Unopened | Stop::Read) => Status::ReadFault,
            Err(Stop::Write) => Status::WriteFault,
            Err(Stop::Memory) => Status::OutOfMemory,
        }
    }

    /// The exit status.
    pub(crate) fn code(self) -> u8 {
        match self {
            Status::Done => 0,
            Status::LineRefused => 1,
            Status::WordsRefused => 2,
            Status::ReadFault => 3,
            Status::WriteFault => 4,
            Status::OutOfMemory => 8,
        }
    }
}
