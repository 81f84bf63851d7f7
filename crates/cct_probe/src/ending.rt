//! How the program ends, with its last line and its exit status (`docs/PROBE.md`, "Exit statuses").

use cct_edge::Failed;
use cct_live_terminal::TerminalNo;
use cct_model_lines::LineKind;
use cct_probe_run::{Ended, Stop};
use cct_script::SetupNo;
use std::{fmt, io};

/// The exit status of a program that did what it was to do.
pub(crate) const DONE: u8 = 0;

/// That of one whose words are refused.
pub(crate) const WORDS_REFUSED: u8 = 2;

/// That of one that couldn't write.
pub(crate) const WRITE_FAULT: u8 = 4;

/// That of one for which there was no memory.
pub(crate) const OUT_OF_MEMORY: u8 = 8;

const LINE_REFUSED: u8 = 1;

const READ_FAULT: u8 = 3;

const IN_USE: u8 = 11;

const PORT_UNFIT: u8 = 12;

const NOTHING_HEARD: u8 = 14;

const BROKEN: u8 = 15;

const LINE_FAULT: u8 = 16;

/// The command that sets a terminal up for the program.
#[derive(Drop)]
pub(crate) struct Setting<'w>(pub(crate) &'w str);

impl fmt::Display for Setting<'_> {
    fn fmt<W: fmt::Write>(&self, f: &mut fmt::Formatter<W>) -> fmt::Result {
        let port = self.0;
        write!(
            f,
            "stty -F {port} 9600 cs8 -parenb -cstopb raw -echo clocal -crtscts -hupcl min 0 time 1"
        )
    }
}

/// Why the program stops before its end.
#[derive(Clone, Copy, Drop)]
pub(crate) enum Cause {
    /// A line of the setup is refused.
    Setup { number: u32, kind: LineKind },
    /// The setup couldn't be opened or read.
    SetupUnread,
    /// The port isn't used.
    Port(TerminalNo),
    /// The trials stopped.
    Trials(Stop),
}

impl Cause {
    /// The exit status.
    pub(crate) fn code(&self) -> u8 {
        match self {
            Cause::Setup { .. } => LINE_REFUSED,
            Cause::SetupUnread => READ_FAULT,
            Cause::Port(TerminalNo::Unopened) => READ_FAULT,
            Cause::Port(TerminalNo::InUse) => IN_USE,
            Cause::Port(_) => PORT_UNFIT,
            Cause::Trials(Stop::Unwritten) => WRITE_FAULT,
            Cause::Trials(Stop::PortFault) => LINE_FAULT,
            Cause::Trials(Stop::Full) => OUT_OF_MEMORY,
        }
    }

    /// Writes the last line on standard output, where there is one.
    pub(crate) fn print(&self, rt: &impl Print) -> io::Result<()> {
        match self {
            Cause::Port(TerminalNo::InUse) => rt.println("inuse port"),
            Cause::Port(TerminalNo::NoTerminal) => rt.println("noterminal"),
            Cause::Port(TerminalNo::Unset) => rt.println("unset"),
            Cause::Trials(Stop::PortFault) => rt.println("linefault"),
            _ => Ok(()),
        }
    }
}

impl fmt::Display for Cause {
    fn fmt<W: fmt::Write>(&self, f: &mut fmt::Formatter<W>) -> fmt::Result {
        match self {
            Cause::Setup { number, kind } => write!(f, "setup line {number}: {kind}"),
            Cause::SetupUnread => f.write_str("the setup can't be opened or read"),
            Cause::Port(TerminalNo::Unopened) => f.write_str("the port can't be opened"),
            Cause::Port(TerminalNo::InUse) => f.write_str("another process has the port"),
            Cause::Port(TerminalNo::NoTerminal) => {
                f.write_str("the port is no terminal, and nothing was written into it")
            }
            Cause::Port(TerminalNo::Unset) => f.write_str("the port isn't set up"),
            Cause::Trials(Stop::Unwritten) => { f.write_str("standard output couldn't be written") }
            Cause::Trials(Stop::PortFault) => {
                f.write_str("the port failed, or the line is never silent")
            }
            Cause::Trials(Stop::Full) => f.write_str("there was no room"),
        }
    }
}

impl From<Failed> for Cause {
    fn from(_: Failed) -> Cause {
        Cause::Trials(Stop::Unwritten)
    }
}

impl From<Stop> for Cause {
    fn from(stop: Stop) -> Cause {
        Cause::Trials(stop)
    }
}

impl From<SetupNo> for Cause {
    fn from(why: SetupNo) -> Cause {
        match why {
            SetupNo::Read => Cause::SetupUnread,
            SetupNo::Line { number, kind } => Cause::Setup { number, kind },
        }
    }
}

/// The exit status after all trials.
pub(crate) fn code_after(ended: Ended) -> u8 {
    match ended {
        Ended::Kept => DONE,
        Ended::Broken => BROKEN,
        Ended::NothingHeard => NOTHING_HEARD,
    }
}
