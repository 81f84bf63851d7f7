//! How the program ends, with its last line and its exit status (`docs/OPERATING.md`, "Exit
//! statuses"; `docs/LIVE.md`).

use cct_advice_near::near_word;
use cct_edge::Failed;
use cct_live_service::Served;
use cct_live_setup_copy::What;
use cct_model_lines::LineKind;
use cct_script::SetupNo;
use std::alloc::AllocError;
use std::{fmt, io};

/// The exit status of a program that did what it was to do.
pub(crate) const DONE: u8 = 0;

/// That of one whose words are refused.
pub(crate) const WORDS_REFUSED: u8 = 2;

/// That of one that couldn't write.
pub(crate) const WRITE_FAULT: u8 = 4;

/// That of one for which there was no memory.
pub(crate) const OUT_OF_MEMORY: u8 = 8;

const LINE_REFUSED: u8 = 1;

const READ_FAULT: u8 = 3;

const DISK_FAULT: u8 = 5;

const DISK_SIZE: u8 = 7;

const JOURNAL_LOST: u8 = 9;

const IN_USE: u8 = 11;

const PORT_UNFIT: u8 = 12;

const OTHER_SETUP: u8 = 13;

const NOTHING_HEARD: u8 = 14;

/// The words that stand in place of a setup file.
const SUBCOMMANDS: &[&str] = &["setup", "adopt"];

/// The command that sets a terminal up for the program.
#[derive(Drop)]
pub(crate) struct Setting<'w>(pub(crate) &'w str);

impl fmt::Display for Setting<'_> {
    fn fmt<W: fmt::Write>(&self, f: &mut fmt::Formatter<W>) -> fmt::Result {
        let port = self.0;
        write!(
            f,
            "stty -F {port} 9600 cs8 -parenb -cstopb raw -echo clocal -crtscts -hupcl min 0 time 1"
        )
    }
}

/// Why the program stops before it serves.
#[derive(Clone, Copy, Drop)]
pub(crate) enum Stop {
    /// A line of the setup is refused.
    Setup { number: u32, kind: LineKind },
    /// The setup couldn't be opened.
    NoSetup,
    /// The setup couldn't be read.
    SetupUnread,
    /// The port couldn't be opened.
    NoPort,
    /// Another process has the journal.
    JournalInUse,
    /// Another process has the port.
    PortInUse,
    /// The port is no terminal.
    NoTerminal,
    /// The port isn't set up, or what is sent doesn't come back though the line gives the echo.
    Unset,
    /// The journal was made for another setup, which first differs at this address.
    OtherSetup { addr: u8, what: What },
    /// The setup beside the journal wasn't written whole, by its line of this number.
    CopyTorn { number: u32, kind: LineKind },
    /// The setup beside the journal couldn't be opened or read.
    CopyUnread,
    /// The setup beside the journal couldn't be written.
    CopyUnwritten,
    /// A search of the line heard nothing.
    NothingHeard,
    /// There was no memory.
    OutOfMemory,
    /// Standard output couldn't be written.
    Unwritten,
}

impl Stop {
    /// The exit status.
    pub(crate) fn code(&self) -> u8 {
        match self {
            Stop::Setup { .. } => LINE_REFUSED,
            Stop::NoSetup | Stop::SetupUnread | Stop::NoPort => READ_FAULT,
            Stop::JournalInUse | Stop::PortInUse => IN_USE,
            Stop::NoTerminal | Stop::Unset => PORT_UNFIT,
            Stop::OtherSetup { .. } | Stop::CopyTorn { .. } => OTHER_SETUP,
            Stop::CopyUnread | Stop::CopyUnwritten => DISK_FAULT,
            Stop::NothingHeard => NOTHING_HEARD,
            Stop::OutOfMemory => OUT_OF_MEMORY,
            Stop::Unwritten => WRITE_FAULT,
        }
    }

    /// Writes the last line on standard output, where there is one.
    pub(crate) fn print(&self, rt: &impl Print) -> io::Result<()> {
        match self {
            Stop::JournalInUse => rt.println("inuse journal"),
            Stop::PortInUse => rt.println("inuse port"),
            Stop::NoTerminal => rt.println("noterminal"),
            Stop::Unset => rt.println("unset"),
            Stop::OtherSetup { addr, what } => println!(rt; "othersetup {addr} {what}"),
            Stop::CopyTorn { number, .. } => println!(rt; "setupbad {number}"),
            Stop::CopyUnread | Stop::CopyUnwritten => rt.println("diskfault"),
            _ => Ok(()),
        }
    }
}

/// What is said on standard error of why the program stops: with this setup, over this port and
/// this journal.
#[derive(Drop)]
pub(crate) struct Cause<'w> {
    pub(crate) stop: Stop,
    pub(crate) setup: &'w str,
    pub(crate) port: &'w str,
    pub(crate) journal: &'w str,
}

impl fmt::Display for Cause<'_> {
    fn fmt<W: fmt::Write>(&self, f: &mut fmt::Formatter<W>) -> fmt::Result {
        let port = self.port;
        let journal = self.journal;
        match self.stop {
            Stop::Setup { number, kind } => write!(f, "setup line {number}: {kind}"),
            Stop::NoSetup => write_missing(self.setup, f),
            Stop::SetupUnread => f.write_str("the setup can't be read"),
            Stop::NoPort => write!(f, "the port {port} can't be opened"),
            Stop::JournalInUse => write!(f, "another process has the journal {journal}"),
            Stop::PortInUse => write!(f, "another process has the port {port}"),
            Stop::NoTerminal => write!(f, "{port} is no terminal, and nothing was written into it"),
            Stop::Unset => {
                let setting = Setting(port);
                write!(
                    f,
                    "{port} isn't set up, or what is sent doesn't come back (--echo no, if the line gives no echo): {setting}"
                )
            }
            Stop::OtherSetup { addr, what } => write_other(addr, what, journal, f),
            Stop::CopyTorn { number, kind } => write!(
                f,
                "{journal}.setup, line {number}: {kind}; cct_live adopt SETUP --journal {journal} writes it anew (docs/OPERATING.md, \"Another setup\")"
            ),
            Stop::CopyUnread => write!(f, "{journal}.setup can't be opened or read"),
            Stop::CopyUnwritten => write!(
                f,
                "{journal}.setup can't be made, written or synced (docs/OPERATING.md, \"A full disk\")"
            ),
            Stop::NothingHeard => write!(
                f,
                "nothing is heard on {port}: no power, no ground, another speed, or --echo is wrong"
            ),
            Stop::OutOfMemory => f.write_str("there was no memory"),
            Stop::Unwritten => f.write_str("standard output couldn't be written"),
        }
    }
}

/// Writes that a setup can't be opened, and which word was meant where its name is nearly one.
fn write_missing<W: fmt::Write>(setup: &str, f: &mut fmt::Formatter<W>) -> fmt::Result {
    write!(f, "the setup {setup} can't be opened")?;
    match near_word(setup.as_bytes(), SUBCOMMANDS) {
        Some(meant) if !setup.as_bytes().contains(&b'/') => write!(
            f,
            "; did you mean the word {meant}?"
        ),
        _ => Ok(()),
    }
}

/// Writes in what a setup differs from the one that the journal was made for.
fn write_other<W: fmt::Write>(
    addr: u8,
    what: What,
    journal: &str,
    f: &mut fmt::Formatter<W>,
) -> fmt::Result {
    match what {
        What::Missing => write!(f, "the device at {addr} is missing")?,
        What::New => write!(f, "the device at {addr} is new")?,
        What::Kind => write!(f, "the device at {addr} is of another kind")?,
        What::Check => write!(f, "the device at {addr} has another check")?,
        What::Serial => write!(f, "the device at {addr} has another serial number")?,
        What::Value => write!(f, "the device at {addr} has another value")?,
    }
    write!(
        f,
        ", by {journal}.setup, for which {journal} was made (docs/OPERATING.md, \"Another setup\")"
    )
}

impl From<Failed> for Stop {
    fn from(_: Failed) -> Stop {
        Stop::Unwritten
    }
}

impl From<AllocError> for Stop {
    fn from(_: AllocError) -> Stop {
        Stop::OutOfMemory
    }
}

impl From<SetupNo> for Stop {
    fn from(why: SetupNo) -> Stop {
        match why {
            SetupNo::Read => Stop::SetupUnread,
            SetupNo::Line { number, kind } => Stop::Setup { number, kind },
        }
    }
}

/// The exit status after a service that ended so.
pub(crate) fn code_after(served: &Served) -> u8 {
    match served {
        Served::Done => DONE,
        Served::Refused { .. } => LINE_REFUSED,
        Served::Unread => READ_FAULT,
        Served::Unwritten => WRITE_FAULT,
        Served::Disk => DISK_FAULT,
        Served::OtherSize { .. } => DISK_SIZE,
        Served::Alien => JOURNAL_LOST,
        Served::BadRecord { .. } => JOURNAL_LOST,
    }
}
