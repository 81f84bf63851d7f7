//! The program: the host of a machine on a line, over the journal that it finds
//! (`cct_live_service`). A setup file names the devices, which are asked who they are before
//! anything else (`cct_live_survey`); the journal belongs to the setup beside it
//! (`cct_live_setup_copy`), and no other process may use it or the port meanwhile. Other forms of
//! its words write a setup of what answers on the line, and take a changed setup over for a
//! journal. The port is a terminal that is set up already.
#![tactic(auto)]

ghost use Rattle.std.specs.Prelude.{IfOk};
ghost use Rattle.cct_model_lines.specs.Setup.{IsSoundSetup};

mod adopting;
mod ending;
mod keeping;
mod line;
mod listening;
mod outside;
mod quiet;
mod rolling;
mod words;

use crate::adopting::adopt;
use crate::ending::{
    Cause, DONE, OUT_OF_MEMORY, Setting, Stop, WORDS_REFUSED, WRITE_FAULT, code_after,
};
use crate::keeping::keep_setup;
use crate::line::open_line;
use crate::outside::Around;
use crate::quiet::QuietSink;
use crate::rolling::call_first;
use crate::words::{Echo, HostWords, LineWords, Words, read_words};
use cct_advice::{KeptSink, MEMORY, UNWRITTEN, advise_end, read_advised_setup, words_of};
use cct_disk::{FileDisk, InUse};
use cct_edge::{Sink, StdSink, StdSource};
use cct_host_change::Desk;
use cct_live_draft::{Drafted, draft};
use cct_live_port::Port;
use cct_live_service::{AtEnd, Page, Served, serve};
use cct_live_setup_copy::CopyNames;
use cct_live_survey::{Roll, crc_twins};
use cct_live_terminal::Terminal;
use cct_model_lines::{Entry, Setup};
use cct_text::put_entry;
use clap::error::ErrorKind;
use std::fs::{File, Files};
use std::process::ExitCode;
use std::{fs, io};

fn main(rt: HostRuntime) -> ExitCode {
    let code = match words_of(&rt) {
        Ok(words) => obey(&rt, words.as_slice()),
        Err(_) => {
            let _ = rt.eprintln(MEMORY);
            OUT_OF_MEMORY
        }
    };
    ExitCode::from(code)
}

/// Does what the words ask for, and answers with the exit status.
fn obey(rt: &HostRuntime, words: &[String]) -> u8 {
    let error = match read_words(rt.alloc(), words) {
        Ok(Some(words)) => return act(rt, words),
        Ok(None) => return WORDS_REFUSED,
        Err(error) => error,
    };
    let is_printed = error.print(rt).is_ok();
    match error.kind() {
        ErrorKind::OutOfMemory => OUT_OF_MEMORY,
        ErrorKind::DisplayHelp | ErrorKind::DisplayVersion if is_printed => DONE,
        ErrorKind::DisplayHelp | ErrorKind::DisplayVersion => WRITE_FAULT,
        _ => WORDS_REFUSED,
    }
}

/// Does what was asked for, and answers with the exit status.
fn act(rt: &HostRuntime, words: Words<'_>) -> u8 {
    match words {
        Words::Host(words) => {
            let done = host(rt, words);
            told(rt, done, words.setup, words.line.port, words.journal)
        }
        Words::Draft { line } => told(rt, draft_setup(rt, line), "", line.port, ""),
        Words::Adopt { setup, journal } => {
            told(rt, adopt_setup(rt, setup, journal), setup, "", journal)
        }
    }
}

/// The exit status of what was done. Where it wasn't, the last line is written, and standard error
/// says why, if it didn't say yet what is wrong with a line.
fn told(rt: &HostRuntime, done: Result<u8, Stop>, setup: &str, port: &str, journal: &str) -> u8 {
    let stop = match done {
        Ok(code) => return code,
        Err(stop) => stop,
    };
    let is_printed = stop.print(rt).is_ok();
    if !matches!(stop, Stop::Setup { .. }) {
        let cause = Cause {
            stop,
            setup,
            port,
            journal,
        };
        let _ = eprintln!(rt; "cct_live: {cause}");
    }
    if is_printed { stop.code() } else { WRITE_FAULT }
}

/// Is the host of a line: it asks the devices who they are, and does what standard input says.
fn host(rt: &HostRuntime, words: HostWords<'_>) -> Result<u8, Stop> {
    let mut out = KeptSink::new(QuietSink::new(StdSink::new(io::writer(rt)), words.is_quiet));
    out.put(b"protocol 1\n")?;
    let setup = setup_of(rt, words.setup)?;
    warn_of_twins(rt, &setup);
    let disk = lock_journal(rt, words.journal)?;
    let names = CopyNames::beside(rt.alloc(), words.journal)?;
    let (disk, was_taken) = keep_setup(rt, &names, &setup, disk)?;
    if was_taken {
        out.put(b"setupkept\n")?;
    }
    let port = open_port(rt, words.line)?;
    let mut roll = Roll::new(&setup, words.trusts_coins);
    let mut desk = Desk::new(rt.alloc(), &setup)?;
    let is_echo_due = words.line.echo == Echo::Yes;
    let mut port = call_first(&setup, &mut roll, port, is_echo_due, &mut out)?;
    let (served, _) = serve(
        &setup,
        &mut roll,
        &mut desk,
        ends_of(words),
        &mut StdSource::new(rt.reader()),
        &mut out,
        disk,
        &mut port,
        &mut Around::new(rt, words.journal),
        &mut Page::new(),
    );
    advise_on(rt, &served, out.last(), words.journal);
    Ok(code_after(&served))
}

/// What is done with the acceptors that run at the end.
fn ends_of(words: HostWords<'_>) -> AtEnd {
    if words.stops {
        AtEnd::Stop
    } else {
        AtEnd::Leave
    }
}

/// Says on standard error what the end of a service means, where there is more to say than its last
/// line does.
fn advise_on(rt: &HostRuntime, served: &Served, last: &[u8], journal: &str) {
    let _ = match served {
        Served::Done => Ok(()),
        Served::Unwritten => rt.eprintln(UNWRITTEN),
        _ => match advise_end(last, journal) {
            Some(advice) => rt.eprintln(advice),
            None => Ok(()),
        },
    };
}

/// The setup that a file says.
fn setup_of<R: Files + Eprint>(rt: &R, path: &str) -> Result<Setup, Stop>
    ensures sound { IfOk result IsSoundSetup }
{
    match File::open(rt, path) {
        Ok(file) => Ok(read_advised_setup(rt, "cct_live", StdSource::new(file))?),
        Err(_) => Err(Stop::NoSetup),
    }
}

/// Says on standard error which two devices can't be distinguished by their replies.
fn warn_of_twins(rt: &HostRuntime, setup: &Setup) {
    if let Some((one, other)) = crc_twins(setup) {
        let _ = eprintln!(rt;
            "cct_live: devices {one} and {other} are of one kind under the CRC, which names no source: each has to answer within --answer, or never"
        );
    }
}

/// The disk of a journal, which no other process may use from now on. It is made where it is
/// missing.
fn lock_journal(rt: &HostRuntime, journal: &str) -> Result<FileDisk<HostRuntime>, Stop> {
    match FileDisk::open_locked(rt, journal) {
        Ok(disk) => Ok(disk),
        Err(InUse) => Err(Stop::JournalInUse),
    }
}

/// The port of the line. Standard error says first how it is to be set up, since a read of one that
/// isn't may never come back; and if it isn't known whether the line gives the echo, that too.
fn open_port<'r>(rt: &'r HostRuntime, line: LineWords<'r>) -> Result<Port<Terminal<'r>>, Stop> {
    let setting = Setting(line.port);
    let _ = eprintln!(rt;
        "cct_live: looks at the port; if nothing more is said, it isn't set up: {setting}"
    );
    let (port, is_known) = open_line(rt, line)?;
    if !is_known {
        let _ = rt.eprintln("cct_live: nothing is heard on the line, not even what is sent");
    }
    Ok(port)
}

/// Writes a setup of what is on a line.
fn draft_setup(rt: &HostRuntime, line: LineWords<'_>) -> Result<u8, Stop> {
    let mut port = open_port(rt, line)?;
    let errors = rt.stderr();
    let mut out = StdSink::new(io::writer(rt));
    let mut notes = StdSink::new(io::writer(&errors));
    match draft(&mut port, &mut out, &mut notes)? {
        Drafted::Heard => Ok(DONE),
        Drafted::Dead => Err(Stop::NothingHeard),
    }
}

/// Takes a setup over for a journal that is there.
fn adopt_setup(rt: &HostRuntime, setup: &str, journal: &str) -> Result<u8, Stop> {
    let setup = setup_of(rt, setup)?;
    let mut out = KeptSink::new(StdSink::new(io::writer(rt)));
    let code = if is_missing(rt, journal) {
        put_entry(&mut out, &Entry::JournalAlien)?;
        code_after(&Served::Alien)
    } else {
        let disk = lock_journal(rt, journal)?;
        let names = CopyNames::beside(rt.alloc(), journal)?;
        adopt(rt, &names, &setup, disk, &mut out)?
    };
    if let Some(advice) = advise_end(out.last(), journal) {
        let _ = rt.eprintln(advice);
    }
    Ok(code)
}

/// Whether there is no file of a journal, nor a link of its name.
fn is_missing(rt: &impl Files, journal: &str) -> bool {
    match fs::symlink_metadata(rt, journal) {
        Ok(_) => false,
        Err(error) => error.kind() == io::ErrorKind::NotFound,
    }
}
