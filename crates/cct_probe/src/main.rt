//! The program: it tries whether the devices on a line keep what is relied on of them
//! (`cct_probe_plan`). A setup file names the devices. The port is a terminal that is set up
//! already, which no other process may use meanwhile. No journal is used.
#![tactic(auto)]

mod ending;
mod watch;
mod words;

use crate::ending::{Cause, DONE, OUT_OF_MEMORY, Setting, WORDS_REFUSED, WRITE_FAULT, code_after};
use crate::watch::Watch;
use crate::words::{Words, read_words};
use cct_advice::{MEMORY, read_advised_setup, words_of};
use cct_edge::{Sink, StdSink, StdSource};
use cct_live_port::{Options, Port};
use cct_live_terminal::Terminal;
use cct_model_lines::Setup;
use cct_probe_plan::all_trials;
use cct_probe_run::{Bench, Ended, Leave, Person, Plan, run};
use clap::error::ErrorKind;
use std::fs::{File, Files};
use std::io;
use std::process::ExitCode;

/// How many silent reads stand before a message, after a whole reply: so a reply that comes twice
/// isn't taken for the next one.
const GAP: u16 = 1;

fn main(rt: HostRuntime) -> ExitCode {
    let code = match words_of(&rt) {
        Ok(words) => obey(&rt, words.as_slice()),
        Err(_) => {
            let _ = rt.eprintln(MEMORY);
            OUT_OF_MEMORY
        }
    };
    ExitCode::from(code)
}

/// Does what the words ask for, and answers with the exit status.
fn obey(rt: &HostRuntime, words: &[String]) -> u8 {
    let error = match read_words(rt.alloc(), words) {
        Ok(Some(words)) => return told(rt, probe(rt, words)),
        Ok(None) => return WORDS_REFUSED,
        Err(error) => error,
    };
    let is_printed = error.print(rt).is_ok();
    match error.kind() {
        ErrorKind::OutOfMemory => OUT_OF_MEMORY,
        ErrorKind::DisplayHelp | ErrorKind::DisplayVersion if is_printed => DONE,
        ErrorKind::DisplayHelp | ErrorKind::DisplayVersion => WRITE_FAULT,
        _ => WORDS_REFUSED,
    }
}

/// The exit status of what was done. Where it wasn't, the last line is written, and standard error
/// says why, if it didn't say yet what is wrong with a line.
fn told(rt: &HostRuntime, done: Result<u8, Cause>) -> u8 {
    let cause = match done {
        Ok(code) => return code,
        Err(cause) => cause,
    };
    let is_printed = cause.print(rt).is_ok();
    if !matches!(cause, Cause::Setup { .. }) {
        let _ = eprintln!(rt; "cct_probe: {cause}");
    }
    if is_printed {
        cause.code()
    } else {
        WRITE_FAULT
    }
}

/// Tries the devices of a setup on a line.
fn probe(rt: &HostRuntime, words: Words<'_>) -> Result<u8, Cause> {
    let mut out = StdSink::new(io::writer(rt));
    out.put(b"protocol 1\n")?;
    let setup = setup_of(rt, words.setup)?;
    let port = open_port(rt, words)?;
    let plan = Plan {
        setup: &setup,
        trials: all_trials(),
    };
    let mut bench = Bench::new(port, out, leave_of(words));
    let mut person = Person::new(StdSource::new(rt.reader()));
    let ended = run(&mut bench, plan, &mut person, &mut Watch::start(rt))?;
    Ok(code_told(rt, ended))
}

/// The exit status after all trials. Where no device answered standard error says why that may be.
fn code_told(rt: &HostRuntime, ended: Ended) -> u8 {
    if ended == Ended::NothingHeard {
        let _ = rt.eprintln(
            "cct_probe: no device answered: no power, no ground, another speed, or --echo is wrong",
        );
    }
    code_after(ended)
}

/// The setup that a file says.
fn setup_of<R: Files + Eprint>(rt: &R, path: &str) -> Result<Setup, Cause> {
    match File::open(rt, path) {
        Ok(file) => Ok(read_advised_setup(rt, "cct_probe", StdSource::new(file))?),
        Err(_) => Err(Cause::SetupUnread),
    }
}

/// The port of the line. Standard error says first how it is to be set up, since a read of one that
/// isn't may never come back.
fn open_port<'r>(rt: &'r HostRuntime, words: Words<'r>) -> Result<Port<Terminal<'r>>, Cause> {
    let setting = Setting(words.port);
    let _ = eprintln!(rt;
        "cct_probe: looks at the port; if no line trial follows, set it up: {setting}"
    );
    match Terminal::open(rt, words.port) {
        Ok(terminal) => Ok(Port::new(terminal, options_of(words))),
        Err(why) => Err(Cause::Port(why)),
    }
}

/// How the line is used: what isn't answered is waited for as long as any device may take.
fn options_of(words: Words<'_>) -> Options {
    Options {
        echoes: words.echoes,
        gap: GAP,
        patience: words.longest,
        longest: words.longest,
    }
}

/// What may be done.
fn leave_of(words: Words<'_>) -> Leave {
    Leave {
        coins: words.coins,
        hands: words.hands,
        long: words.long,
        is_quiet: words.is_quiet,
    }
}
