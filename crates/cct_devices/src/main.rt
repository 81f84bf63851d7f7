//! The program: devices on a line, which a host of others talks to. A setup file names them, an
//! events file says what happens to them, and the port is a terminal that is set up already.
#![tactic(auto)]

mod answer;
mod events;
mod machine;
mod status;

use crate::answer::answer;
use crate::events::Events;
use crate::machine::Machine;
use crate::status::{Refused, Status, Stop, Text};
use cct_advice::{read_advised_setup, words_of};
use cct_edge::StdSource;
use cct_live_port::StdLine;
use std::fs::{File, Files, OpenOptions};
use std::process::ExitCode;

/// How the program is called.
const HELP: &str = "\
usage: cct_devices SETUP EVENTS PORT [--echo]
SETUP   file with lines acceptor, hopper, bills, value, texts (docs/SCRIPT.md); it ends at the line begin, or with the file
EVENTS  file with lines coin A PLACE, alien A, bill A PLACE, fall A, jam A, reset A; one is read at each silence
PORT    terminal where a read gives 0 bytes at a silence: stty -F PORT raw -echo min 0 time 1
--echo  write back all that is heard, as a line does on which everyone hears everyone
The devices answer a message once it is whole by its length. A silence in a message cuts it off.
exit status 0: every event was read, and 600 silences came one after another; 1: a line is refused; 2: wrong words;
3: a file or the port can't be opened or read, as where its other end is closed; 4: writing failed; 8: no memory";

/// What the words of the command line ask for.
enum Wanted<'w> {
    /// To say how the program is called.
    Help,
    /// To put devices on a line.
    Devices(Places<'w>),
    /// Nothing that the program does.
    Unknown,
}

/// Where the setup, the events and the line are, and whether what is heard is written back.
#[derive(Clone, Copy)]
struct Places<'w> {
    setup: &'w str,
    events: &'w str,
    port: &'w str,
    echoes: bool,
}

fn main(rt: HostRuntime) -> ExitCode {
    let status = match words_of(&rt) {
        Ok(words) => obey(&rt, asked_by(words.as_slice())),
        Err(_) => tell(&rt, Err(Stop::Memory)),
    };
    ExitCode::from(status.code())
}

/// Does what the words ask for.
fn obey(rt: &HostRuntime, wanted: Wanted<'_>) -> Status {
    match wanted {
        Wanted::Help => help(rt),
        Wanted::Devices(places) => tell(rt, play(rt, places)),
        Wanted::Unknown => tell(rt, Err(Stop::Words)),
    }
}

/// Puts the devices on the line until it is silent for long.
fn play(rt: &HostRuntime, places: Places<'_>) -> Result<(), Stop> {
    let setup = read_advised_setup(rt, "cct_devices", source(rt, places.setup)?)?;
    let mut events = Events::new(source(rt, places.events)?);
    let mut machine = Machine::new(rt.alloc(), &setup)?;
    let mut line = StdLine::new(open_port(rt, places.port)?);
    answer(&mut machine, &mut events, &mut line, places.echoes)
}

/// The bytes of a file.
fn source<R: Files + Eprint>(rt: &R, path: &str) -> Result<StdSource<R::File>, Stop> {
    match File::open(rt, path) {
        Ok(file) => Ok(StdSource::new(file)),
        Err(_) => Err(unopened(rt, path)),
    }
}

/// The terminal of the line.
fn open_port<R: Files + Eprint>(rt: &R, path: &str) -> Result<R::File, Stop> {
    match OpenOptions::new().read(true).write(true).open(rt, path) {
        Ok(file) => Ok(file),
        Err(_) => Err(unopened(rt, path)),
    }
}

/// Says on standard error that a file or the port can't be opened.
fn unopened(rt: &impl Eprint, path: &str) -> Stop {
    let _ = eprintln!(rt; "cct_devices: {path} can't be opened");
    Stop::Unopened
}

/// Says on standard error why the devices stopped, if there is something to say, and that isn't
/// said yet.
fn tell(rt: &HostRuntime, played: Result<(), Stop>) -> Status {
    let _ = match &played {
        Ok(()) | Err(Stop::Line(Text::Setup, _) | Stop::Unopened) => Ok(()),
        Err(Stop::Line(Text::Events, Refused { number, kind })) => {
            eprintln!(rt; "cct_devices: events line {number}: {kind}")
        }
        Err(Stop::Words) => rt.eprintln(HELP),
        Err(Stop::Read) => rt.eprintln("cct_devices: a file or the port can't be read"),
        Err(Stop::Write) => rt.eprintln("cct_devices: the port can't be written"),
        Err(Stop::Memory) => rt.eprintln("cct_devices: there was no memory"),
    };
    Status::of(&played)
}

/// Writes how the program is called.
fn help(rt: &impl Print) -> Status {
    match rt.println(HELP) {
        Ok(()) => Status::Done,
        Err(_) => Status::WriteFault,
    }
}

/// What the words of the command line ask for.
fn asked_by(words: &[String]) -> Wanted<'_> {
    match words {
        [word] if word.as_str() == "--help" => Wanted::Help,
        [setup, events, port] => on_line(setup, events, port, false),
        [setup, events, port, word] if word.as_str() == "--echo" => {
            on_line(setup, events, port, true)
        }
        _ => Wanted::Unknown,
    }
}

/// Devices on a line that echoes or doesn't.
fn on_line<'w>(
    setup: &'w String,
    events: &'w String,
    port: &'w String,
    echoes: bool,
) -> Wanted<'w> {
    Wanted::Devices(Places {
        setup: setup.as_str(),
        events: events.as_str(),
        port: port.as_str(),
        echoes,
    })
}
