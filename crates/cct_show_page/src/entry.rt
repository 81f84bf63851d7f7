//! What a page wants to know of an entry.

use crate::device::{Devices, addr_said};
use crate::row::Tone;
use cct_model_lines::{BROADCAST, Command, End, Entry, HOST, Record, WireFault};
use cct_show_words::alarm_of;

/// The address of the job that a command begins: that of all for a scan, that of the host for a
/// sale.
pub(crate) fn addr_of_command(command: &Command) -> u8 {
    match command {
        Command::Start { addr, .. }
        | Command::Round { addr }
        | Command::Stop { addr }
        | Command::Pay { addr, .. }
        | Command::Settle { addr }
        | Command::Halt { addr }
        | Command::Ident { addr }
        | Command::Path { addr, .. }
        | Command::Route { addr, .. } => *addr,
        Command::Scan => BROADCAST,
        Command::Vend { .. } => HOST,
    }
}

/// The device of a record: of an order that was opened the one that has it.
pub(crate) fn addr_of_record(devices: &Devices, record: &Record) -> Option<u8> {
    match record {
        Record::Epoch { addr, .. }
        | Record::Reading { addr, .. }
        | Record::Broken { addr, .. }
        | Record::EpochEnd { addr }
        | Record::Opened { addr, .. } => Some(*addr),
        Record::Closed { id, .. } | Record::Odd { id, .. } => devices.of_order(*id),
        Record::Sold { .. } => Some(HOST),
    }
}

/// The address that an entry names, where it does.
pub(crate) fn addr_of_entry(devices: &Devices, entry: &Entry) -> Option<u8> {
    match entry {
        Entry::Taken(command) | Entry::No { command, .. } => Some(addr_of_command(command)),
        Entry::Put(record) | Entry::Kept(record) | Entry::Listing { entry: record, .. } => {
            addr_of_record(devices, record)
        }
        Entry::Wire { addr, .. }
        | Entry::Ended { addr, .. }
        | Entry::Forged { addr }
        | Entry::Idle { addr }
        | Entry::Stock { addr, .. }
        | Entry::ServeWait { addr } => Some(*addr),
        Entry::Said(said) => Some(addr_said(said)),
        _ => addr_of_happening(entry),
    }
}

/// The device in which something happened.
fn addr_of_happening(entry: &Entry) -> Option<u8> {
    match entry {
        Entry::Accepted { addr, .. }
        | Entry::Held { addr, .. }
        | Entry::Inhibited { addr, .. }
        | Entry::Alien { addr }
        | Entry::Fell { addr }
        | Entry::NoFall { addr }
        | Entry::Jammed { addr }
        | Entry::NoJam { addr }
        | Entry::Reset { addr } => Some(*addr),
        _ => None,
    }
}

/// How an entry is to be looked at.
pub(crate) fn tone_of_entry(entry: &Entry) -> Tone {
    match entry {
        Entry::No { .. } | Entry::Forged { .. } | Entry::Crash { .. } | Entry::Jammed { .. } => {
            Tone::Red
        }
        Entry::ServeOdd { .. } | Entry::Short { .. } | Entry::ChangeNo => Tone::Red,
        Entry::Put(record) | Entry::Kept(record) | Entry::Listing { entry: record, .. } => {
            tone_of_record(record)
        }
        Entry::Ended { end, .. } => tone_of_end(*end),
        Entry::Said(said) => tone_of_said(said),
        Entry::Fault(WireFault::Clear) => Tone::Plain,
        Entry::Fault(_) | Entry::Reset { .. } => Tone::Odd,
        _ => Tone::Plain,
    }
}

/// How a record is to be looked at: coins that are lost, a broken epoch or life counts of more
/// coins than were ordered are red.
pub(crate) fn tone_of_record(record: &Record) -> Tone {
    match record {
        Record::Broken { .. } | Record::Odd { .. } => Tone::Red,
        Record::Reading { lost: 1.., .. } => Tone::Red,
        Record::Closed { unpaid: 1.., .. } => Tone::Odd,
        _ => Tone::Plain,
    }
}

/// How the end of a job is to be looked at.
pub(crate) fn tone_of_end(end: End) -> Tone {
    match alarm_of(end) {
        Some(_) => Tone::Red,
        None => Tone::Plain,
    }
}

/// How what a monitor says is to be looked at.
fn tone_of_said(said: &cct_model_lines::Said) -> Tone {
    match said {
        cct_model_lines::Said::Doubt { .. } => Tone::Red,
        _ => Tone::Plain,
    }
}

/// Whether an entry is a record.
pub(crate) fn is_record(entry: &Entry) -> bool {
    matches!(
        entry,
        Entry::Put(_) | Entry::Kept(_) | Entry::Listing { .. }
    )
}

/// How a line that is no entry is to be looked at, by its first word: the faults of a run, of its
/// files and of its line.
pub(crate) fn tone_of_note(line: &[u8]) -> Tone {
    match line.split(|byte| *byte == b' ').next() {
        Some(b"refused" | b"readfault" | b"diskfault" | b"notblank" | b"disksize" | b"journal") => {
            Tone::Red
        }
        Some(b"words" | b"inuse" | b"linefault") => Tone::Red,
        Some(b"device") => Tone::Odd,
        _ => Tone::Plain,
    }
}
