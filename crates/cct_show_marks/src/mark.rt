//! The mark that a line has in a picture.

use arrayvec::ArrayVec;
use cct_model_lines::{End, Entry, MOST_LINE, Record, Said, WireFault};
use cct_show_picture::{FaultAt, Happening, Label, LaneKind, Mark, Verdict};
use cct_show_words::{alarm_of, read_line};

/// The mark of a line, without its line feed, which is this entry, where it is one. A line that
/// says nothing known is a note. An exchange has a mark of its own (`exchange_mark`).
pub fn mark_of(line: &[u8], entry: Option<&Entry>) -> Mark {
    match entry {
        Some(Entry::Put(record)) => Mark::Put(record.copied()),
        Some(Entry::Kept(record)) => Mark::Kept(record.copied()),
        Some(Entry::Crash { records }) => Mark::Crash { records: *records },
        Some(Entry::Taken(_)) => Mark::Taken(label_after(b"ok ", line)),
        Some(Entry::No { .. }) => Mark::Refused(label_after(b"no ", line)),
        Some(Entry::Ended { end, .. }) => end_mark(*end, line),
        Some(Entry::Fault(fault)) => fault_mark(fault, line),
        Some(Entry::Forged { .. }) => Mark::Forged(Label::new(line)),
        Some(entry) => desk_mark(entry, line),
        None => quiet_mark(line),
    }
}

/// The device of which an entry says what it is, and what that is.
pub fn kind_told(entry: &Entry) -> Option<(u8, LaneKind)> {
    match entry {
        Entry::Put(record) | Entry::Kept(record) | Entry::Listing { entry: record, .. } => {
            kind_of_record(record)
        }
        Entry::Accepted { addr, .. } | Entry::Inhibited { addr, .. } | Entry::Alien { addr } => {
            Some((*addr, LaneKind::Acceptor))
        }
        Entry::Held { addr, .. } => Some((*addr, LaneKind::BillAcceptor)),
        Entry::Fell { addr }
        | Entry::NoFall { addr }
        | Entry::Jammed { addr }
        | Entry::NoJam { addr }
        | Entry::Stock { addr, .. } => Some((*addr, LaneKind::Hopper)),
        Entry::Said(Said::Sure { addr, .. } | Said::Doubt { addr, .. }) => {
            Some((*addr, LaneKind::Acceptor))
        }
        Entry::Said(Said::Fell { addr, .. }) => Some((*addr, LaneKind::Hopper)),
        _ => None,
    }
}

/// The device of which a record says what it is.
fn kind_of_record(record: &Record) -> Option<(u8, LaneKind)> {
    match record {
        Record::Epoch { addr, .. }
        | Record::Reading { addr, .. }
        | Record::Broken { addr, .. }
        | Record::EpochEnd { addr } => Some((*addr, LaneKind::Acceptor)),
        Record::Opened { addr, .. } => Some((*addr, LaneKind::Hopper)),
        _ => None,
    }
}

/// Where a fault on the wire is.
pub fn place_of(fault: &WireFault) -> FaultAt {
    match fault {
        WireFault::Clear => FaultAt::Nowhere,
        WireFault::DevicesHear(_) => FaultAt::Devices,
        WireFault::HostHears(_) => FaultAt::Host,
        WireFault::WholeHeard(_) => FaultAt::Whole,
    }
}

/// The label of what is in a line after its word.
fn label_after(word: &[u8], line: &[u8]) -> Label {
    Label::new(line.strip_prefix(word).unwrap_or(line))
}

/// The mark of an end.
fn end_mark(end: End, line: &[u8]) -> Mark {
    match alarm_of(end) {
        Some(_) => Mark::Alarm(Label::new(line)),
        None => Mark::Ended(Label::new(line)),
    }
}

/// The mark of how a session of change ended, or of another entry.
fn desk_mark(entry: &Entry, line: &[u8]) -> Mark {
    match entry {
        Entry::Served { .. } => Mark::Ended(Label::new(line)),
        Entry::ServeOdd { .. } | Entry::Short { .. } => Mark::Alarm(Label::new(line)),
        Entry::ChangeOk { .. } => Mark::Began(Label::new(line)),
        Entry::ServeWait { .. } => Mark::Waits(Label::new(line)),
        Entry::Stock { addr, count } => Mark::Happened {
            addr: *addr,
            what: Happening::Stock { count: *count },
        },
        Entry::Said(said) => said_mark(said, line),
        _ => device_mark(entry, line),
    }
}

/// The mark of what happened in a device, or a note.
fn device_mark(entry: &Entry, line: &[u8]) -> Mark {
    let (addr, what) = match entry {
        Entry::Accepted { addr, coin } => (
            *addr,
            Happening::Accepted {
                place: coin.place,
                path: coin.path,
            },
        ),
        Entry::Held { addr, place } => (*addr, Happening::Held { place: *place }),
        Entry::Inhibited { addr, place } => (*addr, Happening::Inhibited { place: *place }),
        Entry::Alien { addr } => (*addr, Happening::Alien),
        Entry::Fell { addr } => (*addr, Happening::Fell),
        Entry::NoFall { addr } => (*addr, Happening::NoFall),
        Entry::Jammed { addr } => (*addr, Happening::Jammed),
        Entry::NoJam { addr } => (*addr, Happening::NoJam),
        Entry::Reset { addr } => (*addr, Happening::Reset),
        _ => return Mark::Note(Label::new(line)),
    };
    Mark::Happened { addr, what }
}

/// The mark of a fault on the wire; its bytes stand last in its line.
fn fault_mark(fault: &WireFault, line: &[u8]) -> Mark {
    let bytes = line.rsplit(|byte| *byte == b' ').next().unwrap_or(line);
    Mark::Fault {
        at: place_of(fault),
        bytes: Label::new(bytes),
    }
}

/// The mark of what a monitor says; its taps and coins stand after its word and its address.
fn said_mark(said: &Said, line: &[u8]) -> Mark {
    match said {
        Said::Sure {
            addr,
            first,
            last,
            ..
        } => told_mark(*addr, Verdict::Sure, *first, *last, line),
        Said::Doubt { addr, first, last } => told_mark(*addr, Verdict::Doubt, *first, *last, line),
        Said::Fell {
            addr,
            first,
            last,
            ..
        } => told_mark(*addr, Verdict::Fell, *first, *last, line),
    }
}

/// The mark of what is said of the device at an address from one tap to another.
fn told_mark(addr: u8, verdict: Verdict, first: u32, last: u32, line: &[u8]) -> Mark {
    Mark::Told {
        addr,
        verdict,
        first,
        last,
        words: span_words(line),
    }
}

/// The mark of the line `quiet A FIRST LAST COINS`, or a note.
fn quiet_mark(line: &[u8]) -> Mark {
    match quiet_said(line) {
        Some(
            Said::Sure {
                addr,
                first,
                last,
                ..
            },
        ) => told_mark(addr, Verdict::Quiet, first, last, line),
        _ => Mark::Note(Label::new(line)),
    }
}

/// What the line `quiet A FIRST LAST COINS` says: what `sure` does, under its premise.
pub fn quiet_said(line: &[u8]) -> Option<Said> {
    let rest = line.strip_prefix(b"quiet ")?;
    let mut sure: ArrayVec<u8, MOST_LINE> = ArrayVec::new();
    sure.try_extend_from_slice(b"sure ").ok()?;
    sure.try_extend_from_slice(rest).ok()?;
    match read_line(sure.as_slice())? {
        Entry::Said(said) => Some(said),
        _ => None,
    }
}

/// The words for the taps and coins of a line `WORD A FIRST LAST ..`.
fn span_words(line: &[u8]) -> Label {
    let mut label = Label::new(b"taps ");
    for (index, field) in line.split(|byte| *byte == b' ').enumerate() {
        match index {
            0 | 1 => {}
            2 => label.push(field),
            3 => {
                label.push(b" to ");
                label.push(field);
            }
            _ => {
                label.push(b": ");
                label.push(field);
            }
        }
    }
    label
}
