//! The devices that an audit is to watch.

use arrayvec::ArrayVec;
use cct_frame::read;
use cct_model_lines::{CheckKind, DEVICES, HOST};
use std::fmt;

/// The least address of a device (ccTalk Generic Specification 4, part 1).
const LEAST_ADDRESS: u8 = 2;

/// The headers by which a host asks an acceptor for its events, and for its inhibit mask (ccTalk
/// Generic Specification 4, part 2).
const READ_EVENTS: u8 = 229;

const ASK_MASK: u8 = 230;

/// What a watched device is.
#[derive(Clone, Copy, Default)]
enum WatchKind {
    #[default]
    Acceptor,
    Hopper,
    /// A bill acceptor, which an audit watches as `quiet` alone.
    Bills,
}

/// A device that is watched: a line `watch A CHECK KIND` of a capture (`docs/AUDIT.md`).
#[derive(Clone, Copy, Default)]
pub struct Watch {
    addr: u8,
    check: CheckKind,
    kind: WatchKind,
    /// How many exchanges ask it for its events, and whether one asks it for its inhibit mask.
    readings: u64,
    has_mask: bool,
}

impl Watch {
    /// Counts an exchange in which the host sent these bytes, if they are for the device.
    pub fn count(&mut self, sent: &[u8]) {
        let Ok(view) = read(self.check, sent) else {
            return;
        };
        if view.to != self.addr || view.from.unwrap_or(HOST) != HOST {
            return;
        }
        match view.header {
            READ_EVENTS => self.readings = self.readings.saturating_add(1),
            ASK_MASK => self.has_mask = true,
            _ => {}
        }
    }

    /// Whether no later exchange changes its line.
    pub fn is_settled(&self) -> bool {
        self.has_mask || !matches!(self.kind, WatchKind::Acceptor)
    }

    /// Why it is watched as `quiet`, if it is: an acceptor that is asked for its events and never
    /// for its mask, which alone would show a reset that the host didn't ask for.
    pub fn quiet(&self) -> Option<Quiet> {
        if self.is_settled() || self.readings == 0 {
            None
        } else {
            Some(Quiet {
                addr: self.addr,
                readings: self.readings,
            })
        }
    }
}

/// Why an acceptor is watched as `quiet`, as people read it.
#[derive(Clone, Copy)]
pub struct Quiet {
    addr: u8,
    readings: u64,
}

impl fmt::Display for Quiet {
    fn fmt<W: fmt::Write>(&self, f: &mut fmt::Formatter<W>) -> fmt::Result {
        let addr = self.addr;
        let readings = self.readings;
        write!(
            f,
            "acceptor {addr} is watched as quiet: the log asks it {readings} times for its events (229) and never for its inhibit mask (230), so it is taken to reset only where the log shows it (docs/AUDIT.md)"
        )
    }
}

/// The devices that are watched, at most as many as an audit takes.
pub type Watches = ArrayVec<Watch, DEVICES>;

/// Why words name no devices to be watched.
#[derive(Clone, Copy)]
pub enum WatchNo<'w> {
    /// Three words for each are wanted, and of at least one.
    Count,
    /// More are named than an audit takes.
    Many,
    /// This address is named twice.
    Again(u8),
    /// This word is no address, no check, or no kind.
    Addr(&'w str),
    Check(&'w str),
    Kind(&'w str),
}

/// The devices that words name, three for each: its address, its check and its kind.
pub fn watches_in(words: &[String]) -> Result<Watches, WatchNo<'_>> {
    let mut watches = Watches::new();
    for device in words.chunks(3) {
        let [addr, check, kind] = device else {
            return Err(WatchNo::Count);
        };
        add_watch(&mut watches, addr.as_str(), check.as_str(), kind.as_str())?;
    }
    if watches.is_empty() {
        return Err(WatchNo::Count);
    }
    Ok(watches)
}

/// Adds the device that three words name.
pub fn add_watch<'w>(
    watches: &mut Watches,
    addr: &'w str,
    check: &'w str,
    kind: &'w str,
) -> Result<(), WatchNo<'w>> {
    let watch = watch_in(addr, check, kind)?;
    if watches
        .as_slice()
        .iter()
        .any(|other| other.addr == watch.addr)
    {
        return Err(WatchNo::Again(watch.addr));
    }
    match watches.try_push(watch) {
        Ok(()) => Ok(()),
        Err(_) => Err(WatchNo::Many),
    }
}

/// The device that three words name.
fn watch_in<'w>(addr: &'w str, check: &'w str, kind: &'w str) -> Result<Watch, WatchNo<'w>> {
    Ok(Watch {
        addr: addr_in(addr).ok_or(WatchNo::Addr(addr))?,
        check: check_in(check).ok_or(WatchNo::Check(check))?,
        kind: kind_in(kind).ok_or(WatchNo::Kind(kind))?,
        readings: 0,
        has_mask: false,
    })
}

/// The address of a device that a word spells.
fn addr_in(word: &str) -> Option<u8> {
    let addr = word.parse::<u8>().ok()?;
    if addr < LEAST_ADDRESS {
        None
    } else {
        Some(addr)
    }
}

/// The check that a word names.
fn check_in(word: &str) -> Option<CheckKind> {
    match word {
        "simple" => Some(CheckKind::Simple),
        "crc" => Some(CheckKind::Crc),
        _ => None,
    }
}

/// The kind of device that a word names.
fn kind_in(word: &str) -> Option<WatchKind> {
    match word {
        "acceptor" => Some(WatchKind::Acceptor),
        "hopper" => Some(WatchKind::Hopper),
        "bills" => Some(WatchKind::Bills),
        _ => None,
    }
}

impl fmt::Display for WatchNo<'_> {
    fn fmt<W: fmt::Write>(&self, f: &mut fmt::Formatter<W>) -> fmt::Result {
        match *self {
            WatchNo::Count => f.write_str("each watched device has three words, A CHECK KIND"),
            WatchNo::Many => write!(f, "an audit watches {DEVICES} devices at most"),
            WatchNo::Again(addr) => write!(f, "address {addr} is named twice"),
            WatchNo::Addr(word) => {
                write!(
                    f,
                    "A is a number from {LEAST_ADDRESS} to 255, not \"{word}\""
                )
            }
            WatchNo::Check(word) => write!(f, "CHECK is simple or crc, not \"{word}\""),
            WatchNo::Kind(word) => write!(f, "KIND is acceptor, hopper or bills, not \"{word}\""),
        }
    }
}

impl fmt::Display for Watch {
    fn fmt<W: fmt::Write>(&self, f: &mut fmt::Formatter<W>) -> fmt::Result {
        let addr = self.addr;
        let check = match self.check {
            CheckKind::Simple => "simple",
            CheckKind::Crc => "crc",
        };
        let kind = match self.kind {
            WatchKind::Acceptor => "acceptor",
            WatchKind::Hopper => "hopper",
            WatchKind::Bills => "bills quiet",
        };
        let quiet = if self.quiet().is_some() { " quiet" } else { "" };
        write!(f, "watch {addr} {check} {kind}{quiet}")
    }
}
