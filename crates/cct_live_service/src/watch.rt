//! What a service remembers of its line and of the bills that are held, and what it reports of
//! them.
ghost use Rattle.std.specs.Prelude.{◌≡◌};
ghost use Rattle.cct_model.specs.Exchange.{device_at};
ghost use Rattle.cct_live_service.specs.Held.{is_other};
ghost use Rattle.cct_live_service.specs.Watch.{bill_notice, check_of, clear_watch, due_after};
ghost use Rattle.cct_live_service.specs.Watch.{ended_at, events_told, held_after, line_notice};
ghost use Rattle.cct_live_service.specs.Watch.{new_notice, place_at, seen_all, seen_at};
ghost use Rattle.cct_live_service.specs.Watch.{watch_after, watch_first};

use crate::holds::{Hold, bills_told, newest_hold};
use crate::notice::Notice;
use cct_model::{CheckKind, Credits, End, Entry, Setup};

/// How the line is, and the bill that each bill acceptor holds, by address, as its last reading
/// showed it.
#[derive(Drop)]
pub struct Watch {
    /// The last exchange failed.
    is_down: bool,
    held: [Option<Hold>; 256],
}

/// What is reported after the entries of an attempt: how the line is, where that changed, and a
/// bill that is held, where it wasn't reported yet.
#[derive(Clone, Copy, PartialEq, Eq)]
pub struct Due {
    pub(crate) line: Option<Notice>,
    pub(crate) bill: Option<Notice>,
}

impl Watch {
    /// The line is well, and no bill is held.
    pub(crate) fn new() -> Watch
        ensures { result ≡ clear_watch }
    {
        Watch {
            is_down: false,
            held: [None; 256],
        }
    }

    /// The place of the bill that is held at an address.
    pub(crate) fn place_at(&self, addr: u8) -> Option<u8>
        ensures { result ≡ place_at self.now addr }
    {
        match self.held[usize::from(addr)] {
            Some(hold) => Some(hold.place),
            None => None,
        }
    }

    /// The entries of an attempt are seen, whose exchange failed or not; what is reported after
    /// them.
    pub(crate) fn see(&mut self, setup: &Setup, has_failed: bool, entries: &[Entry]) -> Due
        ensures due { result ≡ due_after setup.now.devices self.old has_failed entries.now }
        ensures watch { self.new ≡ watch_after setup.now.devices self.old has_failed entries.now }
    {
        let due = self.see_exchange(setup, has_failed, entries);
        self.see_ends(entries);
        due
    }

    /// The exchange is seen with which the entries of an attempt begin, if they do.
    fn see_exchange(&mut self, setup: &Setup, has_failed: bool, entries: &[Entry]) -> Due
        ensures due { result ≡ due_after setup.now.devices self.old has_failed entries.now }
        ensures watch { self.new ≡ watch_first setup.now.devices self.old has_failed entries.now }
    {
        match entries {
            [Entry::Wire { addr, sent, heard }, ..] => {
                let told = events_told(setup, *addr, sent.as_slice(), heard.as_slice());
                Due {
                    line: self.note_line(has_failed),
                    bill: self.note_bills(*addr, told),
                }
            }
            _ => Due {
                line: None,
                bill: None,
            },
        }
    }

    /// An exchange failed or not; what is reported of the line.
    fn note_line(&mut self, has_failed: bool) -> Option<Notice>
        ensures line { result ≡ line_notice self.old.is_down has_failed }
        ensures down { self.new.is_down ≡ has_failed }
        ensures held { self.new.held ≡ self.old.held }
    {
        let was_down = self.is_down;
        self.is_down = has_failed;
        match (was_down, has_failed) {
            (false, true) => Some(Notice::LineFault),
            (true, false) => Some(Notice::LineBack),
            _ => None,
        }
    }

    /// An exchange with the device at an address gave these events; what is reported of the bill
    /// that is held there.
    fn note_bills(&mut self, addr: u8, told: Option<Credits>) -> Option<Notice>
        ensures bill { result ≡ bill_notice self.old addr told }
        ensures down { self.new.is_down ≡ self.old.is_down }
        ensures held { self.new.held ≡ held_after self.old.held addr told }
    {
        match told {
            Some(credits) => {
                let hold = newest_hold(credits);
                let notice = new_notice(addr, self.held[usize::from(addr)], hold);
                self.held[usize::from(addr)] = hold;
                notice
            }
            None => None,
        }
    }

    /// The ends of jobs among these entries are seen.
    fn see_ends(&mut self, entries: &[Entry])
        ensures { self.new ≡ seen_all self.old entries.now }
    {
        for entry in entries {
            self.see_end(entry);
        }
    }

    /// An entry is seen that may be the end of a job.
    fn see_end(&mut self, entry: &Entry)
        ensures { self.new ≡ seen_at self.old entry.now }
    {
        if let Entry::Ended { addr, end } = entry {
            self.note_end(*addr, *end);
        }
    }

    /// A job at an address ended.
    fn note_end(&mut self, addr: u8, end: End)
        ensures { self.new ≡ ended_at self.old addr end }
    {
        if let End::Routed = end {
            self.held[usize::from(addr)] = None;
        }
    }
}

/// What is reported of the bill that a reading at an address shows as held, by the one that was
/// held before.
fn new_notice(addr: u8, before: Option<Hold>, hold: Option<Hold>) -> Option<Notice>
    ensures { result ≡ new_notice addr before hold }
{
    match hold {
        Some(hold) if is_other(hold, before) => Some(Notice::Held {
            addr,
            place: hold.place,
        }),
        _ => None,
    }
}

/// Whether a bill that is held is another one than the one that was held before.
fn is_other(hold: Hold, before: Option<Hold>) -> bool
    ensures { result ≡ is_other hold before }
{
    match before {
        Some(before) => hold.place != before.place || hold.counter != before.counter,
        None => true,
    }
}

/// The events of a bill acceptor that an exchange with a device of the setup gave.
fn events_told(setup: &Setup, addr: u8, sent: &[u8], heard: &[u8]) -> Option<Credits>
    ensures { result ≡ events_told setup.now.devices addr sent.now heard.now }
{
    bills_told(check_at(setup, addr), addr, sent, heard)
}

/// The check of the device at an address.
fn check_at(setup: &Setup, addr: u8) -> CheckKind
    ensures { result ≡ check_of (device_at setup.now.devices addr) }
{
    match setup.device_at(addr) {
        Some(device) => device.kind,
        None => CheckKind::Simple,
    }
}
