//! The buffers of a service, what it keeps between lines, and what is written with them.
ghost use Rattle.std.specs.Prelude.{◌≡◌, ◌++◌, IsErr, false};
ghost use Rattle.cct_edge.specs.Bytes.{Serves};
ghost use Rattle.cct_live_service.specs.Told.{WritesTold, as_told, attempt_told, maybe_told};
ghost use Rattle.cct_live_service.specs.Told.{notices_told};
ghost use Rattle.cct_live_service.specs.Watch.{clear_watch, due_after, notices_in, place_at};
ghost use Rattle.cct_live_service.specs.Watch.{watch_after};

use crate::notice::{Notice, tell};
use crate::rests::{Rests, Tried};
use crate::unsent::tell_first;
use crate::watch::{Due, Watch};
use arrayvec::ArrayVec;
use cct_edge::{Failed, Sink};
use cct_model::{BROADCAST, End, Entry, Setup};
use cct_text::{TextLine, write_entries};

/// How an exchange went, as its link says.
#[derive(Clone, Copy)]
pub(crate) struct Went {
    /// It failed, and not for want of an answer.
    pub(crate) has_failed: bool,
    /// All of its message was written.
    pub(crate) is_sent: bool,
    /// It brought the whole reply.
    pub(crate) is_answered: bool,
}

/// The entries of a step, the line that is written, and what a service remembers of its line and
/// its devices.
#[derive(Drop)]
pub struct Page {
    pub(crate) report: ArrayVec<Entry, 8>,
    pub(crate) line: TextLine,
    pub(crate) rests: Rests,
    pub(crate) watch: Watch,
    /// What the last attempt was.
    tried: Tried,
}

impl Page {
    /// Nothing is written, no exchange failed, no device is doubtful, and no bill is held.
    pub fn new() -> Page
        ensures watch { result.watch ≡ clear_watch }
    {
        Page {
            report: ArrayVec::new(),
            line: TextLine::new(),
            rests: Rests::new(),
            watch: Watch::new(),
            tried: Tried::Nothing,
        }
    }

    /// The place of the bill that is held at an address.
    pub(crate) fn held_at(&self, addr: u8) -> Option<u8>
        ensures { result ≡ place_at self.now.watch addr }
    {
        self.watch.place_at(addr)
    }

    /// Whether the last attempt made an exchange that wasn't answered.
    pub(crate) fn has_failed(&self) -> bool {
        match self.tried {
            Tried::Failed => true,
            Tried::Nothing => false,
            Tried::Answered => false,
        }
    }

    /// Writes the entries of a step.
    pub(crate) fn write_report<K: Sink>(&mut self, out: &mut K) -> Result<(), Failed>
        ensures writes { WritesTold K.written K.puts out.old (as_told self.old.report.items) result
            out.new }
        ensures report { self.new.report ≡ self.old.report }
        ensures watch { self.new.watch ≡ self.old.watch }
        ensures serves { Serves K.written K.faults out.old out.new (IsErr result) }
    {
        write_entries(out, &mut self.line, self.report.as_slice())
    }

    /// Writes the entries of an attempt at an address, whose exchange went so; then how the line
    /// is, where that changed; then a bill that is held, where it wasn't reported yet.
    pub(crate) fn write_attempt<K: Sink>(
        &mut self,
        setup: &Setup,
        addr: u8,
        went: Went,
        out: &mut K,
    ) -> Result<(), Failed>
        ensures writes { WritesTold K.written K.puts out.old (attempt_told went.is_sent self.old.report.items
            ++ notices_told (notices_in (due_after setup.now.devices self.old.watch went.has_failed self.old.report.items)))
            result out.new }
        ensures report { self.new.report ≡ self.old.report }
        ensures watch { self.new.watch
            ≡ watch_after setup.now.devices self.old.watch went.has_failed self.old.report.items }
        ensures serves { Serves K.written K.faults out.old out.new (IsErr result) }
    {
        self.note(addr, went);
        let due = self.see(setup, went.has_failed);
        match self.write_entries_of(went.is_sent, out) {
            Ok(()) => self.tell_due(due, out),
            Err(failed) => Err(failed),
        }
    }

    /// The entries of an attempt are seen, whose exchange failed or not; what is reported after
    /// them.
    fn see(&mut self, setup: &Setup, has_failed: bool) -> Due
        ensures due { result ≡ due_after setup.now.devices self.old.watch has_failed
            self.old.report.items }
        ensures report { self.new.report ≡ self.old.report }
        ensures watch { self.new.watch ≡ watch_after setup.now.devices self.old.watch has_failed
            self.old.report.items }
    {
        self.watch.see(setup, has_failed, self.report.as_slice())
    }

    /// Writes what is reported after an attempt.
    fn tell_due<K: Sink>(&mut self, due: Due, out: &mut K) -> Result<(), Failed>
        ensures writes { WritesTold K.written K.puts out.old (notices_told (notices_in due)) result
            out.new }
        ensures report { self.new.report ≡ self.old.report }
        ensures watch { self.new.watch ≡ self.old.watch }
        ensures serves { Serves K.written K.faults out.old out.new (IsErr result) }
    {
        match self.tell_if(due.line, out) {
            Ok(()) => self.tell_if(due.bill, out),
            Err(failed) => Err(failed),
        }
    }

    /// Writes the entries of an attempt. An exchange whose message wasn't written is reported as
    /// unsent.
    fn write_entries_of<K: Sink>(&mut self, is_sent: bool, out: &mut K) -> Result<(), Failed>
        ensures writes { WritesTold K.written K.puts out.old
            (attempt_told is_sent self.old.report.items) result out.new }
        ensures report { self.new.report ≡ self.old.report }
        ensures watch { self.new.watch ≡ self.old.watch }
        ensures serves { Serves K.written K.faults out.old out.new (IsErr result) }
    {
        if is_sent {
            self.write_report(out)
        } else {
            self.write_unsent(out)
        }
    }

    /// Writes the entries of an attempt whose message wasn't written.
    fn write_unsent<K: Sink>(&mut self, out: &mut K) -> Result<(), Failed>
        ensures writes { WritesTold K.written K.puts out.old
            (attempt_told false self.old.report.items) result out.new }
        ensures report { self.new.report ≡ self.old.report }
        ensures watch { self.new.watch ≡ self.old.watch }
        ensures serves { Serves K.written K.faults out.old out.new (IsErr result) }
    {
        match self.report.as_slice() {
            [] => Ok(()),
            [first, others @ ..] => match tell_first(out, &mut self.line, first) {
                Ok(()) => write_entries(out, &mut self.line, others),
                Err(failed) => Err(failed),
            },
        }
    }

    /// Writes a notice, if there is one.
    fn tell_if<K: Sink>(&mut self, notice: Option<Notice>, out: &mut K) -> Result<(), Failed>
        ensures writes { WritesTold K.written K.puts out.old (maybe_told notice) result out.new }
        ensures report { self.new.report ≡ self.old.report }
        ensures watch { self.new.watch ≡ self.old.watch }
        ensures serves { Serves K.written K.faults out.old out.new (IsErr result) }
    {
        match notice {
            Some(notice) => tell(out, &mut self.line, &notice),
            None => Ok(()),
        }
    }

    /// What an attempt at an address, whose exchange went so, means for the devices of the line.
    fn note(&mut self, addr: u8, went: Went)
        ensures report { self.new.report ≡ self.old.report }
        ensures watch { self.new.watch ≡ self.old.watch }
    {
        self.tried = tried(addr, self.report.as_slice(), went.is_answered);
        self.rests.note(addr, self.tried);
        if let [
            ..,
            Entry::Ended {
                end: End::NoAnswer,
                ..
            },
        ] = self.report.as_slice()
        {
            self.rests.leave_alone(addr);
        }
    }
}

/// What an attempt at an address was. A poll of all devices is answered by bare bytes, so it isn't
/// a failed try.
fn tried(addr: u8, entries: &[Entry], is_answered: bool) -> Tried {
    if addr == BROADCAST || !made_exchange(entries) {
        Tried::Nothing
    } else if is_answered {
        Tried::Answered
    } else {
        Tried::Failed
    }
}

/// Whether the entries of an attempt begin with an exchange.
fn made_exchange(entries: &[Entry]) -> bool {
    matches!(entries, [Entry::Wire { .. }, ..])
}
