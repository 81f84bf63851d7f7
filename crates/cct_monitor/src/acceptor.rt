//! What is kept of a watched acceptor: its last reading, and the span that waits to be said.
ghost use Rattle.std.specs.Prelude.{◌≡◌, ◌+◌, ◌<◌, ◌≤◌, ◌++◌, [], None, length};
ghost use Rattle.cct_monitor.specs.Machine.{acceptor_on, acceptor_says, after_setting, doubt_new};
ghost use Rattle.cct_monitor.specs.Machine.{doubt_waiting, fits, no_tap, sure_waiting, waiting_new};
ghost use Rattle.cct_monitor.specs.Spans.{are_near};
ghost use Rattle.cct_audit_taps.specs.declared.shown.Shown.TheVariants.{Read};

use arrayvec::ArrayVec;
use cct_audit_taps::{Said, Shown};
use cct_epoch::{distance, posted};
use cct_model::{Credits, EVENTS};

/// The last reading of an acceptor.
#[derive(Clone, Copy, PartialEq, Eq)]
pub(crate) struct LastReading {
    /// The number of its tap.
    pub number: u32,
    /// The event counter that it shows.
    pub counter: u8,
    /// Whether a setting came since.
    pub was_set: bool,
}

/// A span that waits to be said.
#[derive(Clone, Copy, PartialEq, Eq)]
pub(crate) struct WaitingSpan {
    /// The numbers of the taps of its two readings.
    pub first: u32,
    pub last: u32,
    /// How many events came between them, at most five.
    pub new_events: u8,
    /// The credits of the last one.
    pub credits: Credits,
}

/// What is kept of a watched acceptor.
#[derive(Clone, Copy, PartialEq, Eq)]
pub(crate) struct AcceptorWatch {
    last: Option<LastReading>,
    waiting: Option<WaitingSpan>,
}

impl AcceptorWatch {
    /// What is kept before any tap.
    pub(crate) fn new() -> AcceptorWatch
        ensures { result ≡ no_tap }
    {
        AcceptorWatch {
            last: None,
            waiting: None,
        }
    }

    /// Takes what a tap of a number shows, and reports what that makes said.
    pub(crate) fn tap(
        &mut self,
        addr: u8,
        number: u32,
        shown: Shown,
        report: &mut ArrayVec<Said, 4>,
    )
        requires { report.old.items ≡ [] }
        ensures kept { self.new ≡ acceptor_on shown number self.old }
        ensures says { report.new.items ≡ acceptor_says addr shown number self.old }
    {
        match shown {
            Shown::Read(credits) => self.read(addr, number, credits, report),
            Shown::Masked { mask } => {
                if mask != 0 {
                    sure_waiting(addr, self.waiting, report);
                    self.waiting = None;
                }
            }
            Shown::Set => self.set(addr, report),
            Shown::Nothing => {}
        }
    }

    /// Takes a reading: it ends the window of the span before it, and is the last of a new one.
    fn read(&mut self, addr: u8, number: u32, credits: Credits, report: &mut ArrayVec<Said, 4>)
        requires { report.old.items ≡ [] }
        ensures kept { self.new ≡ acceptor_on (Read credits) number self.old }
        ensures says { report.new.items ≡ acceptor_says addr (Read credits) number self.old }
    {
        doubt_waiting(addr, self.waiting, report);
        doubt_new(addr, number, credits, self.last, report);
        self.waiting = waiting_new(number, credits, self.last);
        self.last = Some(LastReading {
            number,
            counter: credits.counter,
            was_set: false,
        });
    }

    /// Takes a setting: it ends the window of the span that waits.
    fn set(&mut self, addr: u8, report: &mut ArrayVec<Said, 4>)
        requires { report.old.items ≡ [] }
        ensures kept { self.new ≡ record { last = after_setting self.old.last; waiting = None } }
        ensures says { report.new.items ≡ doubt_waiting addr self.old.waiting }
    {
        doubt_waiting(addr, self.waiting, report);
        self.waiting = None;
        self.last = after_setting(self.last);
    }

    /// Reports what is in doubt at the end of the taps.
    pub(crate) fn finish(&self, addr: u8, report: &mut ArrayVec<Said, 32>)
        requires { length report.old.items < 32 }
        ensures says { report.new.items ≡ report.old.items ++ doubt_waiting addr self.now.waiting }
        ensures few { length report.new.items ≤ length report.old.items + 1 }
    {
        if let Some(span) = self.waiting {
            report.push(doubted(addr, span));
        }
    }
}

/// The last reading after a setting.
pub(crate) fn after_setting(last: Option<LastReading>) -> Option<LastReading>
    ensures { result ≡ after_setting last }
{
    match last {
        None => None,
        Some(reading) => Some(LastReading {
            number: reading.number,
            counter: reading.counter,
            was_set: true,
        }),
    }
}

/// Whether a new reading of this event counter makes with the last one a span that can be sure: no
/// setting came between them, the counter isn't back at 0, and it shows no more events than the
/// credit buffer keeps.
pub(crate) fn fits(last: &LastReading, counter: u8) -> bool
    ensures { result ≡ fits last.now counter }
{
    !last.was_set && are_near(last.counter, counter)
}

/// Whether two event counters show all events between their readings: the later one isn't back at
/// 0, and they show no more than the credit buffer keeps.
fn are_near(first: u8, last: u8) -> bool
    ensures { result ≡ are_near first last }
{
    (last != 0 || first == 0) && distance(first, last) as usize <= EVENTS
}

/// The span of a new reading, where it waits.
fn waiting_new(number: u32, credits: Credits, last: Option<LastReading>) -> Option<WaitingSpan>
    ensures { result ≡ waiting_new number credits last }
{
    let reading = last?;
    if !fits(&reading, credits.counter) {
        return None;
    }
    Some(WaitingSpan {
        first: reading.number,
        last: number,
        new_events: distance(reading.counter, credits.counter),
        credits,
    })
}

/// Reports that the span of a new reading is in doubt, where it can't be sure.
fn doubt_new(
    addr: u8,
    number: u32,
    credits: Credits,
    last: Option<LastReading>,
    report: &mut ArrayVec<Said, 4>,
)
    requires { length report.old.items < 4 }
    ensures { report.new.items ≡ report.old.items ++ doubt_new addr number credits last }
{
    if let Some(reading) = last {
        if !fits(&reading, credits.counter) {
            report.push(Said::Doubt {
                addr,
                first: reading.number,
                last: number,
            });
        }
    }
}

/// Reports that the span that waits is in doubt.
fn doubt_waiting(addr: u8, waiting: Option<WaitingSpan>, report: &mut ArrayVec<Said, 4>)
    requires { report.old.items ≡ [] }
    ensures says { report.new.items ≡ doubt_waiting addr waiting }
    ensures few { length report.new.items ≤ 1 }
{
    if let Some(span) = waiting {
        report.push(doubted(addr, span));
    }
}

/// Reports that the span that waits is sure, with its coins.
fn sure_waiting(addr: u8, waiting: Option<WaitingSpan>, report: &mut ArrayVec<Said, 4>)
    requires { report.old.items ≡ [] }
    ensures { report.new.items ≡ sure_waiting addr waiting }
{
    if let Some(span) = waiting {
        report.push(Said::Sure {
            addr,
            first: span.first,
            last: span.last,
            coins: posted(span.new_events, &span.credits.pairs),
        });
    }
}

/// A span in doubt.
fn doubted(addr: u8, span: WaitingSpan) -> Said
    ensures { result ≡ Said.Doubt addr span.first span.last }
{
    Said::Doubt {
        addr,
        first: span.first,
        last: span.last,
    }
}
