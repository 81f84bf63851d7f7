//! What is kept of an acceptor that is watched for resets alone: its last reading. It is taken to
//! reset only where the taps show it, so each span is known at once, and no inhibit mask has to be
//! asked for.
ghost use Rattle.std.specs.Prelude.{◌≡◌, []};
ghost use Rattle.cct_monitor.specs.Machine.{last_on, quiet_new, quiet_says};

use crate::acceptor::{LastReading, after_setting, fits};
use arrayvec::ArrayVec;
use cct_audit_taps::{Said, Shown};
use cct_epoch::{distance, posted};
use cct_model::Credits;

/// The last reading after a tap of a number.
pub(crate) fn last_on(shown: Shown, number: u32, last: Option<LastReading>) -> Option<LastReading>
    ensures { result ≡ last_on shown number last }
{
    match shown {
        Shown::Read(credits) => Some(LastReading {
            number,
            counter: credits.counter,
            was_set: false,
        }),
        Shown::Set => after_setting(last),
        Shown::Masked { .. } => last,
        Shown::Nothing => last,
    }
}

/// Reports what a tap of a number makes said: a new reading ends a span, where one came before it.
pub(crate) fn say_quietly(
    addr: u8,
    number: u32,
    shown: Shown,
    last: Option<LastReading>,
    report: &mut ArrayVec<Said, 4>,
)
    requires { report.old.items ≡ [] }
    ensures { report.new.items ≡ quiet_says addr shown number last }
{
    if let (Shown::Read(credits), Some(reading)) = (shown, last) {
        report.push(new_span(addr, number, credits, reading));
    }
}

/// What is said of the span from the last reading to a new one.
fn new_span(addr: u8, number: u32, credits: Credits, reading: LastReading) -> Said
    ensures { result ≡ quiet_new addr number credits reading }
{
    if fits(&reading, credits.counter) {
        Said::Quiet {
            addr,
            first: reading.number,
            last: number,
            coins: posted(distance(reading.counter, credits.counter), &credits.pairs),
        }
    } else {
        Said::Doubt {
            addr,
            first: reading.number,
            last: number,
        }
    }
}
