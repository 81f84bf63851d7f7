//! What people read below a line.

use crate::change::write_change;
use crate::exchange::Exchange;
use crate::lists::Count;
use crate::posting::Means;
use crate::said::write_said;
use cct_model_lines::{End, Entry, Record, Totals, WireFault};
use std::fmt;

/// What people read below the line of an entry: lines that are indented by four spaces, each with
/// its line feed; nothing where the line says it all.
#[derive(Drop)]
pub struct Told<'e>(pub &'e Entry);

impl fmt::Display for Told<'_> {
    fn fmt<W: fmt::Write>(&self, f: &mut fmt::Formatter<W>) -> fmt::Result {
        match self.0 {
            Entry::Wire { sent, heard, .. } => {
                let exchange = Exchange::new(sent.as_slice(), heard.as_slice());
                write!(f, "{exchange}")
            }
            Entry::Put(record) => write_record("", record, f),
            Entry::Kept(record) => write_record("kept of the put that was cut off: ", record, f),
            Entry::Listing { entry, .. } => write_record("", entry, f),
            Entry::No { why, .. } => write!(f, "    refused, since {why}\n"),
            Entry::Fault(fault) => write_fault(fault, f),
            Entry::Forged { .. } => write_forged(f),
            Entry::Ended { end, .. } => write_end(*end, f),
            Entry::Said(said) => write_said(said, f),
            _ => write_sums(self.0, f),
        }
    }
}

/// Writes what a record means, after these words.
fn write_record<W: fmt::Write>(
    before: &str,
    record: &Record,
    f: &mut fmt::Formatter<W>,
) -> fmt::Result {
    let means = Means(record);
    write!(f, "    {before}{means}\n")
}

/// Writes what a fault on the wire does.
fn write_fault<W: fmt::Write>(fault: &WireFault, f: &mut fmt::Formatter<W>) -> fmt::Result {
    match fault {
        WireFault::Clear => Ok(()),
        WireFault::DevicesHear(_) => {
            f.write_str(
                "    in the next exchange the devices hear this in place of what the host sends\n",
            )
        }
        WireFault::HostHears(_) => {
            f.write_str(
                "    in the next exchange the host hears this after its echo, in place of the replies\n",
            )
        }
        WireFault::WholeHeard(_) => {
            f.write_str("    in the next exchange this is all that the host hears\n")
        }
    }
}

/// Writes what it means that the exchange of a step was forged.
fn write_forged<W: fmt::Write>(f: &mut fmt::Formatter<W>) -> fmt::Result {
    f.write_str(
        "    the fault of this exchange put bytes there that are a message: the promises on coins and orders do not speak of this run\n",
    )
}

/// Writes what an end means at which somebody is to look.
fn write_end<W: fmt::Write>(end: End, f: &mut fmt::Formatter<W>) -> fmt::Result {
    match alarm_of(end) {
        Some(text) => write!(f, "    {text}\n"),
        None => Ok(()),
    }
}

/// What an end means at which somebody is to look (`docs/OPERATING.md`), or `None` where it is a
/// good one.
pub fn alarm_of(end: End) -> Option<&'static str> {
    match end {
        End::StartUnsure => Some(
            "the mask was sent and not acknowledged: the epoch runs, and a round comes next",
        ),
        End::Unquiet { .. } => Some("objects fell in after the reset: no epoch began"),
        End::Broke => Some(
            "the epoch is over; if the record tells that some are lost, the cash box is to be counted",
        ),
        End::Moved => Some(
            "the accept counter went on while the acceptor was being read, so nothing was put: it is to be read again; after a stop it is inhibited, and its epoch still runs",
        ),
        End::OddLife => Some(
            "more coins fell than the order has: what the hopper paid is to be counted",
        ),
        End::RouteUnsure => Some(
            "the route was not acknowledged: the bill may be where it was, and a round comes next",
        ),
        End::NoAnswer => Some("three tries in succession got no wanted reply"),
        _ => None,
    }
}

/// Writes sums by their names, and what is left after a power cut.
fn write_sums<W: fmt::Write>(entry: &Entry, f: &mut fmt::Formatter<W>) -> fmt::Result {
    match entry {
        Entry::Crash { records } => {
            let records = Count(u64::from(*records), "record");
            write!(
                f,
                "    the host lost its power and started again over {records}; no job is left\n"
            )
        }
        Entry::Balance(
            Totals {
                available,
                reserved,
                paid,
                sold,
            },
        ) => {
            write!(
                f,
                "    {available} available, {reserved} reserved, {paid} paid, {sold} sold\n"
            )
        }
        _ => write_total(entry, f),
    }
}

/// Writes the sums of a report by their names; or what a line of a session means.
fn write_total<W: fmt::Write>(entry: &Entry, f: &mut fmt::Formatter<W>) -> fmt::Result {
    match entry {
        Entry::Total {
            posted,
            lost,
            paid,
            unpaid,
            sold,
        } => {
            let paid = Count(*paid, "coin");
            write!(
                f,
                "    {posted} posted, {lost} lost, {paid} paid, {unpaid} unpaid, {sold} sold\n"
            )
        }
        _ => write_change(entry, f),
    }
}
