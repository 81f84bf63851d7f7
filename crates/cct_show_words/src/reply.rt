//! What a reply says.

use crate::event::{Event, Taker};
use crate::lists::Places;
use crate::register::Registers;
use cct_model_lines::{Credits, EVENTS, Pair};
use cct_msg::Reply;
use cct_text_worth::value_told;
use std::fmt;

/// An empty place of a credit buffer.
const NO_EVENT: Pair = Pair { a: 0, b: 0 };

/// A reply as people read it, by what the device that gives it takes.
#[derive(Drop)]
pub(crate) struct Says<'r>(pub Reply<'r>, pub Taker);

impl fmt::Display for Says<'_> {
    fn fmt<W: fmt::Write>(&self, f: &mut fmt::Formatter<W>) -> fmt::Result {
        match self.0 {
            Reply::Ack => f.write_str("ACK"),
            Reply::Nak => f.write_str("NAK (5), it refuses"),
            Reply::Busy => f.write_str("BUSY (6), it cannot act now"),
            Reply::Text { text } => {
                let text = text.escape_ascii();
                write!(f, "\"{text}\"")
            }
            Reply::Serial { serial } => write!(f, "serial number {serial}"),
            Reply::Revision {
                release,
                major,
                minor,
            } => write!(f, "release {release}, specification {major}.{minor}"),
            Reply::Status { .. }
            | Reply::Life { .. }
            | Reply::Remaining { .. }
            | Reply::Register { .. } => write_hopper(self.0, f),
            Reply::Credits(credits) => write_credits(credits, self.1, f),
            _ => write_acceptor(self.0, f),
        }
    }
}

/// Writes another reply that an acceptor alone gives, of coins or of bills.
fn write_acceptor<W: fmt::Write>(reply: Reply<'_>, f: &mut fmt::Formatter<W>) -> fmt::Result {
    match reply {
        Reply::Mask { mask } => {
            let places = Places(mask);
            write!(f, "accepts {places}")
        }
        Reply::Master { value: 0 } => f.write_str("everything inhibited"),
        Reply::Master { .. } => f.write_str("normal operation"),
        Reply::Path { path } => write!(f, "path {path}"),
        Reply::CoinId { id } => {
            let text = id.escape_ascii();
            write!(f, "coin \"{text}\"")?;
            match value_told(id) {
                Some(value) => write!(f, ", worth {value}"),
                None => Ok(()),
            }
        }
        Reply::Accepts { count } => write!(f, "{count} accepted so far"),
        _ => Ok(()),
    }
}

/// Writes an event counter, and after it the events, newest first.
fn write_credits<W: fmt::Write>(
    credits: Credits,
    taker: Taker,
    f: &mut fmt::Formatter<W>,
) -> fmt::Result {
    let counter = credits.counter;
    write!(f, "event counter {counter}")?;
    let count = event_count(&credits.pairs);
    if count == 0 {
        return f.write_str(", no event");
    }
    let mut before = ", newest event first: ";
    for (index, pair) in credits.pairs.iter().enumerate() {
        if index == count {
            break;
        }
        let event = Event(*pair, taker);
        write!(f, "{before}{event}")?;
        before = ", ";
    }
    Ok(())
}

/// How many events of a credit buffer there are up to the last place that isn't empty.
fn event_count(pairs: &[Pair; EVENTS]) -> usize {
    let mut count = 0;
    for (index, pair) in pairs.iter().enumerate() {
        if *pair != NO_EVENT {
            count = index + 1;
        }
    }
    count
}

/// Writes a reply that a hopper alone gives.
fn write_hopper<W: fmt::Write>(reply: Reply<'_>, f: &mut fmt::Formatter<W>) -> fmt::Result {
    match reply {
        Reply::Status {
            counter,
            remaining,
            paid,
            unpaid,
        } => write!(
            f,
            "event counter {counter}, {remaining} left to pay, {paid} paid, {unpaid} unpaid"
        ),
        Reply::Life { count } => write!(f, "life count {count}"),
        Reply::Remaining { count } => write!(f, "{count} were left to pay"),
        Reply::Register { bits } => {
            let bits = [bits];
            let registers = Registers(&bits);
            write!(f, "{registers}")
        }
        _ => Ok(()),
    }
}
