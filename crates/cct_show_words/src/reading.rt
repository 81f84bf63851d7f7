//! Replies to requests that the readers of `cct_msg` don't know, and that have one number.

use std::fmt;

/// What such a reply reads.
#[derive(Clone, Copy)]
pub enum Reading {
    /// How many of these there were so far.
    Counter { count: u32, of: &'static str },
    /// The code of the fault that a self-check found, 0 for none.
    FaultCode(u8),
}

/// What the data of a reply to a request with this header reads (ccTalk Generic Specification 4,
/// part 2, the header's section), or `None` where it isn't known.
pub(crate) fn reading_of(header: u8, body: &[u8]) -> Option<Reading> {
    match (header, body) {
        (226, _) => counter_of("objects that came in", body),
        (194, _) => counter_of("coins rejected", body),
        (193, _) => counter_of("frauds seen", body),
        (232, [code]) | (232, [code, _]) => Some(Reading::FaultCode(*code)),
        _ => None,
    }
}

/// A counter of three bytes, low byte first.
fn counter_of(of: &'static str, body: &[u8]) -> Option<Reading> {
    match body {
        [low, middle, high] => Some(Reading::Counter {
            count: u32::from_le_bytes([*low, *middle, *high, 0]),
            of,
        }),
        _ => None,
    }
}

impl fmt::Display for Reading {
    fn fmt<W: fmt::Write>(&self, f: &mut fmt::Formatter<W>) -> fmt::Result {
        match *self {
            Reading::Counter { count, of } => write!(f, "{of} so far: {count}"),
            Reading::FaultCode(0) => f.write_str("no fault found"),
            Reading::FaultCode(code) => write!(f, "fault code {code}"),
        }
    }
}
