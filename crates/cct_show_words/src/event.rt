//! The events of a credit buffer.

use cct_model_lines::Pair;
use cct_msg::Request;
use std::fmt;

/// The error codes of a coin acceptor and their names, but for 128 to 159 (ccTalk Generic
/// Specification 4, part 3, its table of coin acceptor error codes, of which header 229 in part 2
/// speaks). Code 41 isn't in every release, so its name isn't sure.
static ERRORS: [(u8, &str); 44] = [
    (1, "reject coin"),
    (2, "inhibited coin"),
    (3, "multiple window"),
    (4, "wake-up timeout"),
    (5, "validation timeout"),
    (6, "credit sensor timeout"),
    (7, "sorter opto timeout"),
    (8, "second close coin error"),
    (9, "accept gate not ready"),
    (10, "credit sensor not ready"),
    (11, "sorter not ready"),
    (12, "reject coin not cleared"),
    (13, "validation sensor not ready"),
    (14, "credit sensor blocked"),
    (15, "sorter opto blocked"),
    (16, "credit sequence error"),
    (17, "coin going backwards"),
    (18, "coin too fast over credit sensor"),
    (19, "coin too slow over credit sensor"),
    (20, "coin-on-string mechanism activated"),
    (21, "DCE opto timeout"),
    (22, "DCE opto not seen"),
    (23, "credit sensor reached too early"),
    (24, "reject coin, repeated sequential trip"),
    (25, "reject slug"),
    (26, "reject sensor blocked"),
    (27, "games overload"),
    (28, "max. coin meter pulses exceeded"),
    (29, "accept gate open not closed"),
    (30, "accept gate closed not open"),
    (31, "manifold opto timeout"),
    (32, "manifold opto blocked"),
    (33, "manifold not ready"),
    (34, "security status changed"),
    (35, "motor exception"),
    (36, "swallowed coin"),
    (37, "coin too fast over validation sensor"),
    (38, "coin too slow over validation sensor"),
    (39, "coin incorrectly sorted"),
    (40, "external light attack"),
    (41, "its name isn't sure"),
    (253, "data block request"),
    (254, "coin return mechanism activated"),
    (255, "unspecified alarm code"),
];

/// The events of a bill acceptor that stand at place 0, and their names (ccTalk Generic
/// Specification 4, part 2, header 159). Code 21 isn't in every release, so its name isn't sure.
static BILL_EVENTS: [(u8, &str); 21] = [
    (1, "a held bill given back"),
    (2, "a bill not taken in"),
    (3, "invalid bill, by a transport problem"),
    (4, "inhibited bill, by a request"),
    (5, "inhibited bill, by a switch"),
    (6, "bill jammed in the transport, unsafe mode"),
    (7, "bill jammed in the stacker"),
    (8, "bill pulled backwards"),
    (9, "bill tamper"),
    (10, "stacker OK"),
    (11, "stacker removed"),
    (12, "stacker inserted"),
    (13, "stacker faulty"),
    (14, "stacker full"),
    (15, "stacker jammed"),
    (16, "bill jammed in the transport, safe mode"),
    (17, "opto fraud detected"),
    (18, "string fraud detected"),
    (19, "anti-string mechanism faulty"),
    (20, "barcode detected"),
    (21, "unknown bill type stacked; its name isn't sure"),
];

/// What the device takes whose events are read: the same pair says another thing of a bill than of
/// a coin.
#[derive(Clone, Copy)]
pub enum Taker {
    Coins,
    Bills,
}

impl Taker {
    /// What the device takes to which this request is sent, as far as the request shows: coins
    /// where it doesn't.
    pub(crate) fn of(request: Option<Request>) -> Taker {
        match request {
            Some(Request::ReadBills) => Taker::Bills,
            _ => Taker::Coins,
        }
    }
}

/// An event as people read it: a coin by place and path, a bill by place and where it is, an error
/// by its text, or none.
#[derive(Drop)]
pub(crate) struct Event(pub Pair, pub Taker);

impl fmt::Display for Event {
    fn fmt<W: fmt::Write>(&self, f: &mut fmt::Formatter<W>) -> fmt::Result {
        match (self.1, self.0) {
            (_, Pair { a: 0, b: 0 }) => f.write_str("no event"),
            (Taker::Coins, Pair { a: 0, b: code }) => write_error(code, f),
            (Taker::Coins, Pair { a: place, b: path }) => write!(f, "place {place} by path {path}"),
            (Taker::Bills, pair) => write_bill(pair, f),
        }
    }
}

/// Writes the event of a bill acceptor (`docs/SCRIPT.md`, "Bill acceptors").
fn write_bill<W: fmt::Write>(pair: Pair, f: &mut fmt::Formatter<W>) -> fmt::Result {
    match pair {
        Pair { a: 0, b: code } => match text_in(&BILL_EVENTS, code) {
            Some(text) => f.write_str(text),
            None => write!(f, "event {code}"),
        },
        Pair { a: place, b: 0 } => write!(f, "place {place} stacked"),
        Pair { a: place, b: 1 } => write!(f, "place {place} held"),
        Pair { a: place, b: code } => write!(f, "place {place} with {code}"),
    }
}

/// Writes an error by its code, and by its text where that is known. Codes 128 to 159 are an
/// inhibited coin of each of 32 types.
fn write_error<W: fmt::Write>(code: u8, f: &mut fmt::Formatter<W>) -> fmt::Result {
    if let 128..=159 = code {
        let kind = code - 127;
        return write!(f, "error {code} (inhibited coin of type {kind})");
    }
    match text_in(&ERRORS, code) {
        Some(text) => write!(f, "error {code} ({text})"),
        None => write!(f, "error {code}"),
    }
}

/// The text of a code in a table.
fn text_in(table: &'static [(u8, &'static str)], code: u8) -> Option<&'static str> {
    for (number, text) in table {
        if *number == code {
            return Some(*text);
        }
    }
    None
}
