//! The entry that a line of a transcript is.

use crate::change::change_line;
use crate::fields::{amount, byte, fields_of, number, one_byte, one_number, step_in, two_bytes};
use crate::record::record_in;
use crate::refusal::refusal_in;
use crate::said::fell_line;
use cct_model_lines::{Coin, Entry, MOST_HEARD, MOST_SENT, Sent, Step, Totals};
use cct_script::piece_in;

const WIRE: &[u8] = b"wire";

const PUT: &[u8] = b"put";

const KEPT: &[u8] = b"kept";

const RECORD: &[u8] = b"record";

const OK: &[u8] = b"ok";

const NO: &[u8] = b"no";

const FAULT: &[u8] = b"fault";

const ACCEPTED: &[u8] = b"accepted";

const HELD: &[u8] = b"held";

const INHIBITED: &[u8] = b"inhibited";

const ALIEN: &[u8] = b"alien";

const FELL: &[u8] = b"fell";

const NO_FALL: &[u8] = b"nofall";

const JAMMED: &[u8] = b"jammed";

const NO_JAM: &[u8] = b"nojam";

const RESET: &[u8] = b"reset";

const IDLE: &[u8] = b"idle";

const FORGED: &[u8] = b"forged";

const CRASH: &[u8] = b"crash";

const BALANCE: &[u8] = b"balance";

const TOTAL: &[u8] = b"total";

/// What a line of a transcript says, without its line feed (`docs/TRANSCRIPT.md`).
///
/// `None` for any other line, and for those of which there is no more to say: a refused line, the
/// faults of a file, and the sums of a load.
pub fn read_line(line: &[u8]) -> Option<Entry> {
    let fields = fields_of(line)?;
    let (word, rest) = fields.as_slice().split_first()?;
    let word = *word;
    match word {
        _ if word == WIRE => wire_line(rest),
        _ if word == OK => taken_line(line),
        _ if word == NO => refused_line(line),
        _ if word == FAULT => fault_line(line),
        _ => record_line(word, rest),
    }
}

/// A line that has a record after its word; or another line.
fn record_line(word: &[u8], rest: &[&[u8]]) -> Option<Entry> {
    match word {
        _ if word == PUT => Some(Entry::Put(record_in(rest)?)),
        _ if word == KEPT => Some(Entry::Kept(record_in(rest)?)),
        _ if word == RECORD => listing_line(rest),
        _ => device_line(word, rest),
    }
}

/// The line `wire A SENT HEARD`.
fn wire_line(rest: &[&[u8]]) -> Option<Entry> {
    match rest {
        [addr, sent, heard] => {
            let mut message = Sent::new();
            message.extend_from_slice(piece_in(MOST_SENT, sent)?.as_slice());
            Some(Entry::Wire {
                addr: byte(addr)?,
                sent: message,
                heard: piece_in(MOST_HEARD, heard)?,
            })
        }
        _ => None,
    }
}

/// The line `record INDEX RECORD` of a report.
fn listing_line(rest: &[&[u8]]) -> Option<Entry> {
    let (index, record) = rest.split_first()?;
    Some(Entry::Listing {
        index: number(index)?,
        entry: record_in(record)?,
    })
}

/// The line `ok COMMAND`: after its word stands the line of the command.
fn taken_line(line: &[u8]) -> Option<Entry> {
    match step_in(line.strip_prefix(b"ok ")?)? {
        Step::Command(command) => Some(Entry::Taken(command)),
        _ => None,
    }
}

/// The line `no COMMAND REASON`.
fn refused_line(line: &[u8]) -> Option<Entry> {
    let (command, why) = refusal_in(line.strip_prefix(b"no ")?)?;
    Some(Entry::No { command, why })
}

/// The line of a fault, which is that of the script.
fn fault_line(line: &[u8]) -> Option<Entry> {
    match step_in(line)? {
        Step::Fault(fault) => Some(Entry::Fault(fault)),
        _ => None,
    }
}

/// A line that says what happened to a device; or another line.
fn device_line(word: &[u8], rest: &[&[u8]]) -> Option<Entry> {
    match word {
        _ if word == ACCEPTED => accepted_line(rest),
        _ if word == HELD => held_line(rest),
        _ if word == INHIBITED => inhibited_line(rest),
        _ if word == ALIEN => Some(Entry::Alien {
            addr: one_byte(rest)?,
        }),
        _ if word == RESET => Some(Entry::Reset {
            addr: one_byte(rest)?,
        }),
        _ => hopper_line(word, rest),
    }
}

/// A line that says what happened to a hopper alone; or another line.
fn hopper_line(word: &[u8], rest: &[&[u8]]) -> Option<Entry> {
    match word {
        _ if word == FELL => fell_line(rest),
        _ if word == NO_FALL => Some(Entry::NoFall {
            addr: one_byte(rest)?,
        }),
        _ if word == JAMMED => Some(Entry::Jammed {
            addr: one_byte(rest)?,
        }),
        _ if word == NO_JAM => Some(Entry::NoJam {
            addr: one_byte(rest)?,
        }),
        _ => host_line(word, rest),
    }
}

/// The line `accepted A PLACE PATH`.
fn accepted_line(rest: &[&[u8]]) -> Option<Entry> {
    let (addr, coin) = rest.split_first()?;
    let addr = byte(addr)?;
    let (place, path) = two_bytes(coin)?;
    Some(Entry::Accepted {
        addr,
        coin: Coin { place, path },
    })
}

/// The line `held A PLACE`.
fn held_line(rest: &[&[u8]]) -> Option<Entry> {
    let (addr, place) = two_bytes(rest)?;
    Some(Entry::Held { addr, place })
}

/// The line `inhibited A PLACE`.
fn inhibited_line(rest: &[&[u8]]) -> Option<Entry> {
    let (addr, place) = two_bytes(rest)?;
    Some(Entry::Inhibited { addr, place })
}

/// A line that says what happened to the host, or what it has; or another line.
fn host_line(word: &[u8], rest: &[&[u8]]) -> Option<Entry> {
    match word {
        _ if word == IDLE => Some(Entry::Idle {
            addr: one_byte(rest)?,
        }),
        _ if word == FORGED => Some(Entry::Forged {
            addr: one_byte(rest)?,
        }),
        _ if word == CRASH => Some(Entry::Crash {
            records: one_number(rest)?,
        }),
        _ if word == BALANCE => balance_line(rest),
        _ if word == TOTAL => total_line(rest),
        _ => change_line(word, rest),
    }
}

/// The line `balance AVAILABLE RESERVED PAID SOLD`.
fn balance_line(rest: &[&[u8]]) -> Option<Entry> {
    let [available, reserved, paid, sold] = rest else {
        return None;
    };
    Some(Entry::Balance(Totals {
        available: amount(available)?,
        reserved: amount(reserved)?,
        paid: amount(paid)?,
        sold: amount(sold)?,
    }))
}

/// The line `total POSTED LOST PAID UNPAID SOLD` of a report.
fn total_line(rest: &[&[u8]]) -> Option<Entry> {
    let [posted, lost, paid, unpaid, sold] = rest else {
        return None;
    };
    Some(Entry::Total {
        posted: amount(posted)?,
        lost: amount(lost)?,
        paid: amount(paid)?,
        unpaid: amount(unpaid)?,
        sold: amount(sold)?,
    })
}
