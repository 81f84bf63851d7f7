//! The lines of a session of change.

use crate::fields::{byte, number, one_number};
use crate::lists::Count;
use crate::said::said_line;
use cct_model_lines::Entry;
use std::fmt;

const STOCK: &[u8] = b"stock";

const CHANGE: &[u8] = b"change";

const SERVE: &[u8] = b"serve";

const SERVED: &[u8] = b"served";

const SHORT: &[u8] = b"short";

const OK: &[u8] = b"ok";

const NO: &[u8] = b"no";

const BUSY: &[u8] = b"busy";

const IDLE: &[u8] = b"idle";

const WAIT: &[u8] = b"wait";

const ODD: &[u8] = b"odd";

/// A line that the operator's desk writes; or another line.
pub(crate) fn change_line(word: &[u8], rest: &[&[u8]]) -> Option<Entry> {
    match word {
        _ if word == STOCK => stock_line(rest),
        _ if word == CHANGE => begun_line(rest),
        _ if word == SERVE => serve_line(rest),
        _ if word == SERVED => Some(Entry::Served {
            amount: one_number(rest)?,
        }),
        _ if word == SHORT => short_line(rest),
        _ => said_line(word, rest),
    }
}

/// The line `stock A COUNT`.
fn stock_line(rest: &[&[u8]]) -> Option<Entry> {
    match rest {
        [addr, count] => Some(Entry::Stock {
            addr: byte(addr)?,
            count: number(count)?,
        }),
        _ => None,
    }
}

/// The line `change ok FIRST AMOUNT` or `change no busy`.
fn begun_line(rest: &[&[u8]]) -> Option<Entry> {
    match rest {
        [what, first, amount] if *what == OK => Some(Entry::ChangeOk {
            first: number(first)?,
            amount: number(amount)?,
        }),
        [what, why] if *what == NO && *why == BUSY => Some(Entry::ChangeNo),
        _ => None,
    }
}

/// The line `serve idle`, `serve wait A` or `serve odd ORDER`.
fn serve_line(rest: &[&[u8]]) -> Option<Entry> {
    match rest {
        [what] if *what == IDLE => Some(Entry::ServeIdle),
        [what, addr] if *what == WAIT => Some(Entry::ServeWait { addr: byte(addr)? }),
        [what, id] if *what == ODD => Some(Entry::ServeOdd { id: number(id)? }),
        _ => None,
    }
}

/// The line `short PAID REST`.
fn short_line(rest: &[&[u8]]) -> Option<Entry> {
    match rest {
        [paid, rest] => Some(Entry::Short {
            paid: number(paid)?,
            rest: number(rest)?,
        }),
        _ => None,
    }
}

/// Writes what a line of a session means; nothing of any other entry.
pub(crate) fn write_change<W: fmt::Write>(entry: &Entry, f: &mut fmt::Formatter<W>) -> fmt::Result {
    match entry {
        Entry::Stock { addr, count } => {
            let coins = Count(u64::from(*count), "coin");
            write!(f, "    the operator counts {coins} in hopper {addr}\n")
        }
        Entry::ChangeOk { first, amount } => write!(
            f,
            "    a session of change begins: {amount} is to be paid, and its first payment has the id {first}\n"
        ),
        Entry::ChangeNo => f.write_str("    refused, since a session of change runs\n"),
        Entry::ServeIdle => f.write_str("    no session of change runs\n"),
        _ => write_served(entry, f),
    }
}

/// Writes how a session goes on, or how it ended.
fn write_served<W: fmt::Write>(entry: &Entry, f: &mut fmt::Formatter<W>) -> fmt::Result {
    match entry {
        Entry::ServeWait { addr } => write!(
            f,
            "    the session's payment at hopper {addr} is at work, or its order is open\n"
        ),
        Entry::ServeOdd { id } => write!(
            f,
            "    the session is over: the life counts do not fit its order {id}, and what the hopper paid is to be counted\n"
        ),
        Entry::Served { amount } => {
            write!(f, "    the session is over: all of {amount} is paid\n")
        }
        Entry::Short { paid, rest } => write!(
            f,
            "    the session is over: {paid} is paid, and {rest} is still owed\n"
        ),
        _ => Ok(()),
    }
}
