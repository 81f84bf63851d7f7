//! The lines of a monitor.

use crate::ends::end_line;
use crate::fields::{byte, coins, number};
use crate::lists::{CoinList, Count};
use cct_model_lines::{Coins, Entry, Said};
use std::fmt;

const SURE: &[u8] = b"sure";

const DOUBT: &[u8] = b"doubt";

/// A line that says of an acceptor which coins it took between two taps; or another line.
pub(crate) fn said_line(word: &[u8], rest: &[&[u8]]) -> Option<Entry> {
    match word {
        _ if word == SURE => sure_line(rest),
        _ if word == DOUBT => doubt_line(rest),
        _ => end_line(word, rest),
    }
}

/// The line `sure A FIRST LAST COINS`.
fn sure_line(rest: &[&[u8]]) -> Option<Entry> {
    let [addr, first, last, posted] = rest else {
        return None;
    };
    Some(Entry::Said(Said::Sure {
        addr: byte(addr)?,
        first: number(first)?,
        last: number(last)?,
        coins: coins(posted)?,
    }))
}

/// The line `doubt A FIRST LAST`.
fn doubt_line(rest: &[&[u8]]) -> Option<Entry> {
    let [addr, first, last] = rest else {
        return None;
    };
    Some(Entry::Said(Said::Doubt {
        addr: byte(addr)?,
        first: number(first)?,
        last: number(last)?,
    }))
}

/// The line `fell A` of a coin that fell, or `fell A FIRST LAST COUNT` of a monitor.
pub(crate) fn fell_line(rest: &[&[u8]]) -> Option<Entry> {
    match rest {
        [addr] => Some(Entry::Fell { addr: byte(addr)? }),
        [addr, first, last, count] => Some(Entry::Said(Said::Fell {
            addr: byte(addr)?,
            first: number(first)?,
            last: number(last)?,
            count: number(count)?,
        })),
        _ => None,
    }
}

/// Writes what a monitor's line says.
pub(crate) fn write_said<W: fmt::Write>(said: &Said, f: &mut fmt::Formatter<W>) -> fmt::Result {
    match said {
        Said::Sure {
            addr,
            first,
            last,
            coins,
        } => {
            write!(f, "    acceptor {addr}, from tap {first} to tap {last}: ")?;
            write_sure(coins, f)
        }
        Said::Doubt { addr, first, last } => write!(
            f,
            "    acceptor {addr}, from tap {first} to tap {last}: which coins it accepted is not sure\n"
        ),
        Said::Fell {
            addr,
            first,
            last,
            count,
        } => {
            let fallen = Count(u64::from(*count), "coin");
            write!(
                f,
                "    hopper {addr}, from tap {first} to tap {last}: {fallen} fell\n"
            )
        }
    }
}

/// Writes the coins that were surely accepted, oldest first.
fn write_sure<W: fmt::Write>(posted: &Coins, f: &mut fmt::Formatter<W>) -> fmt::Result {
    let list = CoinList(posted.as_slice());
    match posted.as_slice().len() {
        0 => f.write_str("it accepted no coin\n"),
        _ => write!(f, "it accepted {list}\n"),
    }
}
