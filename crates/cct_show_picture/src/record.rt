//! What is written of a record.

use crate::element::{push_numbered, push_pair};
use crate::worth::Worths;
use cct_edge::Sink;
use cct_model_lines::{Coins, Record};
use cct_show_pen::Pen;

/// Writes a record.
pub(crate) fn write_record<K: Sink>(pen: &mut Pen<'_, K>, worths: &Worths, record: &Record) {
    match record {
        Record::Epoch { addr, .. } => push_numbered(pen, b"epoch of ", *addr, b" begins"),
        Record::Reading {
            addr,
            lost,
            posted,
            ..
        } => write_coins(pen, worths, b"posted of ", *addr, posted, *lost),
        Record::Broken {
            addr,
            lost,
            posted,
            ..
        } => write_coins(pen, worths, b"break, posted of ", *addr, posted, *lost),
        Record::EpochEnd { addr } => push_numbered(pen, b"epoch of ", *addr, b" ends"),
        Record::Sold { id, price } => push_pair(pen, b"sale ", *id, b" at ", *price, b""),
        _ => write_order(pen, record),
    }
}

/// Writes the record of an order.
fn write_order<K: Sink>(pen: &mut Pen<'_, K>, record: &Record) {
    match record {
        Record::Opened {
            id,
            addr,
            count,
            ..
        } => {
            push_numbered(pen, b"order ", *id, b" opened");
            push_pair(pen, b" at ", *addr, b": ", *count, coins_of(*count));
        }
        Record::Closed { id, paid, unpaid } => {
            push_numbered(pen, b"order ", *id, b" closed: ");
            push_pair(pen, b"", *paid, b" paid, ", *unpaid, b" unpaid");
        }
        Record::Odd { id, .. } => push_numbered(pen, b"order ", *id, b" closed, odd life counts"),
        _ => {}
    }
}

/// What so many coins are called, after a space.
fn coins_of(count: u8) -> &'static [u8] {
    match count {
        1 => b" coin",
        _ => b" coins",
    }
}

/// Writes the coins that a record posts, with their worth where it is reported, and how many more
/// it reports as lost.
fn write_coins<K: Sink>(
    pen: &mut Pen<'_, K>,
    worths: &Worths,
    word: &[u8],
    addr: u8,
    posted: &Coins,
    lost: u32,
) {
    push_numbered(pen, word, addr, b":");
    if posted.as_slice().is_empty() {
        pen.push(b" none");
    }
    for coin in posted.as_slice() {
        push_pair(pen, b" ", coin.place, b"/", coin.path, b"");
        worths.write(pen, addr, coin.place);
    }
    if lost > 0 {
        push_numbered(pen, b", ", lost, b" lost");
    }
}
