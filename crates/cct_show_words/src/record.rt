//! The record that the fields of a line spell.

use crate::fields::{byte, coins, mask, number, one_byte};
use cct_model_lines::Record;

const EPOCH: &[u8] = b"epoch";

const READING: &[u8] = b"reading";

const BROKEN: &[u8] = b"broken";

const EPOCH_END: &[u8] = b"epochend";

const OPENED: &[u8] = b"opened";

const CLOSED: &[u8] = b"closed";

const ODD: &[u8] = b"odd";

const SOLD: &[u8] = b"sold";

/// The record that fields spell, as they stand after `put` (`docs/TRANSCRIPT.md`).
pub(crate) fn record_in(fields: &[&[u8]]) -> Option<Record> {
    let (word, rest) = fields.split_first()?;
    let word = *word;
    match word {
        _ if word == EPOCH => epoch_in(rest),
        _ if word == READING => reading_in(rest),
        _ if word == BROKEN => broken_in(rest),
        _ if word == EPOCH_END => epoch_end_in(rest),
        _ => order_in(word, rest),
    }
}

/// The record of an order or a sale that a word and the fields after it spell.
fn order_in(word: &[u8], rest: &[&[u8]]) -> Option<Record> {
    match word {
        _ if word == OPENED => opened_in(rest),
        _ if word == CLOSED => closed_in(rest),
        _ if word == ODD => odd_in(rest),
        _ if word == SOLD => sold_in(rest),
        _ => None,
    }
}

/// The fields `A MASK ACCEPTS` of a begun epoch.
fn epoch_in(rest: &[&[u8]]) -> Option<Record> {
    let [addr, wanted, accepts] = rest else {
        return None;
    };
    Some(Record::Epoch {
        addr: byte(addr)?,
        mask: mask(wanted)?,
        accepts: number(accepts)?,
    })
}

/// The fields `A COUNTER LOST ACCEPTS COINS` of a reading.
fn reading_in(rest: &[&[u8]]) -> Option<Record> {
    let [addr, counter, lost, accepts, posted] = rest else {
        return None;
    };
    Some(Record::Reading {
        addr: byte(addr)?,
        counter: byte(counter)?,
        lost: number(lost)?,
        accepts: number(accepts)?,
        posted: coins(posted)?,
    })
}

/// The fields `A MASK COUNTER LOST ACCEPTS COINS` of a break.
fn broken_in(rest: &[&[u8]]) -> Option<Record> {
    let [addr, seen, counter, lost, accepts, posted] = rest else {
        return None;
    };
    Some(Record::Broken {
        addr: byte(addr)?,
        mask_seen: mask(seen)?,
        counter: byte(counter)?,
        lost: number(lost)?,
        accepts: number(accepts)?,
        posted: coins(posted)?,
    })
}

/// The field `A` of an epoch that ends.
fn epoch_end_in(rest: &[&[u8]]) -> Option<Record> {
    Some(Record::EpochEnd {
        addr: one_byte(rest)?,
    })
}

/// The fields `ORDER A COUNT LIFE` of an order that is opened.
fn opened_in(rest: &[&[u8]]) -> Option<Record> {
    let [id, addr, count, life] = rest else {
        return None;
    };
    Some(Record::Opened {
        id: number(id)?,
        addr: byte(addr)?,
        count: byte(count)?,
        life: number(life)?,
    })
}

/// The fields `ORDER PAID UNPAID` of an order that is closed.
fn closed_in(rest: &[&[u8]]) -> Option<Record> {
    let [id, paid, unpaid] = rest else {
        return None;
    };
    Some(Record::Closed {
        id: number(id)?,
        paid: byte(paid)?,
        unpaid: byte(unpaid)?,
    })
}

/// The fields `ORDER BEFORE AFTER` of an order that is closed with life counts that don't fit it.
fn odd_in(rest: &[&[u8]]) -> Option<Record> {
    let [id, before, after] = rest else {
        return None;
    };
    Some(Record::Odd {
        id: number(id)?,
        life_before: number(before)?,
        life_after: number(after)?,
    })
}

/// The fields `SALE PRICE` of a sale.
fn sold_in(rest: &[&[u8]]) -> Option<Record> {
    let [id, price] = rest else {
        return None;
    };
    Some(Record::Sold {
        id: number(id)?,
        price: number(price)?,
    })
}
