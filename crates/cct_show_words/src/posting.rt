//! What a record means.

use crate::lists::{CoinList, Count, Places};
use cct_model_lines::{Coins, Record};
use std::fmt;

/// A record in a sentence.
#[derive(Drop)]
pub(crate) struct Means<'r>(pub &'r Record);

impl fmt::Display for Means<'_> {
    fn fmt<W: fmt::Write>(&self, f: &mut fmt::Formatter<W>) -> fmt::Result {
        match self.0 {
            Record::Epoch {
                addr,
                mask,
                accepts,
            } => {
                let places = Places(*mask);
                write!(
                    f,
                    "an epoch begins: acceptor {addr}, whose accept counter is {accepts}, is to accept {places}"
                )
            }
            Record::EpochEnd { addr } => write!(f, "the epoch of acceptor {addr} ends"),
            _ => write_reading(self.0, f),
        }
    }
}

/// Writes the record of a reading or a break, an order or a sale.
fn write_reading<W: fmt::Write>(record: &Record, f: &mut fmt::Formatter<W>) -> fmt::Result {
    match record {
        Record::Reading {
            addr,
            lost,
            accepts,
            posted,
            ..
        } => {
            write!(f, "acceptor {addr}: ")?;
            write_coins(posted, *accepts, *lost, f)
        }
        Record::Broken {
            addr,
            lost,
            accepts,
            posted,
            ..
        } => {
            write!(
                f,
                "acceptor {addr} was reset or is not set as it was, which ends its epoch: "
            )?;
            write_coins(posted, *accepts, *lost, f)
        }
        _ => write_order(record, f),
    }
}

/// Writes the record of an order or a sale.
fn write_order<W: fmt::Write>(record: &Record, f: &mut fmt::Formatter<W>) -> fmt::Result {
    match record {
        Record::Opened {
            id,
            addr,
            count,
            life,
        } => {
            let coins = Count(u64::from(*count), "coin");
            write!(
                f,
                "order {id} is opened: hopper {addr}, whose life count is {life}, is to pay {coins}"
            )
        }
        _ => write_end(record, f),
    }
}

/// Writes the record that ends an order or a sale.
fn write_end<W: fmt::Write>(record: &Record, f: &mut fmt::Formatter<W>) -> fmt::Result {
    match record {
        Record::Closed { id, paid, unpaid } => {
            write!(
                f,
                "order {id} is closed: {paid} of its coins fell, and {unpaid} did not"
            )
        }
        Record::Odd {
            id,
            life_before,
            life_after,
        } => write!(
            f,
            "order {id} is closed with life counts that do not fit it, {life_before} and then {life_after}"
        ),
        Record::Sold { id, price } => write!(f, "sale {id}: something was sold at {price}"),
        _ => Ok(()),
    }
}

/// Writes the coins or bills that a record posts, and how many more it reports as lost, by the
/// accept counter that was read.
fn write_coins<W: fmt::Write>(
    posted: &Coins,
    accepts: u32,
    lost: u32,
    f: &mut fmt::Formatter<W>,
) -> fmt::Result {
    write_posted(posted, f)?;
    write!(f, "; the accept counter is {accepts}: ")?;
    match lost {
        0 => f.write_str("none is lost"),
        1 => f.write_str("1 more came in and is lost"),
        _ => write!(f, "{lost} more came in and are lost"),
    }
}

/// Writes the coins or bills that a record posts.
fn write_posted<W: fmt::Write>(posted: &Coins, f: &mut fmt::Formatter<W>) -> fmt::Result {
    let coins = CoinList(posted.as_slice());
    match posted.as_slice().len() {
        0 => f.write_str("none is posted"),
        1 => write!(f, "1 came in and is posted, {coins}"),
        count => write!(f, "{count} came in and are posted, {coins}"),
    }
}
