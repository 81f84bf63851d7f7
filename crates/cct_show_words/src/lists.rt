//! Lists and runs of bytes, as people read them.

use cct_model_lines::{COIN_PLACES, Coin, has_place};
use std::fmt;

/// A number of things, with the word for one.
#[derive(Drop)]
pub(crate) struct Count(pub u64, pub &'static str);

impl fmt::Display for Count {
    fn fmt<W: fmt::Write>(&self, f: &mut fmt::Formatter<W>) -> fmt::Result {
        let number = self.0;
        let thing = self.1;
        match number {
            1 => write!(f, "1 {thing}"),
            _ => write!(f, "{number} {thing}s"),
        }
    }
}

/// Bytes in hexadecimal, without spaces.
#[derive(Drop)]
pub(crate) struct Hex<'b>(pub &'b [u8]);

impl fmt::Display for Hex<'_> {
    fn fmt<W: fmt::Write>(&self, f: &mut fmt::Formatter<W>) -> fmt::Result {
        for byte in self.0 {
            write!(f, "{byte:02x}")?;
        }
        Ok(())
    }
}

/// Addresses, joined by commas.
#[derive(Drop)]
pub(crate) struct Addresses<'b>(pub &'b [u8]);

impl fmt::Display for Addresses<'_> {
    fn fmt<W: fmt::Write>(&self, f: &mut fmt::Formatter<W>) -> fmt::Result {
        let mut comma = "";
        for addr in self.0 {
            write!(f, "{comma}{addr}")?;
            comma = ", ";
        }
        Ok(())
    }
}

/// Coins or bills, each by its place and path, joined by commas.
#[derive(Drop)]
pub(crate) struct CoinList<'c>(pub &'c [Coin]);

impl fmt::Display for CoinList<'_> {
    fn fmt<W: fmt::Write>(&self, f: &mut fmt::Formatter<W>) -> fmt::Result {
        let mut comma = "";
        for coin in self.0 {
            let Coin { place, path } = *coin;
            write!(f, "{comma}place {place} by path {path}")?;
            comma = ", ";
        }
        Ok(())
    }
}

/// The places of an inhibit mask, of coins or of bills, those that are to be accepted.
#[derive(Drop)]
pub(crate) struct Places(pub u16);

impl fmt::Display for Places {
    fn fmt<W: fmt::Write>(&self, f: &mut fmt::Formatter<W>) -> fmt::Result {
        match self.0 {
            0 => f.write_str("no place"),
            u16::MAX => f.write_str("all 16 places"),
            mask => write_places(mask, f),
        }
    }
}

/// Writes the places of a mask, joined by commas.
fn write_places<W: fmt::Write>(mask: u16, f: &mut fmt::Formatter<W>) -> fmt::Result {
    let mut before = match mask.count_ones() {
        1 => "place ",
        _ => "places ",
    };
    for place in 1..=COIN_PLACES as u8 {
        if has_place(mask, place) {
            write!(f, "{before}{place}")?;
            before = ", ";
        }
    }
    Ok(())
}
