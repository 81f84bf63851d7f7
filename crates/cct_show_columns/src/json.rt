//! A line as an object of JSON (RFC 8259), in one line.

use crate::cell::{Cell, cell_of, write_seconds};
use crate::column::COLUMNS;
use crate::quoted::{Quoting, write_quoted, write_said};
use crate::row::Line;
use std::fmt;

/// A line as an object, with its line feed. A column that the line hasn't is left out, and one that
/// has no value is null.
#[derive(Clone, Copy)]
pub struct JsonRow<'l>(pub Line<'l>);

impl fmt::Display for JsonRow<'_> {
    fn fmt<W: fmt::Write>(&self, f: &mut fmt::Formatter<W>) -> fmt::Result {
        f.write_str("{")?;
        let mut is_first = true;
        for name in COLUMNS.split(',') {
            let value = cell_of(&self.0, name);
            if let Cell::Nothing = value {
                continue;
            }
            write_comma(is_first, f)?;
            write!(f, "\"{name}\":")?;
            write_value(value, f)?;
            is_first = false;
        }
        f.write_str("}\n")
    }
}

/// Writes the value of a column.
fn write_value<W: fmt::Write>(value: Cell<'_>, f: &mut fmt::Formatter<W>) -> fmt::Result {
    match value {
        Cell::Nothing | Cell::Empty => f.write_str("null"),
        Cell::Count(number) => write!(f, "{number}"),
        Cell::Seconds(micros) => write_seconds(micros, f),
        Cell::Number(digits) => f.write_str(digits),
        Cell::Text(text) => write_quoted(text, Quoting::Json, f),
        Cell::Coins(coins) => write_coins(coins, f),
        Cell::Devices(devices) => write_devices(devices, f),
        Cell::Said(said) => write_said(said, Quoting::Json, f),
    }
}

/// Writes coins as a list of objects, with their place and path.
fn write_coins<W: fmt::Write>(list: &str, f: &mut fmt::Formatter<W>) -> fmt::Result {
    f.write_str("[")?;
    let mut is_first = true;
    for coin in list.split(',') {
        if let Some((place, path)) = coin.split_once('/') {
            write_comma(is_first, f)?;
            write!(f, "{{\"place\":{place},\"path\":{path}}}")?;
            is_first = false;
        }
    }
    f.write_str("]")
}

/// Writes devices as a list of objects, with their address and check.
fn write_devices<W: fmt::Write>(list: &str, f: &mut fmt::Formatter<W>) -> fmt::Result {
    f.write_str("[")?;
    let mut is_first = true;
    for device in list.split(',') {
        if let Some((address, check)) = device.split_once('/') {
            write_comma(is_first, f)?;
            write!(f, "{{\"address\":{address},\"check_kind\":\"{check}\"}}")?;
            is_first = false;
        }
    }
    f.write_str("]")
}

/// Writes what is between two values.
fn write_comma<W: fmt::Write>(is_first: bool, f: &mut fmt::Formatter<W>) -> fmt::Result {
    f.write_str(if is_first { "" } else { "," })
}
