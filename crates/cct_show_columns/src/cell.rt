//! What a row shows in a column.

use crate::column::{ColumnKind, kind_of};
use crate::form::NONE;
use crate::row::{Line, Row};
use std::fmt;

/// The place of the destination in a message, under either check (ccTalk Generic Specification 4,
/// part 1).
const DESTINATION: usize = 0;

/// The place of the header.
const HEADER: usize = 3;

/// What a row shows in a column.
#[derive(Clone, Copy)]
pub(crate) enum Cell<'l> {
    /// The line has no such value.
    Nothing,
    /// The line has a hyphen there: no value.
    Empty,
    /// A number that is counted.
    Count(u64),
    /// Millionths of a second, as seconds.
    Seconds(u64),
    /// A number as it is in the line.
    Number(&'l str),
    Text(&'l str),
    /// Coins, joined by commas; empty where there are none.
    Coins(&'l str),
    /// Devices, joined by commas; empty where there are none.
    Devices(&'l str),
    /// What the line says, in lines that are indented by four spaces.
    Said(&'l str),
}

/// What a line shows in the column of this name.
pub(crate) fn cell_of<'l>(line: &Line<'l>, name: &str) -> Cell<'l> {
    match name {
        "line" => Cell::Count(line.number),
        "time" => text_shown(line.time),
        "seconds" => seconds_shown(line.micros),
        "kind" => text_shown(line.row.kind),
        "what" => text_shown(line.row.what),
        "tap" => count_shown(line.tap),
        "text" => said_shown(line.said),
        _ => value_shown(line.row, name),
    }
}

/// A text, where it isn't empty.
fn text_shown(text: &str) -> Cell<'_> {
    if text.is_empty() {
        Cell::Nothing
    } else {
        Cell::Text(text)
    }
}

/// What a line says, where it isn't empty.
fn said_shown(said: &str) -> Cell<'_> {
    if said.is_empty() {
        Cell::Nothing
    } else {
        Cell::Said(said)
    }
}

/// A number that was counted, where there is one.
fn count_shown(count: Option<u64>) -> Cell<'static> {
    match count {
        Some(count) => Cell::Count(count),
        None => Cell::Nothing,
    }
}

/// A time, where there is one.
fn seconds_shown(micros: Option<u64>) -> Cell<'static> {
    match micros {
        Some(micros) => Cell::Seconds(micros),
        None => Cell::Nothing,
    }
}

/// What the line of a row has in a column, or what is counted by what it has.
fn value_shown<'l>(row: &Row<'l>, name: &str) -> Cell<'l> {
    match row.value(name) {
        Some(text) => value_of(text, name),
        None => match name {
            "address" => count_shown(byte_sent(row, DESTINATION)),
            "header" => count_shown(byte_sent(row, HEADER)),
            "posted" => count_shown(coins_counted(row)),
            _ => Cell::Nothing,
        },
    }
}

/// A value of this column by its text.
fn value_of<'l>(text: &'l str, name: &str) -> Cell<'l> {
    let is_none = text == NONE;
    match kind_of(name) {
        ColumnKind::Coins => Cell::Coins(if is_none { "" } else { text }),
        ColumnKind::Devices => Cell::Devices(if is_none { "" } else { text }),
        ColumnKind::Number | ColumnKind::Text if is_none => Cell::Empty,
        ColumnKind::Number => Cell::Number(text),
        ColumnKind::Text => Cell::Text(text),
    }
}

/// The byte at this place of what was sent, counted from 0.
fn byte_sent(row: &Row<'_>, place: usize) -> Option<u64> {
    let digits = row.value("sent")?.as_bytes().chunks(2).nth(place)?;
    let mut byte = [0; 1];
    hex::decode_to_slice(digits, &mut byte).ok()?;
    Some(u64::from(byte[0]))
}

/// How many coins or bills a row lists.
fn coins_counted(row: &Row<'_>) -> Option<u64> {
    let coins = row.value("coins")?;
    if coins == NONE {
        return Some(0);
    }
    let mut count = 0u64;
    for _ in coins.split(',') {
        count = count.saturating_add(1);
    }
    Some(count)
}

/// Writes millionths of a second as seconds.
pub(crate) fn write_seconds<W: fmt::Write>(micros: u64, f: &mut fmt::Formatter<W>) -> fmt::Result {
    let seconds = micros / 1_000_000;
    let fraction = micros % 1_000_000;
    write!(f, "{seconds}.{fraction:06}")
}
