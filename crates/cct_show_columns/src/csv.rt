//! A line as a row of CSV (RFC 4180). Rows end with a line feed alone.

use crate::cell::{Cell, cell_of, write_seconds};
use crate::column::COLUMNS;
use crate::quoted::{Quoting, write_quoted, write_said};
use crate::row::Line;
use std::fmt;

/// The heading: the names of all columns, with its line feed.
#[derive(Clone, Copy)]
pub struct CsvHeading;

impl fmt::Display for CsvHeading {
    fn fmt<W: fmt::Write>(&self, f: &mut fmt::Formatter<W>) -> fmt::Result {
        f.write_str(COLUMNS)?;
        f.write_str("\n")
    }
}

/// A line as a row, with its line feed. A column that the line hasn't, or has no value in, is
/// empty.
#[derive(Clone, Copy)]
pub struct CsvRow<'l>(pub Line<'l>);

impl fmt::Display for CsvRow<'_> {
    fn fmt<W: fmt::Write>(&self, f: &mut fmt::Formatter<W>) -> fmt::Result {
        let mut is_first = true;
        for name in COLUMNS.split(',') {
            f.write_str(if is_first { "" } else { "," })?;
            write_cell(cell_of(&self.0, name), f)?;
            is_first = false;
        }
        f.write_str("\n")
    }
}

/// Writes what is in a column.
fn write_cell<W: fmt::Write>(cell: Cell<'_>, f: &mut fmt::Formatter<W>) -> fmt::Result {
    match cell {
        Cell::Nothing | Cell::Empty => Ok(()),
        Cell::Count(number) => write!(f, "{number}"),
        Cell::Seconds(micros) => write_seconds(micros, f),
        Cell::Number(digits) => f.write_str(digits),
        Cell::Text(text) | Cell::Coins(text) | Cell::Devices(text) => write_text(text, f),
        Cell::Said(said) => write_said(said, Quoting::Csv, f),
    }
}

/// Writes a text, between quotes where it has anything but printing characters of ASCII, a comma or
/// a quote.
fn write_text<W: fmt::Write>(text: &str, f: &mut fmt::Formatter<W>) -> fmt::Result {
    if text.bytes().all(is_plain) {
        f.write_str(text)
    } else {
        write_quoted(text, Quoting::Csv, f)
    }
}

/// Whether a byte needs no quotes around its text.
fn is_plain(byte: u8) -> bool {
    byte.is_ascii_graphic() && byte != b',' && byte != b'"'
}
