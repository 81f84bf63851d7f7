//! The forms `csv` and `json`: each line as a row of named columns.

use crate::lines::{LineSink, read_lines};
use crate::put_buffer::PutBuffer;
use crate::status::{Status, Stop};
use crate::words::Words;
use arrayvec::ArrayString;
use cct_edge::{Sink, Source};
use cct_show_columns::{CsvHeading, CsvRow, JsonRow, Line, Row, Rows};
use cct_show_log_line::after_time;
use cct_show_words::{Told, read_line};
use std::fmt::{self, Write};

/// How many bytes there are for what a line says.
const MOST_WORDS: usize = 8192;

/// What is said of a line that is longer than a line of a transcript.
const LONG: &str = "    a line of more than 3000 bytes\n";

/// As what a line is written.
#[derive(Clone, Copy)]
pub enum RowForm {
    /// A row, below a heading.
    Csv,
    /// An object.
    Json,
}

/// Rows on their way to a sink.
#[derive(Drop)]
struct RowLines<'k, K> {
    out: PutBuffer<'k, K>,
    form: RowForm,
    rows: Rows,
    lines: u64,
    taps: u64,
    /// Whether some line says anything.
    is_told: bool,
}

/// Writes a row for each line of a source, by one put.
pub fn show_rows<S: Source, K: Sink>(form: RowForm, source: &mut S, out: &mut K) -> Status {
    let mut rows = RowLines {
        out: PutBuffer::new(out),
        form,
        rows: Rows::new(),
        lines: 0,
        taps: 0,
        is_told: false,
    };
    match Status::of(rows.show(source)).or_empty(rows.lines) {
        Status::Done if !rows.is_told => Status::NoRows,
        status => status,
    }
}

impl<K: Sink> RowLines<'_, K> {
    /// Writes the heading, where the form has one, and the rows.
    fn show<S: Source>(&mut self, source: &mut S) -> Result<(), Stop> {
        if let RowForm::Csv = self.form {
            let heading = CsvHeading;
            write!(self.out, "{heading}")?;
            self.out.write_out()?;
        }
        read_lines(source, self)
    }

    /// The number of the next line.
    fn next_number(&mut self) -> u64 {
        self.lines = self.lines.saturating_add(1);
        self.lines
    }

    /// The number of the next line among the taps of a capture, where it is one.
    fn next_tap(&mut self, row: &Row<'_>) -> Option<u64> {
        if row.kind() != "tap" {
            return None;
        }
        self.taps = self.taps.saturating_add(1);
        Some(self.taps)
    }

    /// Writes the row of a line.
    fn write_row(&mut self, line: &Line<'_>) -> Result<(), Stop> {
        match self.form {
            RowForm::Csv => {
                let row = CsvRow(*line);
                write!(self.out, "{row}")?;
            }
            RowForm::Json => {
                let row = JsonRow(*line);
                write!(self.out, "{row}")?;
            }
        }
        self.out.write_out()?;
        Ok(())
    }
}

impl<K: Sink> LineSink for RowLines<'_, K> {
    fn line(&mut self, line: &[u8]) -> Result<(), Stop> {
        let line = text_of(line.strip_suffix(b"\r").unwrap_or(line));
        let (time, rest) = after_time(line.as_bytes());
        let rest = text_of(rest);
        let row = self.rows.read(rest);
        let number = self.next_number();
        let tap = self.next_tap(&row);
        let said = said_of(&row, rest);
        self.is_told |= !said.is_empty();
        self.write_row(&Line {
            number,
            time: line.strip_suffix(rest).unwrap_or("").trim_ascii(),
            micros: time.map(|time| time.micros),
            tap,
            row: &row,
            said: said.as_str(),
        })
    }

    fn part(&mut self, _bytes: &[u8]) -> Result<(), Stop> {
        Ok(())
    }

    fn end(&mut self) -> Result<(), Stop> {
        let row = self.rows.read("");
        let number = self.next_number();
        self.write_row(&Line {
            number,
            time: "",
            micros: None,
            tap: None,
            row: &row,
            said: LONG,
        })
    }
}

/// The text that bytes are, or what stands of it before the first byte that is no text.
fn text_of(bytes: &[u8]) -> &str {
    match bytes.utf8_chunks().next() {
        Some(chunk) => chunk.valid(),
        None => "",
    }
}

/// What a line says, as `text` has it.
fn said_of(row: &Row<'_>, line: &str) -> ArrayString<MOST_WORDS> {
    let mut said = ArrayString::new();
    // There is room for what any line says.
    let _ = match Words::of(row, line.as_bytes()) {
        Some(words) => write!(said, "{words}"),
        None => write_tap(line, &mut said),
    };
    said
}

/// Writes what a tap of a capture says, as the line of an exchange with its fields does; nothing of
/// another line.
fn write_tap<W: Write>(line: &str, said: &mut W) -> fmt::Result {
    let Some(fields) = line.strip_prefix("tap ") else {
        return Ok(());
    };
    let mut wire: ArrayString<MOST_WORDS> = ArrayString::new();
    write!(wire, "wire 0 {fields}")?;
    match read_line(wire.as_bytes()) {
        Some(entry) => {
            let told = Told(&entry);
            write!(said, "{told}")
        }
        None => Ok(()),
    }
}
