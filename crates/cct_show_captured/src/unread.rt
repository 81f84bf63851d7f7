//! The lines of a log that weren't understood.

use crate::numbers::LineNumbers;
use std::fmt;
use std::fmt::Write;

/// What is said of bytes that are no text.
const NO_TEXT: &str =
    "cct_show: some lines have bytes that no text has; if the file has the bytes of the wire themselves, write xxd -p FILE | cct_show ..\n";

/// The words of a capture's lines without an exchange.
const OTHER_WORDS: &[&[u8]] = &[b"watch", b"begin", b"end"];

/// The lines of a log so far, and those of them that weren't understood.
#[derive(Drop)]
pub struct Unread {
    /// The number of the last line.
    pub line: u64,
    /// How many lines were understood as a log's.
    pub read: u64,
    /// Those that weren't.
    others: LineNumbers,
    /// Whether one of these has a byte 0, which no text has.
    has_zeros: bool,
}

impl Unread {
    /// No line.
    pub fn new() -> Unread {
        Unread {
            line: 0,
            read: 0,
            others: LineNumbers::new(),
            has_zeros: false,
        }
    }

    /// Counts one more line.
    pub fn next_line(&mut self) {
        self.line = self.line.saturating_add(1);
    }

    /// Counts the last line as one that was understood as a log's.
    pub fn take(&mut self) {
        self.read = self.read.saturating_add(1);
    }

    /// Counts the last line as one that wasn't understood, unless it is empty, or one that a
    /// capture has.
    pub fn pass_over(&mut self, line: &[u8]) {
        if !is_other_line(line) {
            self.has_zeros |= line.contains(&0);
            self.others.add(self.line);
        }
    }

    /// Whether a tenth of the lines, or more, wasn't understood.
    pub fn is_much(&self) -> bool {
        let count = self.others.count;
        count != 0 && count.saturating_mul(10) >= self.read.saturating_add(count)
    }

    /// Notes which lines weren't understood, if there are any.
    pub fn tell<W: Write>(&self, notes: &mut W) -> fmt::Result {
        if self.others.count == 0 {
            return Ok(());
        }
        write!(notes, "cct_show: {self}\n")?;
        self.tell_zeros(notes)
    }

    /// Notes that a line that wasn't understood has a byte that no text has, if one has.
    pub fn tell_zeros<W: Write>(&self, notes: &mut W) -> fmt::Result {
        if self.has_zeros {
            notes.write_str(NO_TEXT)?;
        }
        Ok(())
    }
}

impl fmt::Display for Unread {
    fn fmt<W: fmt::Write>(&self, f: &mut fmt::Formatter<W>) -> fmt::Result {
        let line = self.line;
        let others = &self.others;
        match others.count {
            1 => write!(f, "1 line is no line of a log, and is left out: {others}"),
            count => write!(
                f,
                "{count} of {line} lines are no lines of a log, and are left out: {others}"
            ),
        }
    }
}

/// Whether a line is one of a capture's without an exchange, or has no byte.
pub fn is_other_line(line: &[u8]) -> bool {
    match line.split(|byte| *byte == b' ').next() {
        Some(word) => word.is_empty() || OTHER_WORDS.contains(&word),
        None => true,
    }
}
