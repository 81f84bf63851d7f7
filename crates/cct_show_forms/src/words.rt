//! What a line says that a program writes.

use cct_model_lines::Entry;
use cct_show_columns::{Row, Sentence};
use cct_show_words::{Told, read_line};
use std::fmt;

/// What a line says: lines that are indented by four spaces, each with its line feed.
#[derive(Drop)]
pub(crate) enum Words<'r> {
    Sentence(Sentence<'r>),
    Entry(Entry),
}

impl<'r> Words<'r> {
    /// What a line says, by its row, or `None` where it is none that a program writes.
    pub(crate) fn of(row: &'r Row<'r>, line: &[u8]) -> Option<Words<'r>> {
        match Sentence::of(row) {
            Some(sentence) => Some(Words::Sentence(sentence)),
            None => Some(Words::Entry(read_line(line)?)),
        }
    }
}

impl fmt::Display for Words<'_> {
    fn fmt<W: fmt::Write>(&self, f: &mut fmt::Formatter<W>) -> fmt::Result {
        match self {
            Words::Sentence(sentence) => write!(f, "    {sentence}\n"),
            Words::Entry(entry) => {
                let told = Told(entry);
                write!(f, "{told}")
            }
        }
    }
}
