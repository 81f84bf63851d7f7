//! What a line says, in words.

use crate::form::NONE;
use crate::row::Row;
use std::fmt;

/// What a line says that `cct_show_words` says nothing of; nothing of any other line.
#[derive(Drop)]
pub struct Sentence<'r>(&'r Row<'r>);

impl<'r> Sentence<'r> {
    /// What the line of a row says, where there are words for it here.
    pub fn of(row: &'r Row<'r>) -> Option<Sentence<'r>> {
        if row.says.is_empty() {
            None
        } else {
            Some(Sentence(row))
        }
    }
}

impl fmt::Display for Sentence<'_> {
    fn fmt<W: fmt::Write>(&self, f: &mut fmt::Formatter<W>) -> fmt::Result {
        let mut is_one = false;
        for part in self.0.says.split('{') {
            match part.split_once('}') {
                Some((name, after)) => {
                    let value = self.0.value(name).unwrap_or(NONE);
                    is_one = value == "1";
                    f.write_str(value)?;
                    write_counted(after, is_one, f)?;
                }
                None => write_counted(part, is_one, f)?,
            }
        }
        Ok(())
    }
}

/// Writes words in which `(s)` is an `s`, or nothing after the number 1.
fn write_counted<W: fmt::Write>(
    words: &str,
    is_one: bool,
    f: &mut fmt::Formatter<W>,
) -> fmt::Result {
    let mut is_first = true;
    for part in words.split("(s)") {
        f.write_str(if is_first || is_one { "" } else { "s" })?;
        f.write_str(part)?;
        is_first = false;
    }
    Ok(())
}
