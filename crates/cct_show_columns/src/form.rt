//! The forms of lines, as they stand in the tables, and which form a line has.
//!
//! A row of a table is a form, a bar, and what a line of this form says; nothing is after the bar
//! where `cct_show_words` says it. A form is what is in the line, field by field: a word, the name
//! of a column in braces, or a name with `..` after it in braces, whose value is all that is left
//! of the line. What a form says names columns in braces too, and `(s)` is an `s` unless the number
//! before it is 1.

use crate::column::{ColumnKind, kind_of};
use crate::row::Row;

/// What represents no value.
pub(crate) const NONE: &str = "-";

/// A form, and what a line of it says.
#[derive(Clone, Copy)]
pub(crate) struct Form {
    fields: &'static str,
    pub(crate) says: &'static str,
}

/// What a form has in the place of a field.
#[derive(Clone, Copy)]
enum Token {
    /// This word.
    Word(&'static str),
    /// A value of this column.
    Value(&'static str),
    /// The value of this column is all that is left.
    Left(&'static str),
}

/// The first field of a text, and what is after its space, if there is one.
pub(crate) fn first_field(text: &str) -> (&str, Option<&str>) {
    match text.split_once(' ') {
        Some((field, rest)) => (field, Some(rest)),
        None => (text, None),
    }
}

/// The first form of a table with which a text begins, after which it is at its end if `is_whole`.
pub(crate) fn form_in(table: &'static str, text: &str, is_whole: bool) -> Option<Form> {
    for row in table.split('\n') {
        let form = form_of(row);
        if let Some(left) = form.left_of(text)
            && !(is_whole && left.is_some())
        {
            return Some(form);
        }
    }
    None
}

/// The form in a row of a table.
fn form_of(row: &'static str) -> Form {
    match row.split_once('|') {
        Some((fields, says)) => Form { fields, says },
        None => Form {
            fields: row,
            says: "",
        },
    }
}

impl Form {
    /// What is left of a text after this form, or `None` where it doesn't begin with it.
    pub(crate) fn left_of<'l>(&self, text: &'l str) -> Option<Option<&'l str>> {
        let mut left = Some(text);
        for token in self.fields.split(' ') {
            left = left_after(token_in(token), left?)?;
        }
        Some(left)
    }

    /// Puts the values of a text that begins with this form into a row.
    pub(crate) fn put_into<'l>(&self, text: &'l str, row: &mut Row<'l>) {
        let mut left = Some(text);
        for token in self.fields.split(' ') {
            let Some(text) = left else {
                return;
            };
            let (field, after) = first_field(text);
            left = after;
            match token_in(token) {
                Token::Word(word) => row.put_word(word),
                Token::Value(name) => row.put(name, field),
                Token::Left(name) => row.put(name, text),
            }
        }
    }
}

/// What a text of a form is.
fn token_in(text: &'static str) -> Token {
    match name_in(text) {
        None => Token::Word(text),
        Some(name) => match name.strip_suffix("..") {
            Some(name) => Token::Left(name),
            None => Token::Value(name),
        },
    }
}

/// The name that is in braces.
fn name_in(text: &'static str) -> Option<&'static str> {
    text.strip_prefix('{')?.strip_suffix('}')
}

/// What is left of a text after a token, or `None` where it doesn't begin with it.
fn left_after(token: Token, text: &str) -> Option<Option<&str>> {
    let (field, after) = first_field(text);
    let is_it = match token {
        Token::Word(word) => word == field,
        Token::Value(name) => fits(name, field),
        Token::Left(_) => return Some(None),
    };
    if is_it { Some(after) } else { None }
}

/// Whether a field is a value of the column of this name, or a hyphen for none.
fn fits(name: &str, field: &str) -> bool {
    field == NONE
        || match kind_of(name) {
            ColumnKind::Number => is_number(field),
            ColumnKind::Text => !field.is_empty(),
            ColumnKind::Coins => field.split(',').all(is_coin),
            ColumnKind::Devices => field.split(',').all(is_device),
        }
}

/// Whether a text is a coin: its place, a slash and its path.
fn is_coin(text: &str) -> bool {
    match text.split_once('/') {
        Some((place, path)) => is_number(place) && is_number(path),
        None => false,
    }
}

/// Whether a text is a device: its address, a slash and its check.
fn is_device(text: &str) -> bool {
    match text.split_once('/') {
        Some((address, check)) => is_number(address) && (check == "simple" || check == "crc"),
        None => false,
    }
}

/// Whether a text is a number in decimal, below 2^64, without sign and without leading zeros.
pub(crate) fn is_number(text: &str) -> bool {
    (text == "0" || !text.starts_with('0')) && !text.starts_with('+') && text.parse::<u64>().is_ok()
}
