//! The row that a line is.

use crate::form::{Form, first_field, form_in, is_number};
use crate::lines::{LOAD_SUMS, lines_with};
use crate::parts::{COMMANDS, REASONS, RECORDS};
use arrayvec::ArrayVec;

/// The most values that a line has, with those that are counted.
const MOST_VALUES: usize = 12;

/// A value of a line, and the name of its column.
#[derive(Clone, Copy, Default)]
pub(crate) struct Value<'l> {
    pub(crate) name: &'static str,
    pub(crate) text: &'l str,
}

/// What a line has, field by field.
#[derive(Drop)]
pub struct Row<'l> {
    /// The first word.
    pub(crate) kind: &'l str,
    /// The word by which forms with this first word differ; empty where there is none.
    pub(crate) what: &'l str,
    pub(crate) values: ArrayVec<Value<'l>, MOST_VALUES>,
    /// What the line says, with the names of columns for values; empty where `cct_show_words` says
    /// it.
    pub(crate) says: &'static str,
}

/// A line of an input: its row, and what doesn't stand in it.
#[derive(Clone, Copy)]
pub struct Line<'r> {
    /// The number of the line, from 1.
    pub number: u64,
    /// The time that is before it, as it is there.
    pub time: &'r str,
    /// That time in millionths of a second, without its date.
    pub micros: Option<u64>,
    /// Its number among the taps of a capture, from 1, where it is one.
    pub tap: Option<u64>,
    pub row: &'r Row<'r>,
    /// What it says, in lines that are indented by four spaces.
    pub said: &'r str,
}

/// The lines of an input, one after the other.
#[derive(Drop)]
pub struct Rows {
    /// Whether the sums of a load come, whose words are also those of other lines.
    is_load: bool,
}

impl Rows {
    /// The lines of an input from its first one on.
    pub fn new() -> Rows {
        Rows { is_load: false }
    }

    /// The row of the next line, without its line feed and a time before it. A line in no form that
    /// is known has its first word, and as `rest` what is after it.
    pub fn read<'l>(&mut self, line: &'l str) -> Row<'l> {
        let (kind, rest) = first_field(line);
        let sum = if self.is_load {
            form_in(LOAD_SUMS, line, true)
        } else {
            None
        };
        self.is_load = kind == "load" || sum.is_some();
        let mut row = Row::new(kind);
        if let Some(form) = sum {
            row.fill(form, line);
        } else if !row.read_parts(rest) {
            row.read_line(line);
        }
        row
    }
}

impl<'l> Row<'l> {
    /// A row without values.
    fn new(kind: &'l str) -> Row<'l> {
        Row {
            kind,
            what: "",
            values: ArrayVec::new(),
            says: "",
        }
    }

    /// The first word of the line.
    pub fn kind(&self) -> &'l str {
        self.kind
    }

    /// The value of a column, if the line has it.
    pub(crate) fn value(&self, name: &str) -> Option<&'l str> {
        for value in self.values.as_slice() {
            if value.name == name {
                return Some(value.text);
            }
        }
        None
    }

    /// Puts a value into its column. There is room: no form has so many.
    pub(crate) fn put(&mut self, name: &'static str, text: &'l str) {
        let _ = self.values.try_push(Value { name, text });
    }

    /// Takes a word by which forms differ, if it is the first one.
    pub(crate) fn put_word(&mut self, word: &'static str) {
        if self.what.is_empty() && self.kind != word {
            self.what = word;
        }
    }

    /// Takes the values of a text in this form, and what it says.
    fn fill(&mut self, form: Form, text: &'l str) {
        form.put_into(text, self);
        self.says = form.says;
    }

    /// Reads a whole line.
    fn read_line(&mut self, line: &'l str) {
        match form_in(lines_with(line), line, true) {
            Some(form) => self.fill(form, line),
            None => {
                if let Some(rest) = first_field(line).1 {
                    self.put("rest", rest);
                }
            }
        }
    }

    /// Reads what is after the first word of a line that has a record or a command there, and says
    /// whether it has.
    fn read_parts(&mut self, rest: Option<&'l str>) -> bool {
        let Some(rest) = rest else {
            return false;
        };
        match self.kind {
            "put" | "kept" => self.read_part(RECORDS, rest),
            "record" => self.read_listing(rest),
            "ok" => self.read_part(COMMANDS, rest),
            "no" => self.read_refusal(rest),
            _ => false,
        }
    }

    /// Reads a text that is a form of a table to its end, and says whether it is.
    fn read_part(&mut self, table: &'static str, text: &'l str) -> bool {
        match form_in(table, text, true) {
            Some(form) => {
                self.fill(form, text);
                true
            }
            None => false,
        }
    }

    /// Reads the index and the record of a report's line, and says whether it has them.
    fn read_listing(&mut self, text: &'l str) -> bool {
        match first_field(text) {
            (index, Some(record)) if is_number(index) => {
                let is_record = self.read_part(RECORDS, record);
                if is_record {
                    self.put("record_index", index);
                }
                is_record
            }
            _ => false,
        }
    }

    /// Reads a command and the reason for which it is refused, and says whether they are there.
    fn read_refusal(&mut self, text: &'l str) -> bool {
        match refusal_in(text) {
            Some(
                Refusal {
                    command,
                    reason,
                    why,
                },
            ) => {
                self.fill(command, text);
                self.put("reason", first_field(why).0);
                self.fill(reason, why);
                true
            }
            None => false,
        }
    }
}

/// A command that is refused, and why.
#[derive(Clone, Copy)]
struct Refusal<'l> {
    command: Form,
    reason: Form,
    /// The text of the reason.
    why: &'l str,
}

/// The command that is refused, and the reason, as they stand in a text.
fn refusal_in(text: &str) -> Option<Refusal<'_>> {
    let command = form_in(COMMANDS, text, false)?;
    let why = command.left_of(text)??;
    let reason = form_in(REASONS, why, true)?;
    Some(Refusal {
        command,
        reason,
        why,
    })
}
