//! What is wrong with a refused line, by the kind of its refusal.

use crate::fields::first_field;
use crate::forms::{FormsOf, Part};
use crate::gaps::gap_in;
use crate::miss::miss_in;
use crate::shown::Shown;
use crate::word::BadWord;
use cct_model_lines::{DEVICES, LineKind, MOST_LINE, MOST_LINES};
use std::fmt;

/// The words of the lines that give an address to a device.
const NEW: &[&[u8]] = &[b"acceptor", b"hopper", b"bills", b"watch"];

const VALUE: &[u8] = b"value";

/// The words of the lines at a coin acceptor, and at a hopper.
const AT_ACCEPTOR: &[&[u8]] = &[b"coin", b"alien"];

const BILL: &[u8] = b"bill";

const AT_HOPPER: &[&[u8]] = &[b"fall", b"jam", b"stock"];

/// The device that a line wants to have been given before.
#[derive(Clone, Copy)]
enum Wanted {
    /// None: it gives one.
    New,
    /// One that takes coins or bills.
    Taker,
    Acceptor,
    Bill,
    Hopper,
    Any,
}

impl Wanted {
    /// The one that a line of this word wants.
    fn by(word: &[u8]) -> Wanted {
        match word {
            _ if NEW.contains(&word) => Wanted::New,
            _ if word == VALUE => Wanted::Taker,
            _ if AT_ACCEPTOR.contains(&word) => Wanted::Acceptor,
            _ if word == BILL => Wanted::Bill,
            _ if AT_HOPPER.contains(&word) => Wanted::Hopper,
            _ => Wanted::Any,
        }
    }

    /// Its name.
    fn name(self) -> &'static str {
        match self {
            Wanted::New | Wanted::Any => "device",
            Wanted::Taker => "acceptor of coins or bills",
            Wanted::Acceptor => "coin acceptor",
            Wanted::Bill => "bill acceptor",
            Wanted::Hopper => "hopper",
        }
    }
}

/// A refused line, as far as it was taken, without its line feed.
#[derive(Drop)]
pub(crate) struct Refusal<'l> {
    pub number: u64,
    pub kind: LineKind,
    pub part: Part,
    pub line: &'l [u8],
    /// Whether a line before gave its address to a device.
    pub is_given: bool,
}

/// What is in a line where an address does: after its word.
pub(crate) fn addr_in(line: &[u8]) -> &[u8] {
    let (_, rest) = first_field(line);
    first_field(rest.unwrap_or(b"")).0
}

impl fmt::Display for Refusal<'_> {
    fn fmt<W: fmt::Write>(&self, f: &mut fmt::Formatter<W>) -> fmt::Result {
        let number = self.number;
        write!(f, "line {number}: ")?;
        match self.kind {
            LineKind::Word => self.write_word(f),
            LineKind::Form => self.write_misspelt(f),
            LineKind::Device => self.write_stranger(f),
            LineKind::Again => self.write_again(f),
            _ => self.write_end(f),
        }
    }
}

impl Refusal<'_> {
    /// Writes what is wrong with the word of a line.
    fn write_word<W: fmt::Write>(&self, f: &mut fmt::Formatter<W>) -> fmt::Result {
        if let Some(gap) = gap_in(self.line) {
            return f.write_str(gap);
        }
        let word = BadWord {
            part: self.part,
            line: self.line,
        };
        write!(f, "{word}")
    }

    /// Writes what is wrong with a line that is in no form.
    fn write_misspelt<W: fmt::Write>(&self, f: &mut fmt::Formatter<W>) -> fmt::Result {
        if let Some(gap) = gap_in(self.line) {
            return f.write_str(gap);
        }
        match miss_in(self.part, self.line) {
            Some(miss) => write!(f, "{miss}"),
            None => f.write_str("not of a form that SCRIPT knows"),
        }
    }

    /// Writes the forms of the line's word.
    fn write_forms<W: fmt::Write>(&self, f: &mut fmt::Formatter<W>) -> fmt::Result {
        let forms = FormsOf {
            part: self.part,
            word: first_field(self.line).0,
        };
        write!(f, "{forms}; ")
    }

    /// Writes which device isn't there, or is there already.
    fn write_stranger<W: fmt::Write>(&self, f: &mut fmt::Formatter<W>) -> fmt::Result {
        self.write_forms(f)?;
        let addr = Shown(addr_in(self.line));
        match Wanted::by(first_field(self.line).0) {
            Wanted::New if self.is_given => {
                write!(f, "address {addr} was given to a device before")
            }
            Wanted::New => write!(
                f,
                "{DEVICES} devices were given before, which is as many as there may be"
            ),
            wanted => {
                let name = wanted.name();
                write!(f, "no {name} was given before at address {addr}")
            }
        }
    }

    /// Writes what was given before.
    fn write_again<W: fmt::Write>(&self, f: &mut fmt::Formatter<W>) -> fmt::Result {
        self.write_forms(f)?;
        f.write_str(match Wanted::by(first_field(self.line).0) {
            Wanted::Taker => "this place was given its value before",
            _ => "this device was given its texts before",
        })
    }

    /// Writes what is wrong with the end of a line or of the script.
    fn write_end<W: fmt::Write>(&self, f: &mut fmt::Formatter<W>) -> fmt::Result {
        let text = self.part.text().name();
        match self.kind {
            LineKind::Cut => self.write_cut(text, f),
            LineKind::Long => write!(f, "the line has more than {MOST_LINE} bytes"),
            LineKind::Lines => write!(f, "a {text} has at most {MOST_LINES} lines"),
            _ => f.write_str(
                "something stands after the line end; its line feed has to be the last byte",
            ),
        }
    }

    /// Writes that a text of this name ends within a line, or before its last one.
    fn write_cut<W: fmt::Write>(&self, text: &str, f: &mut fmt::Formatter<W>) -> fmt::Result {
        if !self.line.is_empty() {
            return write!(
                f,
                "the {text} ends within the line; end it with a line feed, the line end too"
            );
        }
        match self.part {
            Part::Setup | Part::Watches if self.number == 1 => {
                write!(
                    f,
                    "the {text} is empty; its lines are to come on standard input or in its file"
                )
            }
            Part::Setup | Part::Watches => write!(f, "the {text} ends before its line begin"),
            Part::Steps | Part::Taps => write!(f, "the {text} ends before its line end"),
            Part::Live => write!(
                f,
                "the {text} ends within the line; end each line with a line feed"
            ),
        }
    }
}
