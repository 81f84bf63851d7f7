//! What is said of how the program ended.

use crate::ending::{FILE, meaning_of};
use crate::fields::first_field;
use crate::forms::Part;
use crate::refusal::{Refusal, addr_in};
use crate::window::Window;
use cct_model_lines::LineKind;
use cct_script::ranged;
use std::fmt;

const REFUSED: &[u8] = b"refused";

const LINES: &[u8] = b"lines";

const LONG: &[u8] = b"long";

const CUT: &[u8] = b"cut";

const WORD: &[u8] = b"word";

const FORM: &[u8] = b"form";

const DEVICE: &[u8] = b"device";

const AGAIN: &[u8] = b"again";

/// What is said of how the program ended: one line, without its line feed.
#[derive(Drop)]
pub struct Advice<'a>(Said<'a>);

/// What is said.
#[derive(Drop)]
enum Said<'a> {
    /// What is wrong with a line of the script.
    Refusal(Refusal<'a>),
    /// What the last line means, of the journal in this file.
    Meaning {
        meaning: &'static str,
        journal: &'a str,
    },
}

/// What there is to say after this last line of a transcript, which may have its line feed, and
/// after these last bytes of the script; `None` after a line that says all itself. The journal is
/// named as `journal`.
pub fn advise<'a>(last: &'a [u8], script: &'a Window, journal: &'a str) -> Option<Advice<'a>> {
    let (word, rest) = word_and_rest(last);
    if word == REFUSED {
        return Some(Advice(Said::Refusal(refusal_of(rest, script)?)));
    }
    advise_end(last, journal)
}

/// As [`advise`], where the last line refuses no line of a script.
pub fn advise_end<'a>(last: &'a [u8], journal: &'a str) -> Option<Advice<'a>> {
    let (word, rest) = word_and_rest(last);
    Some(Advice(Said::Meaning {
        meaning: meaning_of(word, rest)?,
        journal,
    }))
}

/// What is wrong with a refused line of the input of a host on a line, by its number and without
/// its line feed. A line of which nothing is kept has no bytes here.
pub fn advise_line(number: u32, kind: LineKind, line: &[u8]) -> Advice<'_> {
    Advice(Said::Refusal(Refusal {
        number: u64::from(number),
        kind,
        part: Part::Live,
        line,
        is_given: false,
    }))
}

/// What is wrong with the line of this number of a setup, which is among the last bytes that were
/// taken of it.
pub(crate) fn setup_advice(setup: &Window, number: u32, kind: LineKind) -> Option<Advice<'_>> {
    let number = u64::from(number);
    let line = setup.line(number)?;
    Some(Advice(Said::Refusal(Refusal {
        number,
        kind,
        part: Part::Setup,
        line,
        is_given: setup.is_given(addr_in(line), number),
    })))
}

/// The word of a line, which may have its line feed, and what is after it.
fn word_and_rest(line: &[u8]) -> (&[u8], &[u8]) {
    let line = match line {
        [line @ .., b'\n'] => line,
        _ => line,
    };
    let (word, rest) = first_field(line);
    (word, rest.unwrap_or(b""))
}

/// Why a line is refused, by the word of a transcript that says it.
fn kind_named(word: &[u8]) -> LineKind {
    match word {
        _ if word == LINES => LineKind::Lines,
        _ if word == LONG => LineKind::Long,
        _ if word == CUT => LineKind::Cut,
        _ if word == WORD => LineKind::Word,
        _ if word == FORM => LineKind::Form,
        _ if word == DEVICE => LineKind::Device,
        _ if word == AGAIN => LineKind::Again,
        _ => LineKind::Trailing,
    }
}

/// The refusal that its number and its kind give.
fn refusal_of<'a>(rest: &'a [u8], script: &'a Window) -> Option<Refusal<'a>> {
    let (number, kind) = first_field(rest);
    let number = ranged(0, u64::MAX, number)?;
    let line = script.line(number)?;
    Some(Refusal {
        number,
        kind: kind_named(kind?),
        part: script.part(number),
        line,
        is_given: script.is_given(addr_in(line), number),
    })
}

impl fmt::Display for Advice<'_> {
    fn fmt<W: fmt::Write>(&self, f: &mut fmt::Formatter<W>) -> fmt::Result {
        match &self.0 {
            Said::Refusal(refusal) => write!(f, "{refusal}"),
            Said::Meaning { meaning, journal } => write_meaning(meaning, journal, f),
        }
    }
}

/// Writes what a last line means.
fn write_meaning<W: fmt::Write>(
    meaning: &str,
    journal: &str,
    f: &mut fmt::Formatter<W>,
) -> fmt::Result {
    match meaning.split_once(FILE) {
        Some((before, after)) => write!(f, "{before}{journal}{after}"),
        None => f.write_str(meaning),
    }
}
