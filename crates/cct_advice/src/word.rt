//! What is wrong with the word of a line.

use crate::fields::first_field;
use crate::forms::{FORMS, Form, Part, Text, WordsOf};
use crate::gaps::is_remark;
use crate::other::{is_of_log, is_of_transcript, meant_by};
use crate::shown::Shown;
use cct_advice_near::is_near;
use std::fmt;

/// What is said of a line of a bus log, and after the word of one of a transcript.
const OF_LOG: &str =
    "it looks like a line of a bus log; make a capture of the log, for cct_main audit: cct_show capture A CHECK KIND .. < LOG (docs/AUDIT.md)";

const OF_TRANSCRIPT: &str =
    "is a word of a transcript, which cct_show text shows; for cct_main audit make a capture of it: cct_show capture A CHECK KIND .. < TRANSCRIPT (docs/SHOW.md)";

/// A line whose word its part of the script or of the capture doesn't have.
#[derive(Drop)]
pub(crate) struct BadWord<'l> {
    pub part: Part,
    pub line: &'l [u8],
}

impl fmt::Display for BadWord<'_> {
    fn fmt<W: fmt::Write>(&self, f: &mut fmt::Formatter<W>) -> fmt::Result {
        if self.line.is_empty() {
            return f.write_str("the line is empty; leave it out");
        }
        if is_remark(self.line) {
            let text = self.part.text().name();
            return write!(f, "a {text} has no comments; leave the line out");
        }
        let (word, _) = first_field(self.line);
        if let Some(form) = form_named(self.part.text(), word) {
            return write_known(self.part, form, word, f);
        }
        match self.part.text() {
            Text::Script if form_named(Text::Input, word).is_some() => {
                return write_stranger(word, "cct_live", "a script", f);
            }
            Text::Input if form_named(Text::Script, word).is_some() => {
                return write_stranger(word, "a script", "cct_live", f);
            }
            Text::Script if form_named(Text::Capture, word).is_some() => {
                return write_stranger(word, "a capture, which cct_main audit reads", "a script", f);
            }
            Text::Capture if form_named(Text::Script, word).is_some() => {
                return write_stranger(word, "a script, which cct_main run plays", "a capture", f);
            }
            _ => {}
        }
        if self.part != Part::Live && is_of_transcript(word) {
            let shown = Shown(word);
            return write!(f, "{shown} {OF_TRANSCRIPT}");
        }
        match meant_word(self.part, word) {
            Some(form) => write_meant(self.part, form, word, f),
            None if is_of_log(self.line) => f.write_str(OF_LOG),
            None => match form_meant(self.part, word) {
                Some(form) => write_meant(self.part, form, word, f),
                None => write_unknown(self.part, word, f),
            },
        }
    }
}

/// The first form of a part, or else of its text, whose word is spelt nearly as this one: by one
/// letter, or else by two.
fn meant_word(part: Part, word: &[u8]) -> Option<&'static Form> {
    for (part, are_two) in [
        (part, false),
        (part, true),
        (part.other(), false),
        (part.other(), true),
    ] {
        let meant = FORMS.iter().find(|form| form.part() == part
            && is_near(word, form.word().as_bytes(), are_two));
        if meant.is_some() {
            return meant;
        }
    }
    None
}

/// The form of a part whose word says the same as another word.
fn form_meant(part: Part, word: &[u8]) -> Option<&'static Form> {
    let meant = meant_by(word)?;
    FORMS.iter().find(|form| form.is_of(part, meant))
}

/// Writes which word was meant, and where it may stand, if not here.
fn write_meant<W: fmt::Write>(
    part: Part,
    form: &Form,
    word: &[u8],
    f: &mut fmt::Formatter<W>,
) -> fmt::Result {
    let shown = Shown(word);
    let meant = form.word();
    write!(f, "\"{shown}\" is no word; did you mean {meant}?")?;
    if form.part() == part {
        return Ok(());
    }
    f.write_str(" ")?;
    write_known(part, form, meant.as_bytes(), f)
}

/// Writes that a word belongs elsewhere.
fn write_stranger<W: fmt::Write>(
    word: &[u8],
    owner: &str,
    here: &str,
    f: &mut fmt::Formatter<W>,
) -> fmt::Result {
    let shown = Shown(word);
    write!(f, "{shown} is a word of {owner}, and not of {here}")
}

/// The first form of a text with this word, in letters of either case.
fn form_named(text: Text, word: &[u8]) -> Option<&'static Form> {
    FORMS.iter().find(|form| {
        form.part().text() == text && form.word().as_bytes().eq_ignore_ascii_case(word)
    })
}

/// Writes that a word is of the other part, isn't in lower case, or is one that only a run takes.
fn write_known<W: fmt::Write>(
    part: Part,
    form: &Form,
    word: &[u8],
    f: &mut fmt::Formatter<W>,
) -> fmt::Result {
    let name = form.word();
    if form.part() == part && word == name.as_bytes() {
        return f.write_str("no step is played here; after the line begin stands end");
    }
    if form.part() == part {
        let shown = Shown(word);
        return write!(f, "words are in lower case; write {name}, not \"{shown}\"");
    }
    let lines = match form.part() {
        Part::Setup => "setup lines, which stand up to the line begin",
        Part::Steps => "step lines, which stand after the line begin",
        Part::Watches => "watch lines, which stand up to the line begin",
        Part::Taps => "tap lines, which stand after the line begin",
        Part::Live => "the lines of a host",
    };
    write!(f, "{name} is a word of {lines}")
}

/// Writes that no line has a word, and the words of its part.
fn write_unknown<W: fmt::Write>(part: Part, word: &[u8], f: &mut fmt::Formatter<W>) -> fmt::Result {
    let shown = Shown(word);
    let words = WordsOf(part);
    let owner = match part {
        Part::Setup => "of a setup line",
        Part::Steps => "of a step line",
        Part::Watches => "of a watch line",
        Part::Taps => "of a tap line",
        Part::Live => "here",
    };
    write!(f, "\"{shown}\" is no word {owner}; they are {words}")
}
