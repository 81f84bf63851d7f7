//! Why the words of the command line name no form.

use cct_advice_near::near_word;
use cct_show_captured::watches_in;
use std::fmt;

/// The words that name a form.
const FORMS: &[&str] = &["text", "csv", "json", "svg", "html", "capture"];

/// Words that name no form.
#[derive(Drop)]
pub(crate) struct Refused<'w>(pub(crate) &'w [String]);

impl fmt::Display for Refused<'_> {
    fn fmt<W: fmt::Write>(&self, f: &mut fmt::Formatter<W>) -> fmt::Result {
        let [form, rest @ ..] = self.0 else {
            return f.write_str("a form is missing");
        };
        let form = form.as_str();
        match meant_by(form) {
            Some(meant) if meant == form => write_rest(meant, rest, f),
            Some(meant) => write!(f, "did you mean {meant}?"),
            None => write!(f, "there is no form {form}"),
        }
    }
}

/// The form that a word names, or nearly.
fn meant_by(word: &str) -> Option<&'static str> {
    let same = FORMS.iter().find(|form| form.as_bytes().eq_ignore_ascii_case(word.as_bytes()));
    match same {
        Some(form) => Some(*form),
        None => near_word(word.as_bytes(), FORMS),
    }
}

/// Writes what is wrong with the words after a form.
fn write_rest<W: fmt::Write>(
    form: &str,
    rest: &[String],
    f: &mut fmt::Formatter<W>,
) -> fmt::Result {
    match (form, rest) {
        ("capture", words) => match watches_in(words) {
            Err(why) => write!(f, "capture: {why}"),
            Ok(_) => Ok(()),
        },
        ("svg", _) => f.write_str(
            "svg takes no more words, or the numbers of a first and a last line, the first from 1 on",
        ),
        (_, [option, ..]) if option.as_str().starts_with('-') => {
            write!(
                f,
                "{form} takes no option; it reads standard input, and writes to standard output"
            )
        }
        (_, [file, ..]) => {
            let file = file.as_str();
            write!(f, "{form} reads standard input: cct_show {form} < {file}")
        }
        _ => Ok(()),
    }
}
