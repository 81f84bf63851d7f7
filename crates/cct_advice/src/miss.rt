//! Where a line misses its form.

use crate::fields::{fields_behind, first_field};
use crate::forms::{FORMS, Field, Form, FormsOf, Part, Text};
use crate::gaps::is_remark;
use crate::rule::{Rule, misspelling};
use crate::shown::Shown;
use cct_advice_near::is_near;
use std::fmt;

/// What is wrong after a word.
#[derive(Clone, Copy)]
enum Wrong<'l> {
    /// This field is missing.
    Missing(Field),
    /// This field is something else.
    Unfit(Field, &'l [u8]),
    /// Something is after the last field, or after a word that stands alone.
    Surplus(&'static str, &'l [u8]),
}

/// Where a line misses a form of its word.
#[derive(Clone, Copy)]
pub(crate) struct Miss<'l> {
    form: Form,
    /// How many fields are right before it.
    place: usize,
    /// How many are right in all.
    right: usize,
    /// Whether a word by which the form differs from others is in its place.
    has_word: bool,
    /// Whether the line has as many fields as the form.
    is_full: bool,
    wrong: Wrong<'l>,
}

/// Where a line misses the form of its word that it comes nearest to, or `None` where the word has
/// no form, or nothing is found wrong.
pub(crate) fn miss_in<'l>(part: Part, line: &'l [u8]) -> Option<Miss<'l>> {
    let (word, rest) = first_field(line);
    let mut nearest: Option<Miss<'l>> = None;
    for form in FORMS {
        if form.is_of(part, word) {
            let miss = miss_of(form, rest)?;
            nearest = Some(nearer(nearest, miss));
        }
    }
    nearest
}

/// Where what is after a word misses a form, if it does.
fn miss_of<'l>(form: &Form, rest: Option<&'l [u8]>) -> Option<Miss<'l>> {
    let is_full = fields_behind(rest) == form.fields().len();
    let right = right_in(form, rest);
    let has_word = has_word_of(form, rest);
    let mut rest = rest;
    let mut before = form.word();
    for (place, field) in form.fields().iter().enumerate() {
        let wrong = match rest {
            None => Some(Wrong::Missing(*field)),
            Some(text) => unfit_in(field, first_field(text).0),
        };
        if let Some(wrong) = wrong {
            return Some(Miss {
                form: *form,
                place,
                right,
                has_word,
                is_full,
                wrong,
            });
        }
        rest = rest.and_then(|text| first_field(text).1);
        before = field.name();
    }
    Some(Miss {
        form: *form,
        place: form.fields().len(),
        right,
        has_word,
        is_full,
        wrong: Wrong::Surplus(before, rest?),
    })
}

/// How many of the fields after a word are right in a form.
fn right_in(form: &Form, rest: Option<&[u8]>) -> usize {
    let mut rest = rest;
    let mut right: usize = 0;
    for field in form.fields() {
        let Some(text) = rest else {
            return right;
        };
        let (first, after) = first_field(text);
        if field.rule().fits(first) {
            right = right.saturating_add(1);
        }
        rest = after;
    }
    right
}

/// Whether a field after a word is a word that the form has there.
fn has_word_of(form: &Form, rest: Option<&[u8]>) -> bool {
    let mut rest = rest;
    for field in form.fields() {
        let Some(text) = rest else {
            return false;
        };
        let (first, after) = first_field(text);
        if matches!(field.rule(), Rule::Only(_)) && field.rule().fits(first) {
            return true;
        }
        rest = after;
    }
    false
}

/// What is wrong with a field, if anything is.
fn unfit_in<'l>(field: &Field, text: &'l [u8]) -> Option<Wrong<'l>> {
    if field.rule().fits(text) {
        return None;
    }
    Some(Wrong::Unfit(*field, text))
}

/// The one of two misses whose form has a word that is in the line, else the one after which more
/// is right; the earlier one where both are alike. A line that is too long for one form, and has as
/// many fields as the other, misses the other.
fn nearer<'l>(earlier: Option<Miss<'l>>, later: Miss<'l>) -> Miss<'l> {
    match earlier {
        Some(miss) if miss.has_word && !later.has_word => miss,
        Some(miss) if later.has_word && !miss.has_word => later,
        Some(miss) if miss.is_too_long() && later.is_full => later,
        Some(miss) if later.place < miss.place => miss,
        Some(miss) if later.place == miss.place && later.is_no_nearer(&miss) => miss,
        _ => later,
    }
}

impl Miss<'_> {
    /// Whether a later miss after as many fields is no nearer than an earlier one.
    fn is_no_nearer(&self, earlier: &Miss<'_>) -> bool {
        if self.is_full == earlier.is_full {
            self.right <= earlier.right
        } else {
            earlier.is_full
        }
    }

    /// The word that some form of the line's word has in the place of this field, where it is a
    /// letter or two off.
    fn word_near(&self, text: &[u8]) -> Option<&'static str> {
        let form = self.form;
        for other in FORMS {
            if other.is_of(form.part(), form.word().as_bytes())
                && let Some(field) = other.fields().get(self.place)
                && let Rule::Only(word) = field.rule()
                && is_near(text, word.as_bytes(), word.len() > 5)
            {
                return Some(word);
            }
        }
        None
    }

    /// Whether the line has more fields than the form, all of which are right.
    fn is_too_long(&self) -> bool {
        matches!(self.wrong, Wrong::Surplus(_, _))
    }
}

impl fmt::Display for Miss<'_> {
    fn fmt<W: fmt::Write>(&self, f: &mut fmt::Formatter<W>) -> fmt::Result {
        let form = self.form;
        if self.place == 0 {
            let forms = FormsOf {
                part: form.part(),
                word: form.word().as_bytes(),
            };
            write!(f, "{forms}; ")?;
        } else {
            write!(f, "{form}; ")?;
        }
        match self.wrong {
            Wrong::Missing(field) => write_missing(field, self.place, f),
            Wrong::Unfit(field, text) => match self.word_near(text) {
                Some(word) => {
                    let shown = Shown(text);
                    write!(f, "no form has \"{shown}\" there; did you mean {word}?")
                }
                None => write_unfit(field, text, f),
            },
            Wrong::Surplus(name, rest) => write_surplus(form.part().text(), name, rest, f),
        }
    }
}

/// Writes that the field in a place is missing; where it is the first, forms may differ by their
/// words.
fn write_missing<W: fmt::Write>(
    field: Field,
    place: usize,
    f: &mut fmt::Formatter<W>,
) -> fmt::Result {
    let name = field.name();
    match field.rule() {
        Rule::Only(_) if place == 0 => f.write_str("a field is missing"),
        Rule::Only(word) => write!(f, "{word} is missing"),
        _ => write!(f, "{name} is missing"),
    }
}

/// Writes what a field has to be, and what it is.
fn write_unfit<W: fmt::Write>(field: Field, text: &[u8], f: &mut fmt::Formatter<W>) -> fmt::Result {
    let shown = Shown(text);
    let name = field.name();
    let rule = field.rule();
    match rule {
        Rule::Only(_) => write!(f, "no form has \"{shown}\" there"),
        Rule::Number(_, _) => {
            let spelling = misspelling(text);
            write!(f, "{name} is {rule}{spelling}, not \"{shown}\"")
        }
        _ => write!(f, "{name} is {rule}, not \"{shown}\""),
    }
}

/// Writes that something is after a field or a word.
fn write_surplus<W: fmt::Write>(
    text: Text,
    name: &str,
    rest: &[u8],
    f: &mut fmt::Formatter<W>,
) -> fmt::Result {
    let shown = Shown(rest);
    if is_remark(rest) {
        let text = text.name();
        return write!(
            f,
            "\"{shown}\" stands after {name}: a {text} has no comments"
        );
    }
    write!(
        f,
        "\"{shown}\" stands after {name}, where the line has to end"
    )
}
