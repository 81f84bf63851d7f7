//! What is written for whoever asks how the program is called, or what the lines of its input look
//! like.

use crate::ending::USAGE;
use crate::forms::{FORMS, Field, Form, Part, Text};
use crate::rule::Rule;
use std::fmt;

/// What is said below how the program is called.
const MORE: &str =
    "cct_main --help script and cct_main --help capture write the form of each of their lines";

/// What is asked for.
#[derive(Clone, Copy, PartialEq, Eq)]
pub enum Help {
    /// How the program is called.
    Usage,
    /// The forms of the lines of a script, and what their fields are (`docs/SCRIPT.md`, "Lines and
    /// fields").
    Script,
    /// Those of a capture (`docs/AUDIT.md`, "Captures").
    Capture,
}

impl Help {
    /// The one that a name asks for: `script` or `capture`.
    pub fn named(name: &str) -> Option<Help> {
        match name {
            "script" => Some(Help::Script),
            "capture" => Some(Help::Capture),
            _ => None,
        }
    }

    /// What is written first.
    fn head(self) -> &'static str {
        match self {
            Help::Usage => USAGE,
            Help::Script => {
                "a script has setup lines up to begin, then step lines up to end (docs/SCRIPT.md)"
            }
            Help::Capture => {
                "a capture has watch lines up to begin, then tap lines up to end (docs/AUDIT.md)"
            }
        }
    }

    /// Whether the forms of a part are among it.
    fn has(self, part: Part) -> bool {
        match self {
            Help::Usage => false,
            Help::Script => part.text() == Text::Script,
            Help::Capture => part.text() == Text::Capture,
        }
    }
}

impl fmt::Display for Help {
    fn fmt<W: fmt::Write>(&self, f: &mut fmt::Formatter<W>) -> fmt::Result {
        f.write_str(self.head())?;
        if *self == Help::Usage {
            write!(f, "\n{MORE}")?;
        }
        for form in FORMS {
            if self.has(form.part()) {
                write_form(form, f)?;
            }
        }
        Ok(())
    }
}

/// Writes a form on a line of its own, and below it what each of its fields is.
fn write_form<W: fmt::Write>(form: &Form, f: &mut fmt::Formatter<W>) -> fmt::Result {
    write!(f, "\n{form}")?;
    for field in form.fields() {
        write_field(field, f)?;
    }
    Ok(())
}

/// Writes what a field is. One that is a word of the form needs no line.
fn write_field<W: fmt::Write>(field: &Field, f: &mut fmt::Formatter<W>) -> fmt::Result {
    match field.rule() {
        Rule::Only(_) => Ok(()),
        rule => {
            let name = field.name();
            write!(f, "\n    {name} is {rule}")
        }
    }
}
