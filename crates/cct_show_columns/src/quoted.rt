//! Texts between quotes.

use std::fmt;

/// What is before each line of what a line says.
const INDENT: &str = "    ";

/// How a text is written between quotes.
#[derive(Clone, Copy)]
pub(crate) enum Quoting {
    /// A quote twice (RFC 4180). A control character but a tab is the replacement character.
    Csv,
    /// A quote, a backslash and a control character by an escape (RFC 8259).
    Json,
}

/// Writes a text between quotes.
pub(crate) fn write_quoted<W: fmt::Write>(
    text: &str,
    quoting: Quoting,
    f: &mut fmt::Formatter<W>,
) -> fmt::Result {
    f.write_str("\"")?;
    write_letters(text, quoting, f)?;
    f.write_str("\"")
}

/// Writes what a line says between quotes, with a semicolon between its lines.
pub(crate) fn write_said<W: fmt::Write>(
    said: &str,
    quoting: Quoting,
    f: &mut fmt::Formatter<W>,
) -> fmt::Result {
    f.write_str("\"")?;
    let mut is_first = true;
    for line in said.split('\n') {
        if let Some(words) = line.strip_prefix(INDENT) {
            f.write_str(if is_first { "" } else { "; " })?;
            write_letters(words, quoting, f)?;
            is_first = false;
        }
    }
    f.write_str("\"")
}

/// Writes each letter of a text.
fn write_letters<W: fmt::Write>(
    text: &str,
    quoting: Quoting,
    f: &mut fmt::Formatter<W>,
) -> fmt::Result {
    for letter in text.chars() {
        match quoting {
            Quoting::Csv => write_csv_letter(letter, f)?,
            Quoting::Json => write_json_letter(letter, f)?,
        }
    }
    Ok(())
}

/// Writes a letter of a text in CSV.
fn write_csv_letter<W: fmt::Write>(letter: char, f: &mut fmt::Formatter<W>) -> fmt::Result {
    match letter {
        '"' => f.write_str("\"\""),
        '\t' => f.write_char(letter),
        _ if letter.is_control() => f.write_char('\u{fffd}'),
        _ => f.write_char(letter),
    }
}

/// Writes a letter of a text in JSON.
fn write_json_letter<W: fmt::Write>(letter: char, f: &mut fmt::Formatter<W>) -> fmt::Result {
    match letter {
        '"' => f.write_str("\\\""),
        '\\' => f.write_str("\\\\"),
        _ if letter.is_control() => {
            let code = u32::from(letter);
            write!(f, "\\u{code:04x}")
        }
        _ => f.write_char(letter),
    }
}
