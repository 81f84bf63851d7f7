//! What is in a log without being bytes: words of no weight, offsets, the heads of columns.

use crate::byte::{Base, is_hex};
use crate::name::{Way, is_among, maybe_way, named_way};
use crate::time::{is_date, number_in, time_in};
use crate::word::{Word, next_word};

/// Names that loggers write before the bytes.
const PLAIN_NAMES: &[u8] =
    b"data hex bytes byte len length raw msg message frame payload buffer am pm utc at s ms us ns sec seconds t ts time timestamp date";

/// Names of columns.
const COLUMN_NAMES: &[u8] =
    b"time timestamp start_time date duration no no. dir direction way type name channel port data value hex bytes byte payload ascii length len source destination protocol info id offset packet start end error index";

/// Names of columns that say that their numbers are decimal.
const DECIMAL_NAMES: &[u8] = b"dec decimal";

/// Whether a word says nothing of the bytes after it: a time, a number, marks, a key with its
/// value, or one of a few names.
pub(crate) fn is_known(word: &[u8]) -> bool {
    let name = word.strip_suffix(b":").unwrap_or(word);
    let name = match name {
        [b'+' | b'<', rest @ ..] | [rest @ .., b'>'] => rest,
        _ => name,
    };
    number_in(name).is_some()
        || !name.iter().any(|byte| byte.is_ascii_alphanumeric())
        || name.contains(&b'=')
        || is_date(word)
        || time_in(word).is_some()
        || time_in(name).is_some()
        || is_pair(name, b'-')
        || is_pair(name, b'.')
        || is_among(PLAIN_NAMES, name)
        || is_port(name)
}

/// Whether a name is two numbers with a mark between them, as the first and the last sample of a
/// byte, or a number with a fraction.
fn is_pair(name: &[u8], mark: u8) -> bool {
    let mut count = 0u32;
    for part in name.split(|byte| *byte == mark) {
        if number_in(part).is_none() {
            return false;
        }
        count = count.saturating_add(1);
    }
    count == 2
}

/// Whether bytes count up from 0, as the head of a dump's columns does.
pub(crate) fn is_ruler(bytes: &[u8]) -> bool {
    let mut next = 0u8;
    for byte in bytes {
        if *byte != next {
            return false;
        }
        next = next.saturating_add(1);
    }
    next >= 8
}

/// Whether a name is one of a serial port.
fn is_port(name: &[u8]) -> bool {
    name.starts_with(b"COM") || name.starts_with(b"/dev/") || name.starts_with(b"tty")
}

/// Whether a remark begins at a word.
pub(crate) fn is_remark(word: &[u8]) -> bool {
    word.starts_with(b"#") || word.starts_with(b"//") || word.starts_with(b"--")
}

/// The offset that the first word of a line of a dump is, where it is one; `expected` is where the
/// last line ended.
pub(crate) fn offset_in(line: &[u8], word: &Word<'_>, expected: Option<u64>) -> Option<u64> {
    let word_text = word.text.strip_suffix(b":").unwrap_or(word.text);
    let digits = word_text.strip_prefix(b"0x").unwrap_or(word_text);
    if digits.len() < 4 || digits.len() > 16 || !is_hex(digits) {
        return None;
    }
    let value = number_of(digits, 16)?;
    let is_expected = expected == Some(value)
        || expected.is_some() && number_of(digits, 8) == expected;
    let Some(next) = next_word(line, word.to) else {
        return if is_expected && value != 0 {
            Some(value)
        } else {
            None
        };
    };
    let has_colon = word_text.len() != word.text.len();
    let is_wide = digits.len() >= 6 && next.from > word.to.saturating_add(1);
    let is_narrow = next.text.len() == 2 && (value == 0 || is_expected || is_wide);
    let is_long = digits.len() >= 7 && (value == 0 || is_expected);
    if !has_colon && !is_narrow && !is_long {
        return None;
    }
    if is_expected { expected } else { Some(value) }
}

/// The number that digits of a base spell, where they are digits of it.
fn number_of(digits: &[u8], base: u64) -> Option<u64> {
    let mut number = 0u64;
    for digit in digits {
        let value = u64::from(crate::byte::value_of(*digit)?);
        if value >= base {
            return None;
        }
        number = number.checked_mul(base)?.checked_add(value)?;
    }
    Some(number)
}

/// Whether a line is the head of columns, and how they say that bytes are written, where they do.
/// Without two names of columns it is none.
pub(crate) fn head_in(line: &[u8]) -> Option<Option<Base>> {
    let mut names = 0u32;
    let mut base = None;
    let mut at = 0;
    for _ in line {
        let Some(word) = next_word(line, at) else {
            break;
        };
        at = word.to;
        if is_among(DECIMAL_NAMES, word.text) {
            base = Some(Base::Decimal);
            names = names.saturating_add(1);
        } else if is_among(COLUMN_NAMES, word.text) {
            names = names.saturating_add(1);
        }
    }
    if names >= 2 { Some(base) } else { None }
}

/// Whether a line is the head of a table whatever ways it names: it begins with the name of a
/// column, and marks stand between the columns.
pub(crate) fn is_table_head(line: &[u8]) -> bool {
    let Some(first) = next_word(line, 0) else {
        return false;
    };
    let has_marks = line
        .iter()
        .any(|byte| matches!(*byte, b',' | b';' | b'\t' | b'|'));
    has_marks && is_among(COLUMN_NAMES, first.text) && head_in(line).is_some()
}

/// Whether a line is the head of a table that has a column for each way.
pub(crate) fn is_head_of_ways(line: &[u8]) -> bool {
    let mut has_sent = false;
    let mut has_heard = false;
    let mut at = 0;
    for _ in line {
        let Some(word) = next_word(line, at) else {
            break;
        };
        at = word.to;
        match named_way(word.text).or(maybe_way(word.text)) {
            Some(Way::Sent) => has_sent = true,
            Some(Way::Heard) => has_heard = true,
            None if is_among(COLUMN_NAMES, word.text) => {}
            None => return false,
        }
    }
    has_sent && has_heard
}

/// Whether a line has only marks, as between the parts of a log; an asterisk alone represents lines
/// that a dump leaves out.
pub(crate) fn is_rule(line: &[u8]) -> bool {
    let text = line.trim_ascii();
    text != b"*".as_slice() && !text.iter().any(|byte| byte.is_ascii_alphanumeric())
}
