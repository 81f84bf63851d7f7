//! Bytes as the text of a programming language: `b'\x02\x00'`, or `"\2\0"` as `strace` writes it.

use crate::byte::{LogBytes, value_of};

/// How a text writes bytes that its language has no letter for.
#[derive(Clone, Copy, PartialEq, Eq)]
pub(crate) enum Spelling {
    /// By octal digits after a backslash, as in C.
    Octal,
    /// By decimal ones, as in Lua.
    Decimal,
    /// By the characters of these numbers, in UTF-8, as in JavaScript.
    Characters,
}

/// The bytes of the first text of a line with an escape in it; where the log has such texts, of its
/// first text. `None` where there is none, or it isn't there whole. Outside quotes an escape is one
/// of digits.
pub(crate) fn escaped_in(line: &[u8], has_texts: bool, spelling: Spelling) -> Option<LogBytes> {
    let Some(escape) = line.iter().position(|byte| *byte == b'\\') else {
        return if has_texts {
            text_in(line, spelling)
        } else {
            None
        };
    };
    let (before, _) = line.split_at_checked(escape)?;
    let quote = before
        .iter()
        .rposition(|byte| matches!(*byte, b'\'' | b'"'));
    let (bytes, after) = match quote {
        Some(place) => {
            let text = line.get(place.saturating_add(1)..)?;
            unescaped(text, *line.get(place)?, spelling)?
        }
        None => unescaped(digit_escapes(line.get(escape..)?)?, b' ', spelling)?,
    };
    if after.starts_with(b"..") {
        None
    } else {
        Some(bytes)
    }
}

/// The bytes of the first text of a line, in quotes.
fn text_in(line: &[u8], spelling: Spelling) -> Option<LogBytes> {
    let place = line.iter().position(|byte| matches!(*byte, b'\'' | b'"'))?;
    let text = line.get(place.saturating_add(1)..)?;
    let (bytes, _) = unescaped(text, *line.get(place)?, spelling)?;
    Some(bytes)
}

/// A text that begins with an escape of digits.
fn digit_escapes(text: &[u8]) -> Option<&[u8]> {
    match text {
        [b'\\', b'x' | b'u' | b'0'..=b'7', ..] => Some(text),
        _ => None,
    }
}

/// The bytes of a text up to its end mark, and what is after that. Only a space may be left out at
/// the end of a line.
fn unescaped(text: &[u8], end: u8, spelling: Spelling) -> Option<(LogBytes, &[u8])> {
    let mut bytes = LogBytes::new();
    let mut rest = text;
    for _ in text {
        match rest {
            [byte, after @ ..] if *byte == end => return Some((bytes, after)),
            [] => break,
            _ => {
                let (byte, after) = next_byte(rest, spelling)?;
                bytes.try_push(byte).ok()?;
                rest = after;
            }
        }
    }
    if end == b' ' && rest.is_empty() {
        Some((bytes, rest))
    } else {
        None
    }
}

/// The byte with which a text begins, and what is after it.
fn next_byte(text: &[u8], spelling: Spelling) -> Option<(u8, &[u8])> {
    match (spelling, text) {
        (_, [b'\\', after @ ..]) => escape_in(after, spelling),
        (Spelling::Characters, [high @ (0xc2 | 0xc3), low @ 0x80..=0xbf, after @ ..]) => {
            Some(((*high & 3) << 6 | *low & 63, after))
        }
        (_, [byte, after @ ..]) => Some((*byte, after)),
        (_, []) => None,
    }
}

/// The byte of an escape, without its backslash, and what is after it.
fn escape_in(text: &[u8], spelling: Spelling) -> Option<(u8, &[u8])> {
    match text {
        [b'x', b'{', high, low, b'}', rest @ ..]
        | [b'x', high, low, rest @ ..]
        | [b'u', b'0', b'0', high, low, rest @ ..] => {
            Some(((value_of(*high)? & 15) << 4 | value_of(*low)?, rest))
        }
        [b'0'..=b'9', ..] if spelling == Spelling::Decimal => digits_in(text, 10),
        [b'0'..=b'7', ..] => digits_in(text, 8),
        [letter, rest @ ..] => Some((letter_byte(*letter)?, rest)),
        [] => None,
    }
}

/// The byte of up to three digits of a base, and what is after them.
fn digits_in(text: &[u8], base: u8) -> Option<(u8, &[u8])> {
    let mut number = 0u8;
    let mut rest = text;
    for _ in 0..3 {
        match rest {
            [digit @ b'0'..=b'9', after @ ..] if *digit - b'0' < base => {
                number = number.checked_mul(base)?.checked_add(*digit - b'0')?;
                rest = after;
            }
            _ => break,
        }
    }
    Some((number, rest))
}

/// The byte that a letter after a backslash represents.
fn letter_byte(letter: u8) -> Option<u8> {
    match letter {
        b'a' => Some(7),
        b'b' => Some(8),
        b't' => Some(9),
        b'n' => Some(10),
        b'v' => Some(11),
        b'f' => Some(12),
        b'r' => Some(13),
        b'e' => Some(27),
        b'\\' | b'\'' | b'"' => Some(letter),
        _ => None,
    }
}
