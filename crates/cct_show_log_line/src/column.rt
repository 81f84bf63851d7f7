//! The column of characters that some dumps have beside the bytes.

use crate::byte::Base;
use crate::run::run_in;

/// The place at which the column of characters begins in a line: after two spaces, between strokes,
/// angle brackets or nothing. Where there is none, the end of the line. Its characters may look like
/// the words of a log. `offset` is where the last line of a dump ended.
pub(crate) fn column_at(line: &[u8], offset: Option<u64>) -> usize {
    let place = match line.trim_ascii_end().last() {
        Some(b'|') => line.windows(3).position(|three| three == b"  |".as_slice()),
        Some(b'<') => line.windows(3).position(|three| three == b"  >".as_slice()),
        _ => None,
    };
    let gap = line
        .trim_ascii_end()
        .windows(2)
        .rposition(|pair| pair == b"  ".as_slice());
    let Some(place) = place.or(gap) else {
        return line.len();
    };
    let Some((front, column)) = line.split_at_checked(place) else {
        return line.len();
    };
    let run = run_in(front, Base::Hex, offset);
    if is_column(column, run.bytes.as_slice()) {
        place
    } else {
        line.len()
    }
}

/// Whether the rest of a line is a column of the characters that these bytes are, with a mark for
/// each that doesn't print.
pub(crate) fn is_column(rest: &[u8], bytes: &[u8]) -> bool {
    let text = rest.trim_ascii();
    let text = match text {
        [b'|', inner @ .., b'|'] | [b'>', inner @ .., b'<'] => inner,
        [b'\'', inner @ .., b'\''] | [b'"', inner @ .., b'"'] if !inner.is_empty() => inner,
        _ => text,
    };
    if text.is_empty() || text.len() > bytes.len() {
        return false;
    }
    let mut places = text.iter();
    for byte in bytes {
        match places.next() {
            Some(shown) if is_shown(*byte, *shown) => {}
            None if *byte == b' ' => {}
            _ => return false,
        }
    }
    true
}

/// Whether a byte is shown as this character.
fn is_shown(byte: u8, shown: u8) -> bool {
    match byte {
        b'!'..=b'~' => shown == byte,
        _ => matches!(shown, b'.' | b' ' | b'?' | b'_'),
    }
}
