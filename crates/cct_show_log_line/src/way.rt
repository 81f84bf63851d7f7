//! Where a line says which way its bytes went.

use crate::byte::{is_hex, without_angles};
use crate::name::{Way, arrow_way, is_host, maybe_way, named_way};
use crate::time::{number_in, time_in};
use crate::word::{Word, next_word};

/// A place in a line that says a way.
#[derive(Clone, Copy)]
pub(crate) struct WayAt {
    pub(crate) way: Way,
    /// Whether its word may say something else.
    pub(crate) is_weak: bool,
    /// Whether it is a part of its word.
    pub(crate) is_part: bool,
    /// Whether it may be in the place of a program from which the line comes, as `bus:send:41`.
    pub(crate) is_placed: bool,
    /// The place at which it begins, and the place after it.
    pub(crate) from: usize,
    pub(crate) to: usize,
}

/// The first way that a line says at a place or after it: one that can be nothing else, or where
/// none is there the first that may be one.
pub(crate) fn first_way(line: &[u8], place: usize) -> Option<WayAt> {
    let mut weak = None;
    let mut at = place;
    let mut before: &[u8] = b"";
    for _ in line {
        let Some(word) = next_word(line, at) else {
            break;
        };
        match way_at(line, before, &word) {
            Some(found) if !found.is_weak && !found.is_placed => return Some(found),
            Some(found) if weak.is_none() => weak = Some(found),
            _ => {}
        }
        before = word.text;
        at = word.to;
    }
    weak
}

/// The way that a word says, after the word before it.
fn way_at(line: &[u8], before: &[u8], word: &Word<'_>) -> Option<WayAt> {
    let (arrow, _) = cut_arrow(word.text);
    if let Some(found) = arrow_at(line, before, word, arrow) {
        return Some(found);
    }
    if let Some(found) = arrow_within(word)
        && named_at(word).is_none()
    {
        return Some(found);
    }
    if let Some((way, len)) = way_between(word.text) {
        return Some(WayAt {
            way,
            is_weak: false,
            is_part: false,
            is_placed: false,
            from: word.from,
            to: word.from.saturating_add(len),
        });
    }
    transfer_at(line, word).or(named_at(word))
}

/// The way of a bulk transfer in a line of `usbmon`, where its bytes are there: after a sign of
/// equality.
fn transfer_at(line: &[u8], word: &Word<'_>) -> Option<WayAt> {
    let way = match word.text {
        [b'B', b'o', b':', ..] => Way::Sent,
        [b'B', b'i', b':', ..] => Way::Heard,
        _ => return None,
    };
    let sign = line
        .windows(3)
        .position(|three| three == b" = ".as_slice())?;
    Some(WayAt {
        way,
        is_weak: false,
        is_part: false,
        is_placed: false,
        from: word.from,
        to: sign.saturating_add(2),
    })
}

/// The way that an arrow says at the beginning of a word: from the host, if not the other end is
/// named as it. A name of a way right after an arrow counts in its place.
fn arrow_at(line: &[u8], before: &[u8], word: &Word<'_>, arrow: &[u8]) -> Option<WayAt> {
    let way = arrow_way(arrow)?;
    let after = word.text.get(arrow.len()..)?;
    let is_alone = after.is_empty() || after == b":".as_slice();
    if !is_alone && (!is_hex(without_angles(after)) || is_bracket(line, word)) {
        return None;
    }
    let mut found = WayAt {
        way,
        is_weak: false,
        is_part: false,
        is_placed: false,
        from: word.from,
        to: word.from.saturating_add(arrow.len()),
    };
    if is_alone {
        found.to = word.to;
        if let Some(next) = next_word(line, word.to) {
            if let Some(named) = named_at(&next)
                && !named.is_weak
            {
                return Some(named);
            }
            turn(&mut found, line, before, &next);
        }
    }
    Some(found)
}

/// The way that an arrow says within a word: right after a time, or one of the arrows that are
/// characters of their own, with others beside it.
fn arrow_within(word: &Word<'_>) -> Option<WayAt> {
    let place = word.text.iter().position(|byte| is_of_arrow(*byte))?;
    let (front, rest) = word.text.split_at_checked(place)?;
    let is_behind_time = time_in(front).is_some();
    let (arrow, _) = cut_arrow(rest);
    let way = match arrow_way(arrow) {
        Some(way) if is_behind_time => way,
        _ => character_way(arrow)?,
    };
    let to = place.saturating_add(arrow.len());
    Some(WayAt {
        way,
        is_weak: false,
        is_part: false,
        is_placed: false,
        from: word
            .from
            .saturating_add(if is_behind_time { place } else { 0 }),
        to: word.from.saturating_add(to),
    })
}

/// The way of an arrow that is a character of its own, among others that no text in ASCII has.
fn character_way(marks: &[u8]) -> Option<Way> {
    marks.windows(3).find_map(|three| match three {
        b"\xe2\x86\x92" | b"\xe2\x86\x90" => arrow_way(three),
        _ => None,
    })
}

/// Whether a byte may be one of an arrow.
fn is_of_arrow(byte: u8) -> bool {
    matches!(byte, b'-' | b'=' | b'>' | b'<' | 0x80..=0xff)
}

/// Whether a word begins bytes in angle brackets: with the first one, where a later word, or this
/// one, ends with the other.
fn is_bracket(line: &[u8], word: &Word<'_>) -> bool {
    if !word.text.starts_with(b"<") {
        return false;
    }
    let mut at = word.from;
    for _ in line {
        let Some(next) = next_word(line, at) else {
            return false;
        };
        if !is_hex(without_angles(next.text)) {
            return false;
        }
        if next.text.ends_with(b">") {
            return true;
        }
        at = next.to;
    }
    false
}

/// Takes the other end of an arrow into account, where the host is named at one. A word in brackets
/// of its own is no end.
fn turn(found: &mut WayAt, line: &[u8], before: &[u8], next: &Word<'_>) {
    if is_end_host(next.text) || is_host_number(before, next.text) {
        found.way = against(found.way);
        found.to = next.to;
    } else if is_end_host(before) && !next.is_framed(line) && !is_pair(next.text) {
        found.to = next.to;
    }
}

/// Whether an arrow between two addresses, of which the last has a colon after it, ends at the
/// host's, 1.
fn is_host_number(before: &[u8], next: &[u8]) -> bool {
    match next.strip_suffix(b":") {
        Some(end) => number_in(before).is_some() && number_in(end) == Some(1),
        None => false,
    }
}

/// Whether a word spells bytes, two digits for each.
fn is_pair(word: &[u8]) -> bool {
    word.len().is_multiple_of(2) && is_hex(word)
}

/// The other way.
fn against(way: Way) -> Way {
    match way {
        Way::Sent => Way::Heard,
        Way::Heard => Way::Sent,
    }
}

/// The way that a word says in which an arrow is between two ends, of which one is the host, and
/// how many bytes of the word say it: bytes of the wire right after the arrow don't.
fn way_between(word: &[u8]) -> Option<(Way, usize)> {
    let place = word
        .iter()
        .position(|byte| matches!(*byte, b'-' | b'=' | b'>' | b'<'))?;
    let left = word.get(..place)?;
    let (arrow, right) = cut_arrow(word.get(place..)?);
    let way = arrow_way(arrow)?;
    if is_end_host(left) {
        let behind = if is_pair(right) { right.len() } else { 0 };
        Some((way, word.len().saturating_sub(behind)))
    } else if !right.is_empty() && is_end_host(right) {
        Some((against(way), word.len()))
    } else {
        None
    }
}

/// Whether an end of an arrow is the host, with a colon after it or without.
fn is_end_host(end: &[u8]) -> bool {
    is_host(end.strip_suffix(b":").unwrap_or(end))
}

/// The bytes of an arrow that begins a word, and the rest.
fn cut_arrow(word: &[u8]) -> (&[u8], &[u8]) {
    let len = word
        .iter()
        .position(|byte| !is_of_arrow(*byte))
        .unwrap_or(word.len());
    word.split_at_checked(len).unwrap_or((b"", word))
}

/// The way that a word names, with marks after it or without. A part of a longer word may name it
/// too.
fn named_at(word: &Word<'_>) -> Option<WayAt> {
    let mut from = 0usize;
    for part in word.text.split(|byte| !byte.is_ascii_alphabetic()) {
        let to = from.saturating_add(part.len());
        if let Some((way, is_weak)) = part_way(word.text, from, part) {
            let rest = word.text.get(to..)?;
            if is_weak && matches!(rest, [b'.', b'a'..=b'z' | b'A'..=b'Z', ..]) {
                // It is the name of a file or a program.
                return None;
            }
            let marks = marks_in(rest);
            return Some(WayAt {
                way,
                is_weak,
                is_part: from != 0,
                is_placed: from != 0 && matches!(rest, [b':', b'0'..=b'9', ..]),
                from: word.from,
                to: word.from.saturating_add(to).saturating_add(marks),
            });
        }
        from = to.saturating_add(1);
    }
    None
}

/// How many marks begin a text. An angle bracket before a byte is none of them.
fn marks_in(text: &[u8]) -> usize {
    let count = text
        .iter()
        .position(|byte| byte.is_ascii_alphanumeric())
        .unwrap_or(text.len());
    match text.get(..count) {
        Some([.., b'<']) if count < text.len() => count.saturating_sub(1),
        _ => count,
    }
}

/// The way that a part of a word names, which begins at this place of it, and whether it may say
/// something else. Such a part begins the word, or is after a low line.
fn part_way(word: &[u8], from: usize, part: &[u8]) -> Option<(Way, bool)> {
    if let Some(way) = named_way(part) {
        return Some((way, false));
    }
    let is_front = match from.checked_sub(1) {
        Some(place) => word.get(place) == Some(&b'_'),
        None => true,
    };
    if is_front {
        Some((maybe_way(part)?, true))
    } else {
        None
    }
}
