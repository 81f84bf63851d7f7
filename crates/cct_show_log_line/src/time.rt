//! The time that is in a line.

use crate::word::next_word;

/// How many digits of a fraction of a second count.
const FRACTION_DIGITS: usize = 6;

/// Twelve hours, in millionths of a second.
const NOON: u64 = 43_200_000_000;

/// A time of day, or a time since some beginning, as it is in a line.
#[derive(Clone, Copy)]
pub struct Time<'l> {
    pub text: &'l [u8],
    /// In millionths of a second, without its date.
    pub micros: u64,
}

/// The time that a word spells: `H:M:S`, `H:M:S:MILLIS`, `M:S` or seconds with a point, each with a
/// fraction or without, in brackets or not, after a date and a `T` or not, and with a time zone or
/// not.
pub(crate) fn time_in(word: &[u8]) -> Option<Time<'_>> {
    let text = without_frame(word);
    let of_day = without_zone(text.rsplit(|byte| *byte == b'T').next()?);
    if !of_day.iter().any(|byte| *byte == b':' || *byte == b'.') {
        return None;
    }
    let mut halves = of_day.split(|byte| *byte == b'.');
    let whole = micros_in(halves.next()?)?;
    let fraction = match halves.next() {
        None => 0,
        Some(digits) => fraction_in(digits)?,
    };
    if halves.next().is_some() {
        return None;
    }
    Some(Time {
        text,
        micros: whole.checked_add(fraction)?,
    })
}

/// The time that is in a line before a place: the first word that spells one, with a fraction after
/// a comma, AM or PM, or else, where `is_number_time`, the last word that is a number, which counts
/// milliseconds.
pub(crate) fn time_at(line: &[u8], end: usize, is_number_time: bool) -> Option<Time<'_>> {
    let mut number = None;
    let mut at = 0;
    for _ in line {
        let Some(word) = next_word(line, at) else {
            break;
        };
        if word.from >= end {
            break;
        }
        if let Some(time) = time_in(word.text) {
            return Some(completed(line, time, word.to));
        }
        if let Some(count) = number_in(without_frame(word.text)) {
            number = Some(Time {
                text: word.text,
                micros: count.saturating_mul(1000),
            });
        }
        at = word.to;
    }
    if is_number_time { number } else { None }
}

/// A time with what is after it, at a place in its line: milliseconds or millionths after a comma,
/// AM or PM.
fn completed<'l>(line: &'l [u8], time: Time<'l>, place: usize) -> Time<'l> {
    let mut time = time;
    let Some(next) = next_word(line, place) else {
        return time;
    };
    let is_fraction = matches!(next.text.len(), 3 | 6)
        && line.get(place) == Some(&b',')
        && line.get(next.to) != Some(&b',');
    if is_fraction && let Some(micros) = fraction_in(next.text) {
        time.micros = time.micros.saturating_add(micros);
    }
    match next.text {
        b"PM" | b"pm" if time.micros < NOON => time.micros = time.micros.saturating_add(NOON),
        b"AM" | b"am" if time.micros >= NOON => time.micros = time.micros.saturating_sub(NOON),
        _ => {}
    }
    time
}

/// The time that is before the rest of a line, in the first word or after a date, and that rest;
/// without one, the whole line. Seconds without a point are a time too.
pub fn after_time(line: &[u8]) -> (Option<Time<'_>>, &[u8]) {
    let Some((first, rest)) = split_word(line) else {
        return (None, line);
    };
    if let Some(time) = stamp_in(first) {
        return (Some(time), rest);
    }
    if is_date(first)
        && let Some((second, rest)) = split_word(rest)
        && let Some(time) = stamp_in(second)
    {
        return (Some(time), rest);
    }
    (None, line)
}

/// The first word of a line and what is after its space.
fn split_word(line: &[u8]) -> Option<(&[u8], &[u8])> {
    let place = line.iter().position(|byte| *byte == b' ')?;
    let (word, rest) = line.split_at(place);
    Some((word, rest.strip_prefix(b" ")?))
}

/// The time that a word before a line spells: a time, or whole seconds.
fn stamp_in(word: &[u8]) -> Option<Time<'_>> {
    match time_in(word) {
        Some(time) => Some(time),
        None => {
            let text = without_frame(word);
            Some(Time {
                text,
                micros: number_in(text)?.checked_mul(1_000_000)?,
            })
        }
    }
}

/// Whether a word is a date: digits with two hyphens, slashes or points between them.
pub(crate) fn is_date(word: &[u8]) -> bool {
    let text = without_frame(word);
    let mut between = 0u32;
    for byte in text {
        match *byte {
            b'0'..=b'9' => {}
            b'-' | b'/' | b'.' => between = between.saturating_add(1),
            _ => return false,
        }
    }
    between == 2 && text.len() >= 6
}

/// A word without brackets around it, without a colon after it and without the `Z` of a time zone.
fn without_frame(word: &[u8]) -> &[u8] {
    let word = word.strip_suffix(b":").unwrap_or(word);
    let word = match word {
        [b'[' | b'(', inner @ .., b']' | b')'] => inner,
        _ => word,
    };
    word.strip_suffix(b"Z").unwrap_or(word)
}

/// A time of day without its time zone.
fn without_zone(text: &[u8]) -> &[u8] {
    match text.iter().position(|byte| matches!(*byte, b'+' | b'-')) {
        Some(place) if place > 0 => text.get(..place).unwrap_or(text),
        _ => text,
    }
}

/// The millionths that numbers with colons between them spell: up to three, or four, of which the
/// last are milliseconds.
fn micros_in(text: &[u8]) -> Option<u64> {
    let mut count = 0u32;
    let mut seconds = 0u64;
    let mut millis = 0u64;
    for part in text.split(|byte| *byte == b':') {
        let number = number_in(part)?;
        count = count.saturating_add(1);
        if count <= 3 {
            seconds = seconds.checked_mul(60)?.checked_add(number)?;
        } else if count == 4 && part.len() == 3 {
            millis = number;
        } else {
            return None;
        }
    }
    seconds
        .checked_mul(1000)?
        .checked_add(millis)?
        .checked_mul(1000)
}

/// The number that digits spell, of which there is at least one.
pub(crate) fn number_in(digits: &[u8]) -> Option<u64> {
    if digits.is_empty() {
        return None;
    }
    let mut number = 0u64;
    for digit in digits {
        number = number.checked_mul(10)?.checked_add(digit_in(*digit)?)?;
    }
    Some(number)
}

/// The millionths that the digits of a fraction spell.
fn fraction_in(digits: &[u8]) -> Option<u64> {
    let mut unit = 100_000u64;
    let mut micros = 0u64;
    for (index, digit) in digits.iter().enumerate() {
        let value = digit_in(*digit)?;
        if index < FRACTION_DIGITS {
            micros = micros.saturating_add(value.saturating_mul(unit));
            unit /= 10;
        }
    }
    Some(micros)
}

/// The value of a digit.
fn digit_in(digit: u8) -> Option<u64> {
    match digit {
        b'0'..=b'9' => Some(u64::from(digit - b'0')),
        _ => None,
    }
}
