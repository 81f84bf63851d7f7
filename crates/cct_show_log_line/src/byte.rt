//! The bytes that a word spells.

use arrayvec::ArrayVec;

/// The most bytes of one run: a message, its echo and its reply.
pub const MOST_LOGGED: usize = 780;

/// The bytes of one run.
pub type LogBytes = ArrayVec<u8, MOST_LOGGED>;

/// What stands before and after the two digits of each byte, where nothing is between the bytes.
const MARKS: &[(&str, &str)] = &[
    ("0x", ""),
    ("\\0x", ""),
    ("x", ""),
    ("#$", ""),
    ("$", ""),
    ("%", ""),
    ("\\", ""),
    ("<", ">"),
];

/// How the bytes of a log are written.
#[derive(Clone, Copy, PartialEq, Eq)]
pub(crate) enum Base {
    /// Two hexadecimal digits for each.
    Hex,
    /// The same, but in words of two bytes, of which the second one stands first.
    Swapped,
    /// One or two hexadecimal digits in a word for each.
    ShortHex,
    /// Up to three decimal digits in a word for each.
    Decimal,
}

/// A copy of some bytes, as many as there is room for.
pub fn bytes_of(slice: &[u8]) -> LogBytes {
    let mut bytes = LogBytes::new();
    for byte in slice {
        if bytes.try_push(*byte).is_err() {
            break;
        }
    }
    bytes
}

/// Adds the bytes that a word spells. Where it spells none, or there is no room, nothing is added,
/// and the answer is false.
pub(crate) fn add_word(bytes: &mut LogBytes, word: &[u8], base: Base) -> bool {
    if let Base::Decimal = base {
        return match decimal_in(word) {
            Some(byte) => bytes.try_push(byte).is_ok(),
            None => false,
        };
    }
    if let (Base::Swapped, [high, low, first, second]) = (base, word) {
        return add_digits(bytes, &[*first, *second, *high, *low]);
    }
    if let [b'0', b'b' | b'B', bits @ ..] = word
        && let Some(byte) = bits_in(bits)
    {
        return bytes.try_push(byte).is_ok();
    }
    if let Some(digits) = hex_in(word) {
        return add_digits(bytes, digits);
    }
    if let Some(mark) = joint_in(word) {
        return add_joined(bytes, word, mark);
    }
    for (front, back) in MARKS {
        if are_marked(word, front.as_bytes(), back.as_bytes()) {
            return add_marked(bytes, word, front.as_bytes(), back.as_bytes());
        }
    }
    match (base, word) {
        (Base::ShortHex, [digit]) | (_, [b'0', b'x' | b'X', digit]) => match value_of(*digit) {
            Some(value) => bytes.try_push(value).is_ok(),
            None => false,
        },
        _ => false,
    }
}

/// The byte that eight bits spell.
fn bits_in(bits: &[u8]) -> Option<u8> {
    if bits.len() != 8 {
        return None;
    }
    let mut byte = 0u8;
    for bit in bits {
        let value = match *bit {
            b'0' => 0,
            b'1' => 1,
            _ => return None,
        };
        byte = (byte & 127) << 1 | value;
    }
    Some(byte)
}

/// The byte that a word of up to three decimal digits spells: a number below 256, or one from -128
/// to -1, as a signed byte is written.
fn decimal_in(word: &[u8]) -> Option<u8> {
    match word {
        [b'-', digits @ ..] => match number_below_256(digits)? {
            number @ 1..=128 => Some(0u8.wrapping_sub(number)),
            _ => None,
        },
        _ => number_below_256(word),
    }
}

/// The number below 256 that a word of up to three digits spells.
fn number_below_256(word: &[u8]) -> Option<u8> {
    if word.is_empty() || word.len() > 3 {
        return None;
    }
    let mut number = 0u8;
    for digit in word {
        let value = match *digit {
            b'0'..=b'9' => *digit - b'0',
            _ => return None,
        };
        number = number.checked_mul(10)?.checked_add(value)?;
    }
    Some(number)
}

/// The digits of a word in hexadecimal of either case, two for each byte, without a mark of the
/// base.
pub(crate) fn hex_in(word: &[u8]) -> Option<&[u8]> {
    let digits = match word {
        [b'0', b'x' | b'X', high, low, b'u' | b'U'] if is_hex(&[*high, *low]) => {
            return word.get(2..4);
        }
        [b'0', b'x' | b'X', digits @ ..] | [b'&', b'H' | b'h', digits @ ..] | [b'$', digits @ ..] =>
            { digits }
        [b'\\', b'x', digits @ ..] | [b'0', b'h', digits @ ..] => digits,
        [high, low, b'h' | b'H'] if is_hex(&[*high, *low]) => return word.get(..2),
        [b'0', high, low, b'h' | b'H'] if is_hex(&[*high, *low]) => return word.get(1..3),
        [b'B' | b'b', b'#', b'1', b'6', b'#', digits @ ..] => digits,
        [b'x' | b'X' | b'%', high, low] if is_hex(&[*high, *low]) => return word.get(1..),
        [b'1', b'6', b'#', digits @ ..] => digits.strip_suffix(b"#").unwrap_or(digits),
        _ => word,
    };
    if digits.len().is_multiple_of(2) && is_hex(digits) {
        Some(digits)
    } else {
        None
    }
}

/// A word without angle brackets, one or two, around the bytes of a line, of which it has the
/// first, the last or all.
pub(crate) fn without_angles(word: &[u8]) -> &[u8] {
    let mut word = word;
    for _ in 0..2 {
        word = word.strip_prefix(b"<").unwrap_or(word);
        word = word.strip_suffix(b">").unwrap_or(word);
    }
    word
}

/// Whether there is a byte, and each is a hexadecimal digit.
pub(crate) fn is_hex(digits: &[u8]) -> bool {
    !digits.is_empty() && digits.iter().all(|digit| digit.is_ascii_hexdigit())
}

/// Adds the bytes of these digits, two for each.
fn add_digits(bytes: &mut LogBytes, digits: &[u8]) -> bool {
    for pair in digits.chunks(2) {
        let [high, low] = pair else {
            return false;
        };
        let (Some(high), Some(low)) = (value_of(*high), value_of(*low)) else {
            return false;
        };
        if bytes.try_push((high & 15) << 4 | low).is_err() {
            return false;
        }
    }
    true
}

/// Whether a word has bytes of two digits each, each between the same marks.
fn are_marked(word: &[u8], front: &[u8], back: &[u8]) -> bool {
    let mut rest = word;
    for _ in word {
        match marked_in(rest, front, back) {
            Some((_, after)) => rest = after,
            None => return false,
        }
        if rest.is_empty() {
            return true;
        }
    }
    false
}

/// Adds the bytes of a word in which each stands between the same marks.
fn add_marked(bytes: &mut LogBytes, word: &[u8], front: &[u8], back: &[u8]) -> bool {
    let mut rest = word;
    for _ in word {
        let Some((digits, after)) = marked_in(rest, front, back) else {
            return rest.is_empty();
        };
        if !add_digits(bytes, digits) {
            return false;
        }
        rest = after;
    }
    true
}

/// The two digits between marks with which a text begins, and what is after them.
fn marked_in<'w>(text: &'w [u8], front: &[u8], back: &[u8]) -> Option<(&'w [u8], &'w [u8])> {
    let (digits, rest) = text.strip_prefix(front)?.split_at_checked(2)?;
    if is_hex(digits) {
        Some((digits, rest.strip_prefix(back)?))
    } else {
        None
    }
}

/// What joins the bytes of a word, each of two digits: hyphens, or colons where they are no time's.
fn joint_in(word: &[u8]) -> Option<u8> {
    let mark = *word.get(2)?;
    let mut count = 0u32;
    for part in word.split(|byte| *byte == mark) {
        if part.len() != 2 || !is_hex(part) {
            return None;
        }
        count = count.saturating_add(1);
    }
    match mark {
        b'-' | b'_' if count >= 2 => Some(mark),
        b':' | b'.' | b'/' | b'+' if count >= 5 => Some(mark),
        _ => None,
    }
}

/// Adds the bytes of a word in which this mark joins them.
fn add_joined(bytes: &mut LogBytes, word: &[u8], mark: u8) -> bool {
    for part in word.split(|byte| *byte == mark) {
        if !add_digits(bytes, part) {
            return false;
        }
    }
    true
}

/// The value of a digit in hexadecimal.
pub(crate) fn value_of(digit: u8) -> Option<u8> {
    match digit {
        b'0'..=b'9' => Some(digit - b'0'),
        b'a'..=b'f' => Some(digit - b'a' + 10),
        b'A'..=b'F' => Some(digit - b'A' + 10),
        _ => None,
    }
}
