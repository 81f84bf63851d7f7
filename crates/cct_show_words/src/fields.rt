//! The fields of a line.

use arrayvec::ArrayVec;
use cct_model_lines::{Coin, Coins, EVENTS, Step};
use cct_script::{ranged, read_step_line};

/// The most fields that a line of a transcript has.
pub(crate) const MOST_FIELDS: usize = 10;

/// The fields of a line, which single spaces part, or `None` where there are more than a line of a
/// transcript has.
pub(crate) fn fields_of(line: &[u8]) -> Option<ArrayVec<&[u8], MOST_FIELDS>> {
    let mut fields = ArrayVec::new();
    for field in line.split(|byte| *byte == b' ') {
        fields.try_push(field).ok()?;
    }
    Some(fields)
}

/// The step that a line of a script spells.
pub(crate) fn step_in(line: &[u8]) -> Option<Step> {
    match read_step_line(line) {
        Ok(step) => Some(step),
        Err(_) => None,
    }
}

/// The number below 2^8 that a field spells.
pub(crate) fn byte(field: &[u8]) -> Option<u8> {
    Some(ranged(0, 255, field)? as u8)
}

/// The number below 2^32 that a field spells.
pub(crate) fn number(field: &[u8]) -> Option<u32> {
    Some(ranged(0, u64::from(u32::MAX), field)? as u32)
}

/// The number below 2^64 that a field spells.
pub(crate) fn amount(field: &[u8]) -> Option<u64> {
    ranged(0, u64::MAX, field)
}

/// The number below 2^8 that one field alone spells.
pub(crate) fn one_byte(fields: &[&[u8]]) -> Option<u8> {
    match fields {
        [field] => byte(field),
        _ => None,
    }
}

/// The numbers below 2^8 that two fields spell.
pub(crate) fn two_bytes(fields: &[&[u8]]) -> Option<(u8, u8)> {
    match fields {
        [first, second] => Some((byte(first)?, byte(second)?)),
        _ => None,
    }
}

/// The number below 2^32 that one field alone spells.
pub(crate) fn one_number(fields: &[&[u8]]) -> Option<u32> {
    match fields {
        [field] => number(field),
        _ => None,
    }
}

/// The inhibit mask that a field spells: four hexadecimal digits.
pub(crate) fn mask(field: &[u8]) -> Option<u16> {
    let mut bytes = [0; 2];
    hex::decode_to_slice(field, &mut bytes).ok()?;
    Some(u16::from_be_bytes(bytes))
}

/// The coins that a field lists, as `PLACE/PATH` joined by commas; a hyphen is no coin.
pub(crate) fn coins(field: &[u8]) -> Option<Coins> {
    let mut coins = Coins::new();
    if let b"-" = field {
        return Some(coins);
    }
    for text in field.split(|byte| *byte == b',') {
        if coins.as_slice().len() == EVENTS {
            return None;
        }
        coins.push(coin(text)?);
    }
    Some(coins)
}

/// The coin that a text spells, as `PLACE/PATH`.
fn coin(text: &[u8]) -> Option<Coin> {
    let mut parts = text.split(|byte| *byte == b'/');
    let place = byte(parts.next()?)?;
    let path = byte(parts.next()?)?;
    match parts.next() {
        None => Some(Coin { place, path }),
        Some(_) => None,
    }
}
