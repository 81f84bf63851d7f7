//! Numbers in decimal.
ghost use Rattle.std.specs.Prelude.{◌≡◌, ◌≤◌, ◌^◌, ◌<◌, option_and_then};
ghost use Rattle.cct_model_lines.specs.Grammar.{digits_from, number_in, within, ranged};
ghost use Rattle.cct_script.specs.Fields.{Reads};

/// The number that a field spells in decimal, without sign and without leading zeros.
///
/// `None` where the field spells no number that way, or one below `least` or above `most`.
#[tactic(auto, unfolding(cct_model_lines::specs::Grammar::ranged))]
#[inline(always)]
pub fn ranged(least: u64, most: u64, field: &[u8]) -> Option<u64>
    ensures { Reads result (ranged least most field.now)
        (λ number. (least ≤ number) × (number ≤ most)) }
{
    let number = number_in(field, most)?;
    if number < least {
        return None;
    }
    Some(number)
}

/// The number up to `most` that a field spells in decimal, without sign and without leading zeros.
#[inline(always)]
fn number_in(field: &[u8], most: u64) -> Option<u64>
    ensures reads { result ≡ option_and_then (within 0 most) (number_in field.now) }
{
    match field {
        [] => None,
        [b'0', _, ..] => None,
        _ => digits_in(field, most),
    }
}

/// The number up to `most` that digits spell.
#[inline(always)]
fn digits_in(digits: &[u8], most: u64) -> Option<u64>
    ensures { result ≡ option_and_then (within 0 most) (digits_from 0 digits.now) }
{
    let mut number: u64 = 0;
    for byte in digits {
        if !byte.is_ascii_digit() {
            return None;
        }
        number = number
            .checked_mul(10)?
            .checked_add(u64::from(*byte - b'0'))?;
        if number > most {
            return None;
        }
    }
    Some(number)
}

/// The number of one byte, from `least` up to `most`, that a field spells.
pub(crate) fn ranged_u8(least: u8, most: u8, field: &[u8]) -> Option<u8>
    ensures { Reads result (ranged least most field.now)
        (λ number. (least ≤ number) × (number ≤ most)) }
{
    Some(ranged(u64::from(least), u64::from(most), field)? as u8)
}

/// The number of four bytes, from `least` up to `most`, that a field spells. Where both are known,
/// no step of the sum is looked at for an overflow.
#[inline(always)]
pub(crate) fn ranged_u32(least: u32, most: u32, field: &[u8]) -> Option<u32>
    ensures { Reads result (ranged least most field.now)
        (λ number. (least ≤ number) × (number ≤ most)) }
{
    Some(ranged(u64::from(least), u64::from(most), field)? as u32)
}
