//! The value that the identification of a coin gives (ccTalk Generic Specification 4, part 3,
//! appendix on coins).
ghost use Rattle.std.specs.Prelude.{◌≡◌, ◌≤◌, IfSome};
ghost use Rattle.cct_text_worth.specs.Worth.{bill_figures, bill_value, digit_told, figures_told};
ghost use Rattle.cct_text_worth.specs.Worth.{in_range, is_country, two_told, value_told};

/// The greatest value of a coin.
const MOST_VALUE: u32 = 1_000_000;

/// The value that an identification gives, in the units in which `EU100A` is 100. It has two
/// capital letters of a country, three figures, and a letter of the issue. The figures are three
/// digits, or two with a `K` (thousand) or an `M` (million) at the place of the decimal point:
/// `050` is 50, `1K5` is 1,500, `20K` is 20,000, `M10` is 100,000. None where the figures are no
/// whole number of units, as `.20`, or not from 1 to 1,000,000; and none of a token, whose country
/// is `TK`.
pub fn value_told(id: [u8; 6]) -> Option<u32>
    ensures { result ≡ value_told id }
{
    let [first, second, a, b, c, _] = id;
    if !is_country(first, second) {
        return None;
    }
    in_range(figures_told(a, b, c)?)
}

/// The value of a bill under the scaling factor of its country, in the units in which the coins of
/// that country are reported. Its identification has two capital letters of a country, four digits,
/// and a letter of the issue: `EU0005A` under 100 is 500. None where the figures are no digits, or
/// the product isn't from 1 to 1,000,000. A factor of 0 is none.
pub fn bill_value(id: [u8; 7], factor: u16) -> Option<u32>
    ensures { result ≡ bill_value id factor }
{
    let [first, second, a, b, c, d, _] = id;
    if !is_country(first, second) {
        return None;
    }
    in_range(u32::from(factor) * bill_figures(a, b, c, d)?)
}

/// The number that four digits spell.
fn bill_figures(a: u8, b: u8, c: u8, d: u8) -> Option<u32>
    ensures value { result ≡ bill_figures a b c d }
    ensures few { IfSome result (λ number. number ≤ 9999) }
{
    Some(100 * two_told(a, b)? + two_told(c, d)?)
}

/// A value in the range of a coin's or a bill's.
fn in_range(value: u32) -> Option<u32>
    ensures { result ≡ in_range value }
{
    if value >= 1 && value <= MOST_VALUE {
        Some(value)
    } else {
        None
    }
}

/// Whether two characters are the letters of a country.
fn is_country(first: u8, second: u8) -> bool
    ensures { result ≡ is_country first second }
{
    first.is_ascii_uppercase() && second.is_ascii_uppercase() && !(first == b'T' && second == b'K')
}

/// The number that three figures spell.
fn figures_told(a: u8, b: u8, c: u8) -> Option<u32>
    ensures { result ≡ figures_told a b c }
{
    match (a, b, c) {
        (b'K', _, _) => Some(10 * two_told(b, c)?),
        (_, b'K', _) => Some(100 * two_told(a, c)?),
        (_, _, b'K') => Some(1000 * two_told(a, b)?),
        (b'M', _, _) => Some(10_000 * two_told(b, c)?),
        (_, b'M', _) => Some(100_000 * two_told(a, c)?),
        (_, _, b'M') => Some(1_000_000 * two_told(a, b)?),
        _ => Some(100 * digit_told(a)? + two_told(b, c)?),
    }
}

/// The number that two digits spell.
fn two_told(tens: u8, ones: u8) -> Option<u32>
    ensures value { result ≡ two_told tens ones }
    ensures few { IfSome result (λ number. number ≤ 99) }
{
    Some(10 * digit_told(tens)? + digit_told(ones)?)
}

/// The number that a digit spells.
fn digit_told(byte: u8) -> Option<u32>
    ensures value { result ≡ digit_told byte }
    ensures few { IfSome result (λ digit. digit ≤ 9) }
{
    match byte {
        b'0'..=b'9' => Some(u32::from(byte - b'0')),
        _ => None,
    }
}
