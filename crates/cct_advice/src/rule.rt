//! What a field may be.

use cct_model_lines::MOST_NAME;
use cct_script::ranged;
use std::fmt;

const SIMPLE: &[u8] = b"simple";

const CRC: &[u8] = b"crc";

const ACCEPTOR: &[u8] = b"acceptor";

const HOPPER: &[u8] = b"hopper";

const BILLS: &[u8] = b"bills";

/// The mask that has no coin place.
const NO_PLACE: &[u8] = b"0000";

const NO_BYTE: &[u8] = b"-";

/// What a field may be.
#[derive(Clone, Copy)]
pub(crate) enum Rule {
    /// A number from the first to the second, in decimal, without sign and without leading zeros.
    Number(u64, u64),
    /// The name of a check.
    Check,
    /// 1 to 24 printing characters.
    Text,
    /// The identification of a coin.
    Id,
    /// An inhibit mask.
    Mask,
    /// Up to so many bytes in hexadecimal, or a hyphen for none.
    Piece(usize),
    /// At least one byte and up to so many, in hexadecimal.
    Bytes(usize),
    /// What a watched device is.
    Kind,
    /// What a device is that is watched as quiet.
    QuietKind,
    /// What a device is that is watched for premises.
    PremiseKind,
    /// This word.
    Only(&'static str),
}

impl Rule {
    /// Whether a field is so.
    pub(crate) fn fits(&self, field: &[u8]) -> bool {
        match *self {
            Rule::Number(least, most) => ranged(least, most, field).is_some(),
            Rule::Check => field == SIMPLE || field == CRC,
            Rule::Text => !field.is_empty() && field.len() <= MOST_NAME && are_printing(field),
            Rule::Id => field.len() == 6 && are_printing(field),
            Rule::Mask => field.len() == 4 && are_hex(field) && field != NO_PLACE,
            Rule::Piece(most) => field == NO_BYTE || is_piece(most, field),
            Rule::Bytes(most) => is_piece(most, field),
            Rule::Kind => field == ACCEPTOR || field == HOPPER,
            Rule::QuietKind => field == ACCEPTOR || field == BILLS,
            Rule::PremiseKind => field == ACCEPTOR || field == BILLS || field == HOPPER,
            Rule::Only(word) => field == word.as_bytes(),
        }
    }
}

/// Whether each byte is a printing character.
fn are_printing(bytes: &[u8]) -> bool {
    bytes.iter().all(|byte| (0x21..=0x7e).contains(byte))
}

/// Whether each byte is a hexadecimal digit.
fn are_hex(bytes: &[u8]) -> bool {
    bytes.iter().all(|byte| byte.is_ascii_hexdigit())
}

/// Whether these are two hexadecimal digits for each of 1 to `most` bytes.
fn is_piece(most: usize, field: &[u8]) -> bool {
    let len = field.len();
    len != 0 && len % 2 == 0 && len / 2 <= most && are_hex(field)
}

impl fmt::Display for Rule {
    fn fmt<W: fmt::Write>(&self, f: &mut fmt::Formatter<W>) -> fmt::Result {
        match *self {
            Rule::Number(least, most) => write!(f, "a number, {least} to {most}"),
            Rule::Check => f.write_str("simple or crc"),
            Rule::Text => write!(f, "1 to {MOST_NAME} printing characters (bytes 21 to 7e)"),
            Rule::Id => f.write_str("exactly six printing characters (bytes 21 to 7e)"),
            Rule::Mask => f.write_str("four hexadecimal digits other than 0000"),
            Rule::Piece(most) => write!(
                f,
                "- or two hexadecimal digits for each byte, at most {most} bytes"
            ),
            Rule::Bytes(most) => write!(
                f,
                "two hexadecimal digits for each byte, 1 to {most} bytes"
            ),
            Rule::Kind => f.write_str("acceptor or hopper, or bills with quiet after it"),
            Rule::QuietKind => f.write_str("acceptor or bills"),
            Rule::PremiseKind => f.write_str("acceptor, bills or hopper"),
            Rule::Only(word) => write!(f, "{word}"),
        }
    }
}

/// What is wrong with the spelling of a number, whatever its range; empty where it is spelt
/// rightly.
pub(crate) fn misspelling(field: &[u8]) -> &'static str {
    match field {
        [b'+' | b'-', ..] => ", without sign",
        _ if !field.iter().all(|byte| byte.is_ascii_digit()) => ", in decimal digits alone",
        [b'0', _, ..] => ", without leading zeros",
        _ => "",
    }
}
