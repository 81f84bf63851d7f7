//! Fields that are texts, names of checks, and bytes in hexadecimal.
ghost use Rattle.std.specs.Prelude.{◌≡◌, ◌≤◌, length, IsTrue};
ghost use Rattle.std.specs.List.{list_all, All};
ghost use Rattle.cct_model_lines.specs.Device.{IsPrinting, IsWord, IsId};
ghost use Rattle.cct_model_lines.specs.Grammar.{is_printing, check_in, word_in, id_in, piece_in};
ghost use Rattle.cct_model_lines.specs.Grammar.{mask_in};
ghost use Rattle.cct_script.specs.Fields.{Reads, Sets};

use cct_model_lines::{CheckKind, MOST_HEARD, MOST_NAME, Name, Piece};

const SIMPLE: &[u8] = b"simple";

const CRC: &[u8] = b"crc";

const NO_BYTE: &[u8] = b"-";

/// The check that a field names.
pub(crate) fn check_in(field: &[u8]) -> Option<CheckKind>
    ensures { result ≡ check_in field.now }
{
    if field == SIMPLE {
        Some(CheckKind::Simple)
    } else if field == CRC {
        Some(CheckKind::Crc)
    } else {
        None
    }
}

/// Whether each byte is a printing character, 21 to 7e in hexadecimal.
#[tactic(auto, using(cct_model_lines::proofs::Sound::printing_all))]
fn are_printing(bytes: &[u8]) -> bool
    ensures tells { result ≡ list_all is_printing bytes.now }
    ensures printing { IsTrue result → All IsPrinting bytes.now }
{
    bytes.iter().all(|byte| (0x21..=0x7e).contains(byte))
}

/// A name of these bytes.
pub(crate) fn name_of(bytes: &[u8]) -> Name
    requires { length bytes.now ≤ MOST_NAME }
    ensures { result ≡ bytes.now }
{
    let mut name = Name::new();
    name.extend_from_slice(bytes);
    name
}

/// The text that a field is: 1 to 24 printing characters.
#[tactic(auto, unfolding(cct_model_lines::specs::Grammar::word_in))]
pub(crate) fn word_in(field: &[u8]) -> Option<Name>
    ensures { Reads result (word_in field.now) IsWord }
{
    if field.len() < 1 || field.len() > MOST_NAME || !are_printing(field) {
        return None;
    }
    Some(name_of(field))
}

/// The identification of a coin that a field is: six printing characters.
#[tactic(auto, unfolding(cct_model_lines::specs::Grammar::id_in))]
pub(crate) fn id_in(field: &[u8]) -> Option<[u8; 6]>
    ensures { Reads result (id_in field.now) IsId }
{
    if field.len() != 6 || !are_printing(field) {
        return None;
    }
    let mut id = [0; 6];
    id.copy_from_slice(field);
    Some(id)
}

/// Reads the piece of up to `most` bytes that a field spells into the room for a piece: a hyphen is
/// the empty piece, else it is in hexadecimal of either case, two digits a byte. Where the field
/// spells none, anything may stand in the room.
#[tactic(auto, unfolding(cct_model_lines::specs::Grammar::piece_in))]
pub(crate) fn piece_into(most: usize, field: &[u8], piece: &mut Piece) -> Option<()>
    requires { most ≤ MOST_HEARD }
    ensures { Sets result piece.new (piece_in most field.now) (λ bytes. length bytes ≤ most) }
{
    piece.clear();
    if field == NO_BYTE {
        return Some(());
    }
    if field.is_empty() || field.len() > 2 * most {
        return None;
    }
    let mut room = [0; MOST_HEARD];
    let bytes = &mut room[..field.len() / 2];
    hex::decode_to_slice(field, bytes).ok()?;
    piece.extend_from_slice(bytes);
    Some(())
}

/// The piece of up to `most` bytes that a field spells: a hyphen is the empty piece, else it is in
/// hexadecimal of either case, two digits a byte.
pub fn piece_in(most: usize, field: &[u8]) -> Option<Piece>
    requires { most ≤ MOST_HEARD }
    ensures { Reads result (piece_in most field.now) (λ piece. length piece ≤ most) }
{
    let mut piece = Piece::new();
    piece_into(most, field, &mut piece)?;
    Some(piece)
}

/// The inhibit mask that a field spells, bit 0 for coin place 1: four hexadecimal digits of either
/// case, not all 0 (ccTalk Generic Specification 4, part 2, header 231).
#[tactic(auto, using(crate::proofs::Masks::mask_refused), unfolding(cct_model_lines::specs::Grammar::mask_in))]
pub(crate) fn mask_in(field: &[u8]) -> Option<u16>
    ensures { Reads result (mask_in field.now) (λ mask. 1 ≤ mask) }
{
    let mut bytes = [0; 2];
    hex::decode_to_slice(field, &mut bytes).ok()?;
    match u16::from_be_bytes(bytes) {
        0 => None,
        mask => Some(mask),
    }
}
