//! Fields of a line, each after a space.
ghost use Rattle.std.specs.Prelude.{◌≡◌, ℕ, ◌+◌, ◌*◌, ◌<◌, ◌≤◌, List, [], ◌∷◌, ◌++◌, length, map};
ghost use Rattle.cct_model_lines.specs.Text.{number_text, piece_field, mask_field};
ghost use Rattle.cct_text.specs.Joined.{each_after};
ghost use Rattle.cct_text.specs.Adding.{Adds};

use crate::text::TextLine;
use cct_model_lines::MOST_TEXT;

/// Writes a word, and numbers as the fields after it.
pub(crate) fn write_numbers(line: &mut TextLine, word: &[u8], numbers: &[u64])
    requires { length line.old + length word.now + 21 * length numbers.now ≤ MOST_TEXT }
    ensures { Adds line.old line.new (word.now ++ each_after 32 (map number_text numbers.now))
        (length word.now + 21 * length numbers.now) }
{
    line.push(word);
    for number in numbers {
        write_number(line, *number);
    }
}

/// Writes a word, and an address as the field after it.
pub(crate) fn write_address(line: &mut TextLine, word: &[u8], addr: u8)
    requires { length line.old + length word.now + 21 ≤ MOST_TEXT }
    ensures { Adds line.old line.new (word.now ++ 32 ∷ number_text addr) (length word.now + 21) }
{
    line.push(word);
    write_number(line, u64::from(addr));
}

/// Writes a word, and an address and one more byte as the fields after it.
pub(crate) fn write_pair(line: &mut TextLine, word: &[u8], addr: u8, byte: u8)
    requires { length line.old + length word.now + 42 ≤ MOST_TEXT }
    ensures { Adds line.old line.new (word.now ++ 32 ∷ number_text addr ++ 32 ∷ number_text byte)
        (length word.now + 42) }
{
    write_address(line, word, addr);
    write_number(line, u64::from(byte));
}

/// Writes a number as the next field.
pub(crate) fn write_number(line: &mut TextLine, number: u64)
    requires { length line.old + 21 ≤ MOST_TEXT }
    ensures { Adds line.old line.new (32 ∷ number_text number) 21 }
{
    line.push(b" ");
    line.push_number(number);
}

/// Writes a word, and after it an address and an inhibit mask, which has four hexadecimal digits.
pub(crate) fn write_mask(line: &mut TextLine, word: &[u8], addr: u8, mask: u16)
    requires { length line.old + length word.now + 26 ≤ MOST_TEXT }
    ensures { Adds line.old line.new (word.now ++ 32 ∷ number_text addr ++ 32 ∷ mask_field mask)
        (length word.now + 26) }
{
    write_address(line, word, addr);
    line.push(b" ");
    line.push_hex(&mask.to_be_bytes());
}

/// Writes a piece as the next field: in hexadecimal, or a hyphen where it is empty.
pub(crate) fn write_piece(line: &mut TextLine, piece: &[u8])
    requires { length line.old + 2 * length piece.now + 2 ≤ MOST_TEXT }
    ensures { Adds line.old line.new (32 ∷ piece_field piece.now) (2 * length piece.now + 2) }
{
    line.push(b" ");
    match piece {
        [] => line.push(b"-"),
        _ => line.push_hex(piece),
    }
}
