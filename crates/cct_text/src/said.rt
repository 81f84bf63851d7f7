//! What a monitor says of a watched device.
ghost use Rattle.std.specs.Prelude.{◌≡◌, ℕ, ◌+◌, ◌≤◌, List, [], ◌∷◌, ◌++◌, length};
ghost use Rattle.cct_model_lines.specs.Text.{number_text, said_fields};
ghost use Rattle.cct_text.specs.Joined.{each_after};
ghost use Rattle.cct_text.specs.Adding.{Adds, HasFields};

use crate::fields::{write_number, write_numbers};
use crate::records::write_coins;
use crate::text::TextLine;
use cct_model_lines::{MOST_TEXT, Said};

/// Writes the fields of what a monitor says.
pub(crate) fn write_said(line: &mut TextLine, said: &Said)
    requires { line.old ≡ [] }
    ensures { HasFields line.new (said_fields said.now) }
{
    match said {
        Said::Sure {
            addr,
            first,
            last,
            coins,
        } => {
            write_span(line, b"sure", *addr, *first, *last);
            write_coins(line, coins.as_slice());
        }
        Said::Doubt { addr, first, last } => write_span(line, b"doubt", *addr, *first, *last),
        Said::Fell {
            addr,
            first,
            last,
            count,
        } => {
            write_span(line, b"fell", *addr, *first, *last);
            write_number(line, u64::from(*count));
        }
    }
}

/// Writes a word, and the address of a watched device and the numbers of two taps as the fields
/// after it.
fn write_span(line: &mut TextLine, word: &[u8], addr: u8, first: u32, last: u32)
    requires { length line.old + length word.now + 63 ≤ MOST_TEXT }
    ensures { Adds line.old line.new (word.now ++ each_after 32 (number_text addr ∷ number_text first ∷ number_text last ∷ []))
        (length word.now + 63) }
{
    write_numbers(
        line,
        word,
        &[u64::from(addr), u64::from(first), u64::from(last)],
    );
}
