//! The text of a transcript: the line of each entry, written by one put (`docs/TRANSCRIPT.md`).
#![tactic(auto)]

ghost use Rattle.std.specs.Prelude.{◌≡◌, ◌<◌, length, IsErr};
ghost use Rattle.cct_edge.specs.Bytes.{Serves};
ghost use Rattle.cct_model_lines.specs.Text.{line_of};
ghost use Rattle.cct_text.specs.Writing.{PutsLine, Writes};

use cct_edge::{Failed, Sink};
use cct_model_lines::{Entry, MOST_TEXT};
use entries::write_line;

mod commands;
mod digits;
mod ends;
mod entries;
mod fields;
mod laws;
mod records;
mod said;
mod text;

pub use laws::{
    a_commands_line_is_read_back, fields_tell_the_entry, one_line_is_one_entry,
    one_text_is_one_transcript,
};
pub use text::TextLine;

/// Writes the line of an entry by one put. The line buffer is used for it, whatever it holds;
/// afterwards it holds the line.
pub fn write_entry<K: Sink>(out: &mut K, line: &mut TextLine, entry: &Entry) -> Result<(), Failed>
    ensures puts { PutsLine K.written K.puts out.old (line_of entry.now) result out.new }
    // Also if the put failed.
    ensures line { line.new ≡ line_of entry.now }
    // Its line feed counts too.
    ensures short { length line.new < MOST_TEXT }
    ensures serves { Serves K.written K.faults out.old out.new (IsErr result) }
{
    write_line(line, entry);
    out.put(line.as_slice())
}

/// Writes the lines of entries, in their order, each by one put.
pub fn write_entries<K: Sink>(
    out: &mut K,
    line: &mut TextLine,
    entries: &[Entry],
) -> Result<(), Failed>
    // Line by line, up to the first whose put failed.
    ensures writes { Writes K.written K.puts out.old entries.now result out.new }
    ensures serves { Serves K.written K.faults out.old out.new (IsErr result) }
{
    for entry in entries {
        write_entry(out, line, entry)?;
    }
    Ok(())
}

/// Writes the line of an entry by one put, as `write_entry` does, with a line buffer of its own.
pub fn put_entry<K: Sink>(out: &mut K, entry: &Entry) -> Result<(), Failed>
    ensures puts { PutsLine K.written K.puts out.old (line_of entry.now) result out.new }
    ensures serves { Serves K.written K.faults out.old out.new (IsErr result) }
{
    let mut line = TextLine::new();
    write_entry(out, &mut line, entry)
}
