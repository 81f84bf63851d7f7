//! The lines of a script, one after another.
ghost use Rattle.std.specs.Prelude.{◌≡◌, ◌≢◌, ◌≤◌, ◌<◌, [], drop, length, position, None, Err};
ghost use Rattle.std.specs.Prelude.{IfOk, IfSome};
ghost use Rattle.cct_edge.specs.Bytes.{Serves};
ghost use Rattle.cct_model_lines.specs.Script.{is_line_feed};

use crate::buffer::{Held, LineBuffer};
use cct_edge::{Failed, Source};
use cct_model_lines::MOST_LINES;
use thiserror::Error;

/// A line, or the end of the input.
#[derive(Clone, Copy)]
pub enum Line<'a> {
    /// The bytes of a line, 1,200 at most, without its line feed.
    Text(&'a [u8]),
    /// The input ended after a line feed, or is empty.
    End,
}

/// Why there is no line.
#[derive(Clone, Copy, Debug, PartialEq, Eq, Error)]
pub enum LinesNo {
    /// The source failed. A later call may succeed.
    #[error("the source failed")]
    Read,
    /// The next 1,201 bytes have no line feed.
    #[error("the line has more than 1,200 bytes")]
    Long,
    /// The input ends after bytes without a line feed.
    #[error("the input ends within a line")]
    Cut,
    /// 1,048,576 lines were given, and a byte follows.
    #[error("there are more than 1,048,576 lines")]
    TooMany,
}

/// The lines of a script: the bytes that were taken and not yet given, one line's worth, and how
/// many lines were given.
#[derive(Drop)]
pub struct Lines {
    buffer: LineBuffer,
    // The last line given, with its line feed, has so many of the bytes held.
    spent: usize,
    given: u32,
    ghost spent_held: { spent ≤ length buffer },
}

impl Lines {
    ghost use Rattle.std.specs.Prelude.{⊤};
    ghost use Rattle.std.specs.Borrow.{sem, follows_so};
    ghost use mathlib.Core.Option.{none};
    ghost use Rattle.cct_script.specs.contracts.lines.Lines.{the_row};
    ghost use Rattle.cct_script.specs.Giving.{Gives, line_given, line_in, none_given, standing_of};
    ghost use Rattle.cct_script.specs.Taking.{TakesForLine};

    /// No byte is held, and no line was given.
    pub fn new() -> Self
        ensures { standing_of result ≡ none_given }
    {
        Lines {
            buffer: LineBuffer::new(),
            spent: 0,
            given: 0,
        }
    }

    /// Finds the next line, and says how many of the bytes at the front of the buffer it has.
    #[inline(always)]
    fn find<S: Source>(&mut self, source: &mut S) -> Result<Option<usize>, LinesNo>
        ensures gives { Gives (standing_of self.old) (standing_of self.new)
            (S.left source.old) (S.left source.new) (line_in self.new.buffer result) }
        ensures fits { IfOk result (λ found. IfSome found (λ len. len ≤ length self.new.buffer)) }
        ensures serves { Serves S.left S.faults source.old source.new (result ≡ Err LinesNo.Read) }
        ensures still { position is_line_feed (standing_of self.old).held ≢ None → source.new
            ≡ source.old }
        ensures takes { TakesForLine S.takes S.left (standing_of self.old).held source.old
            (standing_of self.new).held source.new (line_in self.new.buffer result) }
    {
        self.give_up();
        if self.given >= MOST_LINES {
            return self.find_no_more(source);
        }
        match self.buffer.seek(source) {
            Ok(Held::Line(len)) => {
                self.spent = len + 1;
                self.given += 1;
                Ok(Some(len))
            }
            Ok(Held::Long) => Err(LinesNo::Long),
            Ok(Held::Ended) => {
                if self.buffer.held().is_empty() {
                    Ok(None)
                } else {
                    Err(LinesNo::Cut)
                }
            }
            Err(Failed) => Err(LinesNo::Read),
        }
    }

    /// Gives up the bytes of the last line.
    fn give_up(&mut self)
        ensures spent { self.new.spent ≡ 0 }
        ensures given { self.new.given ≡ self.old.given }
        ensures held { self.new.buffer ≡ drop self.old.spent self.old.buffer }
    {
        let spent = self.spent;
        self.spent = 0;
        self.buffer.advance(spent);
    }

    /// Whether a byte follows the last line that a script may have.
    fn find_no_more<S: Source>(&mut self, source: &mut S) -> Result<Option<usize>, LinesNo>
        requires spent { self.old.spent ≡ 0 }
        requires many { MOST_LINES ≤ self.old.given }
        ensures gives { Gives (standing_of self.old) (standing_of self.new)
            (S.left source.old) (S.left source.new) (line_in self.new.buffer result) }
        ensures none { IfOk result (λ found. found ≡ None) }
        ensures serves { Serves S.left S.faults source.old source.new (result ≡ Err LinesNo.Read) }
        ensures still { position is_line_feed self.old.buffer ≢ None → source.new ≡ source.old }
        ensures takes { TakesForLine S.takes S.left self.old.buffer source.old
            (standing_of self.new).held source.new (line_in self.new.buffer result) }
    {
        if !self.buffer.held().is_empty() {
            return Err(LinesNo::TooMany);
        }
        match self.buffer.fill(source) {
            Ok(0) => Ok(None),
            Ok(_) => Err(LinesNo::TooMany),
            Err(Failed) => Err(LinesNo::Read),
        }
    }

    /// The next line, or the end of the input. It takes from the source only while it holds no line
    /// feed.
    ///
    /// `TooMany` comes exactly where 1,048,576 lines were given and a byte follows; else `Long`
    /// exactly where the next 1,201 bytes have no line feed; else `Cut` exactly where the input
    /// ends after one or more bytes without a line feed. What was taken stays held after a refusal.
    #[inline(always)]
    pub fn line<S: Source>(&mut self, source: &mut S) -> Result<Line<'_>, LinesNo>
        // Each line once, in order and whole, and each end exactly where it is. Bytes are taken
        // only while those held have no line feed, each time into all the room that is left, and
        // none after a take that failed.
        ensures* gives { sem 𝓛 (follows_so the_row the_row self.entry.ghost_name none (λ _ _. ⊤)
            (λ new. Gives (standing_of self.old) (standing_of new)
            (S.left source.old) (S.left source.new) (line_given result)
            × TakesForLine S.takes S.left (standing_of self.old).held source.old
            (standing_of new).held source.new (line_given result))) }
        ensures serves { Serves S.left S.faults source.old source.new (result ≡ Err LinesNo.Read) }
        // While a whole line is held, nothing is taken.
        ensures still { position is_line_feed (standing_of self.old).held ≢ None → source.new
            ≡ source.old }
    {
        match self.find(source) {
            Ok(Some(len)) => Ok(Line::Text(&self.buffer.held()[..len])),
            Ok(None) => Ok(Line::End),
            Err(why) => Err(why),
        }
    }
}
