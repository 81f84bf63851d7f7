//! The lines of a script, taken from its source however many bytes it gives at a time.
ghost use Rattle.std.specs.Prelude.{◌≡◌, ◌≢◌, ℕ, ◌+◌, ◌<◌, ◌≤◌, List, [], ◌∷◌, ◌++◌, ◌-◌, length};
ghost use Rattle.std.specs.Prelude.{take, drop};
ghost use Rattle.std.specs.Prelude.{position, slice_range, IfOk, IsErr, MatchResult, OnErr, None};
ghost use Rattle.std.specs.Prelude.{Ok, Err};
ghost use Rattle.std.specs.Io.KnownBytes.{Consumes, Keeps, IsAtEnd};
ghost use Rattle.cct_edge.specs.Bytes.{Serves};
ghost use Rattle.cct_model_lines.specs.Script.{is_line_feed};
ghost use Rattle.cct_script.specs.Taking.{TakesOn, TakesUntilFault};
ghost use Rattle.cct_script.specs.Window.{Fills, Finds, IsShort};

use crate::bytes::line_feed_in;
use cct_edge::{Failed, Source};
use cct_model_lines::MOST_LINE;
use std::marker::Model;

/// The most bytes of a line, its line feed among them, and the first byte of one that is too long.
const ROOM: usize = MOST_LINE + 1;

/// What the reader found at the front of the bytes that it holds.
#[derive(Clone, Copy, PartialEq, Eq)]
pub(crate) enum Held {
    /// A whole line of so many bytes, and after it its line feed.
    Line(usize),
    /// A line longer than a line may be.
    Long,
    /// The end of the input, and before it bytes without a line feed, or none.
    Ended,
}

/// The bytes of a script that were taken and not yet read: one line's worth.
#[derive(Drop)]
pub(crate) struct LineBuffer {
    bytes: [u8; ROOM],
    start: usize,
    end: usize,
}

impl Model for LineBuffer {
    ghost use Rattle.std.specs.Prelude.{◌≤◌, List, ℕ, slice_range};

    ghost Value = { List ℕ };

    ghost view = { λ s. slice_range s.bytes s.start s.end };

    ghost use Rattle.cct_script.specs.declared.buffer.TheConstants.{ROOM};

    ghost invariant = { λ s. (s.start ≤ s.end) × (s.end ≤ ROOM) };
}

impl LineBuffer {
    /// No byte is held.
    pub(crate) fn new() -> Self
        ensures { result ≡ [] }
    {
        LineBuffer {
            bytes: [0; ROOM],
            start: 0,
            end: 0,
        }
    }

    /// The bytes held.
    pub(crate) fn held(&self) -> &[u8]
        ensures value { result.now ≡ self.now }
        ensures fits { length result.now ≤ ROOM }
    {
        &self.bytes[self.start..self.end]
    }

    /// Gives up the first bytes held.
    pub(crate) fn advance(&mut self, count: usize)
        requires { count ≤ length self.old }
        ensures { self.new ≡ drop count self.old }
    {
        self.start += count;
    }

    /// Takes more bytes from the source into all the room that is left, and says how many.
    pub(crate) fn fill<S: Source>(&mut self, source: &mut S) -> Result<usize, Failed>
        requires { length self.old < ROOM }
        // the bytes held
        ensures fills { Fills self.old self.new (S.left source.old) (S.left source.new) }
        ensures count { IfOk result (λ n. length self.new ≡ length self.old + n) }
        ensures err { OnErr result (self.new ≡ self.old) }

        // the source
        ensures end { result ≡ Ok 0 → IsAtEnd (S.left source.new) }
        ensures serves { Serves S.left S.faults source.old source.new (IsErr result) }
        ensures one { S.takes source.old (ROOM - length self.old) result source.new }
    {
        move_to_front(&mut self.bytes, self.start, self.end);
        self.end -= self.start;
        self.start = 0;
        let taken = source.take(&mut self.bytes[self.end..])?;
        self.end += taken;
        Ok(taken)
    }

    /// Takes from the source until a whole line is held, or there is none.
    #[tactic(auto, using(crate::proofs::Giving::line_within))]
    pub(crate) fn seek<S: Source>(&mut self, source: &mut S) -> Result<Held, Failed>
        // the bytes held, and what was found in them
        ensures fills { Fills self.old self.new (S.left source.old) (S.left source.new) }
        ensures finds { IfOk result (λ found. Finds found self.new (S.left source.new)) }
        ensures short { IfOk result IsShort }
        ensures partial { OnErr result (position is_line_feed self.new ≡ None) }

        // the source
        ensures still { position is_line_feed self.old ≢ None → source.new ≡ source.old }
        ensures serves { Serves S.left S.faults source.old source.new (IsErr result) }
        ensures takes { MatchResult result
            (λ _. TakesOn S.takes S.left self.old source.old self.new source.new)
            (λ _. TakesUntilFault S.takes S.left self.old source.old self.new source.new) }
    {
        loop {
            let held = self.held();
            let len = held.len();
            if let Some(at) = line_feed_in(held) {
                return Ok(Held::Line(at));
            }
            if len == ROOM {
                return Ok(Held::Long);
            }
            if self.fill(source)? == 0 {
                return Ok(Held::Ended);
            }
        }
    }
}

/// Moves the bytes from `start` up to `end` to the front.
fn move_to_front(bytes: &mut [u8], start: usize, end: usize)
    requires ordered { start ≤ end }
    requires within { end ≤ length bytes.old }
    ensures { take (end - start) bytes.new ≡ slice_range bytes.old start end }
{
    bytes.copy_within(start..end, 0);
}
