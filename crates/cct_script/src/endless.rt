//! The lines of an input that has no last one.
ghost use Rattle.std.specs.Prelude.{◌≡◌, ◌≤◌, ◌<◌, [], length, Err, IfOk};
ghost use Rattle.cct_edge.specs.Bytes.{Serves};
ghost use Rattle.cct_model_lines.specs.Script.{most_bytes};

use crate::buffer::{Held, LineBuffer};
use crate::bytes::line_feed_in;
use crate::lines::LinesNo;
use cct_edge::{Failed, Source};

/// How many pieces of a line that is too long are passed over: one by each take.
pub const MOST_PASSED: u32 = 1_048_576;

/// What comes next in an input that is read line by line.
#[derive(Clone, Copy)]
pub enum NextLine<'a> {
    /// The bytes of a line, 1,200 at most, without its line feed.
    Text(&'a [u8]),
    /// A line of more bytes, which was passed over.
    Long,
    /// The input ended after bytes without a line feed.
    Cut,
    /// The input ended after a line feed, or is empty.
    End,
}

/// What was found in the bytes held.
#[derive(Clone, Copy, PartialEq, Eq)]
enum Found {
    /// A whole line of so many bytes, and after it its line feed.
    Text(usize),
    /// A line that was too long, passed over with its line feed.
    Long,
    /// The last bytes of the input, without a line feed.
    Cut,
    /// No byte, at the end of the input.
    End,
}

/// The lines of an input, one after another, however many they are: a line that is too long is
/// passed over. Only one line's worth of bytes is held.
#[derive(Drop)]
pub struct EndlessLines {
    buffer: LineBuffer,
    // The last line given, with its line feed, has so many of the bytes held.
    spent: usize,
    ghost spent_held: { spent ≤ length buffer },
}

impl EndlessLines {
    ghost use Rattle.std.specs.Prelude.{⊤};
    ghost use Rattle.std.specs.Borrow.{sem, follows_so};
    ghost use mathlib.Core.Option.{none};
    ghost use Rattle.cct_script.specs.contracts.endless.EndlessLines.{the_row};
    ghost use Rattle.cct_script.specs.Endless.{FitsIn, GivesNext, found_given, held_of, next_given};

    /// No byte is held.
    pub fn new() -> Self
        ensures { held_of result ≡ [] }
    {
        EndlessLines {
            buffer: LineBuffer::new(),
            spent: 0,
        }
    }

    /// Finds what comes next.
    fn find<S: Source>(&mut self, source: &mut S) -> Result<Found, LinesNo>
        ensures gives { GivesNext (held_of self.old) (held_of self.new) (S.left source.old) (S.left source.new)
            (found_given self.new.buffer result) }
        ensures fits { IfOk result (FitsIn self.new.buffer) }
        ensures serves { Serves S.left S.faults source.old source.new (result ≡ Err LinesNo.Read) }
    {
        let spent = self.spent;
        self.spent = 0;
        self.buffer.advance(spent);
        match self.buffer.seek(source) {
            Ok(Held::Line(len)) => {
                self.spent = len + 1;
                Ok(Found::Text(len))
            }
            Ok(Held::Long) => self.buffer.pass(source),
            Ok(Held::Ended) => Ok(self.buffer.end()),
            Err(Failed) => Err(LinesNo::Read),
        }
    }

    /// What comes next: a line, one that is too long, the end within a line, or the end. It takes
    /// from the source only while it holds no line feed.
    ///
    /// `Read` comes where the source failed, and `Long` where a line is so long that it isn't
    /// passed over either: after 1,048,576 takes of the source it goes on. After either of them the
    /// reader isn't asked again.
    pub fn line<S: Source>(&mut self, source: &mut S) -> Result<NextLine<'_>, LinesNo>
        // Each line once, in order and whole, and each end exactly where it is.
        ensures* gives { sem 𝓛 (follows_so the_row the_row self.entry.ghost_name none (λ _ _. ⊤)
            (λ new. GivesNext (held_of self.old) (held_of new) (S.left source.old) (S.left source.new)
            (next_given result))) }
        ensures serves { Serves S.left S.faults source.old source.new (result ≡ Err LinesNo.Read) }
    {
        match self.find(source) {
            Ok(Found::Text(len)) => Ok(NextLine::Text(&self.buffer.held()[..len])),
            Ok(Found::Long) => Ok(NextLine::Long),
            Ok(Found::Cut) => Ok(NextLine::Cut),
            Ok(Found::End) => Ok(NextLine::End),
            Err(why) => Err(why),
        }
    }
}

impl LineBuffer {
    ghost use Rattle.cct_script.specs.Endless.{DropsLine, EndsWith, GivesNext, IsNoText, IsOneLine};
    ghost use Rattle.cct_script.specs.Endless.{found_given};

    /// Gives up the bytes that are left at the end of the input, and says whether there were any.
    fn end(&mut self) -> Found
        ensures all { self.new ≡ [] }
        ensures cut { EndsWith self.old result }
    {
        let len = self.held().len();
        self.advance(len);
        if len == 0 { Found::End } else { Found::Cut }
    }

    /// Gives up the bytes held up to and with the first line feed, and says whether there is one;
    /// else all of them.
    fn drop_line(&mut self) -> bool
        ensures { DropsLine self.old self.new result }
    {
        match line_feed_in(self.held()) {
            Some(at) => {
                self.advance(at + 1);
                true
            }
            None => {
                let len = self.held().len();
                self.advance(len);
                false
            }
        }
    }

    /// Passes over a line of which more is held than a line may have, with its line feed.
    fn pass<S: Source>(&mut self, source: &mut S) -> Result<Found, LinesNo>
        requires alone { IsOneLine self.old }
        requires long { most_bytes < length self.old }
        ensures gives { GivesNext self.old self.new (S.left source.old) (S.left source.new)
            (found_given [] result) }
        ensures long { IfOk result IsNoText }
        ensures serves { Serves S.left S.faults source.old source.new (result ≡ Err LinesNo.Read) }
    {
        let len = self.held().len();
        self.advance(len);
        for _passed in 0..MOST_PASSED {
            match self.fill(source) {
                Ok(0) => return Ok(Found::Cut),
                Ok(_) => {}
                Err(Failed) => return Err(LinesNo::Read),
            }
            if self.drop_line() {
                return Ok(Found::Long);
            }
        }
        Err(LinesNo::Long)
    }
}
