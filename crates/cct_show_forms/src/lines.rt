//! The lines of the input, of any length, in memory that doesn't grow.

ghost use Rattle.std.specs.Prelude.{◌<◌, length};

use crate::encoding::Encoding;
use crate::status::Stop;
use arrayvec::ArrayVec;
use cct_edge::{Failed, Source};
use cct_model_lines::MOST_TEXT;

/// How many bytes are taken from the source in one call at most.
const CHUNK: usize = 4096;

/// What takes the lines of the input.
pub(crate) trait LineSink {
    /// A whole line, without its line feed: at most as many bytes as a line of a transcript may
    /// have with it.
    fn line(&mut self, line: &[u8]) -> Result<(), Stop>;

    /// The next bytes of a longer line.
    fn part(&mut self, bytes: &[u8]) -> Result<(), Stop>;

    /// The end of a longer line.
    fn end(&mut self) -> Result<(), Stop>;
}

/// The bytes of the line that isn't at its end yet.
#[derive(Drop)]
struct Line {
    bytes: ArrayVec<u8, MOST_TEXT>,
    /// Whether it is a longer line, whose bytes were passed on and aren't held.
    is_long: bool,
}

/// Gives all lines of a source to `sink`, whatever bytes they have; an input in UTF-16 in UTF-8. The
/// last one may be without line feed.
pub(crate) fn read_lines<S: Source, L: LineSink>(source: &mut S, sink: &mut L) -> Result<(), Stop> {
    let mut line = Line {
        bytes: ArrayVec::new(),
        is_long: false,
    };
    let mut room = [0; CHUNK];
    let mut encoding = None;
    for _ in 0..u64::MAX {
        let mut count = taken(source, &mut room)?;
        if count == 0 {
            break;
        }
        if encoding.is_none() && count == 1 && room[0] >= 0xfe {
            count = taken(source, &mut room[1..])?.saturating_add(1);
        }
        let bytes = room.get(..count).unwrap_or(b"");
        let mut known = encoding.unwrap_or(Encoding::of(bytes));
        line.add_all(bytes, &mut known, sink)?;
        encoding = Some(known);
    }
    if line.is_long || !line.bytes.is_empty() {
        line.end(sink)?;
    }
    Ok(())
}

/// Takes bytes of a source, and says how many.
fn taken<S: Source>(source: &mut S, room: &mut [u8]) -> Result<usize, Stop>
    requires { 0 < length room.old }
{
    match source.take(room) {
        Ok(count) => Ok(count),
        Err(Failed) => Err(Stop::Read),
    }
}

impl Line {
    /// Adds bytes of the input.
    fn add_all<L: LineSink>(
        &mut self,
        bytes: &[u8],
        encoding: &mut Encoding,
        sink: &mut L,
    ) -> Result<(), Stop> {
        if let Encoding::Bytes = *encoding {
            for part in bytes.split_inclusive(|byte| *byte == b'\n') {
                self.add(part, sink)?;
            }
            return Ok(());
        }
        for byte in bytes {
            if let Some(character) = encoding.take(*byte) {
                self.add(character.as_slice(), sink)?;
            }
        }
        Ok(())
    }

    /// Adds bytes, of which the last may be a line feed, which ends the line.
    fn add<L: LineSink>(&mut self, part: &[u8], sink: &mut L) -> Result<(), Stop> {
        match part {
            [bytes @ .., b'\n'] => {
                self.hold(bytes, sink)?;
                self.end(sink)
            }
            bytes => self.hold(bytes, sink),
        }
    }

    /// Holds more bytes of the line; where there is no room for them, it is a longer one.
    fn hold<L: LineSink>(&mut self, bytes: &[u8], sink: &mut L) -> Result<(), Stop> {
        if self.is_long {
            return sink.part(bytes);
        }
        if self.bytes.try_extend_from_slice(bytes).is_ok() {
            return Ok(());
        }
        self.is_long = true;
        sink.part(self.bytes.as_slice())?;
        self.bytes.clear();
        sink.part(bytes)
    }

    /// The line is at its end, and the next one begins.
    fn end<L: LineSink>(&mut self, sink: &mut L) -> Result<(), Stop> {
        if self.is_long {
            self.is_long = false;
            return sink.end();
        }
        sink.line(self.bytes.as_slice())?;
        self.bytes.clear();
        Ok(())
    }
}
