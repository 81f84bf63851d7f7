// A source over any reader and a sink over any writer. As a source and a sink they show nothing of
// their bytes; their own clauses say what the reader and the writer did, where those are known.
ghost use Rattle.std.specs.Prelude.{◌≡◌, None, OnOk, OnErr, MatchResult};
ghost use Rattle.std.specs.Io.{ReadsAtMost};
ghost use Rattle.std.specs.Io.KnownBytes.{Appends, ReadConsumes};
ghost use Rattle.cct_edge.specs.Bytes.{AppendsFront};
ghost use Rattle.cct_edge.specs.Faults.{CountsFaults, HasCause, next_count};
ghost use Rattle.cct_edge.specs.Standard.{reader_of, reader_faults, writer_of, writer_faults};

use crate::fault::count_fault;
use crate::{Failed, Sink, Source};
use std::io::{Read, Write};

/// A source over a reader. Each error of the reader is a failure, an interrupted read too, and
/// counts as one fault.
#[derive(Drop)]
pub struct StdSource<R> {
    reader: R,
    faults: u64,
}

impl<R: Read> StdSource<R> {
    /// A source of what `reader` gives, without a fault so far.
    pub fn new(reader: R) -> StdSource<R>
        ensures reader { reader_of result ≡ reader }
        ensures faults { reader_faults result ≡ 0 }
    {
        StdSource { reader, faults: 0 }
    }
}

impl<R: Read> Source for StdSource<R> {
    ghost left = { λ _. None };

    ghost faults = { reader_faults };

    ghost takes = { λ before _ answer now. MatchResult answer
        (λ _. reader_faults now ≡ reader_faults before)
        (λ _. reader_faults now ≡ next_count (reader_faults before)) };

    fn take(&mut self, room: &mut [u8]) -> Result<usize, Failed>
        ensures bound { ReadsAtMost result room.new }
        ensures bytes { ReadConsumes (R.remaining (reader_of self.old))
            (R.remaining (reader_of self.new)) result room.new }
        ensures counted { CountsFaults (reader_faults self.old) (reader_faults self.new) result }
    {
        match self.reader.read(room) {
            Ok(count) => Ok(count),
            Err(_) => Err(count_fault(&mut self.faults)),
        }
    }
}

/// A sink over a writer, which flushes it after each piece. Each error of the writer is a failure
/// and counts as one fault, and so is each write of a nonempty piece that takes no byte.
#[derive(Drop)]
pub struct StdSink<W> {
    writer: W,
    faults: u64,
}

impl<W: Write> StdSink<W> {
    /// A sink into `writer`, without a fault so far.
    pub fn new(writer: W) -> StdSink<W>
        ensures writer { writer_of result ≡ writer }
        ensures faults { writer_faults result ≡ 0 }
    {
        StdSink { writer, faults: 0 }
    }
}

impl<W: Write> Sink for StdSink<W> {
    ghost written = { λ _. None };

    ghost faults = { writer_faults };

    ghost puts = { λ before piece answer now. HasCause (writer_faults before) (writer_faults now) answer };

    fn put(&mut self, piece: &[u8]) -> Result<(), Failed>
        ensures ok { OnOk result (Appends (W.contents (writer_of self.old))
            (W.contents (writer_of self.new)) piece.now) }
        ensures err { OnErr result (AppendsFront (W.contents (writer_of self.old))
            (W.contents (writer_of self.new)) piece.now) }
        ensures counted { CountsFaults (writer_faults self.old) (writer_faults self.new) result }
    {
        let mut rest = piece;
        while !rest.is_empty() {
            match self.writer.write(rest) {
                Ok(0) | Err(_) => return Err(count_fault(&mut self.faults)),
                Ok(count) => rest = &rest[count..],
            }
        }
        match self.writer.flush() {
            Ok(()) => Ok(()),
            Err(_) => Err(count_fault(&mut self.faults)),
        }
    }
}
