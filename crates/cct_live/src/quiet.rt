//! A sink that may leave out the lines of exchanges.
ghost use Rattle.std.specs.Prelude.{◌≡◌, None, false};
ghost use Rattle.cct_live.specs.Edges.{is_quiet, sink_of};

use cct_edge::{Failed, Sink};

/// How the line of an exchange begins.
const WIRE: &[u8] = b"wire ";

/// A sink over another one. Where it is quiet, a put that begins with `wire ` is left out, and
/// counts as done. As a sink it shows nothing of its bytes.
#[derive(Drop)]
pub(crate) struct QuietSink<K> {
    sink: K,
    is_quiet: bool,
}

impl<K: Sink> QuietSink<K> {
    /// Over `sink`.
    pub(crate) fn new(sink: K, is_quiet: bool) -> QuietSink<K> {
        QuietSink { sink, is_quiet }
    }
}

impl<K: Sink> Sink for QuietSink<K> {
    ghost written = { λ _. None };

    ghost faults = { λ s. K.faults (sink_of s) };

    ghost puts = { λ before bytes answer now. is_quiet before ≡ false → K.puts (sink_of before) bytes answer (sink_of now) };

    fn put(&mut self, bytes: &[u8]) -> Result<(), Failed> {
        if self.is_quiet && bytes.starts_with(WIRE) {
            return Ok(());
        }
        self.sink.put(bytes)
    }
}
