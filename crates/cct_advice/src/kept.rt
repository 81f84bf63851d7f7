//! A source and a sink that do what the one below does, and keep the last bytes that passed
//! through.
ghost use Rattle.std.specs.Prelude.{◌≡◌};
ghost use Rattle.cct_advice.specs.Kept.{source_of, sink_of};

use crate::forms::Text;
use crate::front::Front;
use crate::window::Window;
use cct_edge::{Failed, Sink, Source};

/// A source whose last bytes are kept. It shows its bytes, and fails, as the one below.
#[derive(Drop)]
pub struct KeptSource<S> {
    source: S,
    window: Window,
}

impl<S: Source> KeptSource<S> {
    /// Over `source`, which gives a script, with no byte kept.
    pub fn new(source: S) -> KeptSource<S>
        ensures { source_of result ≡ source }
    {
        KeptSource {
            source,
            window: Window::new(Text::Script),
        }
    }

    /// Over `source`, which gives a capture, with no byte kept.
    pub fn of_capture(source: S) -> KeptSource<S>
        ensures { source_of result ≡ source }
    {
        KeptSource {
            source,
            window: Window::new(Text::Capture),
        }
    }

    /// What was taken last.
    pub fn window(&self) -> &Window {
        &self.window
    }
}

impl<S: Source> Source for KeptSource<S> {
    ghost left = { λ s. S.left (source_of s) };

    ghost faults = { λ s. S.faults (source_of s) };

    ghost takes = { λ before room answer now. S.takes (source_of before) room answer (source_of now) };

    fn take(&mut self, room: &mut [u8]) -> Result<usize, Failed> {
        match self.source.take(room) {
            Ok(count) => {
                self.window.note(&room[..count]);
                Ok(count)
            }
            Err(failed) => Err(failed),
        }
    }
}

/// A sink of which the front of the last put is kept. It shows its bytes, and fails, as the one
/// below.
#[derive(Drop)]
pub struct KeptSink<K> {
    sink: K,
    last: Front,
    tells_record: bool,
}

impl<K: Sink> KeptSink<K> {
    /// Over `sink`, with no byte kept.
    pub fn new(sink: K) -> KeptSink<K>
        ensures { sink_of result ≡ sink }
    {
        KeptSink {
            sink,
            last: Front::new(),
            tells_record: false,
        }
    }

    /// The front of the last put.
    pub fn last(&self) -> &[u8] {
        self.last.bytes()
    }

    /// Whether a line was put that shows a record, as put or as kept.
    pub fn tells_record(&self) -> bool {
        self.tells_record
    }
}

impl<K: Sink> Sink for KeptSink<K> {
    ghost written = { λ s. K.written (sink_of s) };

    ghost faults = { λ s. K.faults (sink_of s) };

    ghost puts = { λ before bytes answer now. K.puts (sink_of before) bytes answer (sink_of now) };

    fn put(&mut self, bytes: &[u8]) -> Result<(), Failed> {
        self.last.note(bytes);
        self.tells_record = self.tells_record || tells_record(bytes);
        self.sink.put(bytes)
    }
}

/// Whether a line shows a record.
fn tells_record(line: &[u8]) -> bool {
    line.starts_with(b"put ") || line.starts_with(b"kept ")
}
