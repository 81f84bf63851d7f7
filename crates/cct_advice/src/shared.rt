//! A source whose last bytes a sink sees too, which says at each refused line that it writes what
//! is wrong with it.
ghost use Rattle.std.specs.Prelude.{◌≡◌};
ghost use Rattle.cct_advice.specs.Kept.{advised_sink_of, shared_source_of};

use crate::advice::advise;
use crate::window::Window;
use cct_edge::{Failed, Sink, Source};
use std::cell::RefCell;

/// A source whose last bytes are kept where a sink sees them. It shows its bytes, and fails, as the
/// one below.
#[derive(Drop)]
pub struct SharedSource<'w, S> {
    source: S,
    window: &'w RefCell<Window>,
}

impl<'w, S: Source> SharedSource<'w, S> {
    /// Over `source`, whose bytes are kept in `window`.
    pub fn new(source: S, window: &'w RefCell<Window>) -> SharedSource<'w, S>
        ensures { shared_source_of result ≡ source }
    {
        SharedSource { source, window }
    }
}

impl<S: Source> Source for SharedSource<'_, S> {
    ghost left = { λ s. S.left (shared_source_of s) };

    ghost faults = { λ s. S.faults (shared_source_of s) };

    ghost takes = { λ before room answer now. S.takes (shared_source_of before) room answer (shared_source_of now) };

    fn take(&mut self, room: &mut [u8]) -> Result<usize, Failed> {
        match self.source.take(room) {
            Ok(count) => {
                if let Ok(mut window) = self.window.try_borrow_mut() {
                    window.note(&room[..count]);
                }
                Ok(count)
            }
            Err(failed) => Err(failed),
        }
    }
}

/// A sink that says on standard error, at each put of a line that shows a refused line, what is
/// wrong with that. It shows its bytes, and fails, as the one below.
#[derive(Drop)]
pub struct AdvisedSink<'w, K> {
    sink: K,
    window: &'w RefCell<Window>,
    rt: &'w HostRuntime,
}

impl<'w, K: Sink> AdvisedSink<'w, K> {
    /// Over `sink`; the last bytes of the script are in `window`.
    pub fn new(sink: K, window: &'w RefCell<Window>, rt: &'w HostRuntime) -> AdvisedSink<'w, K>
        ensures { advised_sink_of result ≡ sink }
    {
        AdvisedSink { sink, window, rt }
    }
}

impl<K: Sink> Sink for AdvisedSink<'_, K> {
    ghost written = { λ s. K.written (advised_sink_of s) };

    ghost faults = { λ s. K.faults (advised_sink_of s) };

    ghost puts = { λ before bytes answer now. K.puts (advised_sink_of before) bytes answer (advised_sink_of now) };

    fn put(&mut self, bytes: &[u8]) -> Result<(), Failed> {
        match self.sink.put(bytes) {
            Ok(()) => {
                if let Ok(window) = self.window.try_borrow() {
                    say(self.rt, bytes, &window);
                }
                Ok(())
            }
            Err(failed) => Err(failed),
        }
    }
}

/// Says what there is to say of a line that was written.
fn say(rt: &impl Eprint, line: &[u8], window: &Window) {
    if let Some(advice) = advise(line, window, "") {
        let _ = rt.eprintln(advice);
    }
}
