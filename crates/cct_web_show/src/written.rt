//! Texts on their way to a sink.

use cct_edge::{Failed, Sink};
use std::fmt;

/// What writes to a sink, as texts come.
#[derive(Drop)]
pub(crate) struct Written<'k, K>(pub(crate) &'k mut K);

impl<K: Sink> fmt::Write for Written<'_, K> {
    fn write_str(&mut self, text: &str) -> fmt::Result {
        match self.0.put(text.as_bytes()) {
            Ok(()) => Ok(()),
            Err(Failed) => Err(fmt::Error),
        }
    }
}
