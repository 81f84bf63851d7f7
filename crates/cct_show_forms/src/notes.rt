//! Notes on a log.

use crate::put_buffer::PutBuffer;
use cct_edge::{Failed, Sink};
use std::fmt;

/// Notes, of which each line is written by one put.
#[derive(Drop)]
pub(crate) struct Notes<'n, N> {
    out: PutBuffer<'n, N>,
}

impl<'n, N: Sink> Notes<'n, N> {
    /// No note yet.
    pub(crate) fn new(out: &'n mut N) -> Notes<'n, N> {
        Notes {
            out: PutBuffer::new(out),
        }
    }

    /// Adds a text, and writes what was collected where a line ends.
    fn add(&mut self, text: &str) -> Result<(), Failed> {
        self.out.add(text.as_bytes())?;
        if text.as_bytes().last() == Some(&b'\n') {
            self.out.write_out()?;
        }
        Ok(())
    }
}

impl<N: Sink> fmt::Write for Notes<'_, N> {
    fn write_str(&mut self, text: &str) -> fmt::Result {
        match self.add(text) {
            Ok(()) => Ok(()),
            Err(Failed) => Err(fmt::Error),
        }
    }
}
