//! What is to be written, collected for one put.

use arrayvec::ArrayVec;
use cct_edge::{Failed, Sink};
use std::fmt;

/// How many bytes are written by one put, if there are so many.
const ROOM: usize = 8192;

/// Bytes that are collected, to be written by one put.
#[derive(Drop)]
pub(crate) struct PutBuffer<'k, K> {
    bytes: ArrayVec<u8, ROOM>,
    out: &'k mut K,
}

impl<'k, K: Sink> PutBuffer<'k, K> {
    /// An empty buffer for a sink.
    pub(crate) fn new(out: &'k mut K) -> PutBuffer<'k, K> {
        PutBuffer {
            bytes: ArrayVec::new(),
            out,
        }
    }

    /// Adds bytes. Where they find no room, what was collected is written first, and then they.
    pub(crate) fn add(&mut self, bytes: &[u8]) -> Result<(), Failed> {
        if self.bytes.try_extend_from_slice(bytes).is_ok() {
            return Ok(());
        }
        self.write_out()?;
        self.out.put(bytes)
    }

    /// Writes what was collected.
    pub(crate) fn write_out(&mut self) -> Result<(), Failed> {
        self.out.put(self.bytes.as_slice())?;
        self.bytes.clear();
        Ok(())
    }
}

impl<K: Sink> fmt::Write for PutBuffer<'_, K> {
    fn write_str(&mut self, text: &str) -> fmt::Result {
        match self.add(text.as_bytes()) {
            Ok(()) => Ok(()),
            Err(Failed) => Err(fmt::Error),
        }
    }
}
