//! How many exchanges of a capture are messages.

use crate::numbers::LineNumbers;
use cct_frame::read;
use cct_model_lines::{CheckKind, HOST};
use std::fmt;

/// How many exchanges a capture has, and under which checks the host's bytes in them are messages:
/// under one, both or none.
#[derive(Drop)]
pub struct Tally {
    taps: u64,
    simple: u64,
    crc: u64,
    neither: LineNumbers,
}

impl Tally {
    /// No exchange.
    pub fn new() -> Tally {
        Tally {
            taps: 0,
            simple: 0,
            crc: 0,
            neither: LineNumbers::new(),
        }
    }

    /// Counts an exchange, which begins in a line, and in which the host sent these bytes.
    pub fn count(&mut self, line: u64, sent: &[u8]) {
        let is_simple = match read(CheckKind::Simple, sent) {
            Ok(view) => view.from.unwrap_or(HOST) == HOST,
            Err(_) => false,
        };
        let is_crc = read(CheckKind::Crc, sent).is_ok();
        self.taps = self.taps.saturating_add(1);
        self.simple = self.simple.saturating_add(u64::from(is_simple));
        self.crc = self.crc.saturating_add(u64::from(is_crc));
        if !is_simple && !is_crc {
            self.neither.add(line);
        }
    }
}

impl fmt::Display for Tally {
    fn fmt<W: fmt::Write>(&self, f: &mut fmt::Formatter<W>) -> fmt::Result {
        let taps = self.taps;
        let simple = self.simple;
        let crc = self.crc;
        let neither = self.neither.count;
        write!(
            f,
            "{taps} taps; what the host sent is a message under the simple check in {simple}, under the CRC in {crc}, under neither in {neither}"
        )?;
        match &self.neither {
            numbers if numbers.count != 0 => write!(f, ", from {numbers}"),
            _ => Ok(()),
        }
    }
}
