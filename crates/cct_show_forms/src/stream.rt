//! A line of a log that has more bytes than a message, its echo and its reply: digits alone, as a
//! program writes them that ends no line.

use cct_show_log_line::{LogBytes, MOST_LOGGED};

/// How many bytes are held at most.
const HELD: usize = 256;

/// The bytes of a long line.
#[derive(Drop)]
pub(crate) struct Stream {
    bytes: LogBytes,
    /// The first digit of a byte, by its value.
    high: Option<u8>,
    /// Whether something else than bytes stood in the line.
    is_other: bool,
}

impl Stream {
    /// No byte.
    pub(crate) fn new() -> Stream {
        Stream {
            bytes: LogBytes::new(),
            high: None,
            is_other: false,
        }
    }

    /// Adds a digit, or what is between bytes. After anything else the line has no more bytes.
    pub(crate) fn add(&mut self, byte: u8) {
        if self.is_other {
            return;
        }
        match (self.high, digit_value(byte)) {
            (None, Some(value)) => self.high = Some(value),
            (Some(high), Some(value)) => {
                self.high = None;
                // The bytes are taken before there is no room.
                let _ = self.bytes.try_push((high & 15) << 4 | value);
            }
            (None, None) if is_gap(byte) => {}
            // The mark of a hexadecimal number.
            (Some(0), None) if byte == b'x' || byte == b'X' => self.high = None,
            _ => self.is_other = true,
        }
    }

    /// Whether the bytes have to be taken.
    pub(crate) fn is_full(&self) -> bool {
        self.bytes.len() >= HELD
    }

    /// Takes the bytes.
    pub(crate) fn take(&mut self) -> LogBytes {
        self.bytes.take()
    }

    /// The line is at its end; the answer is whether it had bytes alone.
    pub(crate) fn end(&mut self) -> bool {
        let is_whole = !self.is_other && self.high.is_none();
        self.high = None;
        self.is_other = false;
        is_whole
    }
}

/// Whether a line has digits of more bytes than a log's line may have, and nothing else but what is
/// between bytes.
pub(crate) fn is_stream(line: &[u8]) -> bool {
    line.len() > MOST_LOGGED
        && line
            .iter()
            .all(|byte| digit_value(*byte).is_some() || is_gap(*byte))
        && line.iter().filter(|byte| !is_gap(**byte)).count() > 2 * MOST_LOGGED
}

/// Whether a byte may stand between bytes, or after the last one.
fn is_gap(byte: u8) -> bool {
    matches!(byte, b' ' | b'\t' | b',' | b';' | b'\r')
}

/// The value of a hexadecimal digit.
fn digit_value(digit: u8) -> Option<u8> {
    match digit {
        b'0'..=b'9' => Some(digit - b'0'),
        b'a'..=b'f' => Some(digit - b'a' + 10),
        b'A'..=b'F' => Some(digit - b'A' + 10),
        _ => None,
    }
}
