//! The bytes of a document, on their way to a sink.

use crate::Label;
use arrayvec::ArrayVec;
use cct_edge::{Failed, Sink};
use itoa::{Buffer, Integer};

/// How many bytes are put at once, if there are so many.
const ROOM: usize = 4096;

/// The digits in hexadecimal.
const DIGITS: [u8; 16] = *b"0123456789abcdef";

/// Collects the bytes of a picture or of a page, and puts them part by part. Once a put failed,
/// what is pushed goes nowhere.
#[derive(Drop)]
pub struct Pen<'k, K> {
    bytes: ArrayVec<u8, ROOM>,
    out: &'k mut K,
    has_failed: bool,
}

impl<'k, K: Sink> Pen<'k, K> {
    /// A pen for a sink.
    pub fn new(out: &'k mut K) -> Pen<'k, K> {
        Pen {
            bytes: ArrayVec::new(),
            out,
            has_failed: false,
        }
    }

    /// Adds bytes.
    pub fn push(&mut self, text: &[u8]) {
        if self.bytes.try_extend_from_slice(text).is_ok() {
            return;
        }
        self.flush();
        self.put(text);
    }

    /// Adds a number in decimal.
    pub fn push_number<I: Integer>(&mut self, number: I) {
        let mut digits = Buffer::new();
        self.push(digits.format(number).as_bytes());
    }

    /// Adds a label, each byte escaped where XML or HTML reads more into it.
    pub fn push_label(&mut self, label: &Label) {
        self.push_text(label.as_slice());
    }

    /// Adds a text, each byte escaped where XML or HTML reads more into it. A byte outside
    /// printable ASCII becomes a question mark.
    pub fn push_text(&mut self, text: &[u8]) {
        for byte in text {
            match *byte {
                b'<' => self.push(b"&lt;"),
                b'>' => self.push(b"&gt;"),
                b'&' => self.push(b"&amp;"),
                plain @ b' '..=b'~' => self.push(&[plain]),
                _ => self.push(b"?"),
            }
        }
    }

    /// Adds bytes in hexadecimal, lower case, with this before each.
    pub fn push_hex(&mut self, before: &[u8], bytes: &[u8]) {
        for byte in bytes {
            let high = DIGITS[usize::from(*byte / 16)];
            let low = DIGITS[usize::from(*byte % 16)];
            self.push(before);
            self.push(&[high, low]);
        }
    }

    /// Puts what was collected.
    pub fn flush(&mut self) {
        if !self.has_failed {
            self.has_failed = self.out.put(self.bytes.as_slice()).is_err();
        }
        self.bytes.clear();
    }

    /// Whether no put failed so far.
    pub fn is_good(&self) -> bool {
        !self.has_failed
    }

    /// Puts what is left, and says whether a put failed.
    pub fn finish(&mut self) -> Result<(), Failed> {
        self.flush();
        if self.has_failed {
            return Err(Failed);
        }
        Ok(())
    }

    /// Puts bytes at once.
    fn put(&mut self, text: &[u8]) {
        if !self.has_failed {
            self.has_failed = self.out.put(text).is_err();
        }
    }
}
