//! Words that are kept for a row.

use cct_model_lines::Entry;
use cct_show_words::{Answer, Asked, Told};
use std::alloc::{AllocError, Global};
use std::fmt;
use std::fmt::Write;

/// What is after words on a message whose check is good.
const CHECKS: [&[u8]; 2] = [b"; simple check good", b"; CRC good"];

/// Words that are being collected.
#[derive(Drop)]
struct Words {
    bytes: Vec<u8>,
}

impl fmt::Write for Words {
    fn write_str(&mut self, text: &str) -> fmt::Result {
        match self.bytes.extend_from_slice(text.as_bytes()) {
            Ok(()) => Ok(()),
            Err(_) => Err(fmt::Error),
        }
    }
}

impl Words {
    /// No words.
    fn new(alloc: Global) -> Words {
        Words {
            bytes: Vec::new(alloc),
        }
    }

    /// The words, if there was memory for all of them.
    fn all(self, written: fmt::Result) -> Result<Vec<u8>, AllocError> {
        match written {
            Ok(()) => Ok(self.bytes),
            Err(fmt::Error) => Err(AllocError),
        }
    }
}

/// What was sent, in words.
pub(crate) fn asked_words(alloc: Global, asked: &Asked<'_>) -> Result<Vec<u8>, AllocError> {
    let mut words = Words::new(alloc);
    let written = write!(words, "{asked}");
    words.all(written)
}

/// What was heard, in words.
pub(crate) fn answer_words(alloc: Global, answer: &Answer<'_>) -> Result<Vec<u8>, AllocError> {
    let mut words = Words::new(alloc);
    let written = write!(words, "{answer}");
    words.all(written)
}

/// What an entry means, in lines of words, which may be none.
pub(crate) fn told_words(alloc: Global, entry: &Entry) -> Result<Vec<u8>, AllocError> {
    let mut words = Words::new(alloc);
    let told = Told(entry);
    let written = write!(words, "{told}");
    words.all(written)
}

/// Words on a message without its check, where that is good: a row says only what is wrong.
pub(crate) fn without_check(words: &[u8]) -> &[u8] {
    let mut rest = words;
    for check in CHECKS {
        rest = rest.strip_suffix(check).unwrap_or(rest);
    }
    rest
}
