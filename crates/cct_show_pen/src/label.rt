//! Short texts of a document.
ghost use Rattle.std.specs.Prelude.{◌≤◌, length};
ghost use Rattle.cct_show_pen.specs.declared.label.TheConstants.{MOST_LABEL};

use std::fmt;

/// The most bytes of a label.
pub const MOST_LABEL: usize = 60;

/// A short text of a document: printable ASCII, `MOST_LABEL` bytes at most. Text can be written to
/// it. A byte outside printable ASCII becomes a question mark. Of a longer text the front is kept,
/// and ends in two dots.
#[derive(Clone, Copy)]
pub struct Label {
    bytes: [u8; MOST_LABEL],
    len: usize,
    ghost fits: { len ≤ MOST_LABEL },
}

impl Label {
    /// The label without a byte.
    pub fn empty() -> Label {
        Label {
            bytes: [b' '; MOST_LABEL],
            len: 0,
        }
    }

    /// The label of any text.
    pub fn new(text: &[u8]) -> Label {
        let mut label = Label::empty();
        label.push(text);
        label
    }

    /// Adds text at the end.
    pub fn push(&mut self, text: &[u8]) {
        let room = MOST_LABEL - self.len;
        fill(&mut self.bytes[self.len..], text);
        if text.len() > room {
            self.bytes[MOST_LABEL - 2..].copy_from_slice(b"..");
        }
        self.len += text.len().min(room);
    }

    /// The bytes of the label.
    pub fn as_slice(&self) -> &[u8]
        ensures { length result.now ≤ MOST_LABEL }
    {
        &self.bytes[..self.len]
    }
}

impl fmt::Write for Label {
    fn write_str(&mut self, text: &str) -> fmt::Result {
        self.push(text.as_bytes());
        Ok(())
    }
}

/// Puts the bytes of a text, as a label has them, into the places that are there.
fn fill(places: &mut [u8], text: &[u8]) {
    for (place, byte) in places.iter_mut().zip(text) {
        *place = printable(*byte);
    }
}

/// A byte as a label has it.
fn printable(byte: u8) -> u8 {
    match byte {
        b' '..=b'~' => byte,
        _ => b'?',
    }
}
