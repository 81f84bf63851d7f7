//! The last bytes of a script or of a capture that were taken.
ghost use Rattle.std.specs.Prelude.{◌≡◌, ◌≤◌, length};
ghost use Rattle.cct_advice.specs.declared.window.TheConstants.{LONGEST, ROOM};

use crate::forms::{Part, Text};
use crate::given::Given;
use cct_model_lines::MOST_LINE;

/// The most bytes that the reader of lines holds: a line, and one byte.
const LONGEST: usize = MOST_LINE + 1;

/// How many bytes are kept.
const ROOM: usize = 2 * LONGEST;

/// How many bytes are counted at once: as many as a byte can count.
const RUN: usize = 255;

/// The line after which the steps or the taps begin.
const BEGIN: &[u8] = b"begin";

/// The last bytes that were taken of a script or of a capture, the line that is read among them,
/// and how many lines came before.
#[derive(Drop)]
pub struct Window {
    text: Text,
    bytes: [u8; ROOM],
    len: usize,
    /// How many line feeds were taken.
    feeds: u64,
    /// How many bytes of `begin` the last line has so far, where it has no others.
    spelt: Option<usize>,
    /// The number of the line `begin`.
    begun: Option<u64>,
    /// The devices that the lines before `begin` gave.
    given: Given,
    ghost short: { len ≤ ROOM },
}

impl Window {
    /// No byte of a script was taken.
    pub fn of_script() -> Self {
        Window::new(Text::Script)
    }

    /// No byte of this text was taken.
    pub(crate) fn new(text: Text) -> Self {
        Window {
            text,
            bytes: [0; ROOM],
            len: 0,
            feeds: 0,
            spelt: Some(0),
            begun: None,
            given: Given::new(),
        }
    }

    /// Adds the bytes of a take. After the line `begin` only their line feeds matter.
    pub(crate) fn note(&mut self, bytes: &[u8]) {
        if self.begun.is_some() {
            self.feeds = self.feeds.saturating_add(feeds_in(bytes));
        } else {
            for byte in bytes {
                self.count(*byte);
            }
        }
        let from = bytes.len().saturating_sub(LONGEST);
        self.keep(&bytes[from..]);
    }

    /// Counts the lines, and looks for the line `begin`.
    fn count(&mut self, byte: u8) {
        if byte != b'\n' {
            self.spelt = self.spelt.and_then(|len| spelt_on(len, byte));
            self.given.add(byte);
            return;
        }
        self.feeds = self.feeds.saturating_add(1);
        self.given.end_line(self.feeds);
        if self.begun.is_none() && self.spelt == Some(BEGIN.len()) {
            self.begun = Some(self.feeds);
        }
        self.spelt = Some(0);
    }

    /// Keeps these bytes, and of those before as many as a line may have.
    fn keep(&mut self, bytes: &[u8])
        requires { length bytes.now ≤ LONGEST }
    {
        if bytes.len() > ROOM - self.len {
            let from = self.len - LONGEST;
            self.bytes.copy_within(from..self.len, 0);
            self.len = LONGEST;
        }
        let end = self.len + bytes.len();
        self.bytes[self.len..end].copy_from_slice(bytes);
        self.len = end;
    }

    /// What was taken of the line of this number, without its line feed, where it is among the last
    /// bytes.
    pub(crate) fn line(&self, number: u64) -> Option<&[u8]> {
        let after = self.feeds.saturating_add(1).checked_sub(number)?;
        let held = &self.bytes[..self.len];
        let mut left = feeds_in(held);
        for line in held.split(|byte| *byte == b'\n') {
            if left == after {
                return Some(line);
            }
            left = left.saturating_sub(1);
        }
        None
    }

    /// Whether a line before the one of this number gave an address to a device.
    pub(crate) fn is_given(&self, addr: &[u8], number: u64) -> bool {
        self.given.has(addr, number)
    }

    /// The part in which the line of this number stands.
    pub(crate) fn part(&self, number: u64) -> Part {
        match self.begun {
            Some(begun) if begun < number => self.text.body(),
            _ => self.text.front(),
        }
    }
}

/// How many bytes of `begin` are spelt after one more byte.
fn spelt_on(len: usize, byte: u8) -> Option<usize> {
    let next = BEGIN.get(len)?;
    if *next == byte { Some(len + 1) } else { None }
}

/// How many line feeds there are.
fn feeds_in(bytes: &[u8]) -> u64 {
    bytes.chunks(RUN).fold(
        0,
        |feeds: u64, run| feeds.wrapping_add(u64::from(feeds_in_run(run))),
    )
}

/// How many line feeds there are in at most `RUN` bytes. A count in a byte lets the compiler count
/// sixteen bytes at once.
fn feeds_in_run(bytes: &[u8]) -> u8 {
    bytes.iter().fold(
        0,
        |feeds: u8, byte| feeds.wrapping_add(u8::from(*byte == b'\n')),
    )
}
