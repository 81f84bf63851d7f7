//! The lines of a drafted setup, and the notes on what it doesn't say.
ghost use Rattle.std.specs.Prelude.{◌≤◌, length};

use cct_edge::{Failed, Sink};
use cct_live_survey::{Category, NO_COIN, push_shown};
use cct_model_lines::CheckKind;
use cct_text::TextLine;
use cct_text_worth::value_told;

/// A device by its address, and the check of its messages.
#[derive(Clone, Copy)]
pub(crate) struct At {
    pub(crate) kind: CheckKind,
    pub(crate) addr: u8,
}

/// The lines of a setup go to one sink, and the notes on it to another, a line each.
#[derive(Drop)]
pub(crate) struct Draft<'o, 'n, K, N> {
    line: TextLine,
    out: &'o mut K,
    notes: &'n mut N,
}

impl<'o, 'n, K: Sink, N: Sink> Draft<'o, 'n, K, N> {
    /// Nothing is written.
    pub(crate) fn new(out: &'o mut K, notes: &'n mut N) -> Draft<'o, 'n, K, N> {
        Draft {
            line: TextLine::new(),
            out,
            notes,
        }
    }

    /// `acceptor A CHECK SERIAL 0`
    pub(crate) fn put_acceptor(&mut self, at: At, serial: u32) -> Result<(), Failed> {
        self.put_counting(b"acceptor ", at, serial)
    }

    /// `bills A CHECK SERIAL 0`
    pub(crate) fn put_bills(&mut self, at: At, serial: u32) -> Result<(), Failed> {
        self.put_counting(b"bills ", at, serial)
    }

    /// The line of a device with an accept counter, at 0.
    fn put_counting(&mut self, word: &[u8], at: At, serial: u32) -> Result<(), Failed>
        requires { length word.now ≤ 20 }
    {
        begin_device(word, at, serial, &mut self.line);
        self.line.push(b" 0\n");
        self.out.put(self.line.as_slice())
    }

    /// `hopper A CHECK SERIAL 0 VALUE`: a value of 0 is one that isn't known.
    pub(crate) fn put_hopper(&mut self, at: At, serial: u32, value: u32) -> Result<(), Failed> {
        begin_device(b"hopper ", at, serial, &mut self.line);
        self.line.push(b" 0 ");
        self.line.push_number(u64::from(value));
        self.line.push(b"\n");
        self.out.put(self.line.as_slice())
    }

    /// `value A PLACE VALUE ID`, where the identification shows the value and a setup line can
    /// spell it; else a note, but for a place without a coin.
    pub(crate) fn put_coin(&mut self, addr: u8, place: u8, id: [u8; 6]) -> Result<(), Failed> {
        if id == NO_COIN {
            return Ok(());
        }
        match value_told(id) {
            Some(value) if is_printing(id) => self.put_value(addr, place, value, id),
            _ => self.note_value(addr, place, &id),
        }
    }

    /// `value A PLACE VALUE ID`, where the value of a bill is sure and a setup line can spell the
    /// first six characters of its identification, its country and its figures; else a note.
    pub(crate) fn put_bill(
        &mut self,
        addr: u8,
        place: u8,
        id: [u8; 7],
        value: Option<u32>,
    ) -> Result<(), Failed> {
        let [a, b, c, d, e, f, _] = id;
        let front = [a, b, c, d, e, f];
        match value {
            Some(value) if is_printing(front) => self.put_value(addr, place, value, front),
            _ => self.note_value(addr, place, &id),
        }
    }

    /// `value A PLACE VALUE ID`
    fn put_value(&mut self, addr: u8, place: u8, value: u32, id: [u8; 6]) -> Result<(), Failed> {
        begin_value(addr, place, &mut self.line);
        self.line.push(b" ");
        self.line.push_number(u64::from(value));
        self.line.push(b" ");
        self.line.push(id.as_slice());
        self.line.push(b"\n");
        self.out.put(self.line.as_slice())
    }

    /// Notes that an identification shows no value.
    fn note_value(&mut self, addr: u8, place: u8, id: &[u8]) -> Result<(), Failed>
        requires { length id.now ≤ 10 }
    {
        begin_value(addr, place, &mut self.line);
        self.line.push(b": ");
        push_shown(id, &mut self.line);
        self.line.push(b" tells no value\n");
        self.notes.put(self.line.as_slice())
    }

    /// `begin`
    pub(crate) fn put_begin(&mut self) -> Result<(), Failed> {
        self.line.clear();
        self.line.push(b"begin\n");
        self.out.put(self.line.as_slice())
    }

    /// Notes that the value of a hopper's coins is to be written.
    pub(crate) fn note_hopper(&mut self, addr: u8) -> Result<(), Failed> {
        self.note(
            addr,
            b"hopper ",
            b": write the value of its coins for the last 0\n",
        )
    }

    /// Notes that a hopper has several coins, which a setup can't say.
    pub(crate) fn note_several(&mut self, addr: u8) -> Result<(), Failed> {
        self.note(
            addr,
            b"hopper ",
            b": it has several coins, write the value of the one that it pays for the last 0\n",
        )
    }

    /// Notes how far the search is: `address 7 of 24`.
    pub(crate) fn note_address(&mut self, number: u32, many: u32) -> Result<(), Failed> {
        self.line.clear();
        self.line.push(b"address ");
        self.line.push_number(u64::from(number));
        self.line.push(b" of ");
        self.line.push_number(u64::from(many));
        self.line.push(b"\n");
        self.notes.put(self.line.as_slice())
    }

    /// Notes that the values of the other bills of a bill acceptor are to be written.
    pub(crate) fn note_bills(&mut self, addr: u8) -> Result<(), Failed> {
        self.note(
            addr,
            b"bills ",
            b": write a value line for each other bill\n",
        )
    }

    /// Notes that an address was heard, and that nobody acknowledges a poll there.
    pub(crate) fn note_silent(&mut self, addr: u8) -> Result<(), Failed> {
        self.note(
            addr,
            b"device ",
            b": it answers the address poll, and no other\n",
        )
    }

    /// Notes something of an address.
    fn note(&mut self, addr: u8, word: &[u8], text: &[u8]) -> Result<(), Failed>
        requires word { length word.now ≤ 20 }
        requires text { length text.now ≤ 100 }
    {
        self.line.clear();
        self.line.push(word);
        self.line.push_byte(addr);
        self.line.push(text);
        self.notes.put(self.line.as_slice())
    }

    /// Notes that a device is left out, with its category.
    pub(crate) fn note_category(
        &mut self,
        addr: u8,
        category: &Option<Category>,
    ) -> Result<(), Failed> {
        self.line.clear();
        self.line.push(b"device ");
        self.line.push_byte(addr);
        push_reason(category, &mut self.line);
        self.notes.put(self.line.as_slice())
    }
}

/// Why a device is left out, by its category.
fn push_reason(category: &Option<Category>, line: &mut TextLine)
    requires { length line.old ≤ 20 }
{
    match category {
        Some(category) if category.family().is_some() => line.push(b" tells no serial number\n"),
        Some(category) => {
            line.push(b" is left out: its category is ");
            push_shown(category.as_slice(), line);
            line.push(b"\n");
        }
        None => line.push(b" tells no category\n"),
    }
}

/// The line of a device up to its serial number.
fn begin_device(word: &[u8], at: At, serial: u32, line: &mut TextLine)
    requires { length word.now ≤ 20 }
    ensures { length line.new ≤ 60 }
{
    line.clear();
    line.push(word);
    line.push_byte(at.addr);
    line.push(match at.kind {
        CheckKind::Simple => b" simple ",
        CheckKind::Crc => b" crc ",
    });
    line.push_number(u64::from(serial));
}

/// The line of a place up to its number.
fn begin_value(addr: u8, place: u8, line: &mut TextLine)
    ensures { length line.new ≤ 20 }
{
    line.clear();
    line.push(b"value ");
    line.push_byte(addr);
    line.push(b" ");
    line.push_byte(place);
}

/// Whether a setup line can spell an identification.
fn is_printing(id: [u8; 6]) -> bool {
    id.iter().all(|byte| *byte >= 0x21 && *byte <= 0x7e)
}
