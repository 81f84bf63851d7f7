//! A buffer for one line of text.
ghost use Rattle.std.specs.Prelude.{◌≡◌, ℕ, ◌+◌, ◌*◌, ◌<◌, ◌≤◌, List, [], ◌∷◌, ◌++◌, length};
ghost use Rattle.std.specs.Fmt.{decimal};
ghost use Rattle.hex.specs.Hex.{encode_lower};
ghost use Rattle.cct_model_lines.specs.Text.{number_text};
ghost use Rattle.cct_text.specs.Adding.{Adds};

use crate::digits::{digit_count, write_hex};
use cct_model_lines::MOST_TEXT;
use itoa::write_digits;
use std::marker::Model;

/// One line of text, `MOST_TEXT` bytes at most, in a buffer that is made once and serves every
/// line.
#[derive(Drop)]
pub struct TextLine {
    bytes: [u8; MOST_TEXT],
    len: usize,
}

impl Model for TextLine {
    ghost use Rattle.std.specs.Prelude.{◌≤◌, List, ℕ, take};
    ghost use Rattle.cct_model_lines.specs.declared.entry.TheConstants.{MOST_TEXT};

    ghost Value = { List ℕ };

    ghost view = { λ t. take t.len t.bytes };

    ghost invariant = { λ t. t.len ≤ MOST_TEXT };
}

impl TextLine {
    /// No byte.
    pub fn new() -> Self
        ensures { result ≡ [] }
    {
        TextLine {
            bytes: [0; MOST_TEXT],
            len: 0,
        }
    }

    /// The bytes of the line.
    pub fn as_slice(&self) -> &[u8]
        ensures { result.now ≡ self.now }
    {
        &self.bytes[..self.len]
    }

    /// Removes every byte.
    pub fn clear(&mut self)
        ensures { self.new ≡ [] }
    {
        self.len = 0;
    }

    /// Adds bytes at the end.
    pub fn push(&mut self, text: &[u8])
        requires { length self.old + length text.now ≤ MOST_TEXT }
        ensures { self.new ≡ self.old ++ text.now }
    {
        let end = self.len + text.len();
        self.bytes[self.len..end].copy_from_slice(text);
        self.len = end;
    }

    /// Adds a number in decimal.
    #[tactic(auto, using(crate::proofs::WrittenDigits::adds_text, crate::proofs::WrittenDigits::decimal_length, crate::proofs::WrittenDigits::number_length))]
    pub fn push_number(&mut self, number: u64)
        requires { length self.old + 20 ≤ MOST_TEXT }
        ensures { Adds self.old self.new (number_text number) 20 }
    {
        self.push_digits(number);
    }

    /// Adds a byte in decimal.
    #[tactic(auto, using(crate::proofs::WrittenDigits::adds_text, crate::proofs::WrittenDigits::byte_decimal_length, crate::proofs::WrittenDigits::byte_length))]
    pub fn push_byte(&mut self, byte: u8)
        requires { length self.old + 3 ≤ MOST_TEXT }
        ensures { Adds self.old self.new (number_text byte) 3 }
    {
        self.push_digits(u64::from(byte));
    }

    /// Adds the digits of a number, for which there is room. Most numbers have one.
    #[tactic(auto, using(crate::proofs::WrittenDigits::one_digit_text, crate::proofs::WrittenDigits::one_digit_length))]
    #[inline]
    fn push_digits(&mut self, number: u64)
        requires { length self.old + length (decimal number) ≤ MOST_TEXT }
        ensures { self.new ≡ self.old ++ number_text number }
    {
        if number < 10 {
            self.push_digit(number as u8);
        } else {
            self.push_more_digits(number);
        }
    }

    /// Adds one digit, for which there is room.
    #[inline]
    fn push_digit(&mut self, digit: u8)
        requires room { length self.old + 1 ≤ MOST_TEXT }
        requires small { digit < 10 }
        ensures { self.new ≡ self.old ++ (48 + digit) ∷ [] }
    {
        self.bytes[self.len] = b'0' + digit;
        self.len += 1;
    }

    /// Adds the digits of a number of more than one, for which there is room.
    #[inline(never)]
    fn push_more_digits(&mut self, number: u64)
        requires { length self.old + length (decimal number) ≤ MOST_TEXT }
        ensures { self.new ≡ self.old ++ number_text number }
    {
        let end = self.len + digit_count(number);
        write_digits(number, &mut self.bytes, end);
        self.len = end;
    }

    /// Adds bytes in hexadecimal, lower case.
    pub fn push_hex(&mut self, bytes: &[u8])
        requires { length self.old + 2 * length bytes.now ≤ MOST_TEXT }
        ensures text { self.new ≡ self.old ++ encode_lower bytes.now }
        ensures len { length self.new ≡ length self.old + 2 * length bytes.now }
    {
        let end = self.len + 2 * bytes.len();
        write_hex(bytes, &mut self.bytes[self.len..end]);
        self.len = end;
    }
}
