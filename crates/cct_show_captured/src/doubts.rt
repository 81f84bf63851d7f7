//! What a log has for which a capture of it may be wrong.

use crate::numbers::LineNumbers;
use cct_frame::read;
use cct_model_lines::{BROADCAST, CheckKind, HOST};
use cct_show_log_line::first_message;
use std::fmt;
use std::fmt::Write;

/// Half a day, in millionths of a second: a time of day that falls by more is one of the next day.
const HALF_DAY: u64 = 43_200_000_000;

/// Exchanges in which another device answered than was asked, times that fall, and how many bytes
/// are in no exchange.
#[derive(Drop)]
pub struct Doubts {
    others: LineNumbers,
    falls: LineNumbers,
    rises: u64,
    micros: Option<u64>,
    kept: u64,
    left_out: u64,
}

impl Doubts {
    /// Of a log without a line.
    pub fn new() -> Doubts {
        Doubts {
            others: LineNumbers::new(),
            falls: LineNumbers::new(),
            rises: 0,
            micros: None,
            kept: 0,
            left_out: 0,
        }
    }

    /// Takes the time in a line, in millionths of a second.
    pub fn time(&mut self, line: u64, micros: u64) {
        let before = self.micros.unwrap_or(micros);
        self.micros = Some(micros);
        match before.checked_sub(micros) {
            None => self.rises = self.rises.saturating_add(1),
            Some(1..=HALF_DAY) => self.falls.add(line),
            Some(_) => {}
        }
    }

    /// Takes an exchange, which begins in a line.
    pub fn exchange(&mut self, line: u64, sent: &[u8], heard: &[u8]) {
        let count = sent.len().saturating_add(heard.len());
        self.kept = self.kept.saturating_add(bytes(count));
        if is_of_another(sent, heard) {
            self.others.add(line);
        }
    }

    /// Takes so many bytes that are in no exchange.
    pub fn leave_out(&mut self, count: usize) {
        self.left_out = self.left_out.saturating_add(bytes(count));
    }

    /// Whether a tenth of the bytes, or more, is in no exchange.
    pub fn is_much(&self) -> bool {
        let all = self.kept.saturating_add(self.left_out);
        self.left_out != 0 && self.left_out.saturating_mul(10) >= all
    }

    /// Notes what there is.
    pub fn tell<W: Write>(&self, notes: &mut W) -> fmt::Result {
        let others = &self.others;
        let falls = &self.falls;
        if others.count != 0 {
            let count = others.count;
            write!(
                notes,
                "cct_show: another device answers than is asked in {count} taps, from {others}: are two buses in the log, or lines out of order?\n"
            )?;
        }
        if falls.count > self.rises.saturating_mul(2) {
            let count = falls.count;
            write!(
                notes,
                "cct_show: {count} lines have an earlier time than the one before: {falls}; turn a log round that is newest first: tac FILE | cct_show ..\n"
            )?;
        }
        Ok(())
    }
}

/// A number of bytes.
fn bytes(count: usize) -> u64 {
    u64::try_from(count).unwrap_or(u64::MAX)
}

/// Whether the reply of an exchange, after the echo or without one, is the message of another
/// device than the request is for. Under the CRC no reply says which device sent it.
fn is_of_another(sent: &[u8], heard: &[u8]) -> bool {
    let Ok(asked) = read(CheckKind::Simple, sent) else {
        return false;
    };
    let Some((message, _)) = first_message(heard.strip_prefix(sent).unwrap_or(heard)) else {
        return false;
    };
    match read(CheckKind::Simple, message) {
        Ok(reply) => {
            asked.to != BROADCAST && reply.to == HOST && reply.from.unwrap_or(asked.to) != asked.to
        }
        Err(_) => false,
    }
}
