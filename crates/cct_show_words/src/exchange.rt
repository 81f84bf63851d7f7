//! One exchange on the wire.

use crate::answer::Answer;
use crate::asked::Asked;
use cct_frame::read;
use cct_model_lines::{CheckKind, HOST};
use cct_wire::{Heard, hear};
use std::fmt;

/// One exchange: what the host sent, and what it heard after the echo.
#[derive(Clone, Copy)]
pub struct Exchange<'e> {
    pub asked: Asked<'e>,
    pub answer: Answer<'e>,
}

impl<'e> Exchange<'e> {
    /// Reads what was sent, and all that was then heard.
    pub fn new(sent: &'e [u8], heard: &'e [u8]) -> Exchange<'e> {
        let kind = check_of(sent, heard);
        let asked = Asked::new(kind, sent);
        Exchange {
            asked,
            answer: Answer::new(kind, &asked, sent, heard),
        }
    }
}

impl fmt::Display for Exchange<'_> {
    fn fmt<W: fmt::Write>(&self, f: &mut fmt::Formatter<W>) -> fmt::Result {
        let asked = self.asked;
        let answer = self.answer;
        write!(f, "    {asked}\n    {answer}\n")
    }
}

/// The check under which an exchange is read. No line names it, so both are tried. A request under
/// the simple check names the host as its source. A few requests under the CRC are messages under
/// the simple check too: then it is the check under which the reply is a message as well, and the
/// simple one where both are or neither is.
fn check_of(sent: &[u8], heard: &[u8]) -> CheckKind {
    match (
        is_request(CheckKind::Simple, sent),
        is_request(CheckKind::Crc, sent),
    ) {
        (true, false) => CheckKind::Simple,
        (false, true) => CheckKind::Crc,
        _ if has_reply(CheckKind::Simple, sent, heard) => CheckKind::Simple,
        _ if has_reply(CheckKind::Crc, sent, heard) => CheckKind::Crc,
        _ => CheckKind::Simple,
    }
}

/// Whether bytes are a message under a check, and names no other source than the host.
fn is_request(kind: CheckKind, sent: &[u8]) -> bool {
    match read(kind, sent) {
        Ok(view) => view.from.unwrap_or(HOST) == HOST,
        Err(_) => false,
    }
}

/// Whether a message under a check follows the echo.
fn has_reply(kind: CheckKind, sent: &[u8], heard: &[u8]) -> bool {
    matches!(hear(kind, sent, heard), Heard::Message(_))
}
