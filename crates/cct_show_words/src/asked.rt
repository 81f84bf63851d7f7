//! What the host sent.

use crate::fault::{NoMessage, check_name};
use crate::header::name_of;
use crate::lists::Hex;
use crate::request::Values;
use cct_frame::{FrameView, read};
use cct_model_lines::{BROADCAST, CheckKind, HOST};
use cct_msg::{Request, read_request};
use std::fmt;

/// What was sent in an exchange.
#[derive(Clone, Copy)]
pub enum Asked<'e> {
    /// No byte.
    Nothing,
    /// A request of the host to an address, or to all by address 0, under this check and with this
    /// header.
    Request {
        kind: CheckKind,
        to: u8,
        header: u8,
        request: Request,
    },
    /// A message under this check that is no request, or that another address than the host's sent.
    Message {
        kind: CheckKind,
        view: FrameView<'e>,
    },
    /// Bytes that are no message under either check.
    Broken(&'e [u8]),
}

impl<'e> Asked<'e> {
    /// Reads what was sent under a check.
    pub(crate) fn new(kind: CheckKind, sent: &'e [u8]) -> Asked<'e> {
        if sent.is_empty() {
            return Asked::Nothing;
        }
        let Ok(view) = read(kind, sent) else {
            return Asked::Broken(sent);
        };
        match read_request(&view) {
            Some(request) if view.from.unwrap_or(HOST) == HOST => Asked::Request {
                kind,
                to: view.to,
                header: view.header,
                request,
            },
            _ => Asked::Message { kind, view },
        }
    }
}

impl fmt::Display for Asked<'_> {
    fn fmt<W: fmt::Write>(&self, f: &mut fmt::Formatter<W>) -> fmt::Result {
        match *self {
            Asked::Nothing => f.write_str("the host sent nothing"),
            Asked::Request {
                kind,
                to,
                header,
                request,
            } => {
                let to = Recipient(to);
                let name = name_of(header).unwrap_or("request");
                let values = Values(&request);
                let check = check_name(kind);
                write!(f, "host to {to}: {name} ({header}){values}; {check} good")
            }
            Asked::Message { kind, view } => {
                let message = Message { kind, view };
                write!(f, "{message}")
            }
            Asked::Broken(bytes) => {
                let why = NoMessage(bytes);
                write!(f, "the host sent no message: {why}")
            }
        }
    }
}

/// An address that a message is for.
#[derive(Drop)]
struct Recipient(u8);

impl fmt::Display for Recipient {
    fn fmt<W: fmt::Write>(&self, f: &mut fmt::Formatter<W>) -> fmt::Result {
        match self.0 {
            BROADCAST => f.write_str("all"),
            HOST => f.write_str("host"),
            addr => write!(f, "{addr}"),
        }
    }
}

/// Who sent a message, with a space after it; nothing where the message names nobody.
#[derive(Drop)]
struct Sender(Option<u8>);

impl fmt::Display for Sender {
    fn fmt<W: fmt::Write>(&self, f: &mut fmt::Formatter<W>) -> fmt::Result {
        match self.0 {
            None => Ok(()),
            Some(HOST) => f.write_str("host "),
            Some(addr) => write!(f, "{addr} "),
        }
    }
}

/// A message whose values aren't read, by its header and its data.
#[derive(Drop)]
pub(crate) struct Message<'e> {
    pub kind: CheckKind,
    pub view: FrameView<'e>,
}

impl fmt::Display for Message<'_> {
    fn fmt<W: fmt::Write>(&self, f: &mut fmt::Formatter<W>) -> fmt::Result {
        let from = Sender(self.view.from);
        let to = Recipient(self.view.to);
        write!(f, "{from}to {to}: ")?;
        write_header(self.view.header, f)?;
        write_data(self.view.body, f)?;
        let check = check_name(self.kind);
        write!(f, "; {check} good")
    }
}

/// Writes a header, and its name where it has one.
fn write_header<W: fmt::Write>(header: u8, f: &mut fmt::Formatter<W>) -> fmt::Result {
    match name_of(header) {
        Some(name) => write!(f, "header {header} ({name})"),
        None => write!(f, "header {header}"),
    }
}

/// The fewest bytes that are taken for a text.
const LEAST_TEXT: usize = 2;

/// Writes the data bytes of a message, where it has any; beside them the text that they spell,
/// where each of them prints.
fn write_data<W: fmt::Write>(body: &[u8], f: &mut fmt::Formatter<W>) -> fmt::Result {
    if body.is_empty() {
        return Ok(());
    }
    let digits = Hex(body);
    write!(f, ", data {digits}")?;
    if body.len() >= LEAST_TEXT && body.iter().all(|byte| matches!(*byte, b' '..=b'~')) {
        let text = body.escape_ascii();
        write!(f, " \"{text}\"")?;
    }
    Ok(())
}
