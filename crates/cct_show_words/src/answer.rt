//! What the host heard.

use crate::asked::{Asked, Message};
use crate::event::Taker;
use crate::fault::{Fault, check_name};
use crate::lists::Addresses;
use crate::reading::{Reading, reading_of};
use crate::register::Registers;
use crate::reply::Says;
use cct_frame::{FrameFault, FrameView};
use cct_model_lines::{BROADCAST, CheckKind, HOST};
use cct_msg::{NotWanted, Reply, ReplyForm, Request, form_of, read_reply};
use cct_wire::{EchoBad, Heard, bare_after_echo, hear};
use std::fmt;

/// The header of a reply that is no refusal.
pub(crate) const REPLY: u8 = 0;

/// The codes with which a bill acceptor refuses to route a bill (ccTalk Generic Specification 4,
/// part 2, header 154).
const NO_BILL: u8 = 254;

const NOT_ROUTED: u8 = 255;

/// What was heard in an exchange, after the echo of what was sent.
#[derive(Clone, Copy)]
pub enum Answer<'e> {
    /// The echo is damaged: at the place `at`, counted from 0, `sent` was sent and `heard` was
    /// heard, or no byte.
    EchoBad {
        at: usize,
        sent: Option<u8>,
        heard: Option<u8>,
    },
    /// No byte.
    Silence,
    /// The bare addresses that answer an address poll.
    Addresses(&'e [u8]),
    /// Bytes that are no message under the check of the request.
    Broken(FrameFault),
    /// The reply that was wanted, NAK or BUSY, of a device that takes coins or bills as far as the
    /// request shows.
    Reply {
        kind: CheckKind,
        from: u8,
        taker: Taker,
        reply: Reply<'e>,
    },
    /// A reply to `Test hopper` of two or three registers, which the readers don't know.
    Registers {
        kind: CheckKind,
        from: u8,
        registers: &'e [u8],
    },
    /// A reply to a dispense under a cipher: the event counter.
    Dispensed {
        kind: CheckKind,
        from: u8,
        counter: u8,
    },
    /// A bill that wasn't routed, for this reason.
    NotRouted {
        kind: CheckKind,
        from: u8,
        why: &'static str,
    },
    /// The reply to a request that the readers don't know.
    Reading {
        kind: CheckKind,
        from: u8,
        reading: Reading,
    },
    /// A message that is not the reply that was wanted.
    NotWanted {
        kind: CheckKind,
        view: FrameView<'e>,
    },
    /// A message after something of which it isn't known what reply it wants.
    Message {
        kind: CheckKind,
        view: FrameView<'e>,
    },
}

impl<'e> Answer<'e> {
    /// Reads what was heard after what was asked.
    pub(crate) fn new(
        kind: CheckKind,
        asked: &Asked<'_>,
        sent: &[u8],
        heard: &'e [u8],
    ) -> Answer<'e> {
        match *asked {
            Asked::Request {
                to: BROADCAST,
                request: Request::AddressPoll,
                ..
            } => bare_answer(sent, heard),
            Asked::Request { to, request, .. } => {
                message_answer(kind, Some(to), Some(request), sent, heard)
            }
            Asked::Message { view: message, .. } => {
                let answer = message_answer(kind, Some(message.to), None, sent, heard);
                with_reading(message.header, message.to, answer)
            }
            Asked::Nothing | Asked::Broken(_) => message_answer(kind, None, None, sent, heard),
        }
    }
}

/// What was heard after something that was sent to `asked`, with the request that it was, where
/// both are known.
fn message_answer<'e>(
    kind: CheckKind,
    asked: Option<u8>,
    request: Option<Request>,
    sent: &[u8],
    heard: &'e [u8],
) -> Answer<'e> {
    match hear(kind, sent, heard) {
        Heard::EchoBad { at } => bad_echo(at, sent, heard),
        Heard::Silence => Answer::Silence,
        Heard::Broken(fault) => Answer::Broken(fault),
        Heard::Message(view) => match asked {
            Some(from) => reply_answer(kind, from, request, view),
            None => Answer::Message { kind, view },
        },
    }
}

/// What a message says that follows something sent to `from`. Where no form of its reply is known,
/// it may still be bare: ACK, NAK or BUSY.
fn reply_answer<'e>(
    kind: CheckKind,
    from: u8,
    request: Option<Request>,
    view: FrameView<'e>,
) -> Answer<'e> {
    let reply = match read_reply(wanted_form(request), from, &view) {
        Ok(reply) => reply,
        Err(NotWanted::Nak) => Reply::Nak,
        Err(NotWanted::Busy) => Reply::Busy,
        Err(NotWanted::Other) => return other_answer(kind, from, request, view),
    };
    Answer::Reply {
        kind,
        from,
        taker: Taker::of(request),
        reply,
    }
}

/// The form in which a reply to this request is wanted: an ACK where none is known.
fn wanted_form(request: Option<Request>) -> ReplyForm {
    match request {
        Some(request) => form_of(request).unwrap_or(ReplyForm::Ack),
        None => ReplyForm::Ack,
    }
}

/// What a message says that the readers don't know as a reply to this request of the asked device.
fn other_answer<'e>(
    kind: CheckKind,
    from: u8,
    request: Option<Request>,
    view: FrameView<'e>,
) -> Answer<'e> {
    let Some(request) = request else {
        return Answer::Message { kind, view };
    };
    if view.to != HOST || view.from.unwrap_or(from) != from || view.header != REPLY {
        return Answer::NotWanted { kind, view };
    }
    match (request, view.body) {
        (Request::TestHopper, [_, _] | [_, _, _]) => Answer::Registers {
            kind,
            from,
            registers: view.body,
        },
        (Request::CipherDispense, [counter]) => Answer::Dispensed {
            kind,
            from,
            counter: *counter,
        },
        (Request::RouteBill { .. }, [NO_BILL]) => Answer::NotRouted {
            kind,
            from,
            why: "no bill is held",
        },
        (Request::RouteBill { .. }, [NOT_ROUTED]) => Answer::NotRouted {
            kind,
            from,
            why: "the bill could not be routed",
        },
        (Request::CipherDispense | Request::PumpRng | Request::CipherKey, _) => {
            Answer::Message { kind, view }
        }
        _ => Answer::NotWanted { kind, view },
    }
}

/// The answer to a message with this header that was sent to `from`, with what it reads, where that
/// is known.
fn with_reading<'e>(header: u8, from: u8, answer: Answer<'e>) -> Answer<'e> {
    match answer {
        Answer::Message { kind, view } if view.to == HOST && view.header == REPLY => {
            match reading_of(header, view.body) {
                Some(reading) => Answer::Reading {
                    kind,
                    from,
                    reading,
                },
                None => answer,
            }
        }
        _ => answer,
    }
}

/// What was heard after an address poll, which is answered by bare addresses.
fn bare_answer<'e>(sent: &[u8], heard: &'e [u8]) -> Answer<'e> {
    match bare_after_echo(sent, heard) {
        Err(EchoBad { at }) => bad_echo(at, sent, heard),
        Ok([]) => Answer::Silence,
        Ok(addresses) => Answer::Addresses(addresses),
    }
}

/// An echo that is damaged first at a place.
fn bad_echo<'e>(at: usize, sent: &[u8], heard: &[u8]) -> Answer<'e> {
    Answer::EchoBad {
        at,
        sent: byte_at(at, sent),
        heard: byte_at(at, heard),
    }
}

/// The byte at a place, where there is one.
fn byte_at(at: usize, bytes: &[u8]) -> Option<u8> {
    if at < bytes.len() {
        Some(bytes[at])
    } else {
        None
    }
}

impl fmt::Display for Answer<'_> {
    fn fmt<W: fmt::Write>(&self, f: &mut fmt::Formatter<W>) -> fmt::Result {
        match *self {
            Answer::EchoBad { at, sent, heard } => write_bad_echo(at, sent, heard, f),
            Answer::Silence => f.write_str("silence"),
            Answer::Addresses(addresses) => {
                let addresses = Addresses(addresses);
                write!(f, "to host, bare addresses: {addresses}")
            }
            Answer::Broken(fault) => {
                let why = Fault(fault);
                write!(f, "the host heard no message: {why}")
            }
            Answer::Reply {
                kind,
                from,
                taker,
                reply,
            } => {
                let says = Says(reply, taker);
                let check = check_name(kind);
                write!(f, "{from} to host: {says}; {check} good")
            }
            _ => write_other(self, f),
        }
    }
}

/// Writes a whole message that the readers don't know as the wanted reply.
fn write_other<W: fmt::Write>(answer: &Answer<'_>, f: &mut fmt::Formatter<W>) -> fmt::Result {
    match *answer {
        Answer::Registers {
            kind,
            from,
            registers,
        } => {
            let registers = Registers(registers);
            let check = check_name(kind);
            write!(f, "{from} to host: {registers}; {check} good")
        }
        Answer::Dispensed {
            kind,
            from,
            counter,
        } => {
            let check = check_name(kind);
            write!(f, "{from} to host: event counter {counter}; {check} good")
        }
        Answer::NotRouted { kind, from, why } => {
            let check = check_name(kind);
            write!(f, "{from} to host: it refuses, since {why}; {check} good")
        }
        Answer::Reading {
            kind,
            from,
            reading,
        } => {
            let check = check_name(kind);
            write!(f, "{from} to host: {reading}; {check} good")
        }
        Answer::NotWanted { kind, view } => {
            let message = Message { kind, view };
            write!(f, "not the wanted reply, {message}")
        }
        Answer::Message { kind, view } => {
            let message = Message { kind, view };
            write!(f, "{message}")
        }
        _ => Ok(()),
    }
}

/// Writes where the echo is damaged, counted from 1, and how.
fn write_bad_echo<W: fmt::Write>(
    at: usize,
    sent: Option<u8>,
    heard: Option<u8>,
    f: &mut fmt::Formatter<W>,
) -> fmt::Result {
    if at == 0 && heard.is_none() && sent.is_some() {
        return f.write_str("nothing was heard, not even the echo");
    }
    let place = at.saturating_add(1);
    write!(f, "the echo is damaged at byte {place}: ")?;
    match (sent, heard) {
        (Some(sent), Some(heard)) => write!(f, "{sent:02x} was sent and {heard:02x} heard"),
        (Some(sent), None) => write!(f, "{sent:02x} was sent and no byte heard"),
        (None, _) => f.write_str("no byte was sent"),
    }
}
