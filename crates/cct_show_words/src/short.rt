//! What was sent and heard, shorter than in words.

use crate::answer::{Answer, REPLY};
use crate::asked::Asked;
use crate::event::{Event, Taker};
use crate::fault::Fault;
use crate::header::name_of;
use crate::lists::{Addresses, Hex};
use crate::register::Registers;
use crate::reply::Says;
use crate::request::Values;
use cct_frame::FrameView;
use cct_model_lines::{Credits, HOST};
use cct_msg::{Reply, Request};
use std::fmt;

/// What was sent, for a picture: the header, its name, and the values or the data bytes.
#[derive(Drop)]
pub struct ShortAsked<'a>(pub &'a Asked<'a>);

impl fmt::Display for ShortAsked<'_> {
    fn fmt<W: fmt::Write>(&self, f: &mut fmt::Formatter<W>) -> fmt::Result {
        match *self.0 {
            Asked::Nothing => f.write_str("nothing"),
            Asked::Request {
                header,
                request,
                ..
            } => {
                let name = name_of(header).unwrap_or("request");
                write!(f, "{header} {name}")?;
                write_values(&request, f)
            }
            Asked::Message { view, .. } => {
                let message = ShortMessage(view);
                write!(f, "{message}")
            }
            Asked::Broken(bytes) => {
                let bytes = Hex(bytes);
                write!(f, "no message: {bytes}")
            }
        }
    }
}

/// Writes the values of a request, a mask as four hexadecimal digits.
fn write_values<W: fmt::Write>(request: &Request, f: &mut fmt::Formatter<W>) -> fmt::Result {
    match *request {
        Request::SetMask { mask } => write!(f, ": mask {mask:04x}"),
        Request::Dispense { count, .. } => write!(f, ": {count}"),
        _ => {
            let values = Values(request);
            write!(f, "{values}")
        }
    }
}

/// A message by its header, its name and its data bytes; a reply by its data bytes alone.
#[derive(Drop)]
struct ShortMessage<'m>(FrameView<'m>);

impl fmt::Display for ShortMessage<'_> {
    fn fmt<W: fmt::Write>(&self, f: &mut fmt::Formatter<W>) -> fmt::Result {
        let header = self.0.header;
        let mut before = "";
        if header != REPLY {
            let name = name_of(header).unwrap_or("header without a name");
            write!(f, "{header} {name}")?;
            before = ", ";
        }
        write_data(header, before, self.0.body, f)
    }
}

/// Writes the data bytes of a message; of a reply also that there are none.
fn write_data<W: fmt::Write>(
    header: u8,
    before: &str,
    body: &[u8],
    f: &mut fmt::Formatter<W>,
) -> fmt::Result {
    let hex = Hex(body);
    match (header, body.len()) {
        (REPLY, 0) => f.write_str("no data"),
        (_, 0) => Ok(()),
        _ => write!(f, "{before}data {hex}"),
    }
}

/// What was heard, for a picture: shorter than below a line, and nothing for an answer whose kind
/// says it all.
#[derive(Drop)]
pub struct Short<'a>(pub &'a Answer<'a>);

impl fmt::Display for Short<'_> {
    fn fmt<W: fmt::Write>(&self, f: &mut fmt::Formatter<W>) -> fmt::Result {
        match *self.0 {
            Answer::Addresses(addresses) => {
                let addresses = Addresses(addresses);
                write!(f, "{addresses}")
            }
            Answer::Reply { taker, reply, .. } => write_short(reply, taker, f),
            Answer::Registers { registers, .. } => {
                let registers = Registers(registers);
                write!(f, "{registers}")
            }
            Answer::Dispensed { counter, .. } => write!(f, "event counter {counter}"),
            _ => write_strange(self.0, f),
        }
    }
}

/// Writes what isn't a wanted reply.
fn write_strange<W: fmt::Write>(answer: &Answer<'_>, f: &mut fmt::Formatter<W>) -> fmt::Result {
    match *answer {
        Answer::EchoBad {
            heard: Some(heard),
            at,
            ..
        } => {
            let place = at.saturating_add(1);
            write!(f, "byte {place} heard as {heard:02x}")
        }
        Answer::EchoBad { at, .. } => {
            let place = at.saturating_add(1);
            write!(f, "no byte {place}")
        }
        Answer::Broken(fault) => {
            let fault = Fault(fault);
            write!(f, "{fault}")
        }
        Answer::NotRouted { why, .. } => f.write_str(why),
        Answer::Reading { reading, .. } => write!(f, "{reading}"),
        Answer::NotWanted { view, .. } => write_unwanted(view, f),
        Answer::Message { view, .. } => {
            let message = ShortMessage(view);
            write!(f, "{message}")
        }
        _ => Ok(()),
    }
}

/// Writes a message that isn't the wanted reply, with who sent it and whom it is for.
fn write_unwanted<W: fmt::Write>(view: FrameView<'_>, f: &mut fmt::Formatter<W>) -> fmt::Result {
    if view.to != HOST {
        let to = view.to;
        write!(f, "to {to}, ")?;
    }
    if let Some(from) = view.from {
        write!(f, "from {from}, ")?;
    }
    let message = ShortMessage(view);
    write!(f, "{message}")
}

/// Writes a reply that was wanted, but for the refusals.
fn write_short<W: fmt::Write>(
    reply: Reply<'_>,
    taker: Taker,
    f: &mut fmt::Formatter<W>,
) -> fmt::Result {
    match reply {
        Reply::Nak | Reply::Busy => Ok(()),
        Reply::Mask { mask } => write!(f, "mask {mask:04x}"),
        Reply::Credits(credits) => write_newest(credits, taker, f),
        _ => {
            let says = Says(reply, taker);
            write!(f, "{says}")
        }
    }
}

/// Writes an event counter, and the newest event alone.
fn write_newest<W: fmt::Write>(
    credits: Credits,
    taker: Taker,
    f: &mut fmt::Formatter<W>,
) -> fmt::Result {
    let counter = credits.counter;
    let [newest, ..] = credits.pairs;
    let event = Event(newest, taker);
    write!(f, "counter {counter}, {event}")
}
