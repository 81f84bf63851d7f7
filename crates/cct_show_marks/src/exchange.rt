//! An exchange on the wire, and its mark.

use cct_msg::Reply as Said;
use cct_show_picture::{Ask, FaultAt, Heard, Label, LaneKind, Mark, Reach, Reply};
use cct_show_words::{Answer, Asked, DeviceKind, Exchange, Short, ShortAsked, kind_for};
use std::alloc::{AllocError, Global};
use std::fmt::Write;

/// An exchange, of which a log may have one half alone.
#[derive(Clone, Copy)]
pub struct Wire<'e> {
    /// What was sent; or what the reply is to, where the log doesn't say again that it was sent.
    pub sent: &'e [u8],
    /// What was heard, its echo first.
    pub heard: &'e [u8],
    pub has_sent: bool,
    /// Whether anything was heard, an echo or a reply: a log that has no echo has nothing of a
    /// request without a reply.
    pub has_heard: bool,
}

/// The mark of an exchange, with the fault that the wire had in it, where that is known. The error
/// comes where there is no memory for it.
pub fn exchange_mark(alloc: Global, wire: &Wire<'_>, fault: FaultAt) -> Result<Mark, AllocError> {
    let exchange = Exchange::new(wire.sent, wire.heard);
    let (addr, kind) = lane_of(&exchange, wire.sent);
    let reach = match wire.has_heard {
        true => reach_of(&exchange.answer, fault),
        false => Reach::Device,
    };
    let ask = match exchange.asked {
        Asked::Nothing => None,
        _ if !wire.has_sent => None,
        _ => Some(ask_of(alloc, &exchange.asked, reach, wire.sent)?),
    };
    let reply = match wire.has_heard {
        true => reply_of(alloc, &exchange.answer, wire.sent, wire.heard)?,
        false => no_reply(alloc),
    };
    Ok(Mark::Exchange {
        addr,
        kind,
        ask,
        reply: Some(reply),
    })
}

/// No reply, where nothing was heard before the next request.
fn no_reply(alloc: Global) -> Reply {
    Reply {
        heard: Heard::NoReply,
        words: Label::empty(),
        bytes: Vec::new(alloc),
    }
}

/// What was sent.
fn ask_of(alloc: Global, asked: &Asked<'_>, reach: Reach, sent: &[u8]) -> Result<Ask, AllocError> {
    let mut words = Label::empty();
    let short = ShortAsked(asked);
    // A label takes any text.
    let _ = write!(words, "{short}");
    Ok(Ask {
        words,
        reach,
        bytes: sent.to_vec(alloc)?,
    })
}

/// What was heard; its bytes are those after the echo, where the echo is whole.
fn reply_of(
    alloc: Global,
    answer: &Answer<'_>,
    sent: &[u8],
    heard: &[u8],
) -> Result<Reply, AllocError> {
    let mut words = Label::empty();
    let short = Short(answer);
    // A label takes any text.
    let _ = write!(words, "{short}");
    Ok(Reply {
        heard: heard_in(answer),
        words,
        bytes: heard.strip_prefix(sent).unwrap_or(heard).to_vec(alloc)?,
    })
}

/// The address that what was sent names, or where nothing was sent what was heard, and the kind of
/// device that the header is for.
pub fn lane_of(exchange: &Exchange<'_>, sent: &[u8]) -> (u8, LaneKind) {
    match (exchange.asked, exchange.answer) {
        (Asked::Request { to, header, .. }, _) => (to, lane_kind(kind_for(header))),
        (Asked::Message { view, .. }, _) => (view.to, lane_kind(kind_for(view.header))),
        (Asked::Nothing, Answer::Message { view, .. }) => {
            (view.from.unwrap_or(0), LaneKind::Unknown)
        }
        _ => (sent.first().copied().unwrap_or(0), LaneKind::Unknown),
    }
}

/// The kind of a lane.
fn lane_kind(kind: Option<DeviceKind>) -> LaneKind {
    match kind {
        None => LaneKind::Unknown,
        Some(DeviceKind::Acceptor) => LaneKind::Acceptor,
        Some(DeviceKind::Hopper) => LaneKind::Hopper,
        Some(DeviceKind::BillValidator) => LaneKind::BillAcceptor,
        Some(DeviceKind::Changer) => LaneKind::Changer,
    }
}

/// How far what was sent came. Where the devices hear something else, it is lost; where the echo
/// isn't whole too, but for a fault that is the host's alone.
fn reach_of(answer: &Answer<'_>, fault: FaultAt) -> Reach {
    match (answer, fault) {
        (_, FaultAt::Devices) => Reach::Lost,
        (_, FaultAt::Whole) => Reach::Device,
        (Answer::EchoBad { .. }, _) => Reach::Lost,
        _ => Reach::Device,
    }
}

/// What the host heard.
pub fn heard_in(answer: &Answer<'_>) -> Heard {
    match answer {
        Answer::EchoBad { .. } => Heard::DamagedEcho,
        Answer::Silence => Heard::Silence,
        Answer::Broken(_) => Heard::Damaged,
        Answer::NotWanted { .. } => Heard::Other,
        Answer::NotRouted { .. } => Heard::Nak,
        Answer::Reply {
            reply: Said::Nak,
            ..
        } => Heard::Nak,
        Answer::Reply {
            reply: Said::Busy,
            ..
        } => Heard::Busy,
        _ => Heard::Answered,
    }
}
