//! What a message that is heard asks of the device at an address, and what the host hears of a
//! device.
ghost use Rattle.std.specs.Prelude.{◌≡◌};
ghost use Rattle.std.specs.Option.{option_map};
ghost use Rattle.cct_frame.specs.Frame.{message_of};
ghost use Rattle.cct_model_wire.specs.Exchange.{asked_of, got, to_all, to_one};
ghost use Rattle.cct_model_wire.specs.Reply.{reply_shown};

use crate::reply_reading::read_reply;
use crate::request_reading::read_request;
use cct_frame::FrameView;
use cct_model_wire::{BROADCAST, CheckKind, Reply, ReplyForm, Request};
use cct_wire::{Heard, hear};

/// What a message asks of the device at an address, whoever sent it: nothing where it is for
/// another, or is no request.
pub fn asked_of(address: u8, view: &FrameView<'_>) -> Option<Request>
    ensures { result ≡ asked_of address (message_of view.now) }
{
    if view.to == address {
        to_one(read_request(view))
    } else if view.to == BROADCAST {
        to_all(read_request(view))
    } else {
        None
    }
}

/// What a request to one device asks of it: an address poll asks nothing there.
fn to_one(request: Option<Request>) -> Option<Request>
    ensures { result ≡ to_one request }
{
    match request {
        Some(Request::AddressPoll) => None,
        other => other,
    }
}

/// What a request to all devices asks of each: the address poll alone is known there.
fn to_all(request: Option<Request>) -> Option<Request>
    ensures { result ≡ to_all request }
{
    match request {
        Some(Request::AddressPoll) => Some(Request::AddressPoll),
        _ => None,
    }
}

/// The reply in the form that the host wants from an address under a check, in what it heard after
/// what it sent, or `None` where that is no such reply after the echo.
// Inlined: a reply is wide, and to hand it over costs more than to find which form it has.
#[inline(always)]
#[tactic(auto, unfolding(cct_model_wire::specs::Exchange::got))]
pub fn wanted_reply<'h>(
    kind: CheckKind,
    addr: u8,
    form: ReplyForm,
    sent: &[u8],
    heard: &'h [u8],
) -> Option<Reply<'h>>
    ensures { option_map reply_shown result ≡ got kind addr form sent.now heard.now }
{
    match hear(kind, sent, heard) {
        Heard::EchoBad { .. } => None,
        Heard::Silence => None,
        Heard::Broken(_) => None,
        Heard::Message(view) => match read_reply(form, addr, &view) {
            Ok(reply) => Some(reply),
            Err(_) => None,
        },
    }
}
