//! Questions what a bill or a coin is worth. They are no requests of `cct_model_wire`, since the
//! host at work asks none of them.
ghost use Rattle.std.specs.Prelude.{◌≡◌, ◌≤◌, length};
ghost use Rattle.cct_frame.specs.Frame.{message_of};
ghost use Rattle.cct_model_wire.specs.Exchange.{is_from};
ghost use Rattle.cct_live_survey.specs.Asking.{Asked, Inquires, ask_value, data_from, value_data};
ghost use Rattle.cct_live_survey.specs.Asking.{value_header, value_in, value_length};

use crate::question::TRIES;
use crate::room::Room;
use arrayvec::ArrayVec;
use cct_frame::{FrameView, write};
use cct_model_wire::{Bytes, CheckKind, HOST, MOST_SENT};
use cct_wire::{Heard, Link, hear};

/// The most data bytes of a reply to such a question.
pub const MOST_VALUE_DATA: usize = 8;

/// A question what a bill or a coin is worth (ccTalk Generic Specification 4, part 3).
#[derive(Clone, Copy, PartialEq, Eq)]
pub enum ValueRequest {
    /// Header 157, one data byte, the place of a bill: its identification, seven characters.
    BillId { place: u8 },
    /// Header 156, two characters of a country: a scaling factor, low byte first, and how many
    /// decimal places.
    Scaling { first: u8, second: u8 },
    /// Header 171: the identification of a hopper's coins, six characters.
    HopperCoin,
    /// Header 131, one data byte, the place of a coin: its identification, six characters, and its
    /// value, low byte first.
    HopperValue { place: u8 },
}

/// Asks an address what a bill or a coin is worth, three times at most, and gives the data bytes of
/// the reply.
pub fn value_of<L: Link>(
    link: &mut L,
    kind: CheckKind,
    addr: u8,
    request: ValueRequest,
    room: &mut Room,
) -> Option<Bytes<MOST_VALUE_DATA>>
    ensures asked { Asked L.gives 3 (ask_value kind addr request) (value_in kind addr request)
        link.old result link.new }
    ensures inquires { (first : L) → Inquires L.gives first link.old →
        Inquires L.gives first link.new }
{
    encode_value(kind, addr, request, &mut room.sent);
    for _ in 0..TRIES {
        room.exchange(kind, link);
        match value_in(kind, addr, request, room) {
            Some(told) => return Some(told),
            None => {}
        }
    }
    None
}

/// Writes the message of such a question in the place of what `out` holds.
#[tactic(auto, unfolding(crate::specs::Asking::ask_value))]
fn encode_value(kind: CheckKind, addr: u8, request: ValueRequest, out: &mut ArrayVec<u8, MOST_SENT>)
    ensures { out.new.items ≡ ask_value kind addr request }
{
    let data = data_of(request);
    write(kind, addr, HOST, header_of(request), data.as_slice(), out);
}

/// The header of such a question.
fn header_of(request: ValueRequest) -> u8
    ensures { result ≡ value_header request }
{
    match request {
        ValueRequest::BillId { .. } => 157,
        ValueRequest::Scaling { .. } => 156,
        ValueRequest::HopperCoin => 171,
        ValueRequest::HopperValue { .. } => 131,
    }
}

/// The data bytes of such a question.
fn data_of(request: ValueRequest) -> Bytes<2>
    ensures { result ≡ value_data request }
{
    let mut data = Bytes::new();
    match request {
        ValueRequest::BillId { place } => data.push(place),
        ValueRequest::Scaling { first, second } => {
            data.push(first);
            data.push(second);
        }
        ValueRequest::HopperCoin => {}
        ValueRequest::HopperValue { place } => data.push(place),
    }
    data
}

/// How many data bytes the reply to such a question has.
fn length_of(request: ValueRequest) -> usize
    ensures length { result ≡ value_length request }
    ensures few { result ≤ MOST_VALUE_DATA }
{
    match request {
        ValueRequest::BillId { .. } => 7,
        ValueRequest::Scaling { .. } => 3,
        ValueRequest::HopperCoin => 6,
        ValueRequest::HopperValue { .. } => 8,
    }
}

/// The data bytes of the reply to such a question, in what was heard.
#[tactic(auto, unfolding(crate::specs::Asking::value_in))]
fn value_in(
    kind: CheckKind,
    addr: u8,
    request: ValueRequest,
    room: &Room,
) -> Option<Bytes<MOST_VALUE_DATA>>
    requires { room.now.sent.items ≡ ask_value kind addr request }
    ensures { result ≡ value_in kind addr request room.now.heard.items }
{
    match hear(kind, room.sent.as_slice(), room.heard.as_slice()) {
        Heard::EchoBad { .. } => None,
        Heard::Silence => None,
        Heard::Broken(_) => None,
        Heard::Message(view) => data_from(length_of(request), addr, &view),
    }
}

/// The data bytes of a reply to the host from an address, if there are so many.
fn data_from(many: usize, addr: u8, view: &FrameView<'_>) -> Option<Bytes<MOST_VALUE_DATA>>
    requires { many ≤ MOST_VALUE_DATA }
    ensures { result ≡ data_from many addr (message_of view.now) }
{
    if view.to != HOST || !is_from(addr, view.from) || view.header != 0 || view.body.len() != many {
        return None;
    }
    let mut data = Bytes::new();
    data.extend_from_slice(view.body);
    Some(data)
}

/// Whether a message names this source, or no source.
fn is_from(addr: u8, source: Option<u8>) -> bool
    ensures { result ≡ is_from addr source }
{
    match source {
        Some(source) => source == addr,
        None => true,
    }
}
