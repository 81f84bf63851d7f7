//! What a piece asks of the device at an address, and whether another one answers it.
ghost use Rattle.std.specs.Prelude.{◌≡◌, Some};
ghost use Rattle.cct_frame.specs.Frame.{message_of};
ghost use Rattle.cct_audit_taps.specs.Taps.{asks_at, is_message, is_of_other, other_answers};
ghost use Rattle.cct_audit_taps.specs.Taps.{tap_of};

use cct_frame::{FrameView, read};
use cct_model::{CheckKind, HOST, Request};
use cct_msg::asked_of;
use cct_wire::{Heard, hear};

/// What a piece asks of the device at an address, whoever sent it: nothing where it is no message
/// under the device's check, is for another, or has another number of data bytes than the request
/// of its header.
pub(crate) fn asked_at(kind: CheckKind, addr: u8, piece: &[u8]) -> Option<Request>
    ensures { result ≡ asks_at kind addr piece.now }
{
    match read(kind, piece) {
        Ok(view) => asked_of(addr, &view),
        Err(_) => None,
    }
}

/// Whether a piece is a message to an address, whatever it asks.
pub fn is_message(kind: CheckKind, addr: u8, piece: &[u8]) -> bool
    ensures { result ≡ is_message kind addr piece.now }
{
    match read(kind, piece) {
        Ok(view) => view.to == addr,
        Err(_) => false,
    }
}

/// Whether a tap shows that another device answers what was sent to the one at an address.
pub(crate) fn other_answers(kind: CheckKind, addr: u8, sent: &[u8], heard: &[u8]) -> bool
    ensures { result ≡ other_answers kind addr (tap_of sent.now heard.now) }
{
    is_message(kind, addr, sent)
        && match hear(kind, sent, heard) {
            Heard::Message(view) => is_of_other(addr, &view),
            Heard::EchoBad { .. } => false,
            Heard::Silence => false,
            Heard::Broken(_) => false,
        }
}

/// Whether a message is to the host, and names another source than an address.
fn is_of_other(addr: u8, view: &FrameView<'_>) -> bool
    ensures { result ≡ is_of_other addr (Some (message_of view.now)) }
{
    view.to == HOST
        && match view.from {
            Some(source) => source != addr,
            None => false,
        }
}
