//! Whether a fault does an honest damage: the bytes that come in the place of others are no
//! message.
ghost use Rattle.std.specs.Prelude.{◌≡◌, bytes_eq};
ghost use Rattle.cct_model.specs.terms.request.Request.TheVariants.{AddressPoll};
ghost use Rattle.cct_model.specs.Exchange.{after_echo, ask};
ghost use Rattle.cct_model.specs.Honest.{has_no_message, is_address_poll, is_honest, is_no_message};

use arrayvec::ArrayVec;
use cct_frame::read;
use cct_model::{BROADCAST, CheckKind, MOST_SENT, Request, WireFault};
use cct_msg::encode_request;
use cct_wire::bare_after_echo;

/// Whether a fault does an honest damage to the exchange in which the host sends a piece: what the
/// devices hear in its place is no message. Where the host sends no address poll, what it hears in
/// the place of the answers is none either, nor what it hears in the place of all, nor what then
/// follows its echo. Mostly no fault is set, and that is honest.
#[inline]
pub(crate) fn is_honest(fault: &WireFault, sent: &[u8]) -> bool
    ensures { result ≡ is_honest fault.now sent.now }
{
    match fault {
        WireFault::Clear => true,
        WireFault::DevicesHear(piece) => is_no_message(piece.as_slice()),
        WireFault::HostHears(piece) => is_address_poll(sent) || is_no_message(piece.as_slice()),
        WireFault::WholeHeard(piece) => {
            is_address_poll(sent)
                || (is_no_message(piece.as_slice()) && has_no_message(sent, piece.as_slice()))
        }
    }
}

/// Whether bytes are no message, under either check.
fn is_no_message(piece: &[u8]) -> bool
    ensures { result ≡ is_no_message piece.now }
{
    read(CheckKind::Simple, piece).is_err() && read(CheckKind::Crc, piece).is_err()
}

/// Whether what the host hears after its own echo is no message, or there is no whole echo.
fn has_no_message(sent: &[u8], heard: &[u8]) -> bool
    ensures { result ≡ has_no_message (after_echo sent.now heard.now) }
{
    match bare_after_echo(sent, heard) {
        Ok(rest) => is_no_message(rest),
        Err(_) => true,
    }
}

/// Whether the host sends the address poll to all devices, under one of the checks.
fn is_address_poll(sent: &[u8]) -> bool
    ensures { result ≡ is_address_poll sent.now }
{
    is_poll_under(CheckKind::Simple, sent) || is_poll_under(CheckKind::Crc, sent)
}

/// Whether the host sends the address poll to all devices under a check. It stands apart, since its
/// room for that poll would otherwise be taken in each exchange.
#[inline(never)]
fn is_poll_under(kind: CheckKind, sent: &[u8]) -> bool
    ensures { result ≡ bytes_eq sent.now (ask kind 0 AddressPoll) }
{
    let mut poll: ArrayVec<u8, MOST_SENT> = ArrayVec::new();
    encode_request(kind, BROADCAST, &Request::AddressPoll, &mut poll);
    sent == poll.as_slice()
}
