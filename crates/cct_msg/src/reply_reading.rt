//! A message is read as the reply that the host wants.
ghost use Rattle.std.specs.Prelude.{◌≡◌, ◌↔◌, Err, IfErr, IfOk, IfSome, None, OnErr, OnOk, Some};
ghost use Rattle.std.specs.Option.{option_map};
ghost use Rattle.cct_frame.specs.Frame.{message_of};
ghost use Rattle.cct_model_wire.specs.Exchange.{is_for_host, reply_from};
ghost use Rattle.cct_model_wire.specs.Reply.{reply_in, reply_shown};
ghost use Rattle.cct_msg.specs.Wanted.{IsBare, TextLiesAt, reason_in};

use crate::header;
use crate::number::from_three;
use cct_frame::FrameView;
use cct_model_wire::{Credits, HOST, Pair, Reply, ReplyForm};
use thiserror::Error;

/// Why a message is not the reply that the host wants.
#[derive(Clone, Copy, Debug, Error, PartialEq, Eq)]
pub enum NotWanted {
    /// The asked device refuses: header 5 without data.
    #[error("the device refuses")]
    Nak,
    /// The asked device can't act on the request now: header 6 without data.
    #[error("the device is busy")]
    Busy,
    /// The message is for another address than the host's, names another source than the asked
    /// address, has another header, or has another number of data bytes than the wanted form.
    #[error("the message is not the reply that is wanted")]
    Other,
}

/// Reads a message as the reply of the form that the host wants from the address `from` (ccTalk
/// Generic Specification 4, parts 2 and 3). Under the CRC a message names no source, and whatever
/// is for the host counts as from there. The bytes of a text stay where they are in the message.
pub fn read_reply<'a>(
    form: ReplyForm,
    from: u8,
    view: &FrameView<'a>,
) -> Result<Reply<'a>, NotWanted>
    // the reply: It goes to the host, comes from the asked address or from nobody named, has header
    // 0 and as many data bytes as the form.
    ensures wanted { IfOk result (λ y. reply_from form from (message_of view.now)
        ≡ Some (reply_shown y)) }
    ensures in_place { IfOk result (λ y. TextLiesAt view.now.body.ref_ptr y) }
    ensures no_reason { OnOk result (reason_in form from (message_of view.now) ≡ None) }

    // why there is none
    ensures unwanted { OnErr result (reply_from form from (message_of view.now) ≡ None) }
    ensures reason { IfErr result (λ why. reason_in form from (message_of view.now) ≡ Some why) }

    // when each reason is reported
    ensures nak { (result ≡ Err NotWanted.Nak) ↔ IsBare from 5 (message_of view.now) }
    ensures busy { (result ≡ Err NotWanted.Busy) ↔ IsBare from 6 (message_of view.now) }
    // Every other message, also one of another device.
    ensures other { (result ≡ Err NotWanted.Other) ↔ ((reply_from form from (message_of view.now) ≡ None)
        × ¬ IsBare from 5 (message_of view.now) × ¬ IsBare from 6 (message_of view.now)) }
{
    if !is_for_host(from, view) {
        return Err(NotWanted::Other);
    }
    match view.header {
        header::REPLY => match reply_in(form, view.body) {
            Some(reply) => Ok(reply),
            None => Err(NotWanted::Other),
        },
        header::NAK if view.body.is_empty() => Err(NotWanted::Nak),
        header::BUSY if view.body.is_empty() => Err(NotWanted::Busy),
        _ => Err(NotWanted::Other),
    }
}

/// Whether a message is for the host, and comes from an address or from nobody named.
fn is_for_host(from: u8, view: &FrameView<'_>) -> bool
    ensures { result ≡ is_for_host from (message_of view.now) }
{
    view.to == HOST
        && match view.from {
            Some(source) => source == from,
            None => true,
        }
}

/// The data bytes of a reply with header 0, read in a form, or `None` where their number is wrong.
#[tactic(auto, unfolding(cct_model_wire::specs::Reply::reply_in))]
fn reply_in<'a>(form: ReplyForm, body: &'a [u8]) -> Option<Reply<'a>>
    ensures value { option_map reply_shown result ≡ reply_in form body.now }
    ensures in_place { IfSome result (λ y. TextLiesAt body.entry.ref_ptr y) }
{
    match (form, body) {
        (ReplyForm::Ack, []) => Some(Reply::Ack),
        (ReplyForm::Credits, &[counter, a1, b1, a2, b2, a3, b3, a4, b4, a5, b5]) => {
            let pairs = [
                Pair { a: a1, b: b1 },
                Pair { a: a2, b: b2 },
                Pair { a: a3, b: b3 },
                Pair { a: a4, b: b4 },
                Pair { a: a5, b: b5 },
            ];
            Some(Reply::Credits(Credits { counter, pairs }))
        }
        (ReplyForm::Mask, &[low, high]) => Some(Reply::Mask {
            mask: u16::from_le_bytes([low, high]),
        }),
        (ReplyForm::Master, &[value]) => Some(Reply::Master { value }),
        (ReplyForm::Path, &[path]) => Some(Reply::Path { path }),
        (ReplyForm::CoinId, &[c1, c2, c3, c4, c5, c6]) => Some(Reply::CoinId {
            id: [c1, c2, c3, c4, c5, c6],
        }),
        (ReplyForm::Status, &[counter, remaining, paid, unpaid]) => Some(Reply::Status {
            counter,
            remaining,
            paid,
            unpaid,
        }),
        (ReplyForm::Life, &[low, middle, high]) => Some(Reply::Life {
            count: from_three(low, middle, high),
        }),
        (ReplyForm::Remaining, &[count]) => Some(Reply::Remaining { count }),
        (ReplyForm::Register, &[bits]) => Some(Reply::Register { bits }),
        (ReplyForm::Text, text) => Some(Reply::Text { text }),
        (ReplyForm::Serial, &[low, middle, high]) => Some(Reply::Serial {
            serial: from_three(low, middle, high),
        }),
        (ReplyForm::Revision, &[release, major, minor]) => Some(Reply::Revision {
            release,
            major,
            minor,
        }),
        (ReplyForm::Accepts, &[low, middle, high]) => Some(Reply::Accepts {
            count: from_three(low, middle, high),
        }),
        _ => None,
    }
}
