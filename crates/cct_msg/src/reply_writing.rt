//! A reply is written as the message by which a device gives it.
ghost use Rattle.std.specs.Prelude.{◌≡◌, ◌∷◌};
ghost use Rattle.std.specs.List.{flat_map};
ghost use Rattle.cct_model_wire.specs.Exchange.{replying};
ghost use Rattle.cct_model_wire.specs.Message.{spelling};
ghost use Rattle.cct_model_wire.specs.Reply.{IsSayable, coin_id, pair_bytes, reply_shown};

use crate::header;
use crate::number::three_bytes;
use arrayvec::ArrayVec;
use cct_frame::write;
use cct_model_wire::{CheckKind, Credits, MOST_SENT, Reply};

/// Writes a reply of the device at address `from` to the address `to` in the place of what `out`
/// holds (ccTalk Generic Specification 4, parts 2 and 3).
#[tactic(auto, unfolding(cct_model_wire::specs::Reply::reply_data))]
pub fn encode_reply(
    kind: CheckKind,
    to: u8,
    from: u8,
    reply: &Reply<'_>,
    out: &mut ArrayVec<u8, MOST_SENT>,
)
    requires { IsSayable (reply_shown reply.now) }
    ensures { out.new.items ≡ spelling kind (replying to from (reply_shown reply.now)) }
{
    match *reply {
        Reply::Ack => write(kind, to, from, header::REPLY, &[], out),
        Reply::Nak => write(kind, to, from, header::NAK, &[], out),
        Reply::Busy => write(kind, to, from, header::BUSY, &[], out),
        Reply::Credits(credits) => {
            write(kind, to, from, header::REPLY, &credits_data(credits), out)
        }
        Reply::Mask { mask } => write(kind, to, from, header::REPLY, &mask.to_le_bytes(), out),
        Reply::Master { value } => write(kind, to, from, header::REPLY, &[value], out),
        Reply::Path { path } => write(kind, to, from, header::REPLY, &[path], out),
        Reply::CoinId { id } => write_coin_id(kind, to, from, id, out),
        Reply::Status {
            counter,
            remaining,
            paid,
            unpaid,
        } => {
            let data = [counter, remaining, paid, unpaid];
            write(kind, to, from, header::REPLY, &data, out)
        }
        Reply::Life { count } => write(kind, to, from, header::REPLY, &three_bytes(count), out),
        Reply::Remaining { count } => write(kind, to, from, header::REPLY, &[count], out),
        Reply::Register { bits } => write(kind, to, from, header::REPLY, &[bits], out),
        Reply::Text { text } => write(kind, to, from, header::REPLY, text, out),
        Reply::Serial { serial } => {
            write(kind, to, from, header::REPLY, &three_bytes(serial), out)
        }
        Reply::Revision {
            release,
            major,
            minor,
        } => write(kind, to, from, header::REPLY, &[release, major, minor], out),
        Reply::Accepts { count } => write(kind, to, from, header::REPLY, &three_bytes(count), out),
    }
}

/// Writes the identification of a coin, which has six characters.
#[tactic(auto, unfolding(cct_model_wire::specs::Reply::reply_data))]
fn write_coin_id(kind: CheckKind, to: u8, from: u8, id: [u8; 6], out: &mut ArrayVec<u8, MOST_SENT>)
    ensures { out.new.items ≡ spelling kind (replying to from (coin_id id)) }
{
    write(kind, to, from, header::REPLY, &id, out);
}

/// The event counter and the events of the credit buffer as data bytes.
fn credits_data(credits: Credits) -> [u8; 11]
    ensures { result ≡ credits.counter ∷ flat_map pair_bytes credits.pairs }
{
    let [first, second, third, fourth, fifth] = credits.pairs;
    [
        credits.counter,
        first.a,
        first.b,
        second.a,
        second.b,
        third.a,
        third.b,
        fourth.a,
        fourth.b,
        fifth.a,
        fifth.b,
    ]
}
