//! What a tap shows of a watched device.
ghost use Rattle.std.specs.Prelude.{◌≡◌};
ghost use Rattle.std.specs.Option.{option_map};
ghost use Rattle.cct_model.specs.Reply.{reply_shown};
ghost use Rattle.cct_audit_taps.specs.Taps.{bills_shown, coins_shown, life_shown, read_in, mask_in};
ghost use Rattle.cct_audit_taps.specs.Taps.{life_in, quiet_shown, settled_in, shown, tap_of};

use crate::asking::asked_at;
use crate::money::{Money, settled_credits};
use cct_model::{CheckKind, Credits, Reply, ReplyForm, Request};
use cct_msg::wanted_reply;

/// What a tap shows of an acceptor.
#[derive(Clone, Copy, PartialEq, Eq)]
pub enum Shown {
    /// A reading: its event counter and its credit buffer (header 229), or those of a bill acceptor
    /// as they are credited (159).
    Read(Credits),
    /// Its inhibit mask (header 230).
    Masked { mask: u16 },
    /// A setting: it was asked to take another mask (header 231) or to reset (header 1), whether it
    /// heard that or not.
    Set,
    /// Nothing of these.
    Nothing,
}

/// What a tap shows of the acceptor at an address.
pub fn shown_at(kind: CheckKind, addr: u8, sent: &[u8], heard: &[u8]) -> Shown
    ensures { result ≡ shown kind addr (tap_of sent.now heard.now) }
{
    match asked_at(kind, addr, sent) {
        Some(Request::ReadCredits) => read_in(wanted_reply(
            kind,
            addr,
            ReplyForm::Credits,
            sent,
            heard,
        )),
        Some(Request::GetMask) => mask_in(wanted_reply(kind, addr, ReplyForm::Mask, sent, heard)),
        Some(Request::SetMask { .. }) => Shown::Set,
        Some(Request::ResetDevice) => Shown::Set,
        _ => Shown::Nothing,
    }
}

/// What a tap shows of the acceptor of coins at an address that is watched for resets alone:
/// another inhibit mask is no setting.
fn coins_shown_at(kind: CheckKind, addr: u8, sent: &[u8], heard: &[u8]) -> Shown
    ensures { result ≡ coins_shown kind addr (tap_of sent.now heard.now) }
{
    match asked_at(kind, addr, sent) {
        Some(Request::SetMask { .. }) => Shown::Nothing,
        _ => shown_at(kind, addr, sent, heard),
    }
}

/// What a tap shows of the bill acceptor at an address that is so watched.
fn bills_shown_at(kind: CheckKind, addr: u8, sent: &[u8], heard: &[u8]) -> Shown
    ensures { result ≡ bills_shown kind addr (tap_of sent.now heard.now) }
{
    match asked_at(kind, addr, sent) {
        Some(Request::ReadBills) => settled_in(read_in(wanted_reply(
            kind,
            addr,
            ReplyForm::Credits,
            sent,
            heard,
        ))),
        Some(Request::GetMask) => mask_in(wanted_reply(kind, addr, ReplyForm::Mask, sent, heard)),
        Some(Request::ResetDevice) => Shown::Set,
        _ => Shown::Nothing,
    }
}

/// What a tap shows of the acceptor of this money at an address that is so watched.
pub fn quiet_shown_at(money: Money, kind: CheckKind, addr: u8, sent: &[u8], heard: &[u8]) -> Shown
    ensures { result ≡ quiet_shown money kind addr (tap_of sent.now heard.now) }
{
    match money {
        Money::Coins => coins_shown_at(kind, addr, sent, heard),
        Money::Bills => bills_shown_at(kind, addr, sent, heard),
    }
}

/// The life count that a tap shows of the hopper at an address, or none.
pub fn life_at(kind: CheckKind, addr: u8, sent: &[u8], heard: &[u8]) -> Option<u32>
    ensures { result ≡ life_shown kind addr (tap_of sent.now heard.now) }
{
    match asked_at(kind, addr, sent) {
        Some(Request::GetLife) => life_in(wanted_reply(kind, addr, ReplyForm::Life, sent, heard)),
        _ => None,
    }
}

/// The credits that a reply is, as what they show.
fn read_in(reply: Option<Reply<'_>>) -> Shown
    ensures { result ≡ read_in (option_map reply_shown reply.entry) }
{
    match reply {
        Some(Reply::Credits(credits)) => Shown::Read(credits),
        _ => Shown::Nothing,
    }
}

/// A reading of a bill acceptor as it is credited.
fn settled_in(shown: Shown) -> Shown
    ensures { result ≡ settled_in shown }
{
    match shown {
        Shown::Read(credits) => Shown::Read(settled_credits(credits)),
        Shown::Masked { .. } => shown,
        Shown::Set => shown,
        Shown::Nothing => shown,
    }
}

/// The inhibit mask that a reply is, as what it shows.
fn mask_in(reply: Option<Reply<'_>>) -> Shown
    ensures { result ≡ mask_in (option_map reply_shown reply.entry) }
{
    match reply {
        Some(Reply::Mask { mask }) => Shown::Masked { mask },
        _ => Shown::Nothing,
    }
}

/// The life count that a reply is, or none.
fn life_in(reply: Option<Reply<'_>>) -> Option<u32>
    ensures { result ≡ life_in (option_map reply_shown reply.entry) }
{
    match reply {
        Some(Reply::Life { count }) => Some(count),
        _ => None,
    }
}
