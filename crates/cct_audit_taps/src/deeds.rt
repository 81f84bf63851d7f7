//! What a tap shows of a hopper of which premises are tried.
ghost use Rattle.std.specs.Prelude.{◌≡◌};
ghost use Rattle.std.specs.Option.{option_map};
ghost use Rattle.cct_model.specs.Exchange.{got};
ghost use Rattle.cct_model.specs.Reply.{reply_shown};
ghost use Rattle.cct_audit_taps.specs.Deeds.{deed, deed_by, if_done, life_deed, serial_deed};
ghost use Rattle.cct_audit_taps.specs.Deeds.{status_deed};
ghost use Rattle.cct_audit_taps.specs.Taps.{asks_at, tap_of};

use crate::asking::{asked_at, other_answers};
use cct_model::{CheckKind, ENABLE_CODE, Reply, ReplyForm, Request};
use cct_msg::wanted_reply;

/// What a tap shows of a hopper.
#[derive(Clone, Copy)]
pub enum Deed {
    /// Its serial number (header 242).
    Serial {
        serial: u32,
    },
    /// It was asked to pay from now on (164), heard or not.
    Enabled,
    /// It acknowledged that it may not pay (164): it has no coin left to pay.
    Shut,
    /// It acknowledged a reset (1): nor has it then.
    ResetTaken,
    /// It acknowledged a dispense request (167).
    Dispensed {
        serial: u32,
        count: u8,
    },
    /// It was asked to dispense, and no acknowledgement was heard: it may have heard it or not.
    Asked {
        count: u8,
    },
    /// Its event counter, how many coins it has left to pay, and how many it paid of its last
    /// payout (166).
    Status {
        counter: u8,
        remaining: u8,
        paid: u8,
    },
    /// Its life count (168).
    Life {
        count: u32,
    },
    /// Another device answered: what this one heard isn't known.
    OtherAnswers,
    /// Nothing of these.
    Nothing,
}

/// What a tap shows of the hopper at an address.
pub fn deed_at(kind: CheckKind, addr: u8, sent: &[u8], heard: &[u8]) -> Deed
    ensures { result ≡ deed kind addr (tap_of sent.now heard.now) }
{
    if other_answers(kind, addr, sent, heard) {
        Deed::OtherAnswers
    } else {
        own_deed(kind, addr, sent, heard)
    }
}

/// What it shows where no other device answers.
fn own_deed(kind: CheckKind, addr: u8, sent: &[u8], heard: &[u8]) -> Deed
    ensures { result ≡ deed_by (asks_at kind addr sent.now)
        (λ form. got kind addr form sent.now heard.now) }
{
    match asked_at(kind, addr, sent) {
        Some(Request::SerialNumber) => serial_deed(wanted_reply(
            kind,
            addr,
            ReplyForm::Serial,
            sent,
            heard,
        )),
        Some(Request::Enable { code }) => {
            if code == ENABLE_CODE {
                Deed::Enabled
            } else {
                if_done(
                    wanted_reply(kind, addr, ReplyForm::Ack, sent, heard),
                    Deed::Shut,
                    Deed::Nothing,
                )
            }
        }
        Some(Request::Dispense { serial, count }) => if_done(
            wanted_reply(kind, addr, ReplyForm::Ack, sent, heard),
            Deed::Dispensed { serial, count },
            Deed::Asked { count },
        ),
        Some(Request::GetStatus) => status_deed(wanted_reply(
            kind,
            addr,
            ReplyForm::Status,
            sent,
            heard,
        )),
        Some(Request::GetLife) => life_deed(wanted_reply(kind, addr, ReplyForm::Life, sent, heard)),
        Some(Request::ResetDevice) => if_done(
            wanted_reply(kind, addr, ReplyForm::Ack, sent, heard),
            Deed::ResetTaken,
            Deed::Nothing,
        ),
        _ => Deed::Nothing,
    }
}

/// The serial number that a reply gives.
fn serial_deed(reply: Option<Reply<'_>>) -> Deed
    ensures { result ≡ serial_deed (option_map reply_shown reply.entry) }
{
    match reply {
        Some(Reply::Serial { serial }) => Deed::Serial { serial },
        _ => Deed::Nothing,
    }
}

/// How a payout goes, as a reply shows it.
fn status_deed(reply: Option<Reply<'_>>) -> Deed
    ensures { result ≡ status_deed (option_map reply_shown reply.entry) }
{
    match reply {
        Some(
            Reply::Status {
                counter,
                remaining,
                paid,
                ..
            },
        ) => Deed::Status {
            counter,
            remaining,
            paid,
        },
        _ => Deed::Nothing,
    }
}

/// The life count that a reply gives.
fn life_deed(reply: Option<Reply<'_>>) -> Deed
    ensures { result ≡ life_deed (option_map reply_shown reply.entry) }
{
    match reply {
        Some(Reply::Life { count }) => Deed::Life { count },
        _ => Deed::Nothing,
    }
}

/// The first of two deeds where a reply acknowledges what was asked, else the other.
fn if_done(reply: Option<Reply<'_>>, this: Deed, that: Deed) -> Deed
    ensures { result ≡ if_done (option_map reply_shown reply.entry) this that }
{
    match reply {
        Some(Reply::Ack) => this,
        _ => that,
    }
}
