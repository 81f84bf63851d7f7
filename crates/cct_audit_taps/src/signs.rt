//! Whether an acceptor does what is taken for granted of it, as far as taps show that: its inhibit
//! mask stays until another one is asked for, or until a reset; a reset clears its events, and lets
//! nothing in; and with event counter 0 its buffer is empty.
ghost use Rattle.std.specs.Prelude.{◌≡◌, ◌≤◌, ◌++◌, [], length};
ghost use Rattle.std.specs.List.{list_any};
ghost use Rattle.std.specs.Option.{option_map};
ghost use Rattle.cct_model.specs.Exchange.{got};
ghost use Rattle.cct_model.specs.Reply.{reply_shown};
ghost use Rattle.cct_audit_taps.specs.declared.said.Said.TheVariants.{Broken};
ghost use Rattle.cct_audit_taps.specs.declared.said.Premise.TheVariants as premise;
ghost use Rattle.cct_audit_taps.specs.Signs.{broken_buffer, broken_by, broken_mask, broken_reset};
ghost use Rattle.cct_audit_taps.specs.Signs.{events_sign, if_acked, is_credit, is_event};
ghost use Rattle.cct_audit_taps.specs.Signs.{known_mask, known_on, mask_sign, of_bills, of_coins};
ghost use Rattle.cct_audit_taps.specs.Signs.{seen_mask, sign, sign_by};
ghost use Rattle.cct_audit_taps.specs.Taps.{asks_at, tap_of};

use crate::asking::{asked_at, other_answers};
use crate::money::Money;
use crate::said::{Premise, Said, broken};
use arrayvec::ArrayVec;
use cct_model::{CheckKind, Credits, Pair, Reply, ReplyForm, Request};
use cct_msg::wanted_reply;

/// What a tap shows of an acceptor of which premises are tried.
#[derive(Clone, Copy)]
pub enum Sign {
    /// Its event counter and its buffer, as it shows them (header 229, or 159 of a bill acceptor).
    Events(Credits),
    /// Its inhibit mask (230).
    Mask { mask: u16 },
    /// It acknowledged another inhibit mask (231).
    MaskTaken { mask: u16 },
    /// It was asked to take another one, and no acknowledgement was heard: it may have heard it or
    /// not.
    MaskLost,
    /// It acknowledged a reset (1).
    ResetTaken,
    /// Another device answered: what this one heard isn't known.
    OtherAnswers,
    /// Nothing of these.
    Nothing,
}

/// The inhibit mask that an acceptor had at a tap, since which none was asked for: it is still this
/// one, or 0 after a reset.
#[derive(Clone, Copy, PartialEq, Eq)]
pub struct KnownMask {
    /// The number of the tap.
    pub number: u32,
    pub mask: u16,
    /// Whether the tap was a reset.
    pub is_fresh: bool,
}

/// What a tap shows of the acceptor of this money at an address.
pub fn sign_at(money: Money, kind: CheckKind, addr: u8, sent: &[u8], heard: &[u8]) -> Sign
    ensures { result ≡ sign money kind addr (tap_of sent.now heard.now) }
{
    if other_answers(kind, addr, sent, heard) {
        Sign::OtherAnswers
    } else {
        own_sign(money, kind, addr, sent, heard)
    }
}

/// What it shows where no other device answers.
fn own_sign(money: Money, kind: CheckKind, addr: u8, sent: &[u8], heard: &[u8]) -> Sign
    ensures { result ≡ sign_by money (asks_at kind addr sent.now)
        (λ form. got kind addr form sent.now heard.now) }
{
    match asked_at(kind, addr, sent) {
        Some(Request::ReadCredits) => of_coins(
            money,
            events_sign(wanted_reply(kind, addr, ReplyForm::Credits, sent, heard)),
        ),
        Some(Request::ReadBills) => of_bills(
            money,
            events_sign(wanted_reply(kind, addr, ReplyForm::Credits, sent, heard)),
        ),
        Some(Request::GetMask) => mask_sign(wanted_reply(kind, addr, ReplyForm::Mask, sent, heard)),
        Some(Request::SetMask { mask }) => if_acked(
            wanted_reply(kind, addr, ReplyForm::Ack, sent, heard),
            Sign::MaskTaken { mask },
            Sign::MaskLost,
        ),
        Some(Request::ResetDevice) => if_acked(
            wanted_reply(kind, addr, ReplyForm::Ack, sent, heard),
            Sign::ResetTaken,
            Sign::Nothing,
        ),
        _ => Sign::Nothing,
    }
}

/// What a device says that is asked for coins.
fn of_coins(money: Money, sign: Sign) -> Sign
    ensures { result ≡ of_coins money sign }
{
    match money {
        Money::Coins => sign,
        Money::Bills => Sign::Nothing,
    }
}

/// What a device says that is asked for bills.
fn of_bills(money: Money, sign: Sign) -> Sign
    ensures { result ≡ of_bills money sign }
{
    match money {
        Money::Coins => Sign::Nothing,
        Money::Bills => sign,
    }
}

/// The events that a reply gives.
fn events_sign(reply: Option<Reply<'_>>) -> Sign
    ensures { result ≡ events_sign (option_map reply_shown reply.entry) }
{
    match reply {
        Some(Reply::Credits(credits)) => Sign::Events(credits),
        _ => Sign::Nothing,
    }
}

/// The inhibit mask that a reply gives.
fn mask_sign(reply: Option<Reply<'_>>) -> Sign
    ensures { result ≡ mask_sign (option_map reply_shown reply.entry) }
{
    match reply {
        Some(Reply::Mask { mask }) => Sign::Mask { mask },
        _ => Sign::Nothing,
    }
}

/// The first of two signs where a reply acknowledges what was asked, else the other.
fn if_acked(reply: Option<Reply<'_>>, taken: Sign, lost: Sign) -> Sign
    ensures { result ≡ if_acked (option_map reply_shown reply.entry) taken lost }
{
    match reply {
        Some(Reply::Ack) => taken,
        _ => lost,
    }
}

/// The known mask after a tap of a number.
pub fn known_on(number: u32, sign: Sign, known: Option<KnownMask>) -> Option<KnownMask>
    ensures { result ≡ known_on number sign known }
{
    match sign {
        Sign::Events(_) => known,
        Sign::Mask { mask } => seen_mask(number, mask, known),
        Sign::MaskTaken { mask } => Some(known_mask(number, mask)),
        Sign::MaskLost => None,
        Sign::ResetTaken => Some(KnownMask {
            number,
            mask: 0,
            is_fresh: true,
        }),
        Sign::OtherAnswers => None,
        Sign::Nothing => known,
    }
}

/// The known mask after one was shown: that of before where it is the same.
fn seen_mask(number: u32, mask: u16, known: Option<KnownMask>) -> Option<KnownMask>
    ensures { result ≡ seen_mask number mask known }
{
    match known {
        Some(before) => {
            if mask == before.mask {
                Some(before)
            } else {
                Some(known_mask(number, mask))
            }
        }
        None => Some(known_mask(number, mask)),
    }
}

/// A mask that was known at a tap of a number.
fn known_mask(number: u32, mask: u16) -> KnownMask
    ensures { result ≡ known_mask number mask }
{
    KnownMask {
        number,
        mask,
        is_fresh: false,
    }
}

/// Reports which premises about the acceptor at an address a tap of a number shows broken.
pub fn tell_broken(
    addr: u8,
    number: u32,
    sign: Sign,
    known: Option<KnownMask>,
    report: &mut ArrayVec<Said, 4>,
)
    requires { report.old.items ≡ [] }
    ensures { report.new.items ≡ broken_by addr number sign known }
{
    match sign {
        Sign::Events(credits) => {
            tell_buffer(addr, number, credits, report);
            tell_reset(addr, number, credits, known, report);
        }
        Sign::Mask { mask } => tell_mask(addr, number, mask, known, report),
        Sign::MaskTaken { .. } => {}
        Sign::MaskLost => {}
        Sign::ResetTaken => {}
        Sign::OtherAnswers => report.push(alone_broken(addr, number)),
        Sign::Nothing => {}
    }
}

/// That another device answered at a tap.
pub(crate) fn alone_broken(addr: u8, number: u32) -> Said
    ensures { result ≡ Broken addr premise.Alone number number }
{
    broken(addr, Premise::Alone, number, number)
}

/// Reports a buffer that isn't empty though the event counter is 0.
fn tell_buffer(addr: u8, number: u32, credits: Credits, report: &mut ArrayVec<Said, 4>)
    requires { report.old.items ≡ [] }
    ensures tells { report.new.items ≡ broken_buffer addr number credits }
    ensures few { length report.new.items ≤ 1 }
{
    if credits.counter == 0 && has_event(&credits.pairs) {
        report.push(broken(addr, Premise::Buffer, number, number));
    }
}

/// Reports a credit that came after a reset, before a mask was asked for.
fn tell_reset(
    addr: u8,
    number: u32,
    credits: Credits,
    known: Option<KnownMask>,
    report: &mut ArrayVec<Said, 4>,
)
    requires { length report.old.items ≤ 1 }
    ensures { report.new.items ≡ report.old.items ++ broken_reset addr number credits known }
{
    if let Some(before) = known {
        if before.is_fresh && has_credit(&credits.pairs) {
            report.push(broken(addr, Premise::Reset, before.number, number));
        }
    }
}

/// Reports a mask that is neither the known one nor 0.
fn tell_mask(
    addr: u8,
    number: u32,
    mask: u16,
    known: Option<KnownMask>,
    report: &mut ArrayVec<Said, 4>,
)
    requires { report.old.items ≡ [] }
    ensures { report.new.items ≡ broken_mask addr number mask known }
{
    if let Some(before) = known {
        if mask != 0 && mask != before.mask {
            report.push(broken(addr, Premise::Mask, before.number, number));
        }
    }
}

/// Whether one of the pairs is an event.
fn has_event(pairs: &[Pair]) -> bool
    ensures { result ≡ list_any is_event pairs.now }
{
    pairs.iter().any(|pair| !(pair.a == 0 && pair.b == 0))
}

/// Whether one of the pairs is a credit.
fn has_credit(pairs: &[Pair]) -> bool
    ensures { result ≡ list_any is_credit pairs.now }
{
    pairs.iter().any(|pair| pair.a != 0)
}
