//! Replies are read out of what was heard after what was sent.
ghost use Rattle.std.specs.Prelude.{◌≡◌, ◌≢◌, ◌≤◌, MatchOption, MatchResult, None, Some, length};
ghost use Rattle.std.specs.Prelude.{slice_get, take};
ghost use Rattle.cct_model_wire.specs.Exchange.{after_echo, got};
ghost use Rattle.std.specs.List.{flat_map};
ghost use Rattle.cct_model_wire.specs.Reply.{pair_bytes, reply_shown};
ghost use Rattle.cct_c.specs.Codes.{forms, kind_of};
ghost use Rattle.cct_c.specs.Told.{Tells, got_by, reply_answer, rest_answer};

use crate::codes::{
    BAD_CHECK, BAD_ECHO, BAD_FORM, OK, SILENCE, fault_code, form_of, kind_of, reason_code,
};
use cct_model_wire::{CheckKind, EVENTS, Pair, Reply, ReplyForm};
use cct_msg::read_reply;
use cct_wire::{Heard, hear};

/// The most bytes of a text.
pub const MOST_TEXT: usize = 255;

/// A reply that was read. Which fields belong to a form is said in `litchihull.h`; the others are
/// 0.
#[repr(C)]
#[derive(Clone, Copy)]
pub struct LhReply {
    pub number: u32,
    pub mask: u16,
    pub counter: u8,
    pub value: u8,
    pub remaining: u8,
    pub paid: u8,
    pub unpaid: u8,
    pub release: u8,
    pub major: u8,
    pub minor: u8,
    /// `a` and `b` of each event, newest first.
    pub events: [u8; 10],
    pub id: [u8; 6],
    /// How many bytes the text has.
    pub count: u8,
    pub text: [u8; MOST_TEXT],
}

/// A reply with no field of its own.
const BARE: LhReply = LhReply {
    number: 0,
    mask: 0,
    counter: 0,
    value: 0,
    remaining: 0,
    paid: 0,
    unpaid: 0,
    release: 0,
    major: 0,
    minor: 0,
    events: [0; 10],
    id: [0; 6],
    count: 0,
    text: [0; MOST_TEXT],
};

/// Reads the reply in a form that the device at an address gave after what was sent.
#[unsafe(no_mangle)]
pub extern "C" fn lh_raw_reply_read(
    check: u8,
    addr: u8,
    form: u8,
    sent: &[u8],
    heard: &[u8],
    reply: &mut LhReply,
) -> u32
    ensures answer { result ≡ reply_answer (kind_of check) (slice_get forms form) addr sent.now
        heard.now }
    // The fields show the reply that was got; where there was none, nothing changes.
    ensures told { MatchOption (got_by (kind_of check) addr (slice_get forms form) sent.now heard.now)
        ((result ≢ OK) × (reply.new ≡ reply.old)) (λ y. (result ≡ OK) × Tells y reply.new) }
{
    let Some(kind) = kind_of(check) else {
        return BAD_CHECK;
    };
    let Some(form) = form_of(form) else {
        return BAD_FORM;
    };
    match reply_in(kind, addr, form, sent, heard) {
        Ok(got) => {
            *reply = told(&got);
            OK
        }
        Err(code) => code,
    }
}

/// The reply in a form, or what a call answers where there is none.
#[tactic(auto, unfolding(cct_model_wire::specs::Exchange::got), using(crate::proofs::Reasons::broken_answer, crate::proofs::Reasons::message_answer))]
fn reply_in<'h>(
    kind: CheckKind,
    addr: u8,
    form: ReplyForm,
    sent: &[u8],
    heard: &'h [u8],
) -> Result<Reply<'h>, u32>
    ensures answer { MatchResult result (λ _. rest_answer kind form addr (after_echo sent.now heard.now) ≡ OK)
        (λ code. code ≡ rest_answer kind form addr (after_echo sent.now heard.now)) }
    ensures reply { MatchResult result (λ y. got kind addr form sent.now heard.now ≡ Some (reply_shown y))
        (λ code. (code ≢ OK) × (got kind addr form sent.now heard.now ≡ None)) }
{
    match hear(kind, sent, heard) {
        Heard::EchoBad { .. } => Err(BAD_ECHO),
        Heard::Silence => Err(SILENCE),
        Heard::Broken(fault) => Err(fault_code(fault)),
        Heard::Message(view) => match read_reply(form, addr, &view) {
            Ok(reply) => Ok(reply),
            Err(why) => Err(reason_code(why)),
        },
    }
}

/// What a caller gets of a reply.
fn told(reply: &Reply<'_>) -> LhReply
    ensures { Tells (reply_shown reply.now) result }
{
    match *reply {
        Reply::Ack => BARE,
        Reply::Nak => BARE,
        Reply::Busy => BARE,
        Reply::Credits(credits) => LhReply {
            counter: credits.counter,
            events: events_of(credits.pairs),
            ..BARE
        },
        Reply::Mask { mask } => LhReply { mask, ..BARE },
        Reply::Master { value } => LhReply { value, ..BARE },
        Reply::Path { path } => LhReply {
            value: path,
            ..BARE
        },
        Reply::CoinId { id } => LhReply { id, ..BARE },
        Reply::Status {
            counter,
            remaining,
            paid,
            unpaid,
        } => LhReply {
            counter,
            remaining,
            paid,
            unpaid,
            ..BARE
        },
        Reply::Life { count } => LhReply {
            number: count,
            ..BARE
        },
        Reply::Remaining { count } => LhReply {
            value: count,
            ..BARE
        },
        Reply::Register { bits } => LhReply {
            value: bits,
            ..BARE
        },
        Reply::Text { text } => told_text(text),
        Reply::Serial { serial } => LhReply {
            number: serial,
            ..BARE
        },
        Reply::Revision {
            release,
            major,
            minor,
        } => LhReply {
            release,
            major,
            minor,
            ..BARE
        },
        Reply::Accepts { count } => LhReply {
            number: count,
            ..BARE
        },
    }
}

/// What a caller gets of a reply that is a text. A message has no longer one than there is room
/// for.
fn told_text(text: &[u8]) -> LhReply
    ensures { length text.now ≤ MOST_TEXT → take result.count result.text ≡ text.now }
{
    let count = text.len();
    if count > MOST_TEXT {
        return BARE;
    }
    let mut room = [0; MOST_TEXT];
    fill(&mut room, text);
    LhReply {
        count: count as u8,
        text: room,
        ..BARE
    }
}

/// Puts a text to the front of a room.
fn fill(room: &mut [u8], text: &[u8])
    requires { length text.now ≤ length room.old }
    ensures { take (length text.now) room.new ≡ text.now }
{
    room[..text.len()].copy_from_slice(text);
}

/// The events of a credit buffer, newest first, `a` and then `b` of each.
fn events_of(pairs: [Pair; EVENTS]) -> [u8; 10]
    ensures { result ≡ flat_map pair_bytes pairs }
{
    let [first, second, third, fourth, fifth] = pairs;
    [
        first.a, first.b, second.a, second.b, third.a, third.b, fourth.a, fourth.b, fifth.a,
        fifth.b,
    ]
}
