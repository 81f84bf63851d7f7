//! Which bills are held, as far as the readings of bill acceptors show (ccTalk Generic
//! Specification 4, part 3, header 159).
ghost use Rattle.std.specs.Prelude.{◌≡◌};
ghost use Rattle.std.specs.Option.{option_map};
ghost use Rattle.cct_model.specs.Reply.{reply_shown};
ghost use Rattle.cct_live_service.specs.Held.{asks_bills, bills_told, credits_of, newest_hold};

use cct_model::{CheckKind, Credits, Pair, Reply, ReplyForm};
use cct_msg::wanted_reply;

/// The header of a reading of a bill acceptor's events (ccTalk Generic Specification 4, part 3).
const READ_BILLS: u8 = 159;

/// The second byte of the event of a bill that is held, whose place is the first one.
const HELD: u8 = 1;

/// A bill that is held: its place, and the event counter of the reading that showed it.
#[derive(Clone, Copy, PartialEq, Eq)]
pub struct Hold {
    pub place: u8,
    pub counter: u8,
}

/// The events that an exchange with a bill acceptor gave: none where it asked for something else,
/// or wasn't answered.
pub(crate) fn bills_told(kind: CheckKind, addr: u8, sent: &[u8], heard: &[u8]) -> Option<Credits>
    ensures { result ≡ bills_told kind addr sent.now heard.now }
{
    if asks_bills(sent) {
        credits_of(wanted_reply(kind, addr, ReplyForm::Credits, sent, heard))
    } else {
        None
    }
}

/// Whether a message asks for a bill acceptor's events.
fn asks_bills(sent: &[u8]) -> bool
    ensures { result ≡ asks_bills sent.now }
{
    match sent {
        [_, _, _, header, ..] => *header == READ_BILLS,
        _ => false,
    }
}

/// The events that a reply gives.
fn credits_of(reply: Option<Reply<'_>>) -> Option<Credits>
    ensures { result ≡ credits_of (option_map reply_shown reply.entry) }
{
    match reply {
        Some(Reply::Credits(credits)) => Some(credits),
        _ => None,
    }
}

/// The bill that the newest of these events shows as held.
pub(crate) fn newest_hold(credits: Credits) -> Option<Hold>
    ensures { result ≡ newest_hold credits }
{
    let [Pair { a: place, b: event }, _, _, _, _] = credits.pairs;
    if place != 0 && event == HELD {
        Some(Hold {
            place,
            counter: credits.counter,
        })
    } else {
        None
    }
}
