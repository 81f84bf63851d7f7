//! What the input says of the worth of an acceptor's places.

use crate::Wire;
use cct_msg::{Reply, Request};
use cct_script::ranged;
use cct_show_words::{Answer, Asked, Exchange};
use cct_text_worth::value_told;

/// The header of a request for a coin identification (ccTalk Generic Specification 4, part 2).
const COIN_ID: u8 = 184;

/// An acceptor, one of its places, and what a coin or a bill of that place is worth.
#[derive(Clone, Copy)]
pub struct PlaceWorth {
    pub addr: u8,
    pub place: u8,
    pub amount: u32,
}

/// What a coin of a place is worth by its identification, where an exchange says that.
pub fn worth_in_exchange(wire: &Wire<'_>) -> Option<PlaceWorth> {
    if !wire.sent.iter().any(|byte| *byte == COIN_ID) {
        return None;
    }
    let exchange = Exchange::new(wire.sent, wire.heard);
    match (exchange.asked, exchange.answer) {
        (
            Asked::Request {
                to,
                request: Request::CoinId { place },
                ..
            },
            Answer::Reply {
                reply: Reply::CoinId { id },
                ..
            },
        ) => Some(PlaceWorth {
            addr: to,
            place,
            amount: value_told(id)?,
        }),
        _ => None,
    }
}

/// What the line `value A PLACE VALUE ID` of a setup says (`docs/SCRIPT.md`).
pub fn worth_in_line(line: &[u8]) -> Option<PlaceWorth> {
    let mut fields = line.strip_prefix(b"value ")?.split(|byte| *byte == b' ');
    Some(PlaceWorth {
        addr: ranged(0, 255, fields.next()?)? as u8,
        place: ranged(0, 255, fields.next()?)? as u8,
        amount: ranged(0, u64::from(u32::MAX), fields.next()?)? as u32,
    })
}
