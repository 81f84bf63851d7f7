//! What a reading of a coin acceptor means beside what was recorded before (ccTalk Generic
//! Specification 4, parts 2 and 3, headers 229 and 225).
ghost use Rattle.std.specs.Prelude.{◌≡◌, ◌<◌, ◌^◌};
ghost use Rattle.cct_model.specs.Reading.{distance, posted_of, accepted_between, judge};

use cct_model::{Coin, Coins, Credits, EVENTS, Judged, Pair, Record};

/// How many values the cycle of an event counter has, 1 to 255.
const CYCLE: u16 = 255;

/// How many values the accept counter has, which is three bytes long.
const ACCEPTS: u32 = 1 << 24;

/// Judges a reading of the acceptor at an address, beside the inhibit mask, the event counter and
/// the accept counter that are recorded of its epoch. The reading is the accept counter before it,
/// the event counter and the credit buffer of the newest five events, the inhibit mask that was
/// read after them, and the accept counter that was read last.
///
/// It is [`Judged::Moved`] if the mask is the recorded one and the two accept counters of the
/// reading are different: a coin was accepted in between, so the reading has to be made again. Else
/// it is [`Judged::Broken`] if the mask isn't the recorded one, or if the event counter is back at
/// 0, since either shows a reset or a setting of another hand. Else it is [`Judged::Nothing`] if no
/// event came and no coin was accepted, and else a [`Judged::Reading`].
///
/// Both records post the coins among as many of the newest events as [`distance`] gives, five at
/// most, oldest first; an event whose first number is 0 is an error of the acceptor and no coin.
/// Their `lost` is how many coins more than these the two recorded accept counters show, and their
/// `accepts` is the last one read.
#[tactic(auto, unfolding(cct_model::specs::Reading::judge, cct_model::specs::Reading::accepted_between))]
pub fn judge(
    addr: u8,
    mask: u16,
    counter: u8,
    accepts: u32,
    credits: &Credits,
    mask_seen: u16,
    before: u32,
    now: u32,
) -> Judged
    requires recorded { accepts < 2 ^ 24 }
    requires first { before < 2 ^ 24 }
    requires last { now < 2 ^ 24 }
    // A coin that was accepted while the reading was made is reported first. A break is reported by
    // the mask that isn't the recorded one, or by an event counter that is back at 0. At most five
    // of the newest events are posted, oldest first; each accepted coin beyond those posted is
    // counted as lost. A break posts and counts too.
    ensures { result ≡ judge addr mask counter accepts credits.now mask_seen before now }
{
    if mask_seen == mask && before != now {
        return Judged::Moved;
    }
    let new_events = distance(counter, credits.counter);
    let posted = posted(new_events, &credits.pairs);
    let new_coins = accepted_between(accepts, now);
    let lost = new_coins.saturating_sub(posted.as_slice().len() as u32);
    let counter_read = credits.counter;
    if mask_seen != mask || (counter_read == 0 && counter != 0) {
        return Judged::Broken(Record::Broken {
            addr,
            mask_seen,
            counter: counter_read,
            lost,
            accepts: now,
            posted,
        });
    }
    if new_events == 0 && new_coins == 0 {
        return Judged::Nothing;
    }
    Judged::Reading(Record::Reading {
        addr,
        counter: counter_read,
        lost,
        accepts: now,
        posted,
    })
}

/// How many coins were accepted between two accept counters, which go from 2^24 - 1 to 0 (header
/// 225).
#[tactic(auto, unfolding(cct_model::specs::Reading::accepted_between))]
fn accepted_between(before: u32, after: u32) -> u32
    requires first { before < 2 ^ 24 }
    requires last { after < 2 ^ 24 }
    ensures { result ≡ accepted_between before after }
{
    (after + ACCEPTS - before) % ACCEPTS
}

/// How many events came between two event counters, as far as they show: 0 to 254, or up to 255
/// from counter 0.
///
/// The event counter of an acceptor (header 229) is 0 after a reset and only then. Each event moves
/// it on by one, and it goes from 255 to 1, so its cycle has 255 values. A counter that is back at
/// 0 shows no event.
#[tactic(auto, unfolding(cct_model::specs::Reading::distance))]
pub fn distance(old: u8, new: u8) -> u8
    ensures { result ≡ distance old new }
{
    if old == 0 {
        new
    } else if new == 0 {
        0
    } else {
        ((u16::from(new) + CYCLE - u16::from(old)) % CYCLE) as u8
    }
}

/// The coins of the newest so many events, oldest first. An event whose first number is 0 is no
/// coin.
pub fn posted(new_events: u8, pairs: &[Pair; EVENTS]) -> Coins
    ensures { result ≡ posted_of new_events pairs.now }
{
    let mut coins = Coins::new();
    let mut left = (new_events as usize).min(EVENTS);
    while left > 0 {
        left -= 1;
        let pair = pairs[left];
        if pair.a != 0 {
            coins.push(Coin {
                place: pair.a,
                path: pair.b,
            });
        }
    }
    coins
}
