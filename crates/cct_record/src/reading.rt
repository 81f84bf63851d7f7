//! A body is read as the record that it spells.
ghost use Rattle.std.specs.Prelude.{◌≡◌, ◌+◌, ◌<◌, ◌≤◌, ◌↔◌, All, IfNone, IfSome, IsTrue};
ghost use Rattle.cct_record.specs.Body.{Encodable, IsPlaced, IsRefused, Spells};
ghost use Rattle.cct_record.specs.Fields.{coins_at, four_at, record_at, three_at, two_at};

use crate::encode;
use crate::kind::{BODY, BROKEN, CLOSED, COUNTS, EPOCH, EPOCH_END, ODD, OPENED, READING, SOLD};
use cct_model_lines::{Coin, Coins, EVENTS, Record};

/// The record that a body spells (`docs/JOURNAL.md`, "The body of a record"), or none where no
/// record is spelt so: the kind isn't known, more than five coins are said, a coin has the coin
/// place 0, or a byte after the fields isn't 0.
#[tactic(auto, using(crate::proofs::Spellings::refused_unknown, crate::proofs::Spellings::refused_other))]
pub fn read(bytes: &[u8; 31]) -> Option<Record>
    ensures spelt { IfSome result (λ r. Spells r bytes.now) }
    // Only bytes that spell no record.
    ensures refused { IfNone result (IsRefused bytes.now) }
{
    let entry = record_at(bytes)?;
    if is_spelt_by(&entry, bytes) {
        Some(entry)
    } else {
        None
    }
}

/// Whether a body is that of a record.
fn is_spelt_by(entry: &Record, bytes: &[u8; BODY]) -> bool
    ensures { IsTrue result ↔ Spells entry.now bytes.now }
{
    is_encodable(entry) && encode(entry) == *bytes
}

/// Whether a record has a body.
fn is_encodable(entry: &Record) -> bool
    ensures { IsTrue result ↔ Encodable entry.now }
{
    match entry {
        Record::Epoch { accepts, .. } => *accepts < COUNTS,
        Record::Reading {
            lost,
            accepts,
            posted,
            ..
        } => *lost < COUNTS && *accepts < COUNTS && are_placed(posted),
        Record::Broken {
            lost,
            accepts,
            posted,
            ..
        } => *lost < COUNTS && *accepts < COUNTS && are_placed(posted),
        Record::Opened { life, .. } => *life < COUNTS,
        Record::Odd {
            life_before,
            life_after,
            ..
        } => *life_before < COUNTS && *life_after < COUNTS,
        Record::EpochEnd { .. } | Record::Closed { .. } | Record::Sold { .. } => true,
    }
}

/// Whether each coin has a coin place of 1 or more.
fn are_placed(coins: &Coins) -> bool
    ensures { IsTrue result ↔ All IsPlaced coins.now }
{
    coins.as_slice().iter().all(|coin| 1 <= coin.place)
}

/// What is in a body at the places of the fields of its kind, or none where the kind isn't known.
#[tactic(auto, unfolding(crate::specs::Fields::record_at))]
fn record_at(bytes: &[u8; BODY]) -> Option<Record>
    ensures { result ≡ record_at bytes.now }
{
    let entry = match bytes[0] {
        EPOCH => Record::Epoch {
            addr: bytes[1],
            mask: two_at(bytes, 2),
            accepts: three_at(bytes, 4),
        },
        READING => Record::Reading {
            addr: bytes[1],
            counter: bytes[2],
            lost: three_at(bytes, 3),
            accepts: three_at(bytes, 6),
            posted: coins_at(bytes, 9),
        },
        BROKEN => Record::Broken {
            addr: bytes[1],
            mask_seen: two_at(bytes, 3),
            counter: bytes[2],
            lost: three_at(bytes, 5),
            accepts: three_at(bytes, 8),
            posted: coins_at(bytes, 11),
        },
        EPOCH_END => Record::EpochEnd { addr: bytes[1] },
        OPENED => Record::Opened {
            id: four_at(bytes, 2),
            addr: bytes[1],
            count: bytes[6],
            life: three_at(bytes, 7),
        },
        CLOSED => Record::Closed {
            id: four_at(bytes, 1),
            paid: bytes[5],
            unpaid: bytes[6],
        },
        ODD => Record::Odd {
            id: four_at(bytes, 1),
            life_before: three_at(bytes, 5),
            life_after: three_at(bytes, 8),
        },
        SOLD => Record::Sold {
            id: four_at(bytes, 1),
            price: four_at(bytes, 5),
        },
        _ => return None,
    };
    Some(entry)
}

/// The number of two bytes, low byte first.
pub(crate) fn two_at(bytes: &[u8; BODY], at: usize) -> u16
    requires { at + 2 ≤ BODY }
    ensures { result ≡ two_at bytes.now at }
{
    u16::from_le_bytes([bytes[at], bytes[at + 1]])
}

/// The number of three bytes, low byte first.
pub(crate) fn three_at(bytes: &[u8; BODY], at: usize) -> u32
    requires { at + 3 ≤ BODY }
    ensures { result ≡ three_at bytes.now at }
{
    u32::from_le_bytes([bytes[at], bytes[at + 1], bytes[at + 2], 0])
}

/// The number of four bytes, low byte first.
pub(crate) fn four_at(bytes: &[u8; BODY], at: usize) -> u32
    requires { at + 4 ≤ BODY }
    ensures { result ≡ four_at bytes.now at }
{
    u32::from_le_bytes([bytes[at], bytes[at + 1], bytes[at + 2], bytes[at + 3]])
}

/// The coins after their number, five at most.
fn coins_at(bytes: &[u8; BODY], at: usize) -> Coins
    requires { at + 11 ≤ BODY }
    ensures { result ≡ coins_at bytes.now at }
{
    let count = (bytes[at] as usize).min(EVENTS);
    let mut coins = Coins::new();
    for i in 0..count {
        coins.push(Coin {
            place: bytes[at + 1 + 2 * i],
            path: bytes[at + 2 + 2 * i],
        });
    }
    coins
}
