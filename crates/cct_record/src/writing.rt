//! A record is written as a body.
ghost use Rattle.std.specs.Prelude.{◌≡◌, ◌+◌, ◌-◌, ◌≤◌, ◌++◌, All, length, replicate};
ghost use Rattle.std.specs.Int.{to_le_bytes, w32};
ghost use Rattle.arrayvec.specs.ArrayVec.{array_vec_len};
ghost use Rattle.cct_model_lines.specs.Request.{three_bytes};
ghost use Rattle.cct_record.specs.Body.{Encodable, FitsBytes, InRange, body_of, coin_fields};
ghost use Rattle.cct_record.specs.Body.{coins_fields, fields_of};

use crate::kind::{BODY, BROKEN, CLOSED, EPOCH, EPOCH_END, ODD, OPENED, READING, SOLD};
use arrayvec::ArrayVec;
use cct_model_lines::{Coin, Coins, EVENTS, Record};

/// The body of a record: its kind and its fields, filled up with 0 (`docs/JOURNAL.md`, "The body of
/// a record").
///
/// Life counts, accept counters and numbers of lost coins have to be below 2^24, and the coin
/// places of posted coins at least 1.
#[tactic(auto, unfolding(crate::specs::Body::body_of))]
pub fn encode(entry: &Record) -> [u8; 31]
    requires { Encodable entry.now }
    // Exactly one body for each record; a record without sense, such as an order of 0 coins, has
    // one too.
    ensures body { result ≡ body_of entry.now }
    ensures in_range { InRange entry.now }
{
    filled_up(&fields(entry))
}

/// Some fields, and 0 after them.
pub(crate) fn filled_up(fields: &ArrayVec<u8, BODY>) -> [u8; BODY]
    ensures { result ≡ fields.now.items ++ replicate (31 - length fields.now.items) 0 }
{
    let mut body = [0; BODY];
    body[..fields.len()].copy_from_slice(fields.as_slice());
    body
}

/// The kind and the fields of a record.
#[tactic(auto, unfolding(crate::specs::Body::fields_of))]
fn fields(entry: &Record) -> ArrayVec<u8, BODY>
    ensures fields { result.items ≡ fields_of entry.now }
    ensures in_range { Encodable entry.now → InRange entry.now }
{
    let mut fields = ArrayVec::new();
    match entry {
        Record::Epoch {
            addr,
            mask,
            accepts,
        } => {
            add(&mut fields, &[EPOCH, *addr]);
            add(&mut fields, &mask.to_le_bytes());
            add(&mut fields, &three_bytes(*accepts));
        }
        Record::Reading {
            addr,
            counter,
            lost,
            accepts,
            posted,
        } => {
            add(&mut fields, &[READING, *addr, *counter]);
            add(&mut fields, &three_bytes(*lost));
            add(&mut fields, &three_bytes(*accepts));
            add_coins(&mut fields, posted);
        }
        Record::Broken {
            addr,
            mask_seen,
            counter,
            lost,
            accepts,
            posted,
        } => {
            add(&mut fields, &[BROKEN, *addr, *counter]);
            add(&mut fields, &mask_seen.to_le_bytes());
            add(&mut fields, &three_bytes(*lost));
            add(&mut fields, &three_bytes(*accepts));
            add_coins(&mut fields, posted);
        }
        Record::EpochEnd { addr } => add(&mut fields, &[EPOCH_END, *addr]),
        Record::Opened {
            id,
            addr,
            count,
            life,
        } => {
            add(&mut fields, &[OPENED, *addr]);
            add_id(&mut fields, *id);
            add(&mut fields, &[*count]);
            add(&mut fields, &three_bytes(*life));
        }
        Record::Closed { id, paid, unpaid } => {
            add(&mut fields, &[CLOSED]);
            add_id(&mut fields, *id);
            add(&mut fields, &[*paid, *unpaid]);
        }
        Record::Odd {
            id,
            life_before,
            life_after,
        } => {
            add(&mut fields, &[ODD]);
            add_id(&mut fields, *id);
            add(&mut fields, &three_bytes(*life_before));
            add(&mut fields, &three_bytes(*life_after));
        }
        Record::Sold { id, price } => {
            add(&mut fields, &[SOLD]);
            add_id(&mut fields, *id);
            add(&mut fields, &price.to_le_bytes());
        }
    }
    fields
}

/// Appends bytes for which there is room.
pub(crate) fn add(fields: &mut ArrayVec<u8, BODY>, bytes: &[u8])
    requires { array_vec_len fields.old + length bytes.now ≤ BODY }
    ensures items { fields.new.items ≡ fields.old.items ++ bytes.now }
    ensures len { array_vec_len fields.new ≡ array_vec_len fields.old + length bytes.now }
{
    fields.try_extend_from_slice(bytes).unwrap();
}

/// Appends the id of an order or of a sale.
pub(crate) fn add_id(fields: &mut ArrayVec<u8, BODY>, id: u32)
    requires { array_vec_len fields.old + 4 ≤ BODY }
    ensures items { fields.new.items ≡ fields.old.items ++ to_le_bytes w32 id }
    ensures len { array_vec_len fields.new ≡ array_vec_len fields.old + 4 }
{
    add(fields, &id.to_le_bytes());
}

/// Appends how many coins there are, and the coins.
fn add_coins(fields: &mut ArrayVec<u8, BODY>, coins: &Coins)
    requires { array_vec_len fields.old + 11 ≤ BODY }
    ensures items { fields.new.items ≡ fields.old.items ++ coins_fields coins.now }
    ensures len { array_vec_len fields.new ≤ array_vec_len fields.old + 11 }
    ensures few { length coins.now ≤ EVENTS }
    ensures fit { All FitsBytes coins.now }
{
    let posted = coins.as_slice();
    fields.push(posted.len() as u8);
    for coin in posted {
        add_coin(fields, *coin);
    }
}

/// Appends the two bytes of a coin.
fn add_coin(fields: &mut ArrayVec<u8, BODY>, coin: Coin)
    requires { array_vec_len fields.old + 2 ≤ BODY }
    ensures items { fields.new.items ≡ fields.old.items ++ coin_fields coin }
    ensures len { array_vec_len fields.new ≡ array_vec_len fields.old + 2 }
    ensures fits { FitsBytes coin }
{
    add(fields, &[coin.place, coin.path]);
}

/// The three low bytes of a number, low byte first.
pub(crate) fn three_bytes(number: u32) -> [u8; 3]
    ensures { result ≡ three_bytes number }
{
    let [low, middle, high, _] = number.to_le_bytes();
    [low, middle, high]
}
