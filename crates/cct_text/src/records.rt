//! Records of the journal, and the coins in them.
ghost use Rattle.std.specs.Prelude.{◌≡◌, ℕ, ◌+◌, ◌≤◌, List, [], ◌∷◌, ◌++◌, length};
ghost use Rattle.cct_model_lines.specs.declared.record.Record.TheVariants.{Odd};
ghost use Rattle.cct_model_lines.specs.Text.{number_text, coin_text, coins_field, record_fields};
ghost use Rattle.cct_text.specs.Joined.{each_after};
ghost use Rattle.cct_text.specs.Adding.{Adds};

use crate::fields::{write_address, write_mask, write_number, write_numbers, write_pair};
use crate::text::TextLine;
use cct_model_lines::{Coin, EVENTS, MOST_TEXT, Record};

/// Writes the fields of a record.
pub(crate) fn write_record(line: &mut TextLine, entry: &Record)
    requires { length line.old + 200 ≤ MOST_TEXT }
    ensures { Adds line.old line.new (each_after 32 (record_fields entry.now)) 200 }
{
    match entry {
        Record::Epoch {
            addr,
            mask,
            accepts,
        } => {
            write_mask(line, b" epoch", *addr, *mask);
            write_number(line, u64::from(*accepts));
        }
        Record::Reading {
            addr,
            counter,
            lost,
            accepts,
            posted,
        } => {
            write_pair(line, b" reading", *addr, *counter);
            write_coins_told(line, *lost, *accepts, posted.as_slice());
        }
        Record::Broken {
            addr,
            mask_seen,
            counter,
            lost,
            accepts,
            posted,
        } => {
            write_mask(line, b" broken", *addr, *mask_seen);
            write_number(line, u64::from(*counter));
            write_coins_told(line, *lost, *accepts, posted.as_slice());
        }
        Record::EpochEnd { addr } => write_address(line, b" epochend", *addr),
        Record::Opened {
            id,
            addr,
            count,
            life,
        } => {
            write_order(line, b" opened", *id, *addr, *count);
            write_number(line, u64::from(*life));
        }
        Record::Closed { id, paid, unpaid } => write_order(line, b" closed", *id, *paid, *unpaid),
        Record::Odd {
            id,
            life_before,
            life_after,
        } => write_lives(line, *id, *life_before, *life_after),
        Record::Sold { id, price } => {
            write_numbers(line, b" sold", &[u64::from(*id), u64::from(*price)]);
        }
    }
}

/// Writes a word, and an order's id and two bytes as the fields after it.
fn write_order(line: &mut TextLine, word: &[u8], id: u32, first: u8, second: u8)
    requires { length line.old + length word.now + 63 ≤ MOST_TEXT }
    ensures { Adds line.old line.new (word.now ++ each_after 32 (number_text id ∷ number_text first ∷ number_text second ∷ []))
        (length word.now + 63) }
{
    write_numbers(
        line,
        word,
        &[u64::from(id), u64::from(first), u64::from(second)],
    );
}

/// Writes the fields of an order whose life counts don't fit it.
fn write_lives(line: &mut TextLine, id: u32, before: u32, after: u32)
    requires { length line.old + 67 ≤ MOST_TEXT }
    ensures { Adds line.old line.new (each_after 32 (record_fields (Odd id before after))) 67 }
{
    write_numbers(
        line,
        b" odd",
        &[u64::from(id), u64::from(before), u64::from(after)],
    );
}

/// Writes what a reading or a break says of coins, as the next three fields: how many are lost, the
/// accept counter, and the coins posted.
fn write_coins_told(line: &mut TextLine, lost: u32, accepts: u32, coins: &[Coin])
    requires few { length coins.now ≤ EVENTS }
    requires room { length line.old + 82 ≤ MOST_TEXT }
    ensures { Adds line.old line.new
        (32 ∷ number_text lost ++ 32 ∷ number_text accepts ++ 32 ∷ coins_field coins.now) 82 }
{
    write_number(line, u64::from(lost));
    write_number(line, u64::from(accepts));
    write_coins(line, coins);
}

/// Writes coins as the next field: joined by commas, or a hyphen where there is none.
pub(crate) fn write_coins(line: &mut TextLine, coins: &[Coin])
    requires few { length coins.now ≤ EVENTS }
    requires room { length line.old + 40 ≤ MOST_TEXT }
    ensures { Adds line.old line.new (32 ∷ coins_field coins.now) 40 }
{
    match coins {
        [] => line.push(b" -"),
        [first, others @ ..] => {
            line.push(b" ");
            write_coin(line, *first);
            for coin in others {
                line.push(b",");
                write_coin(line, *coin);
            }
        }
    }
}

/// Writes a coin as its place, a slash and its path.
fn write_coin(line: &mut TextLine, coin: Coin)
    requires { length line.old + 7 ≤ MOST_TEXT }
    ensures { Adds line.old line.new (coin_text coin) 7 }
{
    line.push_byte(coin.place);
    line.push(b"/");
    line.push_byte(coin.path);
}
