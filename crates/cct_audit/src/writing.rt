//! What a monitor says, written line by line.
ghost use Rattle.std.specs.Prelude.{◌≡◌, ◌+◌, ◌≤◌, ◌∷◌, IsErr, length, map};
ghost use Rattle.cct_edge.specs.Bytes.{Serves};
ghost use Rattle.cct_model.specs.Text.{coin_text, coins_field, number_text};
ghost use Rattle.cct_text.specs.Adding.{Adds};
ghost use Rattle.cct_text.specs.Writing.{PutsLine};
ghost use Rattle.cct_audit.specs.Telling.{broken_line, premise_word, quiet_line, said_line};
ghost use Rattle.cct_audit.specs.Writing.{WritesLines};

use cct_edge::{Failed, Sink};
use cct_model::{Coin, Coins, EVENTS, Entry, MOST_TEXT, Said as Spoken};
use cct_monitor::{Premise, Said};
use cct_text::{TextLine, write_entry};
use std::alloc::AllocError;

/// Writes a line for each thing that a monitor says, in their order, each by one put.
pub(crate) fn write_all<K: Sink>(
    out: &mut K,
    line: &mut TextLine,
    said: &[Said],
) -> Result<(), Failed>
    ensures writes { WritesLines K.written K.puts out.old (map said_line said.now) result out.new }
    ensures serves { Serves K.written K.faults out.old out.new (IsErr result) }
{
    for one in said {
        write_said(out, line, one)?;
    }
    Ok(())
}

/// Writes the line of one thing that a monitor says, by one put.
fn write_said<K: Sink>(out: &mut K, line: &mut TextLine, said: &Said) -> Result<(), Failed>
    ensures puts { PutsLine K.written K.puts out.old (said_line said.now) result out.new }
    ensures serves { Serves K.written K.faults out.old out.new (IsErr result) }
{
    match said {
        Said::Sure {
            addr,
            first,
            last,
            coins,
        } => {
            let spoken = Spoken::Sure {
                addr: *addr,
                first: *first,
                last: *last,
                coins: copied(coins),
            };
            write_entry(out, line, &Entry::Said(spoken))
        }
        Said::Quiet {
            addr,
            first,
            last,
            coins,
        } => {
            write_quiet(line, *addr, *first, *last, coins.as_slice());
            out.put(line.as_slice())
        }
        Said::Doubt { addr, first, last } => {
            let spoken = Spoken::Doubt {
                addr: *addr,
                first: *first,
                last: *last,
            };
            write_entry(out, line, &Entry::Said(spoken))
        }
        Said::Broken {
            addr,
            premise,
            first,
            last,
        } => {
            write_broken(line, *addr, *premise, *first, *last);
            out.put(line.as_slice())
        }
        Said::Fell {
            addr,
            first,
            last,
            count,
        } => {
            let spoken = Spoken::Fell {
                addr: *addr,
                first: *first,
                last: *last,
                count: *count,
            };
            write_entry(out, line, &Entry::Said(spoken))
        }
    }
}

/// The same coins. They take no memory, so it can't fail as `clone` could.
fn copied(coins: &Coins) -> Coins
    ensures { result ≡ coins.now }
{
    let copy: Result<Coins, AllocError> = coins.clone();
    copy.unwrap()
}

/// Puts the line of a span of an acceptor that is watched for resets alone in the place of what the
/// line holds.
#[tactic(auto, unfolding(crate::specs::Telling::quiet_line))]
fn write_quiet(line: &mut TextLine, addr: u8, first: u32, last: u32, coins: &[Coin])
    requires { length coins.now ≤ EVENTS }
    ensures { line.new ≡ quiet_line addr first last coins.now }
{
    line.clear();
    line.push(b"quiet");
    write_number(line, u64::from(addr));
    write_number(line, u64::from(first));
    write_number(line, u64::from(last));
    write_coins(line, coins);
    line.push(b"\n");
}

/// Puts the line of a premise that is broken in the place of what the line holds.
#[tactic(auto, unfolding(crate::specs::Telling::broken_line))]
fn write_broken(line: &mut TextLine, addr: u8, premise: Premise, first: u32, last: u32)
    ensures { line.new ≡ broken_line addr premise first last }
{
    line.clear();
    line.push(b"broken");
    write_number(line, u64::from(addr));
    write_premise(line, premise);
    write_number(line, u64::from(first));
    write_number(line, u64::from(last));
    line.push(b"\n");
}

/// Adds the word of a premise as the next field.
fn write_premise(line: &mut TextLine, premise: Premise)
    requires { length line.old + 8 ≤ MOST_TEXT }
    ensures { Adds line.old line.new (32 ∷ premise_word premise) 8 }
{
    match premise {
        Premise::Buffer => line.push(b" buffer"),
        Premise::Mask => line.push(b" mask"),
        Premise::Reset => line.push(b" reset"),
        Premise::Serial => line.push(b" serial"),
        Premise::Enable => line.push(b" enable"),
        Premise::Life => line.push(b" life"),
        Premise::Counter => line.push(b" counter"),
        Premise::Alone => line.push(b" alone"),
    }
}

/// Adds a number as the next field.
fn write_number(line: &mut TextLine, number: u64)
    requires { length line.old + 21 ≤ MOST_TEXT }
    ensures { Adds line.old line.new (32 ∷ number_text number) 21 }
{
    line.push(b" ");
    line.push_number(number);
}

/// Adds coins as the next field: joined by commas, or a hyphen where there is none.
fn write_coins(line: &mut TextLine, coins: &[Coin])
    requires few { length coins.now ≤ EVENTS }
    requires room { length line.old + 40 ≤ MOST_TEXT }
    ensures { Adds line.old line.new (32 ∷ coins_field coins.now) 40 }
{
    match coins {
        [] => line.push(b" -"),
        [first, others @ ..] => {
            line.push(b" ");
            write_coin(line, *first);
            for coin in others {
                line.push(b",");
                write_coin(line, *coin);
            }
        }
    }
}

/// Adds a coin as its place, a slash and its path.
fn write_coin(line: &mut TextLine, coin: Coin)
    requires { length line.old + 7 ≤ MOST_TEXT }
    ensures { Adds line.old line.new (coin_text coin) 7 }
{
    line.push_byte(coin.place);
    line.push(b"/");
    line.push_byte(coin.path);
}
