//! The lines of a load.
ghost use Rattle.std.specs.Prelude.{◌≡◌, ◌<◌, ◌+◌, ◌*◌, IsTrue};
ghost use Rattle.cct_model_lines.specs.Script.{IsInRange, is_known};
ghost use Rattle.cct_gen.specs.Load.{load_setup, drawn, coin_of, coin_or_alien, coin_or_loss};
ghost use Rattle.cct_gen.specs.Load.{crash_or_balance};
ghost use Rattle.cct_gen.specs.Load.{opening_line, round_line, line_at};

use cct_model_lines::{COIN_PLACES, Command, Piece, Step, WireFault};

/// The address of the coin acceptor.
const ACCEPTOR: u8 = 2;

/// The address of the hopper.
const HOPPER: u8 = 3;

/// The lines before the first round: the start of an epoch.
const OPENING: u32 = 6;

/// The lines of a round.
const ROUND: u32 = 20;

/// Line `n` of the load that a seed gives, from line 0 on: six lines that start an epoch, and then
/// 20 a round, of at most 10,000 rounds. It names devices of the load's setup alone, and its
/// numbers are in the ranges of a script's lines.
#[tactic(auto, using(crate::proofs::Lines::line_in_range, crate::proofs::Lines::line_known))]
pub fn nth_line(seed: u64, n: u32) -> Step
    requires { n < 6 + 20 * 10000 }
    ensures value { result ≡ line_at seed n }
    ensures in_range { IsInRange result }
    ensures known { IsTrue (is_known load_setup result) }
{
    line_at(seed, n)
}

/// Line `n` of the load.
#[tactic(auto, unfolding(crate::specs::Load::line_at))]
fn line_at(seed: u64, n: u32) -> Step
    requires { n < 6 + 20 * 10000 }
    ensures { result ≡ line_at seed n }
{
    if n < OPENING {
        return opening_line(n);
    }
    let later = n - OPENING;
    round_line(later / ROUND + 1, drawn(seed, n), later % ROUND)
}

/// The number below 2^24 that line `n` is drawn by.
#[tactic(auto, unfolding(crate::specs::Load::drawn))]
fn drawn(seed: u64, n: u32) -> u64
    ensures { result ≡ drawn seed n }
{
    let seeded = seed.wrapping_mul(6_364_136_223_846_793_005);
    let numbered = u64::from(n).wrapping_mul(1_442_695_040_888_963_407);
    seeded.wrapping_add(numbered) >> 40
}

/// A line before the first round.
fn opening_line(n: u32) -> Step
    ensures { result ≡ opening_line n }
{
    if n == 0 {
        Step::Command(Command::Start {
            addr: ACCEPTOR,
            mask: 0xffff,
        })
    } else {
        Step::Next { addr: ACCEPTOR }
    }
}

/// The line at a place of a round, 0 to 19. The payment of the round has this id.
fn round_line(id: u32, number: u64, place: u32) -> Step
    ensures { result ≡ round_line id number place }
{
    match place {
        0 => coin(number),
        1 => coin_or_alien(number),
        2 => coin_or_loss(number),
        3 => Step::Command(Command::Round { addr: ACCEPTOR }),
        4..=9 => Step::Next { addr: ACCEPTOR },
        10 => Step::Command(Command::Pay {
            addr: HOPPER,
            id,
            count: 1,
        }),
        15 => Step::Fall { addr: HOPPER },
        11..=18 => Step::Next { addr: HOPPER },
        _ => crash_or_balance(number),
    }
}

/// A coin of the place that was drawn.
fn coin(number: u64) -> Step
    ensures { result ≡ coin_of number }
{
    let place = (number % COIN_PLACES as u64) as u8 + 1;
    Step::Coin {
        addr: ACCEPTOR,
        place,
    }
}

/// An object that is no coin by one number in eight, else a coin.
fn coin_or_alien(number: u64) -> Step
    ensures { result ≡ coin_or_alien number }
{
    if number % 8 == 0 {
        Step::Alien { addr: ACCEPTOR }
    } else {
        coin(number)
    }
}

/// By one number in four the reply of the next exchange is lost; else a coin.
fn coin_or_loss(number: u64) -> Step
    ensures { result ≡ coin_or_loss number }
{
    if number % 4 == 0 {
        Step::Fault(WireFault::HostHears(Piece::new()))
    } else {
        coin(number)
    }
}

/// A power cut by one number in 64, else the balance.
fn crash_or_balance(number: u64) -> Step
    ensures { result ≡ crash_or_balance number }
{
    if number % 64 == 0 {
        Step::Crash {
            at: None,
            choice: number % 5,
        }
    } else {
        Step::Balance
    }
}
