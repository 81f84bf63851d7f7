//! Where the port doesn't wait for late replies, one is taken for another's, and money is lost.

use crate::account::{Account, AtAcceptors, Ends, OfOrders};
use crate::day::{Step, run, setup};
use crate::steps::{START, joined};
use crate::wire::Late;
use cct_live_port::Options;
use cct_model::Command;
use std::alloc::Global;
use std::process::Abort;
use std::test::Fail;

/// A port that listens for two silent reads, and waits for so many, those two counted.
fn hasty(echoes: bool, longest: u16) -> Options {
    Options {
        echoes,
        gap: 1,
        patience: 2,
        longest,
    }
}

/// A coin falls into acceptor 2, and both acceptors are read by turns.
const ONE_COIN: &[Step] = &[
    Step::Coin(2),
    Step::Give(Command::Round { addr: 2 }),
    Step::Give(Command::Round { addr: 5 }),
    Step::Turns(2, 5, 6),
];

/// What comes of it where the reply to the credits of acceptor 2 isn't waited for long enough, and
/// it is asked again.
const ONE_POST: Account = Account {
    missed: 1,
    accepted: AtAcceptors { at_2: 1, at_5: 0 },
    posted: AtAcceptors { at_2: 1, at_5: 0 },
    ends: Ends {
        started: 2,
        posted: 1,
        other: 1,
        ..Ends::NONE
    },
    available: 100,
    ..Account::NONE
};

/// What comes of it where acceptor 5, asked next, is taken to have said that.
const TWO_POSTS: Account = Account {
    mistaken: 1,
    posted: AtAcceptors { at_2: 1, at_5: 1 },
    ends: Ends {
        started: 2,
        posted: 2,
        ..Ends::NONE
    },
    posted_wrong: 1,
    available: 200,
    ..ONE_POST
};

/// What comes of these steps where the reply of an exchange comes late by 2 to 20 reads, and the
/// port waits for as many, or for two more.
fn comes_to(
    rt: &impl Abort,
    alloc: Global,
    steps: &[Step],
    exchange: u64,
    too_short: Account,
    long_enough: Account,
) -> Result<(), Fail> {
    let setup = setup(alloc)?;
    for by in 2..=20 {
        for echoes in [true, false] {
            for (longest, wanted) in [(by, too_short), (by + 2, long_enough)] {
                let late = Some(Late { exchange, by });
                let played = run(alloc, &setup, steps, hasty(echoes, longest), late)?;
                assert!(rt; played.account == wanted);
            }
        }
    }
    Ok(())
}

/// The credits of acceptor 2 come late, in the exchange with number 10: after the 8 of both starts
/// and both accept counters. They name no source.
#[test]
fn a_port_that_waits_too_short_posts_a_coin_twice(rt: HostRuntime) -> Result<(), Fail> {
    let steps = joined(rt.alloc(), &[START, ONE_COIN])?;
    comes_to(&rt, rt.alloc(), steps.as_slice(), 10, TWO_POSTS, ONE_POST)
}

/// Both hoppers pay: 3 two coins, and 4 one. They are asked by turns, and all coins fall at once.
const TWO_ORDERS: &[Step] = &[
    Step::Pay(3, 1, 2),
    Step::Pay(4, 2, 1),
    Step::Turns(4, 3, 4),
    Step::Falls(3, 1, 2),
    Step::Falls(4, 2, 1),
    Step::Turns(4, 3, 4),
];

/// What comes of it where the life count of hopper 4 isn't waited for long enough, and it is asked
/// again: both orders are closed with all their coins.
const THREE_PAID: Account = Account {
    fallen: OfOrders {
        coins: [2, 1, 0, 0, 0, 0],
    },
    paid: OfOrders {
        coins: [2, 1, 0, 0, 0, 0],
    },
    ends: Ends {
        started: 2,
        posted: 1,
        closed: 2,
        other: 1,
        ..Ends::NONE
    },
    available: 70,
    ..ONE_POST
};

/// What comes of it where hopper 3, asked next, is taken to have said that: its order is closed
/// with one coin.
const TWO_PAID: Account = Account {
    mistaken: 1,
    paid: OfOrders {
        coins: [1, 1, 0, 0, 0, 0],
    },
    closed_wrong: 1,
    available: 80,
    ..THREE_PAID
};

/// The life count of hopper 4 comes late, in the exchange with number 24: after 16 up to the end of
/// the rounds, 6 up to the dispenses and 2 for the states.
#[test]
fn a_port_that_waits_too_short_closes_an_order_with_a_wrong_number(
    rt: HostRuntime,
) -> Result<(), Fail> {
    let steps = joined(rt.alloc(), &[START, ONE_COIN, TWO_ORDERS])?;
    comes_to(&rt, rt.alloc(), steps.as_slice(), 24, TWO_PAID, THREE_PAID)
}
