//! A day of two acceptors and two hoppers, with every job that asks a device, and what comes of it.

use crate::account::{Account, AtAcceptors, Ends, OfOrders};
use crate::day::Step;
use cct_model::Command;
use std::alloc::Global;
use std::test::Fail;

/// Both acceptors are started, in 8 exchanges. Each job here is left one attempt more than it has
/// rows, for a try that fails.
pub(crate) const START: &[Step] = &[
    Step::Give(Command::Start { addr: 2, mask: 1 }),
    Step::Give(Command::Start { addr: 5, mask: 1 }),
    Step::Turns(2, 5, 6),
];

/// Three coins are posted, and a sorter path is set at each acceptor, in 8 and 4 exchanges.
const ROUND: &[Step] = &[
    Step::Coin(2),
    Step::Coin(2),
    Step::Coin(5),
    Step::Give(Command::Round { addr: 2 }),
    Step::Give(Command::Round { addr: 5 }),
    Step::Turns(2, 5, 6),
    Step::Give(Command::Path {
        addr: 2,
        place: 1,
        path: 3,
    }),
    Step::Give(Command::Path {
        addr: 5,
        place: 1,
        path: 4,
    }),
    Step::Turns(2, 5, 3),
];

/// Hopper 3 pays two coins and hopper 4 three, in 6 exchanges up to the dispense, 2 while coins
/// fall, and 4 up to the end.
const PAY: &[Step] = &[
    Step::Pay(3, 1, 2),
    Step::Pay(4, 2, 3),
    Step::Turns(3, 4, 4),
    Step::Falls(3, 1, 1),
    Step::Turns(3, 4, 1),
    Step::Falls(3, 1, 2),
    Step::Falls(4, 2, 3),
    Step::Turns(3, 4, 4),
];

/// Each hopper is to pay three coins, and is halted after one, in 8 exchanges up to the halt and 6
/// after it.
const HALT: &[Step] = &[
    Step::Pay(3, 3, 3),
    Step::Pay(4, 4, 3),
    Step::Turns(3, 4, 5),
    Step::Falls(3, 3, 1),
    Step::Falls(4, 4, 1),
    Step::Give(Command::Halt { addr: 3 }),
    Step::Give(Command::Halt { addr: 4 }),
    Step::Turns(3, 4, 5),
];

/// Each hopper is to pay two coins when the power of the host is cut, and both orders are settled,
/// in 8 exchanges before the cut and 4 after it.
const SETTLE: &[Step] = &[
    Step::Pay(3, 5, 2),
    Step::Pay(4, 6, 2),
    Step::Turns(3, 4, 5),
    Step::Falls(3, 5, 1),
    Step::Restart,
    Step::Falls(3, 5, 2),
    Step::Falls(4, 6, 2),
    Step::Give(Command::Settle { addr: 3 }),
    Step::Give(Command::Settle { addr: 4 }),
    Step::Turns(3, 4, 4),
];

/// All four devices are asked for what they say of themselves, an acceptor in 26 exchanges and a
/// hopper in 8. Then they are listed, in 10.
const IDENT: &[Step] = &[
    Step::Give(Command::Ident { addr: 2 }),
    Step::Give(Command::Ident { addr: 5 }),
    Step::Turns(2, 5, 27),
    Step::Give(Command::Ident { addr: 3 }),
    Step::Give(Command::Ident { addr: 4 }),
    Step::Turns(3, 4, 9),
    Step::Give(Command::Scan),
    Step::Turns(0, 0, 5),
];

/// Both acceptors are stopped, in which each posts a coin, in 10 exchanges.
const STOP: &[Step] = &[
    Step::Coin(2),
    Step::Coin(5),
    Step::Give(Command::Stop { addr: 2 }),
    Step::Give(Command::Stop { addr: 5 }),
    Step::Turns(2, 5, 8),
];

/// These steps, one part after the other.
pub(crate) fn joined(alloc: Global, parts: &[&[Step]]) -> Result<Vec<Step>, Fail> {
    let mut steps = Vec::new(alloc);
    for part in parts {
        steps.extend_from_slice(part)?;
    }
    Ok(steps)
}

/// All steps of a day.
pub(crate) fn day(alloc: Global) -> Result<Vec<Step>, Fail> {
    joined(alloc, &[START, ROUND, PAY, HALT, SETTLE, IDENT, STOP])
}

/// The exchanges of a day.
pub(crate) const EXCHANGES: u64 = 146;

/// How the jobs of a day end.
pub(crate) const ENDS: Ends = Ends {
    started: 2,
    posted: 2,
    paths: 2,
    closed: 6,
    told: 4,
    listed: 4,
    stopped: 2,
    ..Ends::NONE
};

/// What comes of a day, by hand: five coins of 100 are posted, and of six orders eleven coins of 10
/// are paid.
pub(crate) const DAY: Account = Account {
    accepted: AtAcceptors { at_2: 3, at_5: 2 },
    posted: AtAcceptors { at_2: 3, at_5: 2 },
    fallen: OfOrders {
        coins: [2, 3, 1, 1, 2, 2],
    },
    paid: OfOrders {
        coins: [2, 3, 1, 1, 2, 2],
    },
    ends: ENDS,
    available: 390,
    ..Account::NONE
};
