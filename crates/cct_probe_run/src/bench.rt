//! A line with the devices of a setup, on which nothing is sent but rows of a plan, and no coin is
//! ordered without leave.

ghost use Rattle.std.specs.Prelude.{◌≡◌, ◌≤◌, ◌<◌, ◌+◌, false};
ghost use Rattle.cct_probe_run.specs.Broken.{broken_after, fails, none_broken};

use arrayvec::ArrayVec;
use cct_edge::{Failed, Sink};
use cct_live_port::{Line, Port};
use cct_model_lines::{MOST_HEARD, MOST_SENT, Setup};
use cct_probe_plan::{Premise, Promise, Trial};

/// What may be done.
#[derive(Clone, Copy)]
pub struct Leave {
    /// How many coins may be ordered of all hoppers together.
    pub coins: u16,
    /// Whether a person is there.
    pub hands: bool,
    /// Whether that person has time.
    pub long: bool,
    /// Whether lines of exchanges are left out, but for those that show a premise broken.
    pub is_quiet: bool,
}

/// Why trials stop.
#[derive(Clone, Copy, PartialEq, Eq)]
pub enum Stop {
    /// The sink failed.
    Unwritten,
    /// The port failed.
    PortFault,
    /// There was no room for one finding more.
    Full,
}

impl From<Failed> for Stop {
    fn from(_: Failed) -> Stop {
        Stop::Unwritten
    }
}

/// What came of an exchange.
#[derive(Clone, Copy, PartialEq, Eq)]
pub(crate) enum Exchanged {
    /// It was made.
    Heard,
    /// It would have ordered more coins than may be, so it wasn't.
    NoCoins,
    /// The port failed.
    Fault,
}

/// Whether any premise was reported as broken, and whether one on which a promise rests.
#[derive(Clone, Copy, PartialEq, Eq)]
pub(crate) struct Broken {
    pub(crate) any: bool,
    pub(crate) coins: bool,
    pub(crate) orders: bool,
}

impl Broken {
    /// Whether a promise rests on one of them.
    pub(crate) fn fails(self, promise: Promise) -> bool
        ensures { result ≡ fails promise self }
    {
        match promise {
            Promise::Coins => self.coins,
            Promise::Orders => self.orders,
            Promise::Disk => false,
        }
    }

    /// What is broken after one premise more.
    pub(crate) fn and(self, premise: Premise) -> Broken
        ensures { result ≡ broken_after premise self }
    {
        Broken {
            any: true,
            coins: premise.carries(Promise::Coins) || self.coins,
            orders: premise.carries(Promise::Orders) || self.orders,
        }
    }
}

/// The devices, and what is tried.
#[derive(Clone, Copy)]
pub struct Plan<'s> {
    pub setup: &'s Setup,
    pub trials: &'s [Trial],
}

/// The line, and where is reported what comes.
#[derive(Drop)]
pub struct Bench<L, K> {
    pub(crate) port: Port<L>,
    pub(crate) out: K,
    pub(crate) sent: ArrayVec<u8, MOST_SENT>,
    pub(crate) heard: ArrayVec<u8, MOST_HEARD>,
    pub(crate) leave: Leave,
    /// How many coins were ordered.
    pub(crate) asked: u16,
    /// What was reported as broken.
    pub(crate) broken: Broken,
    ghost within_leave: { asked ≤ leave.coins },
}

impl<L: Line, K: Sink> Bench<L, K> {
    /// Nothing was sent.
    pub fn new(port: Port<L>, out: K, leave: Leave) -> Bench<L, K>
        ensures none { result.asked ≡ 0 }
        ensures leave { result.leave ≡ leave }
        ensures unbroken { result.broken ≡ none_broken }
    {
        Bench {
            port,
            out,
            sent: ArrayVec::new(),
            heard: ArrayVec::new(),
            leave,
            asked: 0,
            broken: Broken {
                any: false,
                coins: false,
                orders: false,
            },
        }
    }

    /// The bytes that were sent last.
    pub(crate) fn sent(&self) -> &[u8]
        ensures { result.now ≡ self.now.sent.items }
    {
        self.sent.as_slice()
    }

    /// The bytes that were heard then.
    pub(crate) fn heard(&self) -> &[u8]
        ensures { result.now ≡ self.now.heard.items }
    {
        self.heard.as_slice()
    }

    /// Whether more came then than was sent.
    pub(crate) fn is_answered(&self) -> bool {
        self.heard.len() > self.sent.len()
    }

    /// Whether so many coins may still be ordered.
    pub(crate) fn may_order(&self, coins: u8) -> bool
        ensures not { result ≡ false → self.now.leave.coins < self.now.asked + coins }
    {
        u16::from(coins) <= self.leave.coins - self.asked
    }
}
