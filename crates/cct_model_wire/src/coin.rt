//! Coins, and the credit buffer of a coin acceptor.
ghost use Rattle.std.specs.Prelude.{◌≡◌, ◌<◌, ◌≤◌, List, [], ◌∷◌, ◌++◌, length};
ghost use Rattle.cct_model_wire.specs.Setting.{has_place};

use arrayvec::ArrayVec;
use std::marker::Model;

/// The coin places of an acceptor, numbered from 1 (ccTalk Generic Specification 4, part 2).
pub const COIN_PLACES: usize = 16;

/// The sorter paths of an acceptor, numbered from 1 (ccTalk Generic Specification 4, part 2, header
/// 210).
pub const PATHS: u8 = 8;

/// The events that a credit buffer keeps (ccTalk Generic Specification 4, part 2, header 229).
pub const EVENTS: usize = 5;

/// A coin that an acceptor took: its coin place, 1 to 16, and the sorter path that it fell by, 1 to
/// 8 (ccTalk Generic Specification 4, part 2, header 229).
#[derive(Clone, Copy, Debug, Default, PartialEq, Eq)]
pub struct Coin {
    pub place: u8,
    pub path: u8,
}

/// Whether an inhibit mask has a coin place, 1 to 16: bit 0 is place 1
/// (ccTalk Generic Specification 4, part 2, header 231).
pub fn has_place(mask: u16, place: u8) -> bool
    requires low { 1 ≤ place }
    requires high { place ≤ COIN_PLACES }
    ensures { result ≡ has_place mask place }
{
    (mask >> (place - 1)) & 1 == 1
}

/// One event of the credit buffer, as header 229 reports it. Where `a` is 1 to 255, it is a credit
/// of coin place `a` by sorter path `b`; where `a` is 0, `b` is an error code, and 0 for no event.
#[derive(Clone, Copy, Debug, Default, PartialEq, Eq)]
pub struct Pair {
    pub a: u8,
    pub b: u8,
}

/// The answer to header 229: the event counter (0 after a reset, then 1 to 255, and 1 again) and
/// the last five events, newest first.
#[derive(Clone, Copy, PartialEq, Eq)]
pub struct Credits {
    pub counter: u8,
    pub pairs: [Pair; EVENTS],
}

/// The coins that one record posts, oldest first: at most five, as many as the credit buffer gives.
#[derive(Clone, Debug, Default, Drop, PartialEq, Eq)]
pub struct Coins {
    coins: ArrayVec<Coin, EVENTS>,
}

impl Model for Coins {
    ghost use Rattle.std.specs.Prelude.{◌≤◌, List, length};
    ghost use Rattle.cct_model_wire.specs.declared.coin.Coin.{Coin};
    ghost use Rattle.cct_model_wire.specs.declared.coin.TheConstants.{EVENTS};

    ghost Value = { List Coin };

    ghost view = { λ c. c.coins.items };

    ghost invariant = { λ c. length c.coins.items ≤ EVENTS };

    ghost inverse = { λ xs. record { coins = record { items = xs } } };
}

impl Coins {
    /// No coin.
    pub fn new() -> Self
        ensures { result ≡ [] }
    {
        Coins {
            coins: ArrayVec::new(),
        }
    }

    /// Adds a coin after the others.
    pub fn push(&mut self, coin: Coin)
        requires { length self.old < EVENTS }
        ensures { self.new ≡ self.old ++ coin ∷ [] }
    {
        self.coins.push(coin);
    }

    /// Removes every coin.
    pub fn clear(&mut self)
        ensures { self.new ≡ [] }
    {
        self.coins.clear();
    }

    /// The coins, oldest first.
    pub fn as_slice(&self) -> &[Coin]
        ensures value { result.now ≡ self.now }
        ensures few { length result.now ≤ EVENTS }
    {
        self.coins.as_slice()
    }
}
