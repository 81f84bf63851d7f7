//! The records of the host's journal.
ghost use Rattle.std.specs.Prelude.{◌≡◌, ◌≤◌, length};
ghost use Rattle.cct_model_lines.specs.Sums.{coins_lost, posts_of};

use crate::{Coin, Coins, EVENTS};
use std::alloc::AllocError;

/// A record of the host's journal. A record is the post: the coins in it are those that the machine
/// counts.
#[derive(Clone, Debug, Drop)]
pub enum Record {
    /// An epoch begins at acceptor `addr`: it is to accept the coin places of this inhibit mask.
    /// Until then it had accepted so many coins, modulo 2^24.
    Epoch {
        addr: u8,
        mask: u16,
        accepts: u32,
    },
    /// A reading of acceptor `addr`: the event counter that was read, how many of the coins
    /// accepted since the last record are lost, the accept counter that was read, and the coins
    /// that are posted, oldest first. The two numbers of coins are below 2^24.
    Reading {
        addr: u8,
        counter: u8,
        lost: u32,
        accepts: u32,
        posted: Coins,
    },
    /// A reading that shows that acceptor `addr` was reset or isn't set as it was: the inhibit mask
    /// and the event counter that were read, how many coins are lost, the accept counter that was
    /// read, and the coins that are posted, oldest first. It ends the epoch.
    Broken {
        addr: u8,
        mask_seen: u16,
        counter: u8,
        lost: u32,
        accepts: u32,
        posted: Coins,
    },
    /// The epoch of acceptor `addr` ends.
    EpochEnd {
        addr: u8,
    },
    /// An order is opened: hopper `addr`, whose life count was read, is to pay so many coins.
    Opened {
        id: u32,
        addr: u8,
        count: u8,
        life: u32,
    },
    /// An order is closed: so many of its coins were paid, and so many were not.
    Closed {
        id: u32,
        paid: u8,
        unpaid: u8,
    },
    /// An order is closed whose life counts show more coins than were ordered.
    Odd {
        id: u32,
        life_before: u32,
        life_after: u32,
    },
    /// Something was sold.
    Sold {
        id: u32,
        price: u32,
    },
}

impl Record {
    /// The same record once more. It takes no memory, so it can't fail as `clone` could.
    pub fn copied(&self) -> Record
        ensures { result ≡ self.now }
    {
        let copy: Result<Record, AllocError> = self.clone();
        copy.unwrap()
    }

    /// The coins that it posts, oldest first.
    pub fn posted(&self) -> &[Coin]
        ensures coins { result.now ≡ posts_of self.now }
        ensures few { length result.now ≤ EVENTS }
    {
        match self {
            Record::Reading { posted, .. } => posted.as_slice(),
            Record::Broken { posted, .. } => posted.as_slice(),
            _ => &[],
        }
    }

    /// How many coins it reports as lost.
    pub fn lost(&self) -> u32
        ensures { result ≡ coins_lost self.now }
    {
        match self {
            Record::Reading { lost, .. } => *lost,
            Record::Broken { lost, .. } => *lost,
            _ => 0,
        }
    }
}
