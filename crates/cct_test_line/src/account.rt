//! What came of a day.

use crate::wire::Wire;
use cct_model::{DeviceSet, End, Entry, Record};

/// Coins at each of the acceptors.
#[derive(Clone, Copy, PartialEq, Eq)]
pub(crate) struct AtAcceptors {
    pub(crate) at_2: u64,
    pub(crate) at_5: u64,
}

impl AtAcceptors {
    pub(crate) const NONE: AtAcceptors = AtAcceptors { at_2: 0, at_5: 0 };

    /// How many coins there are at an address.
    fn of(&self, addr: u8) -> u64 {
        match addr {
            2 => self.at_2,
            5 => self.at_5,
            _ => 0,
        }
    }

    /// So many coins more at an address.
    pub(crate) fn add(&mut self, addr: u8, coins: u64) {
        match addr {
            2 => self.at_2 = self.at_2.saturating_add(coins),
            5 => self.at_5 = self.at_5.saturating_add(coins),
            _ => {}
        }
    }
}

/// Coins of each of six orders, whose ids are 1 to 6.
#[derive(Clone, Copy, PartialEq, Eq)]
pub(crate) struct OfOrders {
    pub(crate) coins: [u64; 6],
}

impl OfOrders {
    pub(crate) const NONE: OfOrders = OfOrders { coins: [0; 6] };

    /// How many coins there are of the order with an id.
    fn of(&self, id: u32) -> u64 {
        match self.coins.get(id.saturating_sub(1) as usize) {
            Some(coins) => *coins,
            None => 0,
        }
    }

    /// So many coins more of the order with an id.
    pub(crate) fn add(&mut self, id: u32, coins: u64) {
        if let Some(of_order) = self.coins.get_mut(id.saturating_sub(1) as usize) {
            *of_order = of_order.saturating_add(coins);
        }
    }
}

/// How many jobs ended in which way.
#[derive(Clone, Copy, PartialEq, Eq)]
pub(crate) struct Ends {
    /// An epoch began, and the acceptor took its inhibit mask; or it isn't known whether it did.
    pub(crate) started: u64,
    pub(crate) unsure: u64,
    /// A round posted coins.
    pub(crate) posted: u64,
    /// A path of place 1 was set.
    pub(crate) paths: u64,
    /// An order was closed.
    pub(crate) closed: u64,
    /// A device said all of itself.
    pub(crate) told: u64,
    /// Devices that a scan listed under the CRC.
    pub(crate) listed: u64,
    /// An epoch was ended.
    pub(crate) stopped: u64,
    /// A job ended in another way.
    pub(crate) other: u64,
}

impl Ends {
    pub(crate) const NONE: Ends = Ends {
        started: 0,
        unsure: 0,
        posted: 0,
        paths: 0,
        closed: 0,
        told: 0,
        listed: 0,
        stopped: 0,
        other: 0,
    };

    /// A job more ended.
    fn add(&mut self, addr: u8, end: &End) {
        match end {
            End::Started => raise(&mut self.started),
            End::StartUnsure => raise(&mut self.unsure),
            End::Posted => raise(&mut self.posted),
            End::PathSet { place: 1, path } if *path == path_at(addr) => raise(&mut self.paths),
            End::Closed => raise(&mut self.closed),
            End::Told => raise(&mut self.told),
            End::Listed(listed) => self.list(&listed.simple, &listed.crc),
            End::Stopped => raise(&mut self.stopped),
            _ => raise(&mut self.other),
        }
    }

    /// A scan listed these devices.
    fn list(&mut self, simple: &DeviceSet, crc: &DeviceSet) {
        for addr in 0..=255 {
            if simple.has(addr) {
                raise(&mut self.other);
            }
            if crc.has(addr) {
                raise(&mut self.listed);
            }
        }
    }
}

/// One more.
pub(crate) fn raise(count: &mut u64) {
    *count = count.saturating_add(1);
}

/// The sorter path that a day sets at the acceptor at an address.
pub(crate) fn path_at(addr: u8) -> u8 {
    if addr == 2 { 3 } else { 4 }
}

/// What came of a run.
#[derive(Clone, Copy, PartialEq, Eq)]
pub(crate) struct Account {
    /// In how many exchanges another reply was heard than that to the message, and in how many
    /// none, though one was given.
    pub(crate) mistaken: u64,
    pub(crate) missed: u64,
    /// How many commands were refused.
    pub(crate) refused: u64,
    /// How many coins were accepted, how many the records post, and how many they report as lost.
    pub(crate) accepted: AtAcceptors,
    pub(crate) posted: AtAcceptors,
    pub(crate) lost: u64,
    /// How many coins fell for each order, and with how many each was closed.
    pub(crate) fallen: OfOrders,
    pub(crate) paid: OfOrders,
    pub(crate) ends: Ends,
    /// How many readings posted coins that their acceptor hadn't accepted, and how many orders were
    /// closed with another number of coins than had fallen.
    pub(crate) posted_wrong: u64,
    pub(crate) closed_wrong: u64,
    /// What the host has, in units of value.
    pub(crate) available: u64,
    pub(crate) reserved: u64,
}

impl Account {
    /// Nothing came yet.
    pub(crate) const NONE: Account = Account {
        mistaken: 0,
        missed: 0,
        refused: 0,
        accepted: AtAcceptors::NONE,
        posted: AtAcceptors::NONE,
        lost: 0,
        fallen: OfOrders::NONE,
        paid: OfOrders::NONE,
        ends: Ends::NONE,
        posted_wrong: 0,
        closed_wrong: 0,
        available: 0,
        reserved: 0,
    };

    /// An entry counts, of an attempt over this wire.
    pub(crate) fn add(&mut self, wire: &Wire<'_>, entry: &Entry) {
        match entry {
            Entry::Wire { sent, heard, .. } => {
                self.add_exchange(wire, sent.as_slice(), heard.as_slice())
            }
            Entry::Put(record) => self.add_record(record),
            Entry::Ended { addr, end } => self.ends.add(*addr, end),
            _ => {}
        }
    }

    /// The last exchange over this wire counts.
    fn add_exchange(&mut self, wire: &Wire<'_>, sent: &[u8], heard: &[u8]) {
        if heard != wire.answered() {
            if heard == sent {
                raise(&mut self.missed);
            } else {
                raise(&mut self.mistaken);
            }
        }
    }

    /// A record counts.
    fn add_record(&mut self, record: &Record) {
        self.lost = self.lost.saturating_add(u64::from(record.lost()));
        match record {
            Record::Reading { addr, posted, .. } => self.post(
                *addr,
                posted.as_slice().len() as u64,
            ),
            Record::Broken { addr, posted, .. } => self.post(*addr, posted.as_slice().len() as u64),
            Record::Closed { id, paid, .. } => self.close(*id, u64::from(*paid)),
            _ => {}
        }
    }

    /// So many coins of the acceptor at an address are posted.
    fn post(&mut self, addr: u8, coins: u64) {
        self.posted.add(addr, coins);
        if self.posted.of(addr) > self.accepted.of(addr) {
            raise(&mut self.posted_wrong);
        }
    }

    /// An order is closed with so many coins.
    fn close(&mut self, id: u32, coins: u64) {
        self.paid.add(id, coins);
        if self.paid.of(id) != self.fallen.of(id) {
            raise(&mut self.closed_wrong);
        }
    }
}
