//! What a host needs of all records before some of them: sums, the epochs that run and the orders
//! that are open.
ghost use Rattle.std.specs.Prelude.{◌≡◌, ◌<◌, ◌≤◌, [], ◌∷◌, ◌++◌, length, insert, remove};
ghost use Rattle.cct_model_wire.specs.declared.device.TheConstants.{DEVICES};
ghost use Rattle.cct_model_lines.specs.Carried.{empty_carry};

use crate::DEVICES;
use arrayvec::ArrayVec;
use std::alloc::AllocError;
use std::marker::Model;

/// An epoch that runs: its acceptor, its inhibit mask, the event counter of the last reading
/// recorded in it, or 0, and the accept counter of the last record in it, below 2^24.
#[derive(Clone, Copy, Debug, Default, PartialEq, Eq)]
pub struct CarryEpoch {
    pub addr: u8,
    pub mask: u16,
    pub counter: u8,
    pub accepts: u32,
}

/// An order that is open: its id, its hopper, how many coins it is for, and the life count of the
/// hopper that was read before, below 2^24.
#[derive(Clone, Copy, Debug, Default, PartialEq, Eq)]
pub struct CarryOrder {
    pub id: u32,
    pub addr: u8,
    pub count: u8,
    pub life: u32,
}

/// The epochs that run, in rising order of their addresses.
#[derive(Clone, Debug, Default, Drop, PartialEq, Eq)]
pub struct CarryEpochs {
    epochs: ArrayVec<CarryEpoch, DEVICES>,
}

impl Model for CarryEpochs {
    ghost use Rattle.std.specs.Prelude.{◌≤◌, List, length};
    ghost use Rattle.cct_model_wire.specs.declared.device.TheConstants.{DEVICES};
    ghost use Rattle.cct_model_lines.specs.declared.carry.CarryEpoch.{CarryEpoch};

    ghost Value = { List CarryEpoch };

    ghost view = { λ c. c.epochs.items };

    ghost invariant = { λ c. length c.epochs.items ≤ DEVICES };

    ghost inverse = { λ xs. record { epochs = record { items = xs } } };
}

impl CarryEpochs {
    /// No epoch.
    pub fn new() -> Self
        ensures { result ≡ [] }
    {
        CarryEpochs {
            epochs: ArrayVec::new(),
        }
    }

    /// Adds an epoch after the others.
    pub fn push(&mut self, epoch: CarryEpoch)
        requires { length self.old < DEVICES }
        ensures { self.new ≡ self.old ++ epoch ∷ [] }
    {
        self.epochs.push(epoch);
    }

    /// Adds an epoch at an index.
    pub fn insert(&mut self, index: usize, epoch: CarryEpoch)
        requires within { index ≤ length self.old }
        requires room { length self.old < DEVICES }
        ensures { self.new ≡ insert self.old index epoch }
    {
        self.epochs.insert(index, epoch);
    }

    /// Takes out the epoch at an index.
    pub fn remove(&mut self, index: usize)
        requires { index < length self.old }
        ensures { self.new ≡ remove self.old index }
    {
        self.epochs.remove(index);
    }

    /// The epochs, in rising order of their addresses.
    pub fn as_slice(&self) -> &[CarryEpoch]
        ensures value { result.now ≡ self.now }
        ensures few { length result.now ≤ DEVICES }
    {
        self.epochs.as_slice()
    }
}

/// The orders that are open, in rising order of the addresses of their hoppers.
#[derive(Clone, Debug, Default, Drop, PartialEq, Eq)]
pub struct CarryOrders {
    orders: ArrayVec<CarryOrder, DEVICES>,
}

impl Model for CarryOrders {
    ghost use Rattle.std.specs.Prelude.{◌≤◌, List, length};
    ghost use Rattle.cct_model_wire.specs.declared.device.TheConstants.{DEVICES};
    ghost use Rattle.cct_model_lines.specs.declared.carry.CarryOrder.{CarryOrder};

    ghost Value = { List CarryOrder };

    ghost view = { λ c. c.orders.items };

    ghost invariant = { λ c. length c.orders.items ≤ DEVICES };

    ghost inverse = { λ xs. record { orders = record { items = xs } } };
}

impl CarryOrders {
    /// No order.
    pub fn new() -> Self
        ensures { result ≡ [] }
    {
        CarryOrders {
            orders: ArrayVec::new(),
        }
    }

    /// Adds an order after the others.
    pub fn push(&mut self, order: CarryOrder)
        requires { length self.old < DEVICES }
        ensures { self.new ≡ self.old ++ order ∷ [] }
    {
        self.orders.push(order);
    }

    /// Adds an order at an index.
    pub fn insert(&mut self, index: usize, order: CarryOrder)
        requires within { index ≤ length self.old }
        requires room { length self.old < DEVICES }
        ensures { self.new ≡ insert self.old index order }
    {
        self.orders.insert(index, order);
    }

    /// Takes out the order at an index.
    pub fn remove(&mut self, index: usize)
        requires { index < length self.old }
        ensures { self.new ≡ remove self.old index }
    {
        self.orders.remove(index);
    }

    /// The orders, in rising order of the addresses of their hoppers.
    pub fn as_slice(&self) -> &[CarryOrder]
        ensures value { result.now ≡ self.now }
        ensures few { length result.now ≤ DEVICES }
    {
        self.orders.as_slice()
    }
}

/// What a host needs of all records before some of them (`docs/JOURNAL.md`, "The carry"). Values
/// are in units of the setup's values.
#[derive(Clone, Debug, Drop, PartialEq, Eq)]
pub struct Carry {
    /// The greatest id of an order or of a sale, 0 where none was used.
    pub last_id: u32,
    /// The value of all coins posted.
    pub value: u64,
    /// The value of all coins paid.
    pub paid_value: u64,
    /// The value of all coins of orders whose counts of life didn't fit.
    pub odd_value: u64,
    /// How many coins were posted.
    pub posted: u64,
    /// How many coins were lost.
    pub lost: u64,
    /// How many coins were paid.
    pub paid: u64,
    /// How many coins of orders weren't paid.
    pub unpaid: u64,
    /// The sum of all prices.
    pub sold: u64,
    /// The epochs that run.
    pub epochs: CarryEpochs,
    /// The orders that are open.
    pub orders: CarryOrders,
}

impl Carry {
    /// The carry of no record.
    pub fn empty() -> Carry
        ensures { result ≡ empty_carry }
    {
        Carry {
            last_id: 0,
            value: 0,
            paid_value: 0,
            odd_value: 0,
            posted: 0,
            lost: 0,
            paid: 0,
            unpaid: 0,
            sold: 0,
            epochs: CarryEpochs::new(),
            orders: CarryOrders::new(),
        }
    }

    /// The same carry once more. It takes no memory, so it can't fail as `clone` could.
    pub fn copied(&self) -> Carry
        ensures { result ≡ self.now }
    {
        let copy: Result<Carry, AllocError> = self.clone();
        copy.unwrap()
    }
}
