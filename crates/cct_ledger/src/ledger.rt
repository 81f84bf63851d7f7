//! The ledger: what became of the money of all coins posted.
ghost use Rattle.std.specs.Prelude.{◌≡◌, ◌+◌, ◌-◌, ◌*◌, ◌^◌, ◌<◌, ◌≤◌, ◌==◌, ◌&&◌, nat_le, not};
ghost use Rattle.std.specs.Prelude.{true, false};
ghost use Rattle.std.specs.Prelude.{ℕ, List, [], None, length, sum_by, is_ok, is_none};
ghost use Rattle.std.specs.Prelude.{slice_index_or};
ghost use Rattle.std.specs.List.{list_any};
ghost use Rattle.cct_model.specs.lines.record.Record.{Record};
ghost use Rattle.cct_model.specs.lines.record.Record.TheVariants as record_of;
ghost use Rattle.cct_model.specs.Exchange.{device_at};
ghost use Rattle.cct_model.specs.Setup.{IsSoundSetup};
ghost use Rattle.cct_model.specs.Money.{available_beside, place_value, amount, posted_in};
ghost use Rattle.cct_ledger.specs.Told.{totals_beside, is_of_money};
ghost use Rattle.cct_model.specs.Carried.{IsRightly};
ghost use Rattle.cct_model.specs.Carry.{Fits};
ghost use Rattle.cct_model.specs.Carry as carries;
ghost use Rattle.cct_model.specs.Following.{all_follow};
ghost use Rattle.cct_ledger.specs.Orders.{has_id};

use crate::lookup::{hopper_place, none_open, opened, put_order};
use crate::resumed::open_orders;
use arrayvec::ArrayVec;
use cct_journal_carry::{available, coins_of, coins_value, owed};
use cct_model::{Carry, Coins, DEVICES, OpenOrder, Record, Setup, Totals};
use thiserror::Error;

/// A record of an order or of a sale that doesn't follow those applied before, or that takes more
/// than is available.
#[derive(Clone, Copy, Debug, Error, PartialEq, Eq)]
#[error("the record doesn't follow those before it")]
pub struct NotAllowed;

/// What the operator has, in units of value (`docs/DEFINITIONS.md`, `specs/Money.antt` of
/// `cct_model`).
///
/// A contract shows a ledger by the list of all records that it took, newest first, and by how much
/// was reserved beside them and isn't released. It takes no memory.
#[derive(Drop)]
pub struct Ledger<'s> {
    setup: &'s Setup,
    /// How many records were applied. Each posts five coins at most, of less than 2^32 together, so
    /// their number bounds every sum.
    records: u32,
    /// The open order of each device of the setup, in its order.
    orders: ArrayVec<Option<OpenOrder>, DEVICES>,
    available: u64,
    /// What orders reserve: those that are open, and those whose counts of life didn't fit them.
    owed: u64,
    /// What is reserved by [`Ledger::reserve`].
    reserved: u64,
    paid: u64,
    sold: u64,
    ghost places: { length orders.items ≡ length setup.now.devices },
    ghost values: { (addr place : ℕ) → place_value (device_at setup.now.devices addr) place ≤ 1000000 },
    ghost owes: { sum_by (amount setup.now) orders.items ≤ owed },
    ghost fits: { available + owed + reserved + paid + sold ≤ 2 ^ 32 * records },
}

impl<'s> Ledger<'s> {
    ghost use Rattle.cct_ledger.specs.Resumed.{IsResumed};
    ghost use Rattle.cct_ledger.specs.Ledger.{StandsFor, GoesOn, Reserves, Takes, setup_of};
    ghost use Rattle.cct_ledger.specs.Ledger.{applied, available_of, reserved_of};

    /// The ledger over a setup before any record.
    pub fn new(setup: &'s Setup) -> Ledger<'s>
        requires sound { IsSoundSetup setup.now }
        ensures setup { setup_of result ≡ setup.now }
        ensures reserved { reserved_of result ≡ 0 }
        ensures counted { applied result ≡ 0 }
        ensures fresh { StandsFor result [] 0 }
    {
        Ledger {
            setup,
            records: 0,
            orders: none_open(setup),
            available: 0,
            owed: 0,
            reserved: 0,
            paid: 0,
            sold: 0,
        }
    }

    /// The ledger over a setup after `base` records, by their carry. They count as applied, and
    /// nothing is reserved beside them.
    pub fn resume(setup: &'s Setup, base: u32, carry: &Carry) -> Ledger<'s>
        requires sound { IsSoundSetup setup.now }
        requires rightly { IsRightly base carry.now }
        requires fits { Fits setup.now carry.now }
        ensures resumed { IsResumed setup.now base carry.now result }
        // If each of the records followed those before it, the ledger represents them.
        ensures stands { (before : List Record) → length before ≡ base → all_follow setup.now before ≡ true
            → carry.now ≡ carries.carry setup.now before → StandsFor result before 0 }
    {
        Ledger {
            setup,
            records: base,
            orders: open_orders(setup, carry),
            available: available(setup, carry),
            owed: owed(setup, carry.orders.as_slice()) + carry.odd_value,
            reserved: 0,
            paid: carry.paid_value,
            sold: carry.sold,
        }
    }

    /// Applies a record of the journal, of which fewer than 2^32 - 1 may have been applied before.
    ///
    /// A [`Record::Opened`], [`Record::Closed`], [`Record::Odd`] or [`Record::Sold`] is refused
    /// where it doesn't follow the records before it, or where what it takes isn't available beside
    /// all that is reserved. A closed order pays the coins that fell and frees the others; an order
    /// whose counts of life don't fit it stays reserved.
    ///
    /// A record of another kind is taken whether it follows or not. Each coin or bill that it posts
    /// has the value of its place at the device of that address, and none where the place has no
    /// value or no device that takes money is there.
    pub fn apply(&mut self, entry: &Record) -> Result<(), NotAllowed>
        requires few { applied self.old < 2 ^ 32 - 1 }
        ensures takes { Takes self.old self.new entry.now result }
        // A record that posts coins, begins an epoch or ends one is taken whether it follows or
        // not.
        ensures others { is_of_money entry.now ≡ false → is_ok result ≡ true }
    {
        match entry {
            Record::Epoch { .. } => {
                self.records += 1;
                Ok(())
            }
            Record::Reading { addr, posted, .. } => {
                self.post(*addr, posted);
                Ok(())
            }
            Record::Broken { addr, posted, .. } => {
                self.post(*addr, posted);
                Ok(())
            }
            Record::EpochEnd { .. } => {
                self.records += 1;
                Ok(())
            }
            Record::Opened {
                id,
                addr,
                count,
                life,
            } => self.open(OpenOrder {
                id: *id,
                addr: *addr,
                count: *count,
                life: *life,
            }),
            Record::Closed { id, paid, unpaid } => self.close(*id, *paid, *unpaid),
            Record::Odd { id, .. } => self.set_aside(*id),
            Record::Sold { id, price } => self.sell(*id, *price),
        }
    }

    /// What is available: the value of all coins posted, less what is reserved, paid and sold.
    pub fn available(&self) -> u64
        ensures value { result ≡ available_of self.now }
        ensures stands { (before : List Record) (beside : ℕ) → StandsFor self.now before beside
            → result ≡ available_beside (setup_of self.now) before beside }
    {
        self.available
    }

    /// Reserves what is available, for a payment or a sale whose record is still to be put.
    pub fn reserve(&mut self, amount: u64)
        requires { amount ≤ available_of self.old }
        ensures { Reserves (available_of self.old - amount) (reserved_of self.old + amount)
            (λ beside. beside + amount) self.old self.new }
    {
        self.available -= amount;
        self.reserved += amount;
    }

    /// Frees what was reserved: before the record is applied that takes it, or where no such record
    /// comes.
    pub fn release(&mut self, amount: u64)
        requires { amount ≤ reserved_of self.old }
        ensures { Reserves (available_of self.old + amount) (reserved_of self.old - amount)
            (λ beside. beside - amount) self.old self.new }
    {
        self.reserved -= amount;
        self.available += amount;
    }

    /// What is available, reserved, paid and sold. What is reserved are the amounts of open orders
    /// and of those whose counts of life didn't fit, and what is reserved by [`Ledger::reserve`].
    pub fn totals(&self) -> Totals
        ensures stands { (before : List Record) (beside : ℕ) → StandsFor self.now before beside
            → result ≡ totals_beside (setup_of self.now) before beside }
        // Together it is the value of all coins posted.
        ensures whole { (before : List Record) (beside : ℕ) → StandsFor self.now before beside
            → result.available + result.reserved + result.paid + result.sold ≡ posted_in (setup_of self.now) before }
    {
        Totals {
            available: self.available,
            reserved: self.owed + self.reserved,
            paid: self.paid,
            sold: self.sold,
        }
    }

    /// Posts coins or bills that the device at an address took.
    fn post(&mut self, addr: u8, coins: &Coins)
        requires few { applied self.old < 2 ^ 32 - 1 }
        ensures setup { setup_of self.new ≡ setup_of self.old }
        ensures reserved { reserved_of self.new ≡ reserved_of self.old }
        ensures counted { applied self.new ≡ applied self.old + 1 }
        ensures reading { (counter lost accepts : ℕ)
            → GoesOn self.old self.new (record_of.Reading addr counter lost accepts coins.now) }
        ensures broken { (seen counter lost accepts : ℕ)
            → GoesOn self.old self.new (record_of.Broken addr seen counter lost accepts coins.now) }
    {
        self.available += coins_value(self.setup, addr, coins.as_slice());
        self.records += 1;
    }

    /// Opens an order at a hopper that has none, where its coins are available.
    fn open(&mut self, order: OpenOrder) -> Result<(), NotAllowed>
        requires few { applied self.old < 2 ^ 32 - 1 }
        ensures { Takes self.old self.new
            (record_of.Opened order.id order.addr order.count order.life) result }
    {
        let Some(place) = hopper_place(self.setup, order.addr) else {
            return Err(NotAllowed);
        };
        let amount = coins_of(self.setup, order.addr, order.count);
        if !self.may_open(place, &order, amount) {
            return Err(NotAllowed);
        }
        self.available -= amount;
        self.owed += amount;
        put_order(&mut self.orders, place, Some(order));
        self.records += 1;
        Ok(())
    }

    /// Closes an open order: the coins that fell are paid, and the others are available again.
    fn close(&mut self, id: u32, paid: u8, unpaid: u8) -> Result<(), NotAllowed>
        requires few { applied self.old < 2 ^ 32 - 1 }
        ensures { Takes self.old self.new (record_of.Closed id paid unpaid) result }
    {
        let Some((place, order)) = opened(&self.orders, id) else {
            return Err(NotAllowed);
        };
        if u16::from(paid) + u16::from(unpaid) != u16::from(order.count) {
            return Err(NotAllowed);
        }
        self.owed -= coins_of(self.setup, order.addr, order.count);
        self.paid += coins_of(self.setup, order.addr, paid);
        self.available += coins_of(self.setup, order.addr, unpaid);
        put_order(&mut self.orders, place, None);
        self.records += 1;
        Ok(())
    }

    /// Closes an open order whose counts of life don't fit it: its amount stays reserved.
    fn set_aside(&mut self, id: u32) -> Result<(), NotAllowed>
        requires few { applied self.old < 2 ^ 32 - 1 }
        ensures { (life_before life_after : ℕ)
            → Takes self.old self.new (record_of.Odd id life_before life_after) result }
    {
        let Some((odd_place, _order)) = opened(&self.orders, id) else {
            return Err(NotAllowed);
        };
        put_order(&mut self.orders, odd_place, None);
        self.records += 1;
        Ok(())
    }

    /// Sells something for what is available.
    fn sell(&mut self, id: u32, price: u32) -> Result<(), NotAllowed>
        requires few { applied self.old < 2 ^ 32 - 1 }
        ensures { Takes self.old self.new (record_of.Sold id price) result }
    {
        let price = u64::from(price);
        if id == 0 || price == 0 || self.available < price {
            return Err(NotAllowed);
        }
        self.available -= price;
        self.sold += price;
        self.records += 1;
        Ok(())
    }

    /// Whether an order whose coins are worth this may be opened at the place of its hopper.
    fn may_open(&self, place: usize, order: &OpenOrder, amount: u64) -> bool
        requires { place < length self.now.orders.items }
        ensures { result ≡ (is_none (slice_index_or self.now.orders.items place None) && not (order.now.id == 0)
            && not (list_any (has_id order.now.id) self.now.orders.items) && not (order.now.count == 0)
            && nat_le amount self.now.available) }
    {
        self.orders[place].is_none()
            && order.id != 0
            && opened(&self.orders, order.id).is_none()
            && order.count != 0
            && amount <= self.available
    }
}
