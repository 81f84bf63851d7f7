//! What the records say of one address.
ghost use Rattle.std.specs.Prelude.{◌≡◌, ◌+◌, ◌-◌, ◌^◌, ℕ};
ghost use Rattle.cct_model.specs.Order.{order_by};
ghost use Rattle.cct_model.specs.Sums.{coins_paid};
ghost use Rattle.cct_bench_state.specs.Account.{IsWithin, account_in, account_with, has_order};

use cct_journal_carry::{epoch_by, epoch_held, order_held};
use cct_model::{Carry, EpochState, OpenOrder, Record};

/// The epoch and the open order at an address, and how many coins were posted, recorded as lost,
/// and paid there since the journal last turned.
#[derive(Clone, Copy)]
pub(crate) struct Account {
    pub(crate) addr: u8,
    pub(crate) epoch: EpochState,
    pub(crate) order: Option<OpenOrder>,
    pub(crate) posted: u64,
    pub(crate) lost: u64,
    pub(crate) paid: u64,
}

impl Default for Account {
    ghost use Rattle.cct_model.specs.Carried.{empty_carry};
    ghost use Rattle.cct_bench_state.specs.Account.{account_in};

    ghost is_default = { λ account. account ≡ account_in empty_carry 0 };

    fn default() -> Self {
        Account {
            addr: 0,
            epoch: EpochState::Idle,
            order: None,
            posted: 0,
            lost: 0,
            paid: 0,
        }
    }
}

impl Account {
    /// What a carry says of an address: nothing came there since.
    pub(crate) fn of(carry: &Carry, addr: u8) -> Account
        ensures { result ≡ account_in carry.now addr }
    {
        Account {
            addr,
            epoch: epoch_held(carry, addr),
            order: order_held(carry, addr),
            posted: 0,
            lost: 0,
            paid: 0,
        }
    }

    /// The account with one record more, by which no sum grows by more than 2^32.
    pub(crate) fn with(self, entry: &Record) -> Account
        requires { IsWithin (2 ^ 32 - 2) self }
        ensures value { result ≡ account_with entry.now self }
        ensures within { (many : ℕ) → IsWithin many self → IsWithin (many + 1) result }
    {
        Account {
            addr: self.addr,
            epoch: epoch_by(entry, self.epoch),
            order: order_by(entry, self.order),
            posted: self.posted + entry.posted().len() as u64,
            lost: self.lost + u64::from(entry.lost()),
            paid: self.paid + u64::from(coins_paid(entry)),
        }
    }

    /// Whether the order with this id is open.
    pub(crate) fn has_order(&self, id: u32) -> bool
        ensures { result ≡ has_order id self.now }
    {
        match self.order {
            Some(order) => order.id == id,
            None => false,
        }
    }
}

/// The open order after a record of its address.
fn order_by(entry: &Record, before: Option<OpenOrder>) -> Option<OpenOrder>
    ensures { result ≡ order_by entry.now before }
{
    match entry {
        Record::Opened {
            id,
            addr,
            count,
            life,
        } => Some(OpenOrder {
            id: *id,
            addr: *addr,
            count: *count,
            life: *life,
        }),
        Record::Closed { .. } => None,
        Record::Odd { .. } => None,
        _ => before,
    }
}

/// How many coins a record reports as paid.
fn coins_paid(entry: &Record) -> u8
    ensures { result ≡ coins_paid entry.now }
{
    match entry {
        Record::Closed { paid, .. } => *paid,
        _ => 0,
    }
}
