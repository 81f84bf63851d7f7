//! Whether a carry fits a setup.
ghost use Rattle.std.specs.Prelude.{◌≡◌, ◌+◌, ◌==◌, nat_le, not, All};
ghost use Rattle.std.specs.List.{list_all};
ghost use Rattle.cct_model.specs.Carried.{OrderFits};
ghost use Rattle.cct_model.specs.Exchange.{device_at, hopper_there, taker_there};
ghost use Rattle.cct_model.specs.Setup.{IsSoundSetup};
ghost use Rattle.cct_journal_carry.specs.Tests as tests;

use crate::following::{hopper_there, owed, taker_there};
use cct_model::{Carry, CarryEpoch, CarryOrder, Setup};

/// Whether a carry fits a setup: its epochs are of devices that take money and its orders of
/// hoppers, no id is above the last one and none stands twice, and the value posted covers what was
/// paid and sold and what is reserved.
pub(crate) fn fits(setup: &Setup, carry: &Carry) -> bool
    requires sound { IsSoundSetup setup.now }
    requires orders { All OrderFits carry.now.orders }
    ensures { result ≡ tests.fits setup.now carry.now }
{
    let orders = carry.orders.as_slice();
    are_of_takers(setup, carry.epochs.as_slice())
        && are_of_hoppers(setup, orders)
        && are_known(orders, carry.last_id)
        && are_apart(orders)
        && covers(setup, carry)
}

/// Whether each epoch is of a device that takes money.
fn are_of_takers(setup: &Setup, epochs: &[CarryEpoch]) -> bool
    ensures { result ≡ list_all (λ e. taker_there (device_at setup.now.devices e.addr)) epochs.now }
{
    epochs.iter().all(|epoch| taker_there(setup, epoch.addr))
}

/// Whether each order is of a hopper.
fn are_of_hoppers(setup: &Setup, orders: &[CarryOrder]) -> bool
    ensures { result ≡ list_all (λ o. hopper_there (device_at setup.now.devices o.addr)) orders.now }
{
    orders.iter().all(|order| hopper_there(setup, order.addr))
}

/// Whether no id is above the last one.
fn are_known(orders: &[CarryOrder], last_id: u32) -> bool
    ensures { result ≡ list_all (λ o. nat_le o.id last_id) orders.now }
{
    orders.iter().all(|order| order.id <= last_id)
}

/// Whether no two orders have one id.
fn are_apart(orders: &[CarryOrder]) -> bool
    ensures { result ≡ tests.are_apart orders.now }
{
    match orders {
        [] => true,
        [first, later @ ..] => has_none(later, first.id) && are_apart(later),
    }
}

/// Whether no order has an id.
fn has_none(orders: &[CarryOrder], id: u32) -> bool
    ensures { result ≡ list_all (λ other. not (other.id == id)) orders.now }
{
    orders.iter().all(|order| order.id != id)
}

/// Whether the value posted covers what was paid and sold and what is reserved.
fn covers(setup: &Setup, carry: &Carry) -> bool
    requires sound { IsSoundSetup setup.now }
    requires orders { All OrderFits carry.now.orders }
    ensures { result ≡ tests.covers setup.now carry.now }
{
    let owed = owed(setup, carry.orders.as_slice());
    is_covered(
        carry.value,
        carry.paid_value,
        carry.odd_value,
        carry.sold,
        owed,
    )
}

/// Whether a value covers four others.
fn is_covered(value: u64, paid: u64, odd: u64, sold: u64, owed: u64) -> bool
    ensures { result ≡ nat_le (paid + odd + sold + owed) value }
{
    let spoken_for = u128::from(paid) + u128::from(odd) + u128::from(sold) + u128::from(owed);
    spoken_for <= u128::from(value)
}
