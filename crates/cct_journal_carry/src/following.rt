//! Whether a record follows those of a carry.
ghost use Rattle.std.specs.Prelude.{◌≡◌, ℕ, ◌+◌, ◌≤◌, ◌<◌, ◌^◌, ◌==◌, ◌&&◌, nat_le, not, is_none};
ghost use Rattle.std.specs.Prelude.{is_some};
ghost use Rattle.cct_model.specs.Carry.{available_held, epoch_held, follows_carry, order_held};
ghost use Rattle.cct_model.specs.Carry.{order_with, owed_by};
ghost use Rattle.cct_model.specs.Exchange.{device_at, hopper_there, taker_there};
ghost use Rattle.cct_model.specs.Following.{count_of, has_values, is_running};
ghost use Rattle.cct_model.specs.Money.{coins_of};
ghost use Rattle.cct_journal_carry.specs.GoingOn.{IsCovered};

use crate::held::{epoch_held, order_held, order_with};
use crate::values::valueless;
use crate::worth::coins_of;
use cct_model::{Carry, CarryOrder, EpochState, Record, Setup};

/// Whether a record follows.
pub(crate) fn follows(setup: &Setup, carry: &Carry, entry: &Record) -> bool
    requires { IsCovered setup.now carry.now }
    ensures { result ≡ follows_carry setup.now carry.now entry.now }
{
    match entry {
        Record::Epoch { addr, mask, .. } => may_begin(setup, carry, *addr, *mask),
        Record::Reading { addr, .. } => epoch_runs(carry, *addr),
        Record::Broken { addr, .. } => epoch_runs(carry, *addr),
        Record::EpochEnd { addr } => epoch_runs(carry, *addr),
        Record::Opened {
            id,
            addr,
            count,
            ..
        } => may_open(setup, carry, *id, *addr, *count),
        Record::Closed { id, paid, unpaid } => may_close(carry, *id, *paid, *unpaid),
        Record::Odd { id, .. } => order_with(carry, *id).is_some(),
        Record::Sold { id, price } => may_sell(setup, carry, *id, *price),
    }
}

/// Whether an epoch with a mask may begin: at a device that takes money, with no running epoch, and
/// each place of the mask, which isn't 0, has a value.
fn may_begin(setup: &Setup, carry: &Carry, addr: u8, mask: u16) -> bool
    ensures { result
        ≡ (taker_there (device_at setup.now.devices addr) && not (is_running (epoch_held addr carry.now))
        && not (mask == 0) && has_values (device_at setup.now.devices addr) mask) }
{
    taker_there(setup, addr)
        && !epoch_runs(carry, addr)
        && mask != 0
        && has_values(setup, addr, mask)
}

/// Whether an epoch runs at an address.
fn epoch_runs(carry: &Carry, addr: u8) -> bool
    ensures { result ≡ is_running (epoch_held addr carry.now) }
{
    match epoch_held(carry, addr) {
        EpochState::Idle => false,
        EpochState::Running { .. } => true,
    }
}

/// Whether an order may be opened: at a hopper with no open order, with an id that isn't 0 and with
/// which none is open; and its coins, at least one, are available.
fn may_open(setup: &Setup, carry: &Carry, id: u32, addr: u8, count: u8) -> bool
    requires { IsCovered setup.now carry.now }
    ensures { result
        ≡ (hopper_there (device_at setup.now.devices addr) && is_none (order_held addr carry.now) && not (id == 0)
        && not (is_some (order_with id carry.now)) && not (count == 0)
        && nat_le (coins_of setup.now addr count) (available_held setup.now carry.now 0)) }
{
    hopper_there(setup, addr)
        && order_held(carry, addr).is_none()
        && id != 0
        && order_with(carry, id).is_none()
        && count != 0
        && coins_of(setup, addr, count) <= available(setup, carry)
}

/// Whether the order with an id may be closed: it is open, and its coins are then paid or unpaid.
fn may_close(carry: &Carry, id: u32, paid: u8, unpaid: u8) -> bool
    ensures { result
        ≡ (is_some (order_with id carry.now) && (paid + unpaid == count_of (order_with id carry.now))) }
{
    match order_with(carry, id) {
        Some(order) => u16::from(paid) + u16::from(unpaid) == u16::from(order.count),
        None => false,
    }
}

/// Whether something may be sold: its id and its price aren't 0, and the price is available.
fn may_sell(setup: &Setup, carry: &Carry, id: u32, price: u32) -> bool
    requires { IsCovered setup.now carry.now }
    ensures { result
        ≡ (not (id == 0) && not (price == 0) && nat_le price (available_held setup.now carry.now 0)) }
{
    id != 0 && price != 0 && u64::from(price) <= available(setup, carry)
}

/// What is available by a carry: the value posted, less what was paid and sold, what open orders
/// reserve, and what stays reserved of those whose counts of life didn't fit.
pub fn available(setup: &Setup, carry: &Carry) -> u64
    requires { IsCovered setup.now carry.now }
    ensures { result ≡ available_held setup.now carry.now 0 }
{
    let earned = carry.value - carry.paid_value - carry.odd_value - carry.sold;
    earned - owed(setup, carry.orders.as_slice())
}

/// The amounts of open orders.
pub fn owed(setup: &Setup, orders: &[CarryOrder]) -> u64
    requires { owed_by setup.now orders.now < 2 ^ 64 }
    ensures { result ≡ owed_by setup.now orders.now }
{
    let mut owed = 0;
    for order in orders {
        owed += coins_of(setup, order.addr, order.count);
    }
    owed
}

/// Whether a device that takes money is at an address.
pub(crate) fn taker_there(setup: &Setup, addr: u8) -> bool
    ensures { result ≡ taker_there (device_at setup.now.devices addr) }
{
    match setup.device_at(addr) {
        Some(device) => device.body.takes_money(),
        None => false,
    }
}

/// Whether a hopper is at an address.
pub(crate) fn hopper_there(setup: &Setup, addr: u8) -> bool
    ensures { result ≡ hopper_there (device_at setup.now.devices addr) }
{
    match setup.device_at(addr) {
        Some(device) => device.body.is_hopper(),
        None => false,
    }
}

/// Whether each place of a mask has a value at the device at an address.
fn has_values(setup: &Setup, addr: u8, mask: u16) -> bool
    ensures { result ≡ has_values (device_at setup.now.devices addr) mask }
{
    match setup.device_at(addr) {
        Some(device) => valueless(&device.body, mask).is_none(),
        None => false,
    }
}
