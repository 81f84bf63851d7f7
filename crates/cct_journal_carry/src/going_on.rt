//! A carry goes on by one more record, which follows.
ghost use Rattle.std.specs.Prelude.{◌≡◌, ◌+◌, ◌<◌, ◌≤◌, ◌^◌, max, length, Some, None};
ghost use Rattle.cct_model.specs.terms.coin.TheConstants.{EVENTS};
ghost use Rattle.cct_model.specs.terms.device.TheConstants.{DEVICES};
ghost use Rattle.cct_model.specs.Carried.{addr_of_epoch, addr_of_order, set_with};
ghost use Rattle.cct_model.specs.Carry.{carry_with, epoch_entry, epoch_held, order_entry};
ghost use Rattle.cct_model.specs.Carry.{order_with};
ghost use Rattle.cct_model.specs.declared.judging.EpochState.TheVariants.{Running};
ghost use Rattle.cct_model.specs.Exchange.{device_at};
ghost use Rattle.cct_model.specs.Job.{counted};
ghost use Rattle.cct_model.specs.Money as money;
ghost use Rattle.cct_model.specs.Records as records;
ghost use Rattle.cct_record.specs.Body.{Encodable};
ghost use Rattle.cct_journal_carry.specs.GoingOn.{CanGoOn, IsInReach};

use crate::entries::{set_epoch, set_order};
use crate::held::{epoch_held, order_with};
use crate::worth::{coins_of, coins_value};
use cct_model::{Carry, CarryEpoch, CarryOrder, Coin, EpochState, OpenOrder, Record, Setup};

/// Goes on by a record.
pub(crate) fn go_on(setup: &Setup, carry: &mut Carry, entry: &Record)
    requires can { CanGoOn setup.now carry.old entry.now }
    requires encodable { Encodable entry.now }
    ensures next { carry.new ≡ carry_with setup.now entry.now carry.old }
    ensures in_reach { IsInReach entry.now }
{
    match entry {
        Record::Epoch {
            addr,
            mask,
            accepts,
        } => begin(carry, *addr, *mask, *accepts),
        Record::Reading {
            addr,
            counter,
            lost,
            accepts,
            posted,
        } => {
            post(setup, carry, *addr, posted.as_slice(), *lost);
            read(carry, *addr, *counter, *accepts);
        }
        Record::Broken {
            addr,
            lost,
            posted,
            ..
        } => {
            post(setup, carry, *addr, posted.as_slice(), *lost);
            end(carry, *addr);
        }
        Record::EpochEnd { addr } => end(carry, *addr),
        Record::Opened {
            id,
            addr,
            count,
            life,
        } => open(
            carry,
            OpenOrder {
                id: *id,
                addr: *addr,
                count: *count,
                life: *life,
            },
        ),
        Record::Closed { id, paid, unpaid } => close(setup, carry, *id, *paid, *unpaid),
        Record::Odd { id, .. } => set_aside(setup, carry, *id),
        Record::Sold { id, price } => sell(carry, *id, *price),
    }
}

/// An epoch begins at an address, with an accept counter.
fn begin(carry: &mut Carry, addr: u8, mask: u16, accepts: u32)
    requires { length (set_with addr_of_epoch addr (epoch_entry addr (Running mask 0 accepts))
        carry.old.epochs) ≤ DEVICES }
    ensures { carry.new
        ≡ record carry.old {
          epochs = set_with addr_of_epoch addr (epoch_entry addr (Running mask 0 accepts)) carry.old.epochs;
        } }
{
    let epoch = CarryEpoch {
        addr,
        mask,
        counter: 0,
        accepts,
    };
    set_epoch(&mut carry.epochs, addr, Some(epoch));
}

/// Coins are posted that the device at an address took, and so many others recorded as lost.
fn post(setup: &Setup, carry: &mut Carry, addr: u8, coins: &[Coin], lost: u32)
    requires few { length coins.now ≤ EVENTS }
    requires value { carry.old.value + money.coins_value (device_at setup.now.devices addr)
        coins.now < 2 ^ 64 }
    requires posted { carry.old.posted + length coins.now < 2 ^ 64 }
    requires lost { carry.old.lost + lost < 2 ^ 64 }
    ensures { carry.new
        ≡ record carry.old {
          value = carry.old.value + money.coins_value (device_at setup.now.devices addr) coins.now;
          posted = carry.old.posted + length coins.now;
          lost = carry.old.lost + lost;
        } }
{
    carry.value += coins_value(setup, addr, coins);
    carry.posted += coins.len() as u64;
    carry.lost += u64::from(lost);
}

/// A reading moves the counters of the epoch at an address.
fn read(carry: &mut Carry, addr: u8, counter: u8, accepts: u32)
    requires { length (set_with addr_of_epoch addr
        (epoch_entry addr (counted counter accepts (epoch_held addr carry.old))) carry.old.epochs) ≤ DEVICES }
    ensures { carry.new
        ≡ record carry.old {
          epochs = set_with addr_of_epoch addr (epoch_entry addr (counted counter accepts (epoch_held addr carry.old)))
              carry.old.epochs;
        } }
{
    let epoch = counted(carry, addr, counter, accepts);
    set_epoch(&mut carry.epochs, addr, epoch);
}

/// The epoch at an address with other counters, or none.
fn counted(carry: &Carry, addr: u8, counter: u8, accepts: u32) -> Option<CarryEpoch>
    ensures { result ≡ epoch_entry addr (counted counter accepts (epoch_held addr carry.now)) }
{
    match epoch_held(carry, addr) {
        EpochState::Idle => None,
        EpochState::Running { mask, .. } => Some(CarryEpoch {
            addr,
            mask,
            counter,
            accepts,
        }),
    }
}

/// The epoch at an address ends.
fn end(carry: &mut Carry, addr: u8)
    requires { length (set_with addr_of_epoch addr None carry.old.epochs) ≤ DEVICES }
    ensures { carry.new ≡ record carry.old
        { epochs = set_with addr_of_epoch addr None carry.old.epochs } }
{
    set_epoch(&mut carry.epochs, addr, None);
}

/// An order is opened.
fn open(carry: &mut Carry, order: OpenOrder)
    requires { length (set_with addr_of_order order.addr (Some (order_entry order))
        carry.old.orders) ≤ DEVICES }
    ensures { carry.new
        ≡ record carry.old {
          last_id = max order.id carry.old.last_id;
          orders = set_with addr_of_order order.addr (Some (order_entry order)) carry.old.orders;
        } }
{
    let entry = CarryOrder {
        id: order.id,
        addr: order.addr,
        count: order.count,
        life: order.life,
    };
    carry.last_id = order.id.max(carry.last_id);
    set_order(&mut carry.orders, order.addr, Some(entry));
}

/// The order with an id is closed.
fn close(setup: &Setup, carry: &mut Carry, id: u32, paid: u8, unpaid: u8)
    requires paid_value { carry.old.paid_value
        + money.coins_of setup.now (records.hopper_of (order_with id carry.old)) paid < 2 ^ 64 }
    requires paid { carry.old.paid + paid < 2 ^ 64 }
    requires unpaid { carry.old.unpaid + unpaid < 2 ^ 64 }
    requires room { length (set_with addr_of_order (records.hopper_of (order_with id carry.old)) None carry.old.orders)
        ≤ DEVICES }
    ensures { carry.new
        ≡ record carry.old {
          paid_value = carry.old.paid_value
              + money.coins_of setup.now (records.hopper_of (order_with id carry.old)) paid;
          paid = carry.old.paid + paid;
          unpaid = carry.old.unpaid + unpaid;
          orders = set_with addr_of_order (records.hopper_of (order_with id carry.old)) None carry.old.orders;
        } }
{
    let addr = hopper_of(order_with(carry, id));
    carry.paid_value += coins_of(setup, addr, paid);
    carry.paid += u64::from(paid);
    carry.unpaid += u64::from(unpaid);
    set_order(&mut carry.orders, addr, None);
}

/// The order with an id is closed with life counts that don't fit, and its amount is set aside.
fn set_aside(setup: &Setup, carry: &mut Carry, id: u32)
    requires odd_value { carry.old.odd_value + money.amount setup.now (order_with id carry.old)
        < 2 ^ 64 }
    requires room { length (set_with addr_of_order (records.hopper_of (order_with id carry.old)) None carry.old.orders)
        ≤ DEVICES }
    ensures { carry.new
        ≡ record carry.old {
          odd_value = carry.old.odd_value + money.amount setup.now (order_with id carry.old);
          orders = set_with addr_of_order (records.hopper_of (order_with id carry.old)) None carry.old.orders;
        } }
{
    let order = order_with(carry, id);
    carry.odd_value += amount(setup, order);
    set_order(&mut carry.orders, hopper_of(order), None);
}

/// Something is sold.
fn sell(carry: &mut Carry, id: u32, price: u32)
    requires { carry.old.sold + price < 2 ^ 64 }
    ensures { carry.new ≡ record carry.old
        { last_id = max id carry.old.last_id; sold = carry.old.sold + price } }
{
    carry.last_id = id.max(carry.last_id);
    carry.sold += u64::from(price);
}

/// The address of an order, 0 of none.
fn hopper_of(order: Option<OpenOrder>) -> u8
    ensures { result ≡ records.hopper_of order }
{
    match order {
        Some(order) => order.addr,
        None => 0,
    }
}

/// What an order is worth, nothing of none.
fn amount(setup: &Setup, order: Option<OpenOrder>) -> u64
    ensures { result ≡ money.amount setup.now order }
{
    match order {
        Some(order) => coins_of(setup, order.addr, order.count),
        None => 0,
    }
}
