//! The epochs and the orders of a carry, each in rising order of address.
ghost use Rattle.std.specs.Prelude.{◌≡◌, ◌≤◌, nat_lt, length, slice_get};
ghost use Rattle.std.specs.List.{prefix_len};
ghost use Rattle.cct_model.specs.terms.device.TheConstants.{DEVICES};
ghost use Rattle.cct_model.specs.Carried.{addr_of_epoch, addr_of_order, set_with};
ghost use Rattle.cct_journal_carry.specs.Places.{TakesOut, has_key};

use cct_model::{CarryEpoch, CarryEpochs, CarryOrder, CarryOrders};

/// Puts an epoch in the place of the one at an address, or takes that out.
pub(crate) fn set_epoch(epochs: &mut CarryEpochs, addr: u8, new: Option<CarryEpoch>)
    requires { length (set_with addr_of_epoch addr new epochs.old) ≤ DEVICES }
    ensures { epochs.new ≡ set_with addr_of_epoch addr new epochs.old }
{
    let index = take_out_epoch(epochs, addr);
    if let Some(epoch) = new {
        epochs.insert(index, epoch);
    }
}

/// Takes out the epoch at an address, and returns the index at which another one may be put in.
fn take_out_epoch(epochs: &mut CarryEpochs, addr: u8) -> usize
    ensures { TakesOut addr_of_epoch addr epochs.old result epochs.new }
{
    let index = epoch_place(epochs.as_slice(), addr);
    if epoch_is_at(epochs.as_slice(), index, addr) {
        epochs.remove(index);
    }
    index
}

/// How many epochs stand before the place of an address.
fn epoch_place(epochs: &[CarryEpoch], addr: u8) -> usize
    ensures { result ≡ prefix_len (λ epoch. nat_lt epoch.addr addr) epochs.now }
{
    epochs.iter().take_while(|epoch| epoch.addr < addr).count()
}

/// Whether the epoch at an index is of an address.
fn epoch_is_at(epochs: &[CarryEpoch], index: usize, addr: u8) -> bool
    ensures { result ≡ has_key addr_of_epoch addr (slice_get epochs.now index) }
{
    match epochs.get(index) {
        Some(epoch) => epoch.addr == addr,
        None => false,
    }
}

/// Puts an order in the place of the one at an address, or takes that out.
pub(crate) fn set_order(orders: &mut CarryOrders, addr: u8, new: Option<CarryOrder>)
    requires { length (set_with addr_of_order addr new orders.old) ≤ DEVICES }
    ensures { orders.new ≡ set_with addr_of_order addr new orders.old }
{
    let index = take_out_order(orders, addr);
    if let Some(order) = new {
        orders.insert(index, order);
    }
}

/// Takes out the order at an address, and returns the index at which another one may be put in.
fn take_out_order(orders: &mut CarryOrders, addr: u8) -> usize
    ensures { TakesOut addr_of_order addr orders.old result orders.new }
{
    let index = order_place(orders.as_slice(), addr);
    if order_is_at(orders.as_slice(), index, addr) {
        orders.remove(index);
    }
    index
}

/// How many orders stand before the place of an address.
fn order_place(orders: &[CarryOrder], addr: u8) -> usize
    ensures { result ≡ prefix_len (λ order. nat_lt order.addr addr) orders.now }
{
    orders.iter().take_while(|order| order.addr < addr).count()
}

/// Whether the order at an index is of an address.
fn order_is_at(orders: &[CarryOrder], index: usize, addr: u8) -> bool
    ensures { result ≡ has_key addr_of_order addr (slice_get orders.now index) }
{
    match orders.get(index) {
        Some(order) => order.addr == addr,
        None => false,
    }
}
