//! Hoppers and open orders, looked up by their places in a setup.
ghost use Rattle.std.specs.Prelude.{◌≡◌, ◌<◌, None, false, length, map, IfNone, IfSome, slice_set};
ghost use Rattle.std.specs.List.{position};
ghost use Rattle.cct_model.specs.Exchange.{device_at, hopper_there};
ghost use Rattle.cct_model.specs.Setup.{AreDistinct};
ghost use Rattle.cct_ledger.specs.Orders.{Finds, IsHopperAt, has_id};

use arrayvec::ArrayVec;
use cct_model::{DEVICES, OpenOrder, Setup};

/// No open order for each device.
pub(crate) fn none_open(setup: &Setup) -> ArrayVec<Option<OpenOrder>, DEVICES>
    ensures { result.items ≡ map (λ d. None) setup.now.devices }
{
    let devices = setup.devices.as_slice();
    let mut orders = ArrayVec::new();
    for _device in devices {
        orders.push(None);
    }
    orders
}

/// The place of the hopper at an address, or none. The devices of a sound setup have an address
/// each, so none is a hopper there where the first device of the address is none.
#[tactic(auto, using(crate::proofs::Places::hopper_at, crate::proofs::Places::other_at, crate::proofs::Places::nothing_at))]
pub(crate) fn hopper_place(setup: &Setup, addr: u8) -> Option<usize>
    ensures found { IfSome result (IsHopperAt setup.now.devices addr) }
    ensures none { AreDistinct setup.now.devices
        → IfNone result (hopper_there (device_at setup.now.devices addr) ≡ false) }
    ensures within { IfSome result (λ place. place < length setup.now.devices) }
{
    let place = setup.devices.place_of(addr)?;
    let device = &setup.devices.as_slice()[place];
    if device.body.is_hopper() {
        Some(place)
    } else {
        None
    }
}

/// The place of the open order with an id and the order, or none.
pub(crate) fn opened(
    orders: &ArrayVec<Option<OpenOrder>, DEVICES>,
    id: u32,
) -> Option<(usize, OpenOrder)>
    ensures { Finds id orders.now.items result }
{
    let place = order_place(orders, id)?;
    let order = orders[place]?;
    Some((place, order))
}

/// Puts an open order, or none, in the place of what is there.
pub(crate) fn put_order(
    orders: &mut ArrayVec<Option<OpenOrder>, DEVICES>,
    place: usize,
    order: Option<OpenOrder>,
)
    requires { place < length orders.old.items }
    ensures { orders.new.items ≡ slice_set orders.old.items place order }
{
    orders[place] = order;
}

/// The place of the open order with an id, or none.
fn order_place(orders: &ArrayVec<Option<OpenOrder>, DEVICES>, id: u32) -> Option<usize>
    ensures first { result ≡ position (has_id id) orders.now.items }
    ensures within { IfSome result (λ place. place < length orders.now.items) }
{
    orders.iter().position(|order| has_id(order, id))
}

/// Whether it is an open order with this id.
fn has_id(order: &Option<OpenOrder>, id: u32) -> bool
    ensures { result ≡ has_id id order.now }
{
    match order {
        Some(order) => order.id == id,
        None => false,
    }
}
