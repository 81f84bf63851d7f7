//! What a ledger begins with: the open orders of a carry, at the devices of a setup.
ghost use Rattle.std.specs.Prelude.{◌≡◌, map};
ghost use Rattle.cct_model.specs.Carry.{order_held};

use arrayvec::ArrayVec;
use cct_journal_carry::order_held;
use cct_model::{Carry, DEVICES, OpenOrder, Setup};

/// The open order of each device by a carry.
pub(crate) fn open_orders(setup: &Setup, carry: &Carry) -> ArrayVec<Option<OpenOrder>, DEVICES>
    ensures { result.items ≡ map (λ d. order_held d.addr carry.now) setup.now.devices }
{
    let devices = setup.devices.as_slice();
    let mut orders = ArrayVec::new();
    for device in devices {
        orders.push(order_held(carry, device.addr));
    }
    orders
}
