//! What is recorded of a desk's device, the epoch or the open order, by a carry.
ghost use Rattle.std.specs.Prelude.{◌≡◌, ◌≤◌, ℕ, None, length};
ghost use Rattle.std.specs.List.{All};
ghost use Rattle.cct_model.specs.terms.device.Setup.{Setup};
ghost use Rattle.cct_model.specs.Carried.{IsRightly};
ghost use Rattle.cct_model.specs.Carry as carries;
ghost use Rattle.cct_model.specs.Carry.{known_by};
ghost use Rattle.cct_jobs.specs.Jobs.{order_of};
ghost use Rattle.cct_host.specs.Replayed.{AllReplay, IsUnused};

use crate::desk::JobDesk;
use crate::orders::OrderState;
use arrayvec::ArrayVec;
use cct_jobs::Owed;
use cct_journal_carry::{epoch_held, order_held};
use cct_model::{Carry, DEVICES, DeviceSetup};

/// The desk of each device by a carry: no job is there.
pub(crate) fn resumed_desks(devices: &[DeviceSetup], carry: &Carry) -> ArrayVec<JobDesk, DEVICES>
    requires few { length devices.now ≤ DEVICES }
    requires rightly { (many : ℕ) × IsRightly many carry.now }
    ensures many { length result.items ≡ length devices.now }
    ensures unused { All IsUnused result.items }
    ensures resumed { (setup : Setup) → AllReplay devices.now result.items
        (known_by setup carry.now) }
{
    let mut desks = ArrayVec::new();
    for device in devices {
        desks.push(JobDesk::resume(device.addr, carry));
    }
    desks
}

impl JobDesk {
    /// The desk of the device at an address by a carry: no job is there.
    #[tactic(auto, using(crate::proofs::Counts::counted_in))]
    pub(crate) fn resume(addr: u8, carry: &Carry) -> Self
        requires rightly { (many : ℕ) × IsRightly many carry.now }
        ensures job { result.job ≡ None }
        ensures epoch { result.epoch ≡ carries.epoch_held addr carry.now }
        ensures order { order_of result.orders.order ≡ carries.order_held addr carry.now }
        ensures id { result.orders.id ≡ 0 }
        ensures begun { result.orders.begun ≡ None }
    {
        JobDesk {
            job: None,
            epoch: epoch_held(carry, addr),
            orders: OrderState {
                order: owed_held(carry, addr),
                id: 0,
                begun: None,
            },
        }
    }
}

/// The open order at an address by a carry, or none.
#[tactic(auto, using(crate::proofs::Replaying::held_life))]
fn owed_held(carry: &Carry, addr: u8) -> Option<Owed>
    requires rightly { (many : ℕ) × IsRightly many carry.now }
    ensures { order_of result ≡ carries.order_held addr carry.now }
{
    match order_held(carry, addr) {
        Some(order) => Some(Owed { order }),
        None => None,
    }
}
