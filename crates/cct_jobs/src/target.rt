//! The device that a job asks, and what it replies.
ghost use Rattle.std.specs.Prelude.{◌≡◌, ◌<◌, Some, IsSome};
ghost use Rattle.std.specs.Option.{option_map};
ghost use Rattle.cct_model.specs.terms.device.DeviceSetup.{DeviceSetup};
ghost use Rattle.cct_model.specs.Exchange.{device_at};
ghost use Rattle.cct_model.specs.Reply.{reply_shown};
ghost use Rattle.cct_jobs.specs.Jobs.{after_failed, reply_wanted, target_of};

use cct_model::{CheckKind, DeviceSetup, Family, Reply, ReplyForm, Setup};
use cct_msg::wanted_reply;

/// How often a row is tried in succession.
const TRIES: u8 = 3;

/// What a job knows of its device: its address, its check, its family, and its serial number.
#[derive(Clone, Copy, PartialEq, Eq)]
pub struct Target {
    pub addr: u8,
    pub kind: CheckKind,
    pub family: Family,
    pub serial: u32,
}

impl Target {
    /// The reply of this device in the form that is wanted, in what was heard after a request.
    pub(crate) fn reply<'h>(
        &self,
        wanted: Option<ReplyForm>,
        sent: &[u8],
        heard: &'h [u8],
    ) -> Option<Reply<'h>>
        ensures { option_map reply_shown result
            ≡ reply_wanted self.now.kind self.now.addr wanted sent.now heard.now }
    {
        match wanted {
            Some(form) => wanted_reply(self.kind, self.addr, form, sent, heard),
            None => None,
        }
    }
}

/// What a job knows of the device of a setup at an address.
pub(crate) fn target_at(setup: &Setup, addr: u8) -> Target
    requires { IsSome (device_at setup.now.devices addr) }
    ensures { (d : DeviceSetup) → device_at setup.now.devices addr ≡ Some d → result ≡ target_of d }
{
    target_of(setup.device_at(addr).unwrap())
}

/// What a job knows of a device.
fn target_of(device: &DeviceSetup) -> Target
    ensures { result ≡ target_of device.now }
{
    Target {
        addr: device.addr,
        kind: device.kind,
        family: device.body.family(),
        serial: device.serial,
    }
}

/// How many tries of a row failed in succession after one more, or none where that was the last.
pub(crate) fn after_failed(failed: u8) -> Option<u8>
    ensures { failed < 3 → result ≡ after_failed failed }
{
    if failed < TRIES - 1 {
        Some(failed + 1)
    } else {
        None
    }
}
