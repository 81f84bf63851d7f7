//! Whether the devices that a step names are there.
ghost use Rattle.std.specs.Prelude.{◌≡◌};
ghost use Rattle.cct_model_lines.specs.Script.{is_known};
ghost use Rattle.cct_model_lines.specs.Exchange.{device_at, hopper_there, known_there};

use cct_model_lines::{Happening, Setup, Step};

/// Whether the device to which a step happens is there and of a family that knows that, and whether
/// the stock that it gives is a hopper's.
pub(crate) fn knows(setup: &Setup, step: &Step) -> bool
    ensures { result ≡ is_known setup.now step.now }
{
    match step {
        Step::Coin { addr, place } => befalls(setup, *addr, Happening::Coin { place: *place }),
        Step::Alien { addr } => befalls(setup, *addr, Happening::Alien),
        Step::Bill { addr, place } => befalls(setup, *addr, Happening::Bill { place: *place }),
        Step::Fall { addr } => befalls(setup, *addr, Happening::Fall),
        Step::Jam { addr } => befalls(setup, *addr, Happening::Jam),
        Step::Reset { addr } => befalls(setup, *addr, Happening::Reset),
        Step::Stock { addr, .. } => is_hopper(setup, *addr),
        Step::Fault(_) => true,
        Step::Next { .. } => true,
        Step::Command(_) => true,
        Step::Crash { .. } => true,
        Step::Balance => true,
        Step::Change { .. } => true,
        Step::Serve => true,
        Step::End => true,
    }
}

/// Whether this can happen to the device at an address.
fn befalls(setup: &Setup, addr: u8, what: Happening) -> bool
    ensures { result ≡ known_there what (device_at setup.now.devices addr) }
{
    match setup.device_at(addr) {
        Some(device) => device.body.family().knows(what),
        None => false,
    }
}

/// Whether a hopper is at an address.
fn is_hopper(setup: &Setup, addr: u8) -> bool
    ensures { result ≡ hopper_there (device_at setup.now.devices addr) }
{
    match setup.device_at(addr) {
        Some(device) => device.body.is_hopper(),
        None => false,
    }
}
