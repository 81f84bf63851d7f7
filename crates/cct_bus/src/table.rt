//! Where among the devices on the wire the one at each address is.
ghost use Rattle.std.specs.Prelude.{◌≡◌, ◌==◌, ◌<◌, ◌≤◌, length, IfSome};
ghost use Rattle.std.specs.List.{position};
ghost use Rattle.cct_model_wire.specs.Places.{places_of};
ghost use Rattle.cct_bus.specs.Device.{setup_in, setups_in};

use crate::device::Device;
use cct_model::DEVICES;

/// How many addresses there are.
pub(crate) const ADDRESSES: usize = 256;

/// For each address the index of the first of these devices there, or none.
pub(crate) fn places_of(devices: &[Device<'_>]) -> [Option<u8>; ADDRESSES]
    requires { length devices.now ≤ DEVICES }
    ensures { result ≡ places_of (setups_in devices.now) }
{
    let mut places = [None; ADDRESSES];
    for index in 0..devices.len() {
        let addr = devices[index].setup.addr as usize;
        places[addr] = places[addr].or(Some(index as u8));
    }
    places
}

/// The index of the device at an address among these, or none, by their places. Of the devices the
/// contract alone speaks.
pub(crate) fn place_of(
    places: &[Option<u8>; ADDRESSES],
    _devices: &[Device<'_>],
    addr: u8,
) -> Option<usize>
    requires { places.now ≡ places_of (setups_in _devices.now) }
    ensures first { result ≡ position (λ device. (setup_in device).addr == addr) _devices.now }
    ensures within { IfSome result (λ place. place < length _devices.now) }
{
    match places[addr as usize] {
        Some(place) => Some(usize::from(place)),
        None => None,
    }
}
