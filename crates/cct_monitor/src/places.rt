//! The watched devices by their places, in rising order of address.
ghost use Rattle.std.specs.Prelude.{◌≡◌, ◌<◌, ◌≤◌, [], true, length, map, slice_get};
ghost use Rattle.std.specs.Prelude.{slice_index_or, slice_set, IfSome};
ghost use Rattle.std.specs.List.{flat_map, list_any, position, position_or_len};
ghost use Rattle.cct_monitor.specs.Machine.{ends_on, heard_as, says_on, watched_on};
ghost use Rattle.cct_monitor.specs.Places.{are_apart, has_addr, is_behind, put_watched};
ghost use Rattle.cct_audit_taps.specs.Taps.{tap_of};

use crate::watched::{Heard, Watched};
use arrayvec::ArrayVec;
use cct_audit_taps::Said;

/// The most devices that a monitor watches.
pub const WATCHED: usize = 32;

/// Puts one device more at its place.
#[tactic(auto, using(crate::proofs::Insertions::put_is))]
pub(crate) fn put_device(devices: &mut ArrayVec<Watched, WATCHED>, device: Watched)
    requires { length devices.old.items < WATCHED }
    ensures { devices.new.items ≡ put_watched device devices.old.items }
{
    let place = place_for(devices.as_slice(), device.addr);
    devices.insert(place, device);
}

/// Takes a tap of a number, and reports what it makes said: the device that it is for alone
/// changes.
pub(crate) fn tap_devices(
    devices: &mut ArrayVec<Watched, WATCHED>,
    number: u32,
    sent: &[u8],
    heard: &[u8],
    report: &mut ArrayVec<Said, 4>,
)
    requires apart { are_apart devices.old.items ≡ true }
    requires empty { report.old.items ≡ [] }
    ensures kept { devices.new.items ≡ map (watched_on (tap_of sent.now heard.now) number)
        devices.old.items }
    ensures says { report.new.items
        ≡ flat_map (says_on (tap_of sent.now heard.now) number) devices.old.items }
{
    if sent.is_empty() {
        return;
    }
    let addr = sent[0];
    let known = devices.as_slice();
    let Some(place) = place_of(known, addr) else {
        return;
    };
    let device = device_at(known, place);
    let after = device.tap(number, sent, heard, report);
    replace_device(devices, place, after);
}

/// Reports what is in doubt at the end of the taps.
pub(crate) fn finish_devices(devices: &[Watched], report: &mut ArrayVec<Said, WATCHED>)
    requires few { length devices.now ≤ WATCHED }
    requires empty { report.old.items ≡ [] }
    ensures { report.new.items ≡ flat_map ends_on devices.now }
{
    for device in devices {
        device.finish(report);
    }
}

/// What is reported of the device at a place, or none where there is none.
pub(crate) fn heard_at(devices: &[Watched], place: usize) -> Option<Heard>
    ensures { result ≡ slice_get (map heard_as devices.now) place }
{
    devices.get(place).map(Watched::heard)
}

/// The device at a place.
fn device_at(devices: &[Watched], place: usize) -> Watched
    requires { place < length devices.now }
    ensures { result ≡ slice_index_or devices.now place result }
{
    devices[place]
}

/// Puts a device in the place of the one there.
fn replace_device(devices: &mut ArrayVec<Watched, WATCHED>, place: usize, device: Watched)
    requires { place < length devices.old.items }
    ensures { devices.new.items ≡ slice_set devices.old.items place device }
{
    devices[place] = device;
}

/// The place of the device at an address, or none.
fn place_of(devices: &[Watched], addr: u8) -> Option<usize>
    ensures first { result ≡ position (has_addr addr) devices.now }
    ensures within { IfSome result (λ place. place < length devices.now) }
{
    devices.iter().position(|device| device.addr == addr)
}

/// The place before which a device of an address goes.
#[tactic(auto, using(crate::proofs::Insertions::place_some, crate::proofs::Insertions::place_none))]
fn place_for(devices: &[Watched], addr: u8) -> usize
    ensures first { result ≡ position_or_len (is_behind addr) devices.now }
    ensures within { result ≤ length devices.now }
{
    match first_behind(devices, addr) {
        Some(place) => place,
        None => devices.len(),
    }
}

/// The place of the first device of an address or a higher one, or none.
fn first_behind(devices: &[Watched], addr: u8) -> Option<usize>
    ensures first { result ≡ position (is_behind addr) devices.now }
    ensures within { IfSome result (λ place. place < length devices.now) }
{
    devices.iter().position(|device| addr <= device.addr)
}

/// Whether one of the devices is at an address.
pub(crate) fn has_device(devices: &[Watched], addr: u8) -> bool
    ensures { result ≡ list_any (has_addr addr) devices.now }
{
    devices.iter().any(|device| device.addr == addr)
}
