//! What the devices on the wire make of a piece, all together.
ghost use Rattle.std.specs.Prelude.{◌≡◌, ◌≢◌, ◌+◌, ◌≤◌, List, ◌∷◌, [], ◌++◌, length, slice_index};
ghost use Rattle.std.specs.Prelude.{unwrap_or};
ghost use Rattle.std.specs.List.{All, flat_map};
ghost use Rattle.cct_model.specs.terms.device.DeviceSetup.{DeviceSetup};
ghost use Rattle.cct_model.specs.Exchange.{answer, asks_of};
ghost use Rattle.cct_model.specs.History.{Met, heard};
ghost use Rattle.cct_model.specs.Setup.{AreDistinct};
ghost use Rattle.cct_model_wire.specs.Places.{places_of};
ghost use Rattle.cct_bus.specs.Device.{Stands, setups_in};
ghost use Rattle.cct_bus.specs.Room.{most_answered};

use crate::device::Device;
use crate::table::{ADDRESSES, place_of};
use arrayvec::ArrayVec;
use cct_model::{BROADCAST, MOST_HEARD, MOST_SENT};

/// The devices hear a piece and then a gap: one that it is for by its first byte, or each, if it is
/// for all; it asks nothing of the others. What they answer goes after what `answers` holds, in the
/// order of the devices; `places` has the index of the one at each address, and `frame` is room for
/// one answer.
pub(crate) fn all_hear(
    devices: &mut [Device<'_>],
    places: &[Option<u8>; ADDRESSES],
    piece: &[u8],
    frame: &mut ArrayVec<u8, MOST_SENT>,
    answers: &mut ArrayVec<u8, MOST_HEARD>,
)
    requires places { places.now ≡ places_of (setups_in devices.old) }
    requires room { length answers.old.items + most_answered piece.now (setups_in devices.old)
        ≤ MOST_HEARD }
    ensures setups { setups_in devices.new ≡ setups_in devices.old }
    ensures stand { (history : DeviceSetup → List Met) → AreDistinct (setups_in devices.old)
        → All (Stands history) devices.old → All (Stands (λ d. heard (asks_of d piece.now) ∷ history d)) devices.new }
    ensures answers { (history : DeviceSetup → List Met) → AreDistinct (setups_in devices.old)
        → All (Stands history) devices.old → answers.new.items
        ≡ answers.old.items ++ flat_map (λ d. unwrap_or (answer d (history d) piece.now) []) (setups_in devices.old) }
{
    match piece {
        [to, ..] if *to != BROADCAST => one_hears(devices, places, *to, piece, frame, answers),
        _ => each_hears(devices, piece, frame, answers),
    }
}

/// The device at an address hears a piece that is for it, if there is one.
fn one_hears(
    devices: &mut [Device<'_>],
    places: &[Option<u8>; ADDRESSES],
    to: u8,
    piece: &[u8],
    frame: &mut ArrayVec<u8, MOST_SENT>,
    answers: &mut ArrayVec<u8, MOST_HEARD>,
)
    requires places { places.now ≡ places_of (setups_in devices.old) }
    requires first { slice_index piece.now 0 ≡ to }
    requires one { to ≢ BROADCAST }
    requires room { length answers.old.items + most_answered piece.now (setups_in devices.old)
        ≤ MOST_HEARD }
    ensures setups { setups_in devices.new ≡ setups_in devices.old }
    ensures stand { (history : DeviceSetup → List Met) → AreDistinct (setups_in devices.old)
        → All (Stands history) devices.old → All (Stands (λ d. heard (asks_of d piece.now) ∷ history d)) devices.new }
    ensures answers { (history : DeviceSetup → List Met) → AreDistinct (setups_in devices.old)
        → All (Stands history) devices.old → answers.new.items
        ≡ answers.old.items ++ flat_map (λ d. unwrap_or (answer d (history d) piece.now) []) (setups_in devices.old) }
{
    match place_of(places, devices, to) {
        None => {}
        Some(index) => {
            devices[index].hear(piece, frame);
            put_behind(frame.as_slice(), answers);
        }
    }
}

/// Each device hears a piece.
#[inline(never)]
fn each_hears(
    devices: &mut [Device<'_>],
    piece: &[u8],
    frame: &mut ArrayVec<u8, MOST_SENT>,
    answers: &mut ArrayVec<u8, MOST_HEARD>,
)
    requires room { length answers.old.items + most_answered piece.now (setups_in devices.old)
        ≤ MOST_HEARD }
    ensures setups { setups_in devices.new ≡ setups_in devices.old }
    ensures stand { (history : DeviceSetup → List Met) → All (Stands history) devices.old
        → All (Stands (λ d. heard (asks_of d piece.now) ∷ history d)) devices.new }
    ensures answers { (history : DeviceSetup → List Met) → All (Stands history) devices.old
        → answers.new.items ≡ answers.old.items ++ flat_map (λ d. unwrap_or (answer d (history d) piece.now) []) (setups_in devices.old) }
{
    for device in devices.iter_mut() {
        device.hear(piece, frame);
        put_behind(frame.as_slice(), answers);
    }
}

/// Puts what a device said after what others said: mostly it is silent.
fn put_behind(said: &[u8], answers: &mut ArrayVec<u8, MOST_HEARD>)
    requires { length answers.old.items + length said.now ≤ MOST_HEARD }
    ensures { answers.new.items ≡ answers.old.items ++ said.now }
{
    if !said.is_empty() {
        answers.try_extend_from_slice(said).unwrap();
    }
}
