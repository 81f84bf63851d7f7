//! The values of a device's places.
ghost use Rattle.std.specs.Prelude.{◌≡◌, ◌≤◌, ◌==◌, ◌&&◌};
ghost use Rattle.cct_model.specs.Refusal as refusal;
ghost use Rattle.cct_journal_carry.specs.CoinPlaces.{lacks};

use cct_model::{COIN_PLACES, DeviceBody, has_place};

/// The highest place; the lowest is 1.
const LAST_PLACE: u8 = COIN_PLACES as u8;

/// The least place of an inhibit mask that has no value at a device, or none.
#[tactic(auto, using(crate::proofs::CoinPlaces::found_here, crate::proofs::CoinPlaces::found_behind))]
pub fn valueless(body: &DeviceBody, mask: u16) -> Option<u8>
    ensures { result ≡ refusal.valueless body.now mask }
{
    for place in 1..LAST_PLACE + 1 {
        if lacks(body, mask, place) {
            return Some(place);
        }
    }
    None
}

/// Whether a mask has a place that has no value at a device.
fn lacks(body: &DeviceBody, mask: u16, place: u8) -> bool
    requires low { 1 ≤ place }
    requires high { place ≤ COIN_PLACES }
    ensures { result ≡ lacks body.now mask place }
{
    has_place(mask, place) && body.value_at(place) == 0
}
