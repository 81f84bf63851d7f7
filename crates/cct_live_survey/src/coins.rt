//! The coins of a setup that an acceptor can be asked for.
ghost use Rattle.std.specs.Prelude.{◌≡◌, ◌≤◌, IfSome};
ghost use Rattle.cct_model_lines.specs.Setting.{is_place};
ghost use Rattle.cct_live_survey.specs.Coins.{coin_at, coin_of, next_coin};

use cct_model_lines::{COIN_PLACES, DeviceBody};

/// The identification of a coin place that has no coin.
pub const NO_COIN: [u8; 6] = *b"......";

/// The coin places.
const PLACES: [u8; COIN_PLACES] = [1, 2, 3, 4, 5, 6, 7, 8, 9, 10, 11, 12, 13, 14, 15, 16];

/// The identification of the coin of a place of a coin acceptor, as its `value` line says it. None
/// where the place has no `value` line, or one with six points, which name no coin.
pub(crate) fn coin_at(body: &DeviceBody, place: u8) -> Option<[u8; 6]>
    ensures { result ≡ coin_at body.now place }
{
    match body {
        DeviceBody::Acceptor { values, ids, .. } if is_place(place) => {
            let at = place as usize - 1;
            coin_of(values[at], ids[at])
        }
        _ => None,
    }
}

/// The identification of a coin with a value, or none where it names no coin.
fn coin_of(value: u32, id: [u8; 6]) -> Option<[u8; 6]>
    ensures { result ≡ coin_of value id }
{
    if value == 0 || id == NO_COIN {
        None
    } else {
        Some(id)
    }
}

/// Whether a number is one of a coin place.
pub(crate) fn is_place(place: u8) -> bool
    ensures { result ≡ is_place place }
{
    place >= 1 && place <= COIN_PLACES as u8
}

/// The first coin place from this one on whose coin has an identification.
pub(crate) fn next_coin(body: &DeviceBody, from: u8) -> Option<u8>
    ensures first { result ≡ next_coin body.now from }
    ensures above { IfSome result (λ place. (from ≤ place) × (place ≤ 16)) }
{
    PLACES
        .iter()
        .copied()
        .find(|place| *place >= from && coin_at(body, *place).is_some())
}
