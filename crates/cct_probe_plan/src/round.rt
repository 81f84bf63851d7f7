//! Whose turn it is: a device, in a round of a trial.
ghost use Rattle.std.specs.Prelude.{◌≡◌, ◌==◌, not, position};
ghost use Rattle.cct_probe_plan.specs.Saying.{first_place, mask_of, place_at, place_of};
ghost use Rattle.cct_probe_plan.specs.Saying.{tried_place};

use crate::premise::Premise;
use cct_model_lines::{COIN_PLACES, DeviceBody, DeviceSetup};

/// The masks of the places, each alone.
pub const MASKS: [u16; COIN_PLACES] = [
    1, 2, 4, 8, 16, 32, 64, 128, 256, 512, 1024, 2048, 4096, 8192, 16384, 32768,
];

/// A device in a round of a trial. The trials of the line are reported under address 0.
#[derive(Clone, Copy)]
pub struct Turn<'s> {
    pub device: &'s DeviceSetup,
    pub told: u8,
    pub round: u16,
    pub premise: Premise,
    /// How many silent reads stand before a message.
    pub gap: u16,
}

impl<'s> Turn<'s> {
    /// The same with a silent read before each message.
    pub fn slow(self) -> Turn<'s>
        ensures { result ≡ record self.entry { gap = 1 } }
    {
        Turn {
            device: self.device,
            told: self.told,
            round: self.round,
            premise: self.premise,
            gap: 1,
        }
    }
}

/// The lowest place of a device with a value: the place that is tried. Where none has, it is place
/// 1.
pub fn tried_place(body: &DeviceBody) -> u8
    ensures { result ≡ tried_place body.now }
{
    match body {
        DeviceBody::Acceptor { values, .. } => first_place(values),
        DeviceBody::Bill { values, .. } => first_place(values),
        DeviceBody::Hopper { .. } => 1,
    }
}

/// The place of the first value.
fn first_place(values: &[u32; COIN_PLACES]) -> u8
    ensures { result ≡ first_place values.now }
{
    place_at(first_value(values))
}

/// Where the first value is.
fn first_value(values: &[u32; COIN_PLACES]) -> Option<usize>
    ensures { result ≡ position (λ value. not (value == 0)) values.now }
{
    values.iter().position(|value| *value != 0)
}

/// The place at which something is, 1 where nothing is.
fn place_at(found: Option<usize>) -> u8
    ensures { result ≡ place_at found }
{
    match found {
        None => 1,
        Some(at) => (at % COIN_PLACES) as u8 + 1,
    }
}

/// The place of a round, 1 to 16.
pub(crate) fn place_of(round: u16) -> u8
    ensures { result ≡ place_of round }
{
    (round % COIN_PLACES as u16) as u8 + 1
}

/// The mask of a place alone, low byte first.
pub(crate) fn mask_of(place: u8) -> [u8; 2]
    ensures { result ≡ mask_of place }
{
    let mask = MASKS[usize::from(place.saturating_sub(1)) % COIN_PLACES];
    [(mask % 256) as u8, (mask / 256) as u8]
}
