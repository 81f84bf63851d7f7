//! The coins of a tray.
ghost use Rattle.std.specs.Prelude.{◌≡◌, ◌*◌, ◌≤◌};
ghost use Rattle.cct_model.specs.Plan.{most_of};

use cct_model::{DEVICES, Tray};

/// The most trays of a plan: a hopper has one, and a setup has no more devices.
pub const TRAYS: usize = DEVICES;

/// The most coins that a plan takes of one tray, as one payout pays no more.
const MOST_COINS: u32 = 255;

/// The most coins that a plan takes of a tray.
pub(crate) fn most(tray: &Tray) -> usize
    ensures { result ≡ most_of tray.now }
{
    tray.stock.min(MOST_COINS) as usize
}

/// What so many coins of a tray are worth.
pub(crate) fn worth(tray: &Tray, count: usize) -> usize
    requires { count ≤ 255 }
    ensures { result ≡ count * tray.now.value }
{
    count * tray.value as usize
}
