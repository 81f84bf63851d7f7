//! What coins are worth at the devices of a setup.
ghost use Rattle.std.specs.Prelude.{◌≡◌, ◌≤◌, length, sum_by};
ghost use Rattle.cct_model.specs.Exchange.{device_at};
ghost use Rattle.cct_model.specs.Money.{place_value, coins_value, paid_value, coins_of};

use cct_model::{Coin, DeviceBody, DeviceSetup, EVENTS, Setup};

/// The value of the coins or bills that the device at an address took, 0 where none is there.
#[tactic(auto, using(crate::proofs::Coins::coins_each, crate::proofs::Coins::coins_nowhere))]
pub fn coins_value(setup: &Setup, addr: u8, coins: &[Coin]) -> u64
    requires few { length coins.now ≤ EVENTS }
    ensures { result ≡ coins_value (device_at setup.now.devices addr) coins.now }
{
    match setup.device_at(addr) {
        Some(device) => value_of(device, coins),
        None => 0,
    }
}

/// The value of coins or bills that a device took.
fn value_of(device: &DeviceSetup, coins: &[Coin]) -> u64
    requires few { length coins.now ≤ EVENTS }
    ensures { result ≡ sum_by (λ coin. place_value (Some device.now) coin.place) coins.now }
{
    coins
        .iter()
        .map(|coin| u64::from(place_value(device, coin.place)))
        .sum()
}

/// The value of a coin or a bill of a place, 0 where the device has no such place or the place has
/// no value.
fn place_value(device: &DeviceSetup, place: u8) -> u32
    ensures { result ≡ place_value (Some device.now) place }
{
    let Some(index) = usize::from(place).checked_sub(1) else {
        return 0;
    };
    match &device.body {
        DeviceBody::Acceptor { values, .. } | DeviceBody::Bill { values, .. } => {
            values.get(index).copied().unwrap_or(0)
        }
        DeviceBody::Hopper { .. } => 0,
    }
}

/// The value of so many coins of the hopper at an address, 0 where none is there.
pub fn coins_of(setup: &Setup, addr: u8, count: u8) -> u64
    ensures { result ≡ coins_of setup.now addr count }
{
    let value = match setup.device_at(addr) {
        Some(device) => paid_value(&device.body),
        None => 0,
    };
    u64::from(count) * u64::from(value)
}

/// The value of a coin that a hopper pays, 0 of another device.
fn paid_value(body: &DeviceBody) -> u32
    ensures { result ≡ paid_value body.now }
{
    match body {
        DeviceBody::Acceptor { .. } | DeviceBody::Bill { .. } => 0,
        DeviceBody::Hopper { value, .. } => *value,
    }
}
