//! Two devices whose replies can't be distinguished.
ghost use Rattle.std.specs.Prelude.{◌≡◌};
ghost use Rattle.cct_live_survey.specs.Twins.{are_twins, twin_of, crc_twins};

use cct_model_lines::{CheckKind, DeviceSetup, Setup};

/// The first two devices of a setup that are both hoppers or both acceptors, of coins or of bills,
/// and both under the CRC. A reply under the CRC names no source, so a late reply of one of them
/// would be taken for that of the other: acceptors of coins and of bills have the same replies.
pub fn crc_twins(setup: &Setup) -> Option<(u8, u8)>
    ensures { result ≡ crc_twins setup.now.devices }
{
    crc_twins_of(setup.devices.as_slice())
}

/// The first two such devices of these.
fn crc_twins_of(devices: &[DeviceSetup]) -> Option<(u8, u8)>
    ensures { result ≡ crc_twins devices.now }
{
    match devices {
        [] => None,
        [device, others @ ..] => match twin_of(device, others) {
            Some(other) => Some((device.addr, other)),
            None => crc_twins_of(others),
        },
    }
}

/// The first of these devices that has the replies of another one, and is under the CRC as that one
/// is.
fn twin_of(device: &DeviceSetup, others: &[DeviceSetup]) -> Option<u8>
    ensures { result ≡ twin_of device.now others.now }
{
    match others {
        [] => None,
        [other, ..] if are_twins(device, other) => Some(other.addr),
        [_, others @ ..] => twin_of(device, others),
    }
}

/// Whether two devices have the same replies, both hoppers or both none, and are both under the
/// CRC.
fn are_twins(one: &DeviceSetup, other: &DeviceSetup) -> bool
    ensures { result ≡ are_twins one.now other.now }
{
    one.kind == CheckKind::Crc
        && other.kind == CheckKind::Crc
        && one.body.is_hopper() == other.body.is_hopper()
}
