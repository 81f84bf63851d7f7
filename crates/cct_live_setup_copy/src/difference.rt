//! In what a setup differs from the one that a journal was made for.
ghost use Rattle.std.specs.Prelude.{◌≡◌, ◌≤◌, ◌<◌, ℕ, None, Some, MatchOption, bytes_eq};
ghost use Rattle.cct_live_setup_copy.specs.Difference.{difference_at, difference_between};
ghost use Rattle.cct_live_setup_copy.specs.Difference.{same_values};

use cct_model_lines::{DeviceBody, DeviceSetup, Setup};
use std::fmt;

/// What differs at an address, by the first of these that does. Texts, coins' identifications, the
/// counts at which a bench's devices begin and the paths of a sorter aren't compared: they touch
/// neither the records of a journal nor money.
#[derive(Clone, Copy, PartialEq, Eq)]
pub enum What {
    /// The setup that is kept has a device there, and the other has none.
    Missing,
    /// The setup that is kept has none there.
    New,
    /// The device is of another kind.
    Kind,
    /// It has another check.
    Check,
    /// It has another serial number.
    Serial,
    /// A place, or the hopper, has another value.
    Value,
}

impl fmt::Display for What {
    fn fmt<W: fmt::Write>(&self, f: &mut fmt::Formatter<W>) -> fmt::Result {
        f.write_str(match self {
            What::Missing => "missing",
            What::New => "new",
            What::Kind => "kind",
            What::Check => "check",
            What::Serial => "serial",
            What::Value => "value",
        })
    }
}

/// The first address, in rising order, at which a setup differs from the one that is kept, and what
/// differs there; `None` where all records and all money are the same under both.
pub fn first_difference(kept: &Setup, given: &Setup) -> Option<(u8, What)>
    ensures { MatchOption result
        ((addr : ℕ) → addr ≤ 255 → difference_at kept.now given.now addr ≡ None)
        (λ found. (difference_at kept.now given.now found.0 ≡ Some found.1)
        × ((addr : ℕ) → addr < found.0 → difference_at kept.now given.now addr ≡ None)) }
{
    for addr in 0..=255 {
        if let Some(what) = difference_at(kept, given, addr) {
            return Some((addr, what));
        }
    }
    None
}

/// What differs at an address.
#[tactic(auto, unfolding(crate::specs::Difference::difference_at))]
fn difference_at(kept: &Setup, given: &Setup, addr: u8) -> Option<What>
    ensures { result ≡ difference_at kept.now given.now addr }
{
    match kept.device_at(addr) {
        None => match given.device_at(addr) {
            None => None,
            Some(_) => Some(What::New),
        },
        Some(before) => match given.device_at(addr) {
            None => Some(What::Missing),
            Some(device) => difference_between(before, device),
        },
    }
}

/// What differs between two devices of one address.
fn difference_between(kept: &DeviceSetup, given: &DeviceSetup) -> Option<What>
    ensures { result ≡ difference_between kept.now given.now }
{
    if kept.body.family() != given.body.family() {
        return Some(What::Kind);
    }
    if kept.kind != given.kind {
        return Some(What::Check);
    }
    if kept.serial != given.serial {
        return Some(What::Serial);
    }
    if same_values(&kept.body, &given.body) {
        None
    } else {
        Some(What::Value)
    }
}

/// Whether two devices of one kind have the same values, place by place.
fn same_values(kept: &DeviceBody, given: &DeviceBody) -> bool
    ensures { result ≡ same_values kept.now given.now }
{
    match kept {
        DeviceBody::Acceptor { values, .. } => match given {
            DeviceBody::Acceptor { values: others, .. } => are_same(values, others),
            DeviceBody::Bill { .. } => false,
            DeviceBody::Hopper { .. } => false,
        },
        DeviceBody::Bill { values, .. } => match given {
            DeviceBody::Bill { values: others, .. } => are_same(values, others),
            DeviceBody::Acceptor { .. } => false,
            DeviceBody::Hopper { .. } => false,
        },
        DeviceBody::Hopper { value, .. } => match given {
            DeviceBody::Hopper { value: other, .. } => value == other,
            DeviceBody::Acceptor { .. } => false,
            DeviceBody::Bill { .. } => false,
        },
    }
}

/// Whether two lists of values are the same.
fn are_same(values: &[u32], others: &[u32]) -> bool
    ensures { result ≡ bytes_eq values.now others.now }
{
    values == others
}
