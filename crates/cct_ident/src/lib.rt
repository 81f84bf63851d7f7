//! The identity of a device: the texts and the serial number by which it names itself.
#![tactic(auto)]

mod identity;

pub use identity::{IdentText, Identity};
