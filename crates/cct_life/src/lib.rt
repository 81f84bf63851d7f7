//! The life count of a hopper: how many coins it ever paid, in 24 bits.
#![tactic(auto)]

mod count;

pub use count::{LifeCount, since};
