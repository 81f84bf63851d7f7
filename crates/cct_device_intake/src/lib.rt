//! What the devices that take money have in common: their inhibits, their events and their accept
//! counter.
#![tactic(auto)]

mod intake;

pub use intake::Intake;
