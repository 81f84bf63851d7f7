//! A hopper: what coins that fall, jams and requests make of it, and what it answers.
#![tactic(auto)]

mod device;
mod hopper;
mod register;
mod states;

pub use hopper::Hopper;
pub use register::Register;
pub use states::{AfterFall, DispenseNo, HopperIdle, HopperOff, HopperPaying};
