//! The wire: the devices on one bus, and what goes wrong on it.
#![tactic(auto)]

mod body;
mod bus;
mod device;
mod fault;
mod hearing;
mod honesty;
mod outcome;
mod table;

pub use bus::Bus;
pub use outcome::Outcome;
