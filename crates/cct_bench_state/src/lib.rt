//! What a journal knows now: the running epochs, the open orders, what the records since the last
//! turn did at each address, the last id, the sums over all records, and by a setup the money.
#![tactic(auto)]

mod account;
mod books;
mod lines;
mod money;
mod owners;
mod telling;
mod writing;

pub use telling::{StateEnd, tell_state};
