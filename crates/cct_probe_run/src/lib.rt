//! Trials of the devices on a line (`cct_probe_plan`): what is sent is of the plan alone, no coin
//! is ordered without leave, and each premise that is reported broken comes with the exchange that
//! shows it.
#![tactic(auto)]

mod acting;
mod bench;
mod findings;
mod giving;
mod laws;
mod leaving;
mod person;
mod runner;
mod summary;
mod telling;
mod trying;

pub use bench::{Bench, Leave, Plan, Stop};
pub use laws::coins_are_ordered_within_leave;
pub use person::{Clock, Person};
pub use runner::{Ended, run};
