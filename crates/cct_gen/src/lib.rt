//! The load generator: the setup that a load is played on, and each line of the load by its number,
//! drawn from a seed.
#![tactic(auto)]

mod line;
mod setup;

pub use line::nth_line;
pub use setup::load_setup;
