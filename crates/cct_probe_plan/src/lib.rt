//! Trials of devices on a line against what is relied on of them: one table says what is asked,
//! what has to come, and which premise it serves (`docs/PROBE.md`); what is sent for a row of it,
//! and what is made of what is heard then.
#![tactic(auto)]

mod judging;
mod memory;
mod plan;
mod premise;
mod round;
mod saying;
mod table;
mod trials;
mod values;

pub use judging::{Shown, counter_before, judge};
pub use memory::Memory;
pub use plan::{
    Act, Ask, Counted, Ending, Expected, Need, Newest, Odd, Part, Say, Step, Told, Trial, Want, Who,
};
pub use premise::{Common, OfHopper, OfLine, OfTaker, PROMISES, Premise, Promise};
pub use round::{Turn, tried_place};
pub use saying::write_say;
pub use trials::all_trials;
