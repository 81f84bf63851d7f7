//! A line of a bus log by itself (`docs/SHOW.md`): its bytes, which way they went, and a time; and
//! the messages among bytes.
#![tactic(auto)]

mod byte;
mod column;
mod escape;
mod heading;
mod line;
mod message;
mod name;
mod run;
mod time;
mod way;
mod word;

pub use byte::{LogBytes, MOST_LOGGED, bytes_of};
pub use line::{Guess, Habit, Has, read_has};
pub use message::{
    are_whole, before_good, begins_good, first_message, is_good, is_message, unfinished, wanted_len,
};
pub use name::Way;
pub use time::{Time, after_time};
