//! A load: a script that a seed makes is played on a machine, and summed up as it is played.
#![tactic(auto)]

mod alike;
mod load;
mod sums;

pub use alike::a_load_tells_its_transcript;
pub use load::{Load, LoadEnd, MOST_ROUNDS, play_load};
