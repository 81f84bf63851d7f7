//! Readings of a coin acceptor in an epoch: how many events two event counters show, and what a
//! reading means beside the inhibit mask, the event counter and the accept counter that are
//! recorded.
#![tactic(auto)]

mod judging;
mod laws;

pub use cct_model::{EpochState, Judged};
pub use judging::{distance, judge, posted};
pub use laws::the_event_counter_tells_the_events_that_came;
