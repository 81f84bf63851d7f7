//! A disk that notes the calls made of it, in order, each write with its bytes: its caller makes
//! them later, on a part of his.
#![tactic(auto)]

mod calls;
mod obey;
mod queue;

pub use calls::{Call, MOST_BYTES, MOST_CALLS};
pub use obey::make_calls;
pub use queue::QueueDisk;
