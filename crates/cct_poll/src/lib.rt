//! A host that is asked what it wants: what its caller is to send, to keep on his part, and to
//! take; it calls nothing.
#![tactic(auto)]

mod advance;
mod canned;
mod poll;
mod refusal;

pub use poll::{Ask, Poll};
pub use refusal::{NotNow, PollNo};
