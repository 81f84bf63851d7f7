//! Frames: messages of the wire under either check, read from the piece that carries them and
//! written into one, without a copy of their data and without memory of their own.
#![tactic(auto)]

mod check;
mod laws;
mod reading;
mod writing;

pub use check::check_step;
pub use laws::{
    a_message_is_spelled, no_message_begins_another, what_is_spelled_is_read_back,
    what_is_written_is_read_back,
};
pub use reading::{FrameFault, FrameView, read, read_checked};
pub use writing::write;
