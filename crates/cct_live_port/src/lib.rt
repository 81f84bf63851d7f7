//! The host's link over a serial line: it gives one exchange after another, and doesn't take a late
//! reply for the reply of a later exchange.
#![tactic(auto)]

mod answer;
mod calls;
mod counted;
mod laws;
mod line;
mod port;
mod standard;

pub use answer::is_answered;
pub use counted::CountedLink;
pub use laws::each_send_follows_silence;
pub use line::Line;
pub use port::{Options, Port};
pub use standard::StdLine;
