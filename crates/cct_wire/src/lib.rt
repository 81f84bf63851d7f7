//! The wire between the host and its devices: it is shared, so in each exchange the host hears its
//! own bytes first, and then what follows. Whoever hears it byte by byte has a framer for a
//! message.
#![tactic(auto)]

mod echo;
mod exchange;
mod framer;
mod hearing;
mod laws;

pub use echo::{EchoBad, bare_after_echo};
pub use exchange::Link;
pub use framer::{Fed, Framer};
pub use hearing::{Heard, hear};
pub use laws::an_echo_is_whole_or_damaged;
