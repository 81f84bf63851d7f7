//! What every device does: it hears what the bytes of the wire ask of it, says what it is, and
//! gives its reply.
#![tactic(auto)]

mod hearing;
mod replies;

pub use hearing::{Asked, Listener, asked_whole};
pub use replies::{common_reply, give};
