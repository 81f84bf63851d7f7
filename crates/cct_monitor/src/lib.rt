//! A monitor of any host's wire: it takes each exchange as a logger of the wire saw it, and says
//! which coins or bills a watched acceptor accepted between two readings of its events, and how
//! many coins fell out of a watched hopper. It knows nothing of the host.
#![tactic(auto)]

mod acceptor;
mod hopper;
mod laws;
mod monitor;
mod places;
mod quiet;
mod tally;
mod watched;

pub use cct_audit_taps::{Money, Premise, Said, Shown};
pub use cct_model::{CheckKind, Coin, Coins};
pub use hopper::LastLife;
pub use laws::{
    a_capture_is_watched_whole, a_tap_makes_sure_what_it_confirms, each_span_is_said_once,
};
pub use monitor::Monitor;
pub use places::WATCHED;
pub use tally::Tally;
pub use watched::{Family, Heard};
