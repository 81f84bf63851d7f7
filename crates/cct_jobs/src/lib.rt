//! The jobs of the host: the start, the round and the stop of an acceptor's epoch, the payment and
//! the settlement of an order at a hopper, the routing of a held bill, the identification of a
//! device, the setting of a sorter path, and the scan. A job is at one row: it sends one request,
//! or puts one record, or is done.
#![tactic(auto)]

mod asks;
mod by_row;
mod by_value;
mod counted;
mod credits;
mod first_row;
mod ident;
mod job;
mod laws;
mod owed;
mod path;
mod payment;
mod payout;
mod reading;
mod scan;
mod stage;
mod start;
mod target;

pub use counted::Counted;
pub use job::{Job, Need, Sending};
pub use laws::no_answer_comes_at_the_third_failed_try;
pub use owed::Owed;
pub use payout::{Closing, Payout};
pub use stage::{ReadBy, Recorded, Stage};
pub use target::Target;
