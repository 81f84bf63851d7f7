//! An audit of any host's wire: a capture is read line by line, a monitor watches what its taps
//! show, and what the monitor says is written (`docs/AUDIT.md`).
#![tactic(auto)]

mod auditing;
mod laws;
mod opening;
mod reading;
mod writing;

pub use auditing::{AuditEnd, audit};
pub use laws::what_is_written_is_said;
