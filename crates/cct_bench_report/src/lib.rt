//! The listing of a journal: its records, and their sums.
#![tactic(auto)]

mod listing;
mod sums;

pub use listing::{ReportEnd, list_journal};
pub use sums::Sums;
