//! The setup that is beside a journal, for which the journal was made (`docs/OPERATING.md`,
//! "Another setup"): it is written, read back whole, and compared with another one field by field.
#![tactic(auto)]

mod difference;
mod files;
mod reading;
mod writing;

pub use difference::{What, first_difference};
pub use files::{CopyNames, CopyNo};
pub use reading::read_copy;
pub use writing::write_setup;
