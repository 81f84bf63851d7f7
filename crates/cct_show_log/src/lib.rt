//! The messages of bus logs as people have them (`docs/SHOW.md`): one may take several lines, and a
//! line may have several.
#![tactic(auto)]

mod joined;
mod reader;

pub use joined::Said;
pub use reader::{LogLine, LogReader};
