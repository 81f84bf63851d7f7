//! The serial port of a line, as a terminal of the system that is set up already: opened, locked
//! and looked at before a byte is written, and opened again after it failed.
//!
//! No contract can say what a terminal gives, so its clauses are those of a line that shows
//! nothing.
#![tactic(auto)]

mod opening;
mod terminal;
mod timed;

pub use opening::TerminalNo;
pub use terminal::Terminal;
