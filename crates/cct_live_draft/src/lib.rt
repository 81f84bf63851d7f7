//! A setup is drafted of the devices that answer on a line: who they are, and what their coins and
//! bills are worth. Nothing else is asked, so no device changes by it.
#![tactic(auto)]

mod bills;
mod drafting;
mod hoppers;
mod lines;
mod search;

pub use drafting::{Drafted, draft};
