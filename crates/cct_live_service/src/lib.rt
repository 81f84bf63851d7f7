//! The service of a host on a real line: what its input says is done line by line, over the journal
//! of a disk, and each entry is written before the next line is read (`docs/LIVE.md`).
#![tactic(auto)]

mod asking;
mod attempts;
mod beside;
mod commands;
mod fields;
mod holds;
mod input;
mod knowing;
mod notice;
mod opening;
mod outside;
mod page;
mod play;
mod poll;
mod rests;
mod served;
mod serving;
mod session;
mod standing;
mod stopping;
mod unsent;
mod visit;
mod watch;

pub use beside::Beside;
pub use cct_live_order::OrderTold;
pub use holds::Hold;
pub use input::InputLine;
pub use notice::Notice;
pub use outside::Outside;
pub use page::Page;
pub use served::Served;
pub use serving::serve;
pub use stopping::AtEnd;
pub use watch::{Due, Watch};
