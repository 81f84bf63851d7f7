//! What is said of a log and of the capture that is made of it: which devices are watched, how many
//! exchanges are messages, which lines aren't understood, and what is taken for granted
//! (`docs/SHOW.md`).
#![tactic(auto)]

mod doubts;
mod note;
mod numbers;
mod tally;
mod unread;
mod watch;

pub use doubts::Doubts;
pub use note::{Guessed, Note, note_of};
pub use tally::Tally;
pub use unread::{Unread, is_other_line};
pub use watch::{Quiet, Watch, WatchNo, Watches, add_watch, watches_in};
