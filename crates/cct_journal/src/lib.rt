//! A journal of records on a disk whose power may be cut between any two calls (`docs/JOURNAL.md`).
#![tactic(auto)]

mod creating;
mod cutting;
mod format;
mod journal;
mod old_journal;
mod old_opening;
mod old_place;
mod old_reading;
mod old_start;
mod old_turning;
mod opening;
mod place;
mod putting;
mod range;
mod reading;
mod refusal;
mod replay;
mod slot;
mod start;
mod turning;

pub use format::MOST_RECORDS;
pub use journal::Journal;
pub use old_journal::OldJournal;
pub use refusal::{CreateNo, JournalNo, OldNo, OpenNo, ReadNo};
pub use replay::Replay;
