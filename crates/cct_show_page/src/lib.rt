//! A run or a bus log as a page for a browser (`docs/SHOW.md`): one HTML document without a script.
//! It has a row for each exchange and each other line, a fold for each job, and sums on top.
#![tactic(auto)]

mod classes;
mod column;
mod device;
mod entry;
mod form;
mod frame;
mod job;
mod known;
mod list;
mod needs;
mod page;
mod row;
mod rows;
mod style;
mod sums;
mod words;

pub use form::PageForm;
pub use frame::write_lines;
pub use page::Page;
