//! What the program says on standard error: which field of a refused line doesn't fit and the form
//! that is wanted, or what the last line of a transcript means and where to read on. It re-reads
//! the line by rules of its own, field by field, which stand in one table (`docs/SCRIPT.md`, "Lines
//! and fields"), and promises nothing but safety.
#![tactic(auto)]

mod advice;
mod ending;
mod fields;
mod forms;
mod front;
mod gaps;
mod given;
mod help;
mod kept;
mod miss;
mod other;
mod refusal;
mod rule;
mod setup;
mod shared;
mod shown;
mod window;
mod word;
mod words;

pub use advice::{Advice, advise, advise_end, advise_line};
pub use ending::{MEMORY, UNCHECKED, UNTOLD, UNWRITTEN};
pub use help::Help;
pub use kept::{KeptSink, KeptSource};
pub use setup::read_advised_setup;
pub use shared::{AdvisedSink, SharedSource};
pub use window::Window;
pub use words::words_of;
