//! The forms in which the lines of a transcript, a capture or a bus log are shown (`docs/SHOW.md`):
//! from a source to a sink, with notes on a log to another one.
#![tactic(auto)]

mod capture;
mod echoes;
mod encoding;
mod lines;
mod log;
mod measure;
mod notes;
mod page;
mod picture;
mod put_buffer;
mod rows;
mod status;
mod stream;
mod taps;
mod text;
mod words;

pub use capture::write_capture;
pub use page::show_page;
pub use picture::{Part, show_picture};
pub use rows::{RowForm, show_rows};
pub use status::{Status, Stop};
pub use taps::Held;
pub use text::show_text;
