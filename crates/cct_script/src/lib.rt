//! The whole script reader: the lines of a script, taken from its source however many bytes it
//! gives at a time; what each line says, or why it is refused; and what a setup line adds to a
//! setup (`docs/SCRIPT.md`). Numbers in decimal and pieces in hexadecimal are read by calls of
//! their own, which serve whoever reads other lines too.
#![tactic(auto)]

mod adding;
mod buffer;
mod bytes;
mod capture;
mod endless;
mod fields;
mod lines;
mod live;
mod machine;
mod numbers;
mod setup;
mod step;
mod step_fields;
mod stops;
mod words;

pub use adding::add;
pub use capture::{CaptureLine, read_capture_line};
pub use cct_model_lines::SetupLine;
pub use endless::{EndlessLines, MOST_PASSED, NextLine};
pub use lines::{Line, Lines, LinesNo};
pub use live::{LiveLine, read_live_line};
pub use machine::{SetupNo, read_setup};
pub use numbers::ranged;
pub use setup::read_setup_line;
pub use step::{read_step_into, read_step_line};
pub use stops::{ScriptStop, before_end, behind_end};
pub use words::piece_in;
