//! Where a row is in the input.

use crate::Label;

/// Where a row stands: the number of its line, from 1; of a line of a capture its number among the
/// taps, from 1; and the time that is in the line, with how long that is after the line before.
#[derive(Clone, Copy)]
pub struct Place {
    pub line: u64,
    pub tap: Option<u64>,
    pub time: Label,
}

impl Place {
    /// The place of a line in which no time stands.
    pub fn of_line(line: u64) -> Place {
        Place {
            line,
            tap: None,
            time: Label::empty(),
        }
    }
}
