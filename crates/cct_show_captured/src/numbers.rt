//! The numbers of lines of which the same is said.

use arrayvec::ArrayVec;
use std::fmt;

/// How many of them are reported.
const MOST_TOLD: usize = 12;

/// How many lines there are, and the numbers of the first of them.
#[derive(Drop)]
pub(crate) struct LineNumbers {
    pub(crate) count: u64,
    first: ArrayVec<u64, MOST_TOLD>,
}

impl LineNumbers {
    /// No line.
    pub(crate) fn new() -> LineNumbers {
        LineNumbers {
            count: 0,
            first: ArrayVec::new(),
        }
    }

    /// Adds the line of this number.
    pub(crate) fn add(&mut self, line: u64) {
        self.count = self.count.saturating_add(1);
        // The first ones are reported.
        let _ = self.first.try_push(line);
    }
}

impl fmt::Display for LineNumbers {
    fn fmt<W: fmt::Write>(&self, f: &mut fmt::Formatter<W>) -> fmt::Result {
        let mut before = "line ";
        for number in self.first.as_slice() {
            write!(f, "{before}{number}")?;
            before = ", ";
        }
        f.write_str(if self.count > MOST_TOLD as u64 {
            ", .."
        } else {
            ""
        })
    }
}
