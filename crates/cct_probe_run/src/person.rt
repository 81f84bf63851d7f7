//! A person, or a program in the place of one, who does what is asked for and says so.

use cct_edge::Source;
use cct_script::{Line, Lines};

/// A clock.
pub trait Clock {
    /// The milliseconds since some moment. It never goes back.
    fn millis(&mut self) -> u64;
}

/// Who answers prompts, by one line each.
#[derive(Drop)]
pub struct Person<S> {
    source: S,
    lines: Lines,
    is_gone: bool,
}

impl<S: Source> Person<S> {
    /// Who answers by what a source gives.
    pub fn new(source: S) -> Person<S> {
        Person {
            source,
            lines: Lines::new(),
            is_gone: false,
        }
    }

    /// Whether the next line says that it is done. Any other skips it, and at the end of the source
    /// nobody is asked any more.
    pub(crate) fn has_done(&mut self) -> bool {
        if self.is_gone {
            return false;
        }
        match self.lines.line(&mut self.source) {
            Ok(Line::Text(line)) => line == b"done".as_slice(),
            Ok(Line::End) | Err(_) => {
                self.is_gone = true;
                false
            }
        }
    }
}
