//! Whether the replies of a log begin with the echo of what was sent.

use cct_show_log_line::is_message;

/// How many more exchanges with an echo than without one count at most.
const MOST: i32 = 4;

/// From so many more without one on, no message is taken for an echo.
const NONE: i32 = -2;

/// How many more exchanges had the echo than a whole reply without it, as far as that counts.
#[derive(Clone, Copy)]
pub(crate) struct Echoes(i32);

impl Echoes {
    /// No exchange shows anything.
    pub(crate) fn new() -> Echoes {
        Echoes(0)
    }

    /// Of a log that has all of them, as a capture does.
    pub(crate) fn expected() -> Echoes {
        Echoes(MOST)
    }

    /// An echo was heard.
    pub(crate) fn hear(&mut self) {
        self.0 = self.0.saturating_add(1).min(MOST);
    }

    /// Learns from what was heard after a request. Without that it shows nothing.
    pub(crate) fn learn(&mut self, sent: &[u8], heard: &[u8]) {
        if sent.is_empty() {
            return;
        }
        if heard.starts_with(sent) {
            self.hear();
        } else if is_message(heard) {
            self.0 = self.0.saturating_sub(1).max(NONE);
        }
    }

    /// Whether the exchanges so far show either.
    pub(crate) fn are_known(self) -> bool {
        self.0 != 0
    }

    /// Whether a reply is taken to stand without its echo.
    pub(crate) fn are_missing(self) -> bool {
        self.0 < 0
    }

    /// Whether there are none.
    pub(crate) fn are_none(self) -> bool {
        self.0 <= NONE
    }
}
