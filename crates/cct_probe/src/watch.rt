//! The clock of the program.

use cct_probe_run::Clock;
use std::time::Instant;

/// The time since it was started. Where the clock can't be read, it stands still.
#[derive(Drop)]
pub(crate) struct Watch<'r> {
    rt: &'r HostRuntime,
    start: Option<Instant>,
}

impl<'r> Watch<'r> {
    /// Starts now.
    pub(crate) fn start(rt: &'r HostRuntime) -> Watch<'r> {
        Watch {
            rt,
            start: Instant::now(rt).ok(),
        }
    }
}

impl Clock for Watch<'_> {
    fn millis(&mut self) -> u64 {
        let start = match &self.start {
            Some(start) => start,
            None => return 0,
        };
        match start.elapsed(self.rt) {
            Ok(spent) => spent
                .as_secs()
                .saturating_mul(1000)
                .saturating_add(u64::from(spent.subsec_millis())),
            Err(_) => 0,
        }
    }
}
