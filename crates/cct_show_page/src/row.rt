//! The rows of a page.

use cct_show_picture::{Label, Place};

/// How a row is to be looked at.
#[derive(Clone, Copy, PartialEq, Eq)]
pub(crate) enum Tone {
    Plain,
    /// It is unusual, and allowed for.
    Odd,
    /// Somebody is to look at it.
    Red,
}

/// One exchange, or one half of it.
#[derive(Drop)]
pub(crate) struct Talk {
    pub(crate) sent: Vec<u8>,
    /// What was heard, without the echo.
    pub(crate) heard: Vec<u8>,
    /// What each says, as `text` does.
    pub(crate) asked: Vec<u8>,
    pub(crate) answer: Vec<u8>,
}

/// A request that is asked again and again, and how often it is in a row.
#[derive(Drop)]
pub(crate) struct Poll {
    pub(crate) addr: u8,
    pub(crate) header: u8,
    pub(crate) times: u64,
}

/// What a row has.
#[derive(Drop)]
pub(crate) enum Body {
    Talk(Talk),
    /// A line as it stands, and what it means, as `text` does.
    Line { line: Vec<u8>, told: Vec<u8> },
    /// The command of a job, by its index.
    Job(usize),
}

/// A row of a page.
#[derive(Drop)]
pub(crate) struct Row {
    pub(crate) place: Place,
    /// The number of its last line, or of its last tap, and the time there.
    pub(crate) last: u64,
    pub(crate) until: Label,
    /// The device that it is about.
    pub(crate) addr: Option<u8>,
    pub(crate) tone: Tone,
    pub(crate) is_record: bool,
    /// The job in whose fold it stands, by its index.
    pub(crate) job: Option<usize>,
    /// Of polls that say what they said before: the requests; there are several only where the row
    /// represents several.
    pub(crate) polls: Vec<Poll>,
    pub(crate) body: Body,
}

impl Row {
    /// How many exchanges a row of polls represents.
    pub(crate) fn poll_count(&self) -> u64 {
        let mut count = 0u64;
        for poll in &self.polls {
            count = count.saturating_add(poll.times);
        }
        count
    }

    /// The device that all polls of a row are for; of another row its device.
    pub(crate) fn only_addr(&self) -> Option<u8> {
        let is_one = self.polls.iter().all(|poll| Some(poll.addr) == self.addr);
        if is_one { self.addr } else { None }
    }
}
