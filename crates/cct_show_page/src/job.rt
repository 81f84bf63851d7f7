//! The jobs of a page, each from its command to its end.

use crate::device::count_of;
use cct_model_lines::{End, Record};
use cct_show_picture::{Label, Place};
use cct_show_words::alarm_of;

/// How a job ended.
#[derive(Clone, Copy)]
pub(crate) enum Ending {
    /// The input has no end of it.
    Open,
    /// A power cut ended it.
    Cut,
    /// Its line says so, with this word.
    Told { word: Label, end: End },
}

/// A job, and what its rows show.
#[derive(Drop)]
pub(crate) struct Job {
    /// Its command, without the `ok` before it.
    pub(crate) command: Vec<u8>,
    pub(crate) place: Place,
    /// The indices of the row of its command, and of its last row so far.
    pub(crate) first: usize,
    pub(crate) last: usize,
    pub(crate) addr: u8,
    pub(crate) ending: Ending,
    /// How many of its rows somebody is to look at.
    pub(crate) reds: u64,
    pub(crate) posted: u64,
    pub(crate) lost: u64,
    /// The coins that fell, and that did not, of the order that it closed.
    pub(crate) closed: Option<(u8, u8)>,
    /// How many rounds that found nothing new it represents, and the last line of the last one.
    pub(crate) times: u64,
    pub(crate) until: u64,
}

impl Job {
    /// Counts a record that the job put.
    pub(crate) fn put(&mut self, record: &Record) {
        match record {
            Record::Reading { posted, lost, .. } | Record::Broken { posted, lost, .. } => {
                self.posted = self.posted.saturating_add(count_of(posted));
                self.lost = self.lost.saturating_add(u64::from(*lost));
            }
            Record::Closed { paid, unpaid, .. } => self.closed = Some((*paid, *unpaid)),
            _ => {}
        }
    }

    /// What became of it, in a word or some.
    pub(crate) fn became(&self) -> Label {
        match self.ending {
            Ending::Open => Label::new(b"no end"),
            Ending::Cut => Label::new(b"ended by a power cut"),
            Ending::Told { word, .. } => word,
        }
    }

    /// Whether its end is reported.
    pub(crate) fn has_end(&self) -> bool {
        match self.ending {
            Ending::Open | Ending::Cut => false,
            Ending::Told { .. } => true,
        }
    }

    /// Whether it ended well: as it was meant to, and no coin is lost or unpaid.
    pub(crate) fn is_well(&self) -> bool {
        match self.ending {
            Ending::Open | Ending::Cut => false,
            Ending::Told { end, .. } => {
                alarm_of(end).is_none() && self.lost == 0 && self.unpaid() == 0
            }
        }
    }

    /// How many coins of the order that it closed did not fall.
    fn unpaid(&self) -> u8 {
        match self.closed {
            Some((_, unpaid)) => unpaid,
            None => 0,
        }
    }

    /// Whether it is a round that found nothing new, with nothing to look at.
    pub(crate) fn is_idle(&self) -> bool {
        match self.ending {
            Ending::Told {
                end: End::Clean,
                ..
            } => self.reds == 0,
            _ => false,
        }
    }
}
