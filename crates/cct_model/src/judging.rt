//! What a reading means, and what the host keeps of its records.

use crate::Record;

/// What a reading means beside what was recorded before.
#[derive(Drop)]
pub enum Judged {
    /// No event came and no coin was accepted.
    Nothing,
    /// A coin was accepted while the acceptor was being read.
    Moved,
    /// Put this record, a `Reading`.
    Reading(Record),
    /// Put this record, a `Broken`.
    Broken(Record),
}

/// What is recorded of an acceptor.
#[derive(Clone, Copy, PartialEq, Eq)]
pub enum EpochState {
    /// No epoch runs.
    Idle,
    /// An epoch runs with this inhibit mask; the event counter is that of the last reading recorded
    /// in it, or 0, and the accept counter, below 2^24, that of the last record in it.
    Running {
        mask: u16,
        counter: u8,
        accepts: u32,
    },
}

/// An order that is open: its id, its hopper, how many coins it is for, and the life count of the
/// hopper, below 2^24, that was read before.
#[derive(Clone, Copy, PartialEq, Eq)]
pub struct OpenOrder {
    pub id: u32,
    pub addr: u8,
    pub count: u8,
    pub life: u32,
}
