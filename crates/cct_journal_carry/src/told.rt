//! What one record says: the id that it uses, and how the epoch of its address goes on.
ghost use Rattle.std.specs.Prelude.{◌≡◌};
ghost use Rattle.cct_model.specs.Job.{counted, epoch_by};
ghost use Rattle.cct_model.specs.Records.{id_of};

use cct_model::{EpochState, Record};

/// The id that a record uses, of an order that it opens or of a sale; 0 of others.
pub fn id_of(entry: &Record) -> u32
    ensures { result ≡ id_of entry.now }
{
    match entry {
        Record::Opened { id, .. } => *id,
        Record::Sold { id, .. } => *id,
        _ => 0,
    }
}

/// The epoch after a record: it begins with event counter 0 and the accept counter that it records,
/// a reading moves both, and a break or its end ends it.
pub fn epoch_by(entry: &Record, before: EpochState) -> EpochState
    ensures { result ≡ epoch_by entry.now before }
{
    match entry {
        Record::Epoch { mask, accepts, .. } => EpochState::Running {
            mask: *mask,
            counter: 0,
            accepts: *accepts,
        },
        Record::Reading {
            counter,
            accepts,
            ..
        } => counted(*counter, *accepts, before),
        Record::Broken { .. } => EpochState::Idle,
        Record::EpochEnd { .. } => EpochState::Idle,
        _ => before,
    }
}

/// An epoch, where one runs, with another event counter and another accept counter.
fn counted(counter: u8, accepts: u32, before: EpochState) -> EpochState
    ensures { result ≡ counted counter accepts before }
{
    match before {
        EpochState::Idle => EpochState::Idle,
        EpochState::Running { mask, .. } => EpochState::Running {
            mask,
            counter,
            accepts,
        },
    }
}
