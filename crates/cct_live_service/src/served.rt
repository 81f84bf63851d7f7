//! How a service ends.
ghost use Rattle.std.specs.Prelude.{◌≡◌, IsErr, Result};
ghost use Rattle.cct_edge.specs.Bytes.{Serves};
ghost use Rattle.cct_edge.specs.declared.fault.Failed.{Failed};
ghost use Rattle.cct_live_service.specs.Ending.{by_writing, closed_by, last_entry, last_told};
ghost use Rattle.cct_live_service.specs.Ending.{unmade_by, unstarted_by};
ghost use Rattle.cct_live_service.specs.Told.{WritesTold};

use cct_edge::{Failed, Sink};
use cct_host::StartNo;
use cct_journal::CreateNo;
use cct_model::{Entry, LineKind};
use cct_text::{TextLine, write_entry};

/// How the service of a host came to its end.
#[derive(Clone, Copy, Debug, Drop, PartialEq, Eq)]
pub enum Served {
    /// At the line `end`, or where the input ended.
    Done,
    /// At a line that can't be passed over: 1,048,576 pieces of it were taken and it goes on, or
    /// 4,294,967,294 lines came before it.
    Refused { number: u32, kind: LineKind },
    /// The input couldn't be read.
    Unread,
    /// A line couldn't be written.
    Unwritten,
    /// A call of the disk failed. Whether the record that was being put is on the disk is open.
    Disk,
    /// The disk has another length than a journal wants.
    OtherSize { len: u64 },
    /// The disk has no journal, and isn't blank.
    Alien,
    /// A record of the journal can't be read, or doesn't follow those before it by the setup.
    BadRecord { index: u32 },
}

impl Served {
    /// The last line, if there is one.
    fn last_entry(&self) -> Option<Entry>
        ensures { result ≡ last_entry self.now }
    {
        match self {
            Served::Done => None,
            Served::Refused { number, kind } => Some(Entry::Line {
                number: *number,
                kind: *kind,
            }),
            Served::Unread => Some(Entry::ReadFault),
            Served::Unwritten => None,
            Served::Disk => Some(Entry::DiskFault),
            Served::OtherSize { len } => Some(Entry::DiskSize { len: *len }),
            Served::Alien => Some(Entry::JournalAlien),
            Served::BadRecord { index } => Some(Entry::JournalBad { index: *index }),
        }
    }
}

/// Writes the last line of a service that ends so, where it has one.
pub(crate) fn close<K: Sink>(how: Served, out: &mut K, line: &mut TextLine) -> Served
    ensures writes { (answer : Result (Unit {0}) Failed)
        × WritesTold K.written K.puts out.old (last_told how) answer out.new
        × Serves K.written K.faults out.old out.new (IsErr answer) × (result ≡ closed_by answer how) }
{
    match how.last_entry() {
        None => how,
        Some(entry) => match write_entry(out, line, &entry) {
            Ok(()) => how,
            Err(_) => Served::Unwritten,
        },
    }
}

/// Why no journal is made on a disk that has the length of one.
pub(crate) fn unmade(why: CreateNo) -> Served
    ensures { result ≡ unmade_by why }
{
    match why {
        CreateNo::Small { len } => Served::OtherSize { len },
        CreateNo::Disk => Served::Disk,
        CreateNo::NotBlank { .. } => Served::Alien,
    }
}

/// Why no host starts over a journal.
pub(crate) fn unstarted(why: StartNo) -> Served
    ensures { result ≡ unstarted_by why }
{
    match why {
        StartNo::Disk => Served::Disk,
        StartNo::BadRecord { index } => Served::BadRecord { index },
    }
}

/// Goes on, or ends where a line couldn't be written.
pub(crate) fn by_writing(answer: Result<(), Failed>) -> Result<(), Served>
    ensures { result ≡ by_writing answer }
{
    match answer {
        Ok(()) => Ok(()),
        Err(_) => Err(Served::Unwritten),
    }
}
