//! How a run ends: each cause of an end, and the status and the last line that report it.
ghost use Rattle.std.specs.Prelude.{◌≡◌, ◌⊎◌, ◌∷◌, [], Result};
ghost use Rattle.cct_edge.specs.Bytes.{Serves};
ghost use Rattle.cct_edge.specs.declared.fault.Failed.{Failed};
ghost use Rattle.cct_edge.specs.Faults.{Rose};
ghost use Rattle.cct_model.specs.Text.{line_of};
ghost use Rattle.cct_text.specs.Writing.{Writes};
ghost use Rattle.cct_bench.specs.Run.{ClosedBy, ending_at, last_entry, listed, status_by};
ghost use Rattle.cct_bench.specs.Run.{status_of};

use crate::outcome::Status;
use cct_edge::Sink;
use cct_journal::CreateNo;
use cct_model::{Entry, LineKind};
use cct_script::ScriptStop;
use cct_text::{TextLine, write_entry};
use cct_world::WorldNo;

/// How the steps of a script came to their end.
#[derive(Debug, Drop)]
pub enum Ending {
    /// At the script's end.
    Done,
    /// At a line that is refused.
    Refused { number: u32, kind: LineKind },
    /// At a fault in reading.
    Unread,
    /// At a fault in writing.
    Unwritten,
    /// There was no memory for the machine.
    NoMemory,
    /// The disk has another length than a journal wants.
    OtherSize { len: u64 },
    /// Before the first byte of the script no journal was created on the disk.
    Uncreated(CreateNo),
    /// A step wasn't played: the disk failed, or a power cut left another journal than was there.
    Unplayed(WorldNo),
}

/// How a run ends where its script is read no further at a line of this number.
pub fn ending_at(number: u32, why: ScriptStop) -> Ending
    ensures { result ≡ ending_at number why }
{
    match why {
        ScriptStop::Unread => Ending::Unread,
        ScriptStop::Refused(kind) => Ending::Refused { number, kind },
    }
}

/// The last line of a run that came to this end, if it has one.
fn last_entry(how: &Ending) -> Option<Entry>
    ensures { result ≡ last_entry how.now }
{
    match how {
        Ending::Done => None,
        Ending::Refused { number, kind } => Some(Entry::Line {
            number: *number,
            kind: *kind,
        }),
        Ending::Unread => Some(Entry::ReadFault),
        Ending::Unwritten => None,
        Ending::NoMemory => None,
        Ending::OtherSize { len } => Some(Entry::DiskSize { len: *len }),
        Ending::Uncreated(CreateNo::Small { len }) => Some(Entry::DiskSize { len: *len }),
        Ending::Uncreated(CreateNo::Disk) => Some(Entry::DiskFault),
        Ending::Uncreated(CreateNo::NotBlank { at }) => Some(Entry::NotBlank { at: *at }),
        Ending::Unplayed(WorldNo::Disk) => Some(Entry::DiskFault),
        Ending::Unplayed(WorldNo::Alien) => Some(Entry::JournalAlien),
        Ending::Unplayed(WorldNo::BadRecord { index }) => {
            Some(Entry::JournalBad { index: *index })
        }
        Ending::Unplayed(WorldNo::Lost { found, put }) => Some(Entry::JournalLost {
            found: *found,
            put: *put,
        }),
    }
}

/// The status of a run that came to this end, where its last line is written.
fn status_of(how: &Ending) -> Status
    ensures { result ≡ status_of how.now }
{
    match how {
        Ending::Done => Status::Done,
        Ending::Refused { .. } => Status::ScriptRefused,
        Ending::Unread => Status::ReadFault,
        Ending::Unwritten => Status::WriteFault,
        Ending::NoMemory => Status::OutOfMemory,
        Ending::OtherSize { .. } => Status::DiskSize,
        Ending::Uncreated(CreateNo::Small { .. }) => Status::DiskSize,
        Ending::Uncreated(CreateNo::Disk) => Status::DiskFault,
        Ending::Uncreated(CreateNo::NotBlank { .. }) => Status::NotBlank,
        Ending::Unplayed(WorldNo::Disk) => Status::DiskFault,
        Ending::Unplayed(WorldNo::Alien) => Status::JournalLost,
        Ending::Unplayed(WorldNo::BadRecord { .. }) => Status::JournalLost,
        Ending::Unplayed(WorldNo::Lost { .. }) => Status::JournalLost,
    }
}

/// Ends a run that came to this end: its last line is written where it has one.
pub fn finish_run<K: Sink>(how: &Ending, out: &mut K, line: &mut TextLine) -> Status
    ensures writes { (answer : Result (Unit {0}) Failed)
        × Writes K.written K.puts out.old (listed (last_entry how.now)) answer out.new
        × (result ≡ status_by answer (status_of how.now)) }
    ensures cause { (result ≡ status_of how.now) ⊎ (Rose (K.faults out.old) (K.faults out.new)
        × (result ≡ Status.WriteFault)) }
    ensures memory { how.now ≡ Ending.NoMemory → out.new ≡ out.old }
    ensures sink { Serves K.written K.faults out.old out.new ⊥ }
{
    let status = status_of(how);
    match last_entry(how) {
        Some(entry) => close(out, line, &entry, status),
        None => status,
    }
}

/// Writes a last line, and gives the status that it reports, or that of a fault in writing.
pub fn close<K: Sink>(out: &mut K, line: &mut TextLine, entry: &Entry, status: Status) -> Status
    ensures writes { (answer : Result (Unit {0}) Failed)
        × Writes K.written K.puts out.old (entry.now ∷ []) answer out.new × (result ≡ status_by answer status) }
    ensures one { (answer : Result (Unit {0}) Failed)
        × K.puts out.old (line_of entry.now) answer out.new × (result ≡ status_by answer status) }
    ensures closed { ClosedBy result status (line_of entry.now) (K.written out.old)
        (K.written out.new) }
    ensures cause { result ≡ status ⊎ Rose (K.faults out.old) (K.faults out.new) }
    ensures sink { Serves K.written K.faults out.old out.new ⊥ }
{
    match write_entry(out, line, entry) {
        Ok(()) => status,
        Err(_) => Status::WriteFault,
    }
}
