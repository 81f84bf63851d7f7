//! A state: a setup is read where one is given, and what the journal on the disk knows now is
//! reported. The disk is only read.
ghost use Rattle.std.specs.Prelude.{◌≡◌, ◌⊎◌, ℕ, List, Some, Result, IfSome, option_map};
ghost use Rattle.cct_audit.specs.Writing.{WritesLines};
ghost use Rattle.cct_edge.specs.Bytes.{Serves};
ghost use Rattle.cct_edge.specs.declared.fault.Failed.{Failed};
ghost use Rattle.cct_edge.specs.Faults.{Caused, Rose};
ghost use Rattle.cct_disk.specs.Disk.{OnlyReads};
ghost use Rattle.cct_model.specs.Setup.{IsSoundSetup};
ghost use Rattle.cct_script.specs.Source.{OfBytes};
ghost use Rattle.cct_bench_state.specs.Known.{any_disk, of_image};
ghost use Rattle.cct_text.specs.Writing.{Writes};
ghost use Rattle.cct_bench.specs.State.{IsOfState, IsToldState, Stated, StopsBy, TellsBy};
ghost use Rattle.cct_bench.specs.State.{gives_none, line_behind_state, stated_by};
ghost use Rattle.cct_bench.specs.State.{told_disk};
ghost use Rattle.cct_bench.specs.Run.{IsOfScript, status_by};

use crate::ending::{Ending, close, finish_run};
use crate::outcome::Status;
use crate::play::JOURNAL_BYTES;
use crate::upgrade_script::read_upgrade;
use cct_bench_state::{StateEnd, tell_state};
use cct_disk::Disk;
use cct_edge::{Sink, Source};
use cct_journal::OpenNo;
use cct_model::{Devices, Entry, LineKind, Setup};
use cct_script::Lines;
use cct_text::TextLine;

/// Reads a setup, where one is given, and says what the journal on a disk knows now; the disk is
/// given back. No call of it but that for its length is made before the script's end. A script
/// without a whole line gives no setup.
// In a frame of its own it takes no room where a script is played.
#[inline(never)]
pub fn run_state<S: Source, K: Sink, D: Disk>(script: &mut S, out: &mut K, disk: D) -> (Status, D)
    // what was taken and written, by what the image of the disk is
    ensures stated { (image : List ℕ) → D.seen disk ≡ Some image → OfBytes (S.left script.old) (λ bytes.
        Stated (told_disk (D.size disk) (of_image image) (Rose (D.faults disk) (D.faults result.1)))
        (Rose (S.faults script.old) (S.faults script.new)) bytes result.0 (S.left script.new)
        (λ lines answer. WritesLines K.written K.puts out.old lines answer out.new)) }
    // and whether or not the disk shows its bytes
    ensures lines { OfBytes (S.left script.old) (λ bytes.
        Stated (told_disk (D.size disk) any_disk (Rose (D.faults disk) (D.faults result.1)))
        (Rose (S.faults script.old) (S.faults script.new)) bytes result.0 (S.left script.new)
        (λ lines answer. WritesLines K.written K.puts out.old lines answer out.new)) }

    // the statuses of other words
    ensures own { IsOfState result.0 }

    // source, sink and disk
    ensures source { Serves S.left S.faults script.old script.new (result.0 ≡ Status.ReadFault) }
    ensures sink { Serves K.written K.faults out.old out.new (result.0 ≡ Status.WriteFault) }
    ensures reads { OnlyReads D.size D.honest D.seen D.may_leave D.moment D.left_since D.cuts disk
        result.1 }
    ensures disk_cause { Caused (D.faults disk) (D.faults result.1) (result.0 ≡ Status.DiskFault) }
{
    let len = disk.len();
    let mut line = TextLine::new();
    if len != JOURNAL_BYTES {
        let status = close(out, &mut line, &Entry::DiskSize { len }, Status::DiskSize);
        return (status, disk);
    }
    let mut setup = Setup {
        devices: Devices::new(),
    };
    match read_upgrade(&mut Lines::new(), &mut setup, script) {
        Ok(()) => tell(out, &mut line, Some(&setup), disk),
        Err(how) => tell_without(&how, out, &mut line, disk),
    }
}

/// Says what the journal on a disk knows now where a script ended before its first line did; else
/// writes the last line.
fn tell_without<K: Sink, D: Disk>(
    how: &Ending,
    out: &mut K,
    line: &mut TextLine,
    disk: D,
) -> (Status, D)
    ensures told { (image : List ℕ) → D.seen disk ≡ Some image
        → StopsBy (told_disk (D.size disk) (of_image image) (Rose (D.faults disk) (D.faults result.1))) how.now result.0
        (λ lines answer. WritesLines K.written K.puts out.old lines answer out.new) }
    ensures lines { StopsBy (told_disk (D.size disk) any_disk (Rose (D.faults disk) (D.faults result.1))) how.now result.0
        (λ lines answer. WritesLines K.written K.puts out.old lines answer out.new) }
    ensures own { IsOfScript how.now → IsOfState result.0 }
    ensures read { IsOfScript how.now → result.0 ≡ Status.ReadFault → how.now ≡ Ending.Unread }
    ensures reads { OnlyReads D.size D.honest D.seen D.may_leave D.moment D.left_since D.cuts disk
        result.1 }
    ensures disk_cause { IsOfScript how.now →
        Caused (D.faults disk) (D.faults result.1) (result.0 ≡ Status.DiskFault) }
    ensures sink { IsOfScript how.now
        → Serves K.written K.faults out.old out.new (result.0 ≡ Status.WriteFault) }
{
    if gives_none(how) {
        tell(out, line, None, disk)
    } else {
        (finish_run(how, out, line), disk)
    }
}

/// Whether a script ended before its first line did.
fn gives_none(how: &Ending) -> bool
    ensures { result ≡ gives_none how.now }
{
    match how {
        Ending::Refused {
            number: 1,
            kind: LineKind::Cut,
        } => true,
        _ => false,
    }
}

/// Says what the journal on a disk knows now, and writes the last line where the status has one.
fn tell<K: Sink, D: Disk>(
    out: &mut K,
    line: &mut TextLine,
    setup: Option<&Setup>,
    disk: D,
) -> (Status, D)
    requires sound { IfSome setup (λ setup. IsSoundSetup setup.now) }
    ensures told { (image : List ℕ) → D.seen disk ≡ Some image
        → TellsBy (told_disk (D.size disk) (of_image image) (Rose (D.faults disk) (D.faults result.1)))
        (option_map (λ s. s.now) setup.entry) result.0
        (λ lines answer. WritesLines K.written K.puts out.old lines answer out.new) }
    ensures lines { TellsBy (told_disk (D.size disk) any_disk (Rose (D.faults disk) (D.faults result.1)))
        (option_map (λ s. s.now) setup.entry) result.0
        (λ lines answer. WritesLines K.written K.puts out.old lines answer out.new) }
    ensures own { IsToldState result.0 }
    ensures reads { OnlyReads D.size D.honest D.seen D.may_leave D.moment D.left_since D.cuts disk
        result.1 }
    ensures disk_cause { Caused (D.faults disk) (D.faults result.1) (result.0 ≡ Status.DiskFault) }
    ensures sink { Serves K.written K.faults out.old out.new (result.0 ≡ Status.WriteFault) }
{
    let (how, disk) = tell_state(out, line, setup, disk);
    (finish_state(how, out, line), disk)
}

/// Ends a state whose writing ended so: its last line is written where it has one.
fn finish_state<K: Sink>(how: StateEnd, out: &mut K, line: &mut TextLine) -> Status
    ensures writes { (answer : Result (Unit {0}) Failed)
        × Writes K.written K.puts out.old (line_behind_state how) answer out.new
        × (result ≡ status_by answer (stated_by how)) }
    ensures unwritten { result ≡ Status.WriteFault → (how ≡ StateEnd.Unwritten)
        ⊎ Rose (K.faults out.old) (K.faults out.new) }
    ensures disk { result ≡ Status.DiskFault → how ≡ StateEnd.Unread OpenNo.Disk }
    ensures own { IsToldState result }
    ensures sink { Serves K.written K.faults out.old out.new ⊥ }
{
    match how {
        StateEnd::Done => Status::Done,
        StateEnd::Unwritten => Status::WriteFault,
        StateEnd::Unread(OpenNo::Disk) => close(out, line, &Entry::DiskFault, Status::DiskFault),
        StateEnd::Unread(OpenNo::Alien) => {
            close(out, line, &Entry::JournalAlien, Status::JournalLost)
        }
        StateEnd::Unread(OpenNo::BadRecord { index }) => {
            close(out, line, &Entry::JournalBad { index }, Status::JournalLost)
        }
    }
}
