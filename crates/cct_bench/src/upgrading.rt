//! An upgrade: a script is read to its end, and then the journal of an earlier version on the disk
//! is brought forward.
ghost use Rattle.std.specs.Prelude.{◌≡◌, ◌≢◌, ◌∷◌, [], ℕ, ◌≤◌, Err, Result, IfErr, IsOk};
ghost use Rattle.cct_edge.specs.Bytes.{Serves};
ghost use Rattle.cct_edge.specs.declared.fault.Failed.{Failed};
ghost use Rattle.cct_edge.specs.Faults.{Caused, Rose};
ghost use Rattle.cct_model.specs.Setup.{IsSoundSetup};
ghost use Rattle.cct_disk.specs.Disk.{GoesOn, OnlyReads};
ghost use Rattle.cct_host.specs.declared.refusal.UpgradeNo.{UpgradeNo};
ghost use Rattle.cct_host.specs.declared.refusal.UpgradeNo.TheVariants as no;
ghost use Rattle.cct_text.specs.Writing.{Writes};
ghost use Rattle.cct_bench.specs.Run.{status_by};
ghost use Rattle.cct_script.specs.Source.{OfBytes};
ghost use Rattle.cct_bench.specs.Upgrade.{ComesBack, Upgraded, old_disk, told_entry, told_status};

use crate::ending::{close, finish_run};
use crate::outcome::Status;
use crate::play::JOURNAL_BYTES;
use crate::upgrade_script::read_upgrade;
use cct_disk::Disk;
use cct_edge::{Sink, Source};
use cct_host::{UpgradeNo, upgrade};
use cct_model::{Devices, Entry, Setup};
use cct_script::Lines;
use cct_text::TextLine;

/// Reads the script of an upgrade, brings the journal on a disk forward for its devices, gives the
/// disk back, and writes the one line that says how that went. No call of the disk but that for its
/// length is made before the script's end.
// In a frame of its own it takes no room where a script is played.
#[inline(never)]
pub fn run_upgrade<S: Source, K: Sink, D: Disk>(script: &mut S, out: &mut K, disk: D) -> (Status, D)
    ensures upgraded { OfBytes (S.left script.old) (λ bytes. Upgraded
        (old_disk D.size D.honest D.seen D.may_leave D.moment D.left_since D.cuts D.faults disk result.1)
        (Rose (S.faults script.old) (S.faults script.new)) bytes result.0 (S.left script.new)
        (λ lines answer. Writes K.written K.puts out.old lines answer out.new)) }

    // the statuses that need words or memory
    ensures words { result.0 ≢ Status.WordsRefused }
    ensures memory { result.0 ≢ Status.OutOfMemory }

    // source, sink and disk
    ensures source { Serves S.left S.faults script.old script.new (result.0 ≡ Status.ReadFault) }
    ensures sink { Serves K.written K.faults out.old out.new (result.0 ≡ Status.WriteFault) }
    ensures goes_on { GoesOn D.size D.honest D.seen D.cuts disk result.1 }
    ensures disk_cause { Caused (D.faults disk) (D.faults result.1) (result.0 ≡ Status.DiskFault) }
{
    let len = disk.len();
    let mut line = TextLine::new();
    if len != JOURNAL_BYTES {
        let status = close(out, &mut line, &Entry::DiskSize { len }, Status::DiskSize);
        return (status, disk);
    }
    let mut setup = Setup {
        devices: Devices::new(),
    };
    match read_upgrade(&mut Lines::new(), &mut setup, script) {
        Ok(()) => forward_and_tell(&setup, out, &mut line, disk),
        Err(how) => (finish_run(&how, out, &mut line), disk),
    }
}

/// Brings the journal on a disk forward, gives the disk back, and writes the line that says how
/// that went.
fn forward_and_tell<K: Sink, D: Disk>(
    setup: &Setup,
    out: &mut K,
    line: &mut TextLine,
    disk: D,
) -> (Status, D)
    requires sound { IsSoundSetup setup.now }
    ensures told { (answer : Result ℕ UpgradeNo) × (put : Result (Unit {0}) Failed)
        × (old_disk D.size D.honest D.seen D.may_leave D.moment D.left_since D.cuts D.faults disk result.1).answers setup.now answer
        × ComesBack (Rose (D.faults disk) (D.faults result.1))
        (OnlyReads D.size D.honest D.seen D.may_leave D.moment D.left_since D.cuts disk result.1) answer
        × Writes K.written K.puts out.old (told_entry answer ∷ []) put out.new
        × (result.0 ≡ status_by put (told_status answer)) }
    ensures moments { (old_disk D.size D.honest D.seen D.may_leave D.moment D.left_since D.cuts D.faults disk result.1).moments
        setup.now }
    ensures forward { result.0 ≡ Status.Done
        → (old_disk D.size D.honest D.seen D.may_leave D.moment D.left_since D.cuts D.faults disk result.1).forward setup.now }

    // the sink and the disk
    ensures sink { Serves K.written K.faults out.old out.new (result.0 ≡ Status.WriteFault) }
    ensures goes_on { GoesOn D.size D.honest D.seen D.cuts disk result.1 }
    ensures disk_cause { Caused (D.faults disk) (D.faults result.1) (result.0 ≡ Status.DiskFault) }
{
    let (answer, disk) = bring_forward(setup, disk);
    let (entry, status) = told_by(&answer);
    (close(out, line, &entry, status), disk)
}

/// Brings the journal on a disk forward, and gives the disk back: how many records it has, or why
/// it isn't brought forward.
fn bring_forward<D: Disk>(setup: &Setup, disk: D) -> (Result<u32, UpgradeNo>, D)
    requires sound { IsSoundSetup setup.now }
    ensures answers { (old_disk D.size D.honest D.seen D.may_leave D.moment D.left_since D.cuts D.faults disk result.1).answers
        setup.now result.0 }
    ensures moments { (old_disk D.size D.honest D.seen D.may_leave D.moment D.left_since D.cuts D.faults disk result.1).moments
        setup.now }
    ensures forward { IsOk result.0
        → (old_disk D.size D.honest D.seen D.may_leave D.moment D.left_since D.cuts D.faults disk result.1).forward setup.now }
    ensures kept { IfErr result.0 (λ why. why ≢ no.Disk
        → OnlyReads D.size D.honest D.seen D.may_leave D.moment D.left_since D.cuts disk result.1) }
    ensures goes_on { GoesOn D.size D.honest D.seen D.cuts disk result.1 }
    ensures cause { Caused (D.faults disk) (D.faults result.1) (result.0 ≡ Err no.Disk) }
{
    match upgrade(setup, disk) {
        Ok((journal, records)) => (Ok(records), journal.into_disk()),
        Err((disk, why)) => (Err(why), disk),
    }
}

/// The line that says how many records a journal has that was brought forward, or why it wasn't,
/// and the status.
fn told_by(answer: &Result<u32, UpgradeNo>) -> (Entry, Status)
    ensures entry { result.0 ≡ told_entry answer.now }
    ensures status { result.1 ≡ told_status answer.now }
{
    match answer {
        Ok(records) => (Entry::Upgraded { records: *records }, Status::Done),
        Err(UpgradeNo::Disk) => (Entry::DiskFault, Status::DiskFault),
        Err(UpgradeNo::Alien) => (Entry::JournalAlien, Status::JournalLost),
        Err(UpgradeNo::Current) => (Entry::UpgradeCurrent, Status::NotUpgraded),
        Err(UpgradeNo::NoRoom { used }) => {
            (Entry::UpgradeRoom { used: *used }, Status::NotUpgraded)
        }
        Err(UpgradeNo::BadRecord { index }) => {
            (Entry::JournalBad { index: *index }, Status::JournalLost)
        }
        Err(UpgradeNo::EpochRuns { addr }) => {
            (Entry::UpgradeEpoch { addr: *addr }, Status::NotUpgraded)
        }
    }
}
