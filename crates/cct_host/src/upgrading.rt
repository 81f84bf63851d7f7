//! A journal of an older version is brought forward.
ghost use Rattle.std.specs.Prelude.{◌≡◌, ◌≢◌, ◌≤◌, ◌+◌, ℕ, List, Err, IfErr, IfNone, IfOk, IfSome};
ghost use Rattle.std.specs.Prelude.{MatchResult, Some, false, length};
ghost use Rattle.cct_edge.specs.Faults.{Caused};
ghost use Rattle.cct_model.specs.lines.carry.Carry.{Carry};
ghost use Rattle.cct_model.specs.lines.record.Record.{Record};
ghost use Rattle.cct_model.specs.Carried.{IsRightly};
ghost use Rattle.cct_model.specs.Carry.{carry_of, carry_over};
ghost use Rattle.cct_model.specs.Setup.{IsSoundSetup};
ghost use Rattle.cct_disk.specs.Disk.{GoesOn, Holds, LeavesOnly, OnlyReads};
ghost use Rattle.cct_journal.specs.Journal as journals;
ghost use Rattle.cct_journal.specs.Journal.{JournalStands};
ghost use Rattle.cct_journal.specs.OldImage.{HasOldFrom, IsTurning, OldStandsFor, bodies_at};
ghost use Rattle.cct_journal.specs.OldJournal as olds;
ghost use Rattle.cct_journal.specs.OldJournal.{OldJournalStands};
ghost use Rattle.cct_journal.specs.OldStands.{IsTurned, OldCounts, OldReadsFrom};
ghost use Rattle.cct_journal_carry.specs.Tally as tallies;
ghost use Rattle.cct_host.specs.OldTally.{CountsAll, OnlyReadOld, RefusesOpened, TurnsBy};
ghost use Rattle.cct_host.specs.OnDisk.{KeepsRecords};
ghost use Rattle.cct_host.specs.Upgrading.{CanTurn, CanUpgrade, Counts, IsBrought, IsLeastRunning};
ghost use Rattle.cct_host.specs.Upgrading.{NoneRuns, OldFirstFollow};
ghost use Rattle.cct_host.specs.Upgrading.{RefusesUpgrade, StandsBrought, disk_after};

use crate::old_replay::tally_old;
use crate::refusal::UpgradeNo;
use cct_disk::Disk;
use cct_edge::Failed;
use cct_journal::{Journal, OldJournal};
use cct_journal_carry::Tally;
use cct_model::{Carry, Setup};

/// Brings the journal of an older version on a disk forward: the other half gets the carry of all
/// its records, by one turn, and no old record is written again. It gives the journal, and how many
/// records it has.
///
/// The refusals come in the order of [`UpgradeNo`]; the disk is then only read.
pub fn upgrade<D: Disk>(setup: &Setup, disk: D) -> Result<(Journal<D>, u32), (D, UpgradeNo)>
    requires sound { IsSoundSetup setup.now }

    // each image that a power cut may leave: At each moment, whether calls fail or not, the old
    // journal with the same carry and records, or one of today with the carry of all of them.
    ensures moments { (image : List ℕ) (base : ℕ) (carry : Carry) (rest : List Record)
        → Holds D.honest D.seen D.may_leave disk image → HasOldFrom image base carry rest
        → LeavesOnly D.moment D.left_since disk (disk_after result) (IsBrought setup.now base carry rest) }
    // So it represents the same records as before, as an old journal or as one of today.
    ensures stands { (image : List ℕ) (records : List Record) → Holds D.honest D.seen D.may_leave disk image
        → (stands : OldStandsFor (carry_of setup.now) image records) → OldFirstFollow setup.now stands
        → LeavesOnly D.moment D.left_since disk (disk_after result) (StandsBrought setup.now records) }
    // Where it can't be brought forward, there is no new image.
    ensures alone { (image : List ℕ) → Holds D.honest D.seen D.may_leave disk image
        → ((base : ℕ) (carry : Carry) (rest : List Record) → CanUpgrade setup.now image base carry rest → ⊥)
        → LeavesOnly D.moment D.left_since disk (disk_after result) (λ c. c ≡ image) }

    // at Ok:
    // Each image is of today, with the carry of all records.
    ensures done { IfOk result (λ brought. (image : List ℕ) (base : ℕ) (carry : Carry) (rest : List Record)
        → Holds D.honest D.seen D.may_leave disk image → HasOldFrom image base carry rest
        → IsTurned D.honest D.seen D.may_leave (journals.disk_of brought.0) (base + length rest)
        (carry_over setup.now carry rest)) }
    // And the journal represents them.
    ensures keeps { IfOk result (λ brought. (image : List ℕ) (records : List Record)
        → Holds D.honest D.seen D.may_leave disk image
        → (stands : OldStandsFor (carry_of setup.now) image records) → OldFirstFollow setup.now stands
        → KeepsRecords setup.now D.honest D.seen D.may_leave (journals.disk_of brought.0) (journals.place_of brought.0)
        records) }
    ensures counts { IfOk result (λ brought. (image : List ℕ) → D.seen disk ≡ Some image
        → Counts setup.now image brought.1) }
    ensures whole { IfOk result (λ brought. journals.has_failed brought.0 ≡ false) }

    // why it is refused:
    ensures refused { IfErr result (λ e. (image : List ℕ) → D.seen disk ≡ Some image
        → RefusesUpgrade e.1 setup.now image) }
    // What can be brought forward is refused only if the disk failed.
    ensures never { IfErr result (λ e. (image : List ℕ) (base : ℕ) (carry : Carry) (rest : List Record)
        → D.seen disk ≡ Some image → CanUpgrade setup.now image base carry rest → e.1 ≡ UpgradeNo.Disk) }
    ensures unchanged { IfErr result (λ e. e.1 ≢ UpgradeNo.Disk → OnlyReads D.size D.honest D.seen D.may_leave
        D.moment D.left_since D.cuts disk e.0) }

    // the disk
    ensures goes_on { GoesOn D.size D.honest D.seen D.cuts disk (disk_after result) }
    ensures cause { MatchResult result (λ brought. D.faults disk ≤ D.faults (journals.disk_of brought.0))
        (λ e. Caused (D.faults disk) (D.faults e.0) (e.1 ≡ UpgradeNo.Disk)) }
{
    match OldJournal::open(disk) {
        Ok(journal) => bring_forward(setup, journal),
        Err((disk, why)) => Err((disk, UpgradeNo::from(why))),
    }
}

/// An open journal of an older version is brought forward.
fn bring_forward<D: Disk>(
    setup: &Setup,
    journal: OldJournal<D>,
) -> Result<(Journal<D>, u32), (D, UpgradeNo)>
    requires sound { IsSoundSetup setup.now }

    // each image that a power cut may leave
    ensures moments { (rest : List Record) → OldJournalStands journal rest
        → LeavesOnly D.moment D.left_since (olds.disk_of journal) (disk_after result)
        (TurnsBy setup.now (olds.place_of journal) rest) }
    // The disk is only read where the records can't be turned.
    ensures alone { OldCounts D.seen (olds.disk_of journal) (olds.place_of journal)
        → ((rest : List Record) → OldReadsFrom D.seen (olds.disk_of journal) (olds.place_of journal) rest
        → CanTurn setup.now (olds.carry_before journal) rest → ⊥)
        → OnlyReads D.size D.honest D.seen D.may_leave D.moment D.left_since D.cuts (olds.disk_of journal)
        (disk_after result) }

    // at Ok
    ensures done { IfOk result (λ brought. (rest : List Record) → OldJournalStands journal rest
        → IsTurned D.honest D.seen D.may_leave (journals.disk_of brought.0) (olds.used_of journal)
        (carry_over setup.now (olds.carry_before journal) rest)) }
    ensures keeps { IfOk result (λ brought. (rest : List Record) → OldJournalStands journal rest
        → (carry_of : List Record → Carry) (records : List Record) → olds.used_of journal ≡ length records
        → carry_over setup.now (olds.carry_before journal) rest ≡ carry_of records
        → JournalStands carry_of brought.0 records) }
    ensures counts { IfOk result (λ brought. OldCounts D.seen (olds.disk_of journal) (olds.place_of journal)
        → CountsAll setup.now journal brought.1) }
    ensures can { IfOk result (λ brought. (rest : List Record)
        → OldReadsFrom D.seen (olds.disk_of journal) (olds.place_of journal) rest
        → CanTurn setup.now (olds.carry_before journal) rest) }
    ensures whole { IfOk result (λ brought. journals.has_failed brought.0 ≡ false) }

    // why it is refused
    ensures refused { IfErr result (λ e. (counts : OldCounts D.seen (olds.disk_of journal) (olds.place_of journal))
        → RefusesOpened e.1 setup.now (olds.base_of journal) (olds.carry_before journal)
        (bodies_at (olds.place_of journal) counts.image)) }
    ensures never { IfErr result (λ e. (rest : List Record)
        → OldReadsFrom D.seen (olds.disk_of journal) (olds.place_of journal) rest
        → CanTurn setup.now (olds.carry_before journal) rest → e.1 ≡ UpgradeNo.Disk) }
    ensures unchanged { IfErr result (λ e. e.1 ≢ UpgradeNo.Disk → OnlyReads D.size D.honest D.seen D.may_leave
        D.moment D.left_since D.cuts (olds.disk_of journal) e.0) }

    // the disk
    ensures goes_on { GoesOn D.size D.honest D.seen D.cuts (olds.disk_of journal)
        (disk_after result) }
    ensures cause { MatchResult result (λ brought. D.faults (olds.disk_of journal) ≤ D.faults (journals.disk_of brought.0))
        (λ e. Caused (D.faults (olds.disk_of journal)) (D.faults e.0) (e.1 ≡ UpgradeNo.Disk)) }
{
    let mut journal = journal;
    match tally_all(setup, &mut journal) {
        Ok(tally) => turn(journal, &tally),
        Err(why) => Err((journal.into_disk(), why)),
    }
}

/// A tally of all records of a journal of an older version, after which no epoch runs.
fn tally_all<'s, D: Disk>(
    setup: &'s Setup,
    journal: &mut OldJournal<D>,
) -> Result<Tally<'s>, UpgradeNo>
    requires sound { IsSoundSetup setup.now }
    ensures counted { IfOk result (λ tally. tallies.many_of tally ≡ olds.used_of journal.old) }
    ensures can { IfOk result (λ tally. (rest : List Record)
        → OldReadsFrom D.seen (olds.disk_of journal.old) (olds.place_of journal.old) rest
        → CanTurn setup.now (olds.carry_before journal.old) rest
        × (tallies.carry_in tally ≡ carry_over setup.now (olds.carry_before journal.old) rest)) }
    ensures reads_all { IfOk result (λ tally. OldCounts D.seen (olds.disk_of journal.old) (olds.place_of journal.old)
        → CountsAll setup.now journal.old (olds.used_of journal.old)) }
    ensures refused { IfErr result (λ why. (counts : OldCounts D.seen (olds.disk_of journal.old) (olds.place_of journal.old))
        → RefusesOpened why setup.now (olds.base_of journal.old) (olds.carry_before journal.old)
        (bodies_at (olds.place_of journal.old) counts.image)) }
    ensures never { IfErr result (λ why. (rest : List Record)
        → OldReadsFrom D.seen (olds.disk_of journal.old) (olds.place_of journal.old) rest
        → CanTurn setup.now (olds.carry_before journal.old) rest → why ≡ UpgradeNo.Disk) }
    ensures reads { OnlyReadOld journal.old journal.new (result ≡ Err UpgradeNo.Disk) }
{
    match tally_old(setup, journal) {
        Ok(tally) => match first_running(tally.carry()) {
            None => Ok(tally),
            Some(addr) => Err(UpgradeNo::EpochRuns { addr }),
        },
        Err(why) => Err(UpgradeNo::from(why)),
    }
}

/// The least address at which an epoch runs by a carry, if one runs.
fn first_running(carry: &Carry) -> Option<u8>
    requires rightly { (many : ℕ) × IsRightly many carry.now }
    ensures runs { IfSome result (IsLeastRunning carry.now) }
    ensures none { IfNone result (NoneRuns carry.now) }
{
    match carry.epochs.as_slice() {
        [] => None,
        [first, ..] => Some(first.addr),
    }
}

/// A journal of an older version is turned, with the carry of a tally of all its records.
fn turn<D: Disk>(
    journal: OldJournal<D>,
    tally: &Tally<'_>,
) -> Result<(Journal<D>, u32), (D, UpgradeNo)>
    requires counted { tallies.many_of tally.now ≡ olds.used_of journal }

    // each image that a power cut may leave, and what is at Ok
    ensures moments { (rest : List Record) → OldJournalStands journal rest
        → LeavesOnly D.moment D.left_since (olds.disk_of journal) (disk_after result)
        (IsTurning (olds.place_of journal) (tallies.carry_in tally.now) rest) }
    ensures done { IfOk result (λ brought. (rest : List Record) → OldJournalStands journal rest
        → IsTurned D.honest D.seen D.may_leave (journals.disk_of brought.0) (olds.used_of journal)
        (tallies.carry_in tally.now)) }
    ensures keeps { IfOk result (λ brought. (rest : List Record) → OldJournalStands journal rest
        → (carry_of : List Record → Carry) (records : List Record) → olds.used_of journal ≡ length records
        → tallies.carry_in tally.now ≡ carry_of records → JournalStands carry_of brought.0 records) }
    ensures counted { IfOk result (λ brought. brought.1 ≡ olds.used_of journal) }
    ensures whole { IfOk result (λ brought. journals.has_failed brought.0 ≡ false) }

    // why it isn't, and the disk
    ensures why { IfErr result (λ e. e.1 ≡ UpgradeNo.Disk) }
    ensures goes_on { GoesOn D.size D.honest D.seen D.cuts (olds.disk_of journal)
        (disk_after result) }
    ensures cause { MatchResult result (λ brought. D.faults (olds.disk_of journal) ≤ D.faults (journals.disk_of brought.0))
        (λ e. Caused (D.faults (olds.disk_of journal)) (D.faults e.0) (e.1 ≡ UpgradeNo.Disk)) }
{
    let records = journal.used();
    match journal.turn(tally.carry()) {
        Ok(journal) => Ok((journal, records)),
        Err((disk, Failed)) => Err((disk, UpgradeNo::Disk)),
    }
}
