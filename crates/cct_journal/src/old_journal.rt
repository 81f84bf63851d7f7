//! A journal of an older version, which is brought forward.
ghost use Rattle.std.specs.Prelude.{◌≡◌, ℕ, ◌+◌, ◌<◌, ◌≤◌, false, Bool, Err, Some, List, IfErr};
ghost use Rattle.std.specs.Prelude.{IfOk, IsErrAnd, MatchResult, length};
ghost use Rattle.cct_edge.specs.Faults.{Caused, HasCause};
ghost use Rattle.cct_model_lines.specs.Carried.{IsRightly};
ghost use Rattle.cct_model_lines.specs.declared.carry.Carry.{Carry};
ghost use Rattle.cct_model_lines.specs.declared.record.Record.{Record};
ghost use Rattle.cct_disk.specs.Disk.{GoesOn, Holds, LeavesOnly, OnlyReads};
ghost use Rattle.cct_journal.specs.Image.{least_size};
ghost use Rattle.cct_journal.specs.Places.{after_turn};
ghost use Rattle.cct_journal.specs.declared.old_place.OldVersion.{OldVersion};
ghost use Rattle.cct_journal.specs.OldImage.{HasOldFrom, IsOldHeaded, IsTurning, old_bodies};
ghost use Rattle.cct_journal.specs.OldStands.{GivesOld, HasFreeHalf, IsOldPlaced, IsOldPlaced-prop};
ghost use Rattle.cct_journal.specs.OldStands.{IsTurned, OldCounts, OldReadsFrom};
ghost use Rattle.cct_journal.specs.OldStands.{OldStands, RefusesOld, RefusesOldRecord};

use crate::format::MOST_RECORDS;
use crate::journal::Journal;
use crate::old_opening::find_old;
use crate::old_place::OldPlace;
use crate::old_reading::read_old_record;
use crate::old_turning::turn_old;
use crate::{OldNo, ReadNo};
use cct_disk::Disk;
use cct_edge::Failed;
use cct_model_lines::{Carry, Record};

/// A journal of version 1 or 2, which is only read until it is brought forward (`docs/JOURNAL.md`,
/// "Old versions").
#[derive(Drop)]
pub struct OldJournal<D: Disk> {
    disk: D,
    at: OldPlace,
    ghost placed: { IsOldPlaced (D.size disk) at } by { IsOldPlaced-prop (D.size disk) at },
}

impl<D: Disk> OldJournal<D> {
    ghost use Rattle.cct_journal.specs.Journal.{JournalStands, has_failed};
    ghost use Rattle.cct_journal.specs.Journal as journals;
    ghost use Rattle.cct_journal.specs.OldJournal.{OldJournalReadsFrom, OldJournalReadsUpTo};
    ghost use Rattle.cct_journal.specs.OldJournal.{OldJournalStands};
    ghost use Rattle.cct_journal.specs.OldJournal.{base_of, carry_before, disk_of, place_of};
    ghost use Rattle.cct_journal.specs.OldJournal.{used_of};

    /// Opens the journal of an older version that is on a disk. The disk is only read, and no
    /// record is read yet.
    ///
    /// The refusals come in the order of [`OldNo`]. [`OldNo::Alien`] comes where the disk has fewer
    /// than 2,368 bytes, no half of it is open, or the current one begins with no header and carry
    /// of its version, [`OldNo::Current`] where it has today's version, and [`OldNo::NoRoom`] where
    /// so many slots of version 1 are open, whatever their bodies are, that the second half isn't
    /// free.
    pub fn open(disk: D) -> Result<OldJournal<D>, (D, OldNo)>
        // What a read gives has the journal's half, and as many open slots as are counted.
        ensures counts { IfOk result (λ journal. (image : List ℕ) → D.seen disk ≡ Some image
            → OldCounts D.seen (disk_of journal) (place_of journal)) }
        // If all of them spell records, it has just these.
        ensures reads_from { IfOk result (λ journal. (image : List ℕ) (base : ℕ) (carry : Carry) (rest : List Record)
            → D.seen disk ≡ Some image → HasOldFrom image base carry rest → (base ≡ base_of journal)
            × (carry ≡ carry_before journal) × OldJournalReadsFrom journal rest) }
        // If the disk keeps exactly one image, the journal represents what it has.
        ensures stands { IfOk result (λ journal. (image : List ℕ) (rest : List Record)
            → Holds D.honest D.seen D.may_leave disk image → OldJournalReadsFrom journal rest
            → OldJournalStands journal rest) }

        // why it is refused
        ensures refused { IfErr result (λ e. (image : List ℕ) → D.seen disk ≡ Some image →
            RefusesOld e.1 image) }
        // An old journal with a free half is refused only if the disk failed.
        ensures never { IfErr result (λ e. (image : List ℕ) (version : OldVersion) (second : Bool) (generation base : ℕ)
            (carry : Carry) → D.seen disk ≡ Some image → IsOldHeaded image version second generation base carry
            → HasFreeHalf version (length image) (base + length (old_bodies version image second base))
            → e.1 ≡ OldNo.Disk) }
        ensures short { D.size disk < least_size → IsErrAnd result (λ e. e.1 ≡ OldNo.Alien) }

        // the disk
        ensures reads { MatchResult result
            (λ journal. OnlyReads D.size D.honest D.seen D.may_leave D.moment D.left_since D.cuts disk
            (disk_of journal))
            (λ e. OnlyReads D.size D.honest D.seen D.may_leave D.moment D.left_since D.cuts disk e.0) }
        ensures cause { MatchResult result (λ journal. D.faults disk ≤ D.faults (disk_of journal))
            (λ e. Caused (D.faults disk) (D.faults e.0) (e.1 ≡ OldNo.Disk)) }
    {
        let mut disk = disk;
        match find_old(&mut disk) {
            Ok(at) => Ok(OldJournal { disk, at }),
            Err(why) => Err((disk, why)),
        }
    }

    /// How many records stood before the current half: 0 in version 1.
    pub fn base(&self) -> u32
        ensures value { result ≡ base_of self.now }
        ensures fits { result < MOST_RECORDS }
        ensures later { result ≤ used_of self.now }
    {
        self.at.place.base
    }

    /// How many records the journal has, with those before its current half. Each open slot counts,
    /// whatever its body is.
    pub fn used(&self) -> u32
        ensures value { result ≡ used_of self.now }
        ensures fits { result ≤ MOST_RECORDS }
        ensures later { base_of self.now ≤ result }
    {
        self.at.place.used
    }

    /// The carry of the records before the current half: the empty one in version 1.
    pub fn carry(&self) -> &Carry
        ensures value { result.now ≡ carry_before self.now }
        ensures rightly { IsRightly (base_of self.now) result.now }
    {
        &self.at.place.carry
    }

    /// The disk.
    pub fn into_disk(self) -> D
        ensures { result ≡ disk_of self }
    {
        let OldJournal { disk, at: _ } = self;
        disk
    }

    /// Reads the record of an index, the first at 0, as its version spelt it. The disk is only
    /// read.
    ///
    /// It has to be one from [`OldJournal::base`] on. [`ReadNo::BadRecord`] comes where the body of
    /// that record spells none in an old journal.
    pub fn read_at(&mut self, index: u32) -> Result<Record, ReadNo>
        requires from { base_of self.old ≤ index }
        requires within { index < used_of self.old }
        ensures gives { IfOk result (GivesOld D.seen (disk_of self.old) (place_of self.old) index) }
        ensures refused { IfErr result (RefusesOldRecord D.seen (disk_of self.old)
            (place_of self.old) index) }

        // the journal stays as it is
        ensures stands { (rest : List Record) → OldJournalStands self.old rest →
            OldJournalStands self.new rest }
        ensures told { (rest : List Record) → OldJournalReadsFrom self.old rest →
            OldJournalReadsFrom self.new rest }
        ensures told_up { (index : ℕ) (before : List Record) → OldJournalReadsUpTo self.old index before
            → OldJournalReadsUpTo self.new index before }
        ensures place { place_of self.new ≡ place_of self.old }
        ensures reads { OnlyReads D.size D.honest D.seen D.may_leave D.moment D.left_since D.cuts (disk_of self.old)
            (disk_of self.new) }
        ensures cause { Caused (D.faults (disk_of self.old)) (D.faults (disk_of self.new))
            (result ≡ Err ReadNo.Disk) }
    {
        read_old_record(&mut self.disk, &self.at, index)
    }

    /// Brings the journal forward: the other half is begun in today's version, by six disk calls,
    /// with the carry of all records and none after it. No old record is written again
    /// (`docs/JOURNAL.md`, "How a journal turns").
    ///
    /// `carry` is that of all records of the journal. At `Ok` every power cut leaves the new half.
    /// Where a disk call fails, it is open which of the two the disk has, and it has to be opened
    /// again.
    pub fn turn(self, carry: &Carry) -> Result<Journal<D>, (D, Failed)>
        requires rightly { IsRightly (used_of self) carry.now }

        // each image that a power cut at a moment of the call may leave: Within a call of the disk
        // or between two, whether calls fail or not, each image that a power cut may leave has the
        // old journal as it was, or the new one.
        ensures moments { (rest : List Record) → OldJournalStands self rest → MatchResult result
            (λ journal. LeavesOnly D.moment D.left_since (disk_of self) (journals.disk_of journal)
            (IsTurning (place_of self) carry.now rest))
            (λ e. LeavesOnly D.moment D.left_since (disk_of self) e.0 (IsTurning (place_of self) carry.now rest)) }

        // at the end:
        // At Ok each image has the new one.
        ensures done { IfOk result (λ journal. (rest : List Record) → OldJournalStands self rest
            → IsTurned D.honest D.seen D.may_leave (journals.disk_of journal) (used_of self) carry.now) }
        // So the journal represents all records of which that is the carry.
        ensures stands { IfOk result (λ journal. (rest : List Record) → OldJournalStands self rest
            → (carry_of : List Record → Carry) (records : List Record) → used_of self ≡ length records
            → carry.now ≡ carry_of records → JournalStands carry_of journal records) }
        ensures place { IfOk result (λ journal. journals.place_of journal
            ≡ after_turn (place_of self).place carry.now) }
        ensures unbroken { IfOk result (λ journal. has_failed journal ≡ false) }

        // the disk
        ensures goes_on { MatchResult result
            (λ journal. GoesOn D.size D.honest D.seen D.cuts (disk_of self) (journals.disk_of journal))
            (λ e. GoesOn D.size D.honest D.seen D.cuts (disk_of self) e.0) }
        ensures cause { MatchResult result (λ journal. D.faults (disk_of self) ≤ D.faults (journals.disk_of journal))
            (λ e. HasCause (D.faults (disk_of self)) (D.faults e.0) result) }
    {
        let OldJournal { mut disk, at } = self;
        match turn_old(&mut disk, &at, carry) {
            Ok(place) => Ok(Journal::at(disk, place)),
            Err(failed) => Err((disk, failed)),
        }
    }
}
