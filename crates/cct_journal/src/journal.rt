//! The journal.
ghost use Rattle.std.specs.Prelude.{◌≡◌, ◌≢◌, ◌⊎◌, ◌↔◌, ◌<◌, ◌≤◌, ◌+◌, ℕ, true, false, Err, Some};
ghost use Rattle.std.specs.Prelude.{List, []};
ghost use Rattle.std.specs.Prelude.{◌∷◌, ◌++◌, IfErr, IfOk, IfSome, IsErrAnd, MatchResult, OnErr};
ghost use Rattle.std.specs.Prelude.{OnOk};
ghost use Rattle.cct_edge.specs.Faults.{Caused, HasCause};
ghost use Rattle.cct_model_lines.specs.Carried.{IsRightly};
ghost use Rattle.cct_model_lines.specs.declared.carry.Carry.{Carry};
ghost use Rattle.cct_model_lines.specs.declared.record.Record.{Record};
ghost use Rattle.cct_record.specs.Body.{Encodable};
ghost use Rattle.cct_disk.specs.Settle.{Settles};
ghost use Rattle.cct_disk.specs.Disk.{CountsCut, GoesOn, Holds, IsCutBy, IsWithin, LeavesOnly};
ghost use Rattle.cct_disk.specs.Disk.{IsReady, OnlyReads, Outlasts, Takes};
ghost use Rattle.cct_journal.specs.Image.{StandsFor, StandsForOneOf, half_room, kept_before};
ghost use Rattle.cct_journal.specs.Image.{least_size};
ghost use Rattle.cct_journal.specs.Creating.{Creates, IsCreated, RefusesCreate};
ghost use Rattle.cct_journal.specs.PowerCuts.{LeavesWith, LeftBy, StandsForWith};
ghost use Rattle.cct_journal.specs.Opening.{Finds, GivesRecord, RefusesOpen, RefusesRecord};
ghost use Rattle.cct_journal.specs.Opening.{ReplaysAll};
ghost use Rattle.cct_journal.specs.Turning.{put_bytes, put_calls};
ghost use Rattle.cct_journal.specs.Stands.{CutOnce, IsPlaced, IsPlaced-prop, Leaves, LeavesOneOf};
ghost use Rattle.cct_journal.specs.Stands.{Puts, Settled};

use crate::creating::lay_header;
use crate::cutting::cut_power;
use crate::format::MOST_RECORDS;
use crate::opening::find_place;
use crate::place::Place;
use crate::putting::{put_next, put_record};
use crate::range::GATED_CALLS;
use crate::reading::read_record;
use crate::replay::OnlyCounted;
use crate::{CreateNo, JournalNo, OpenNo, ReadNo, Replay};
use cct_disk::{Disk, Settle};
use cct_edge::Failed;
use cct_model_lines::{Carry, Record};

/// A journal of records on a disk (`docs/JOURNAL.md`).
///
/// Whenever the power is cut, what was put is on the disk, and what is being put is there or
/// doesn't. This rests on an honest disk alone, of which bytes that were synced stay.
#[derive(Drop)]
pub struct Journal<D: Disk> {
    disk: D,
    place: Place,
    /// Whether a put failed, after which nothing more may be put.
    failed: bool,
    ghost placed: { IsPlaced (D.size disk) place } by { IsPlaced-prop (D.size disk) place },
}

impl<D: Disk> Journal<D> {
    ghost use Rattle.cct_journal.specs.Journal.{JournalReadsFrom, JournalStands};
    ghost use Rattle.cct_journal.specs.Journal.{JournalStandsBefore, JournalStandsWith};
    ghost use Rattle.cct_journal.specs.Journal.{base_of, carry_before, disk_back, disk_of};
    ghost use Rattle.cct_journal.specs.Journal.{has_failed, kept_of, place_of, used_of};

    /// Creates a journal without records on a blank disk.
    ///
    /// The refusals come in the order of [`CreateNo`]. [`CreateNo::Small`] comes where the disk has
    /// fewer than 2,368 bytes and [`CreateNo::NotBlank`] where a byte isn't 0; then nothing is
    /// written. After [`CreateNo::Disk`] the disk is as it was, or has no journal, or one without
    /// records.
    pub fn create(disk: D) -> Result<Journal<D>, (D, CreateNo)>
        ensures created { IfOk result (λ journal. Creates D.size D.honest D.seen D.may_leave disk (disk_of journal)
            (place_of journal)) }
        ensures unbroken { IfOk result (λ journal. has_failed journal ≡ false) }

        // why it is refused
        ensures refused { IfErr result (λ e. RefusesCreate (D.size disk) (D.seen disk) e.1) }
        ensures unchanged { IfErr result (λ e. e.1 ≢ CreateNo.Disk → OnlyReads D.size D.honest D.seen D.may_leave
            D.moment D.left_since D.cuts disk e.0) }

        // the disk at each moment, and after the call: At each moment the disk is as it was, has no
        // header of a journal, or has a journal without records.
        ensures moments { (image : List ℕ) → Holds D.honest D.seen D.may_leave disk image → MatchResult result
            (λ journal. LeavesOnly D.moment D.left_since disk (disk_of journal) (IsCreated image))
            (λ e. LeavesOnly D.moment D.left_since disk e.0 (IsCreated image)) }
        ensures goes_on { MatchResult result
            (λ journal. GoesOn D.size D.honest D.seen D.cuts disk (disk_of journal))
            (λ e. GoesOn D.size D.honest D.seen D.cuts disk e.0) }
        ensures cause { MatchResult result (λ journal. D.faults disk ≤ D.faults (disk_of journal))
            (λ e. Caused (D.faults disk) (D.faults e.0) (e.1 ≡ CreateNo.Disk)) }
        ensures sure { IsReady D.spent disk → MatchResult result
            (λ journal. D.faults (disk_of journal) ≡ 0) (λ e. e.1 ≢ CreateNo.Disk) }
    {
        let mut disk = disk;
        match lay_header(&mut disk) {
            Ok(place) => Ok(Journal {
                disk,
                place,
                failed: false,
            }),
            Err(why) => Err((disk, why)),
        }
    }

    /// A journal at a place of a disk.
    pub(crate) fn at(disk: D, place: Place) -> Journal<D>
        requires { IsPlaced (D.size disk) place }
        ensures disk { disk_of result ≡ disk }
        ensures place { place_of result ≡ place }
        ensures unbroken { has_failed result ≡ false }
    {
        Journal {
            disk,
            place,
            failed: false,
        }
    }

    /// Opens the journal that is on a disk, and says how many records it has. The disk is only
    /// read.
    ///
    /// [`OpenNo::Alien`] comes where the disk has fewer than 2,368 bytes, no half of it is open, or
    /// the current one has an older version or begins with no header and carry, and
    /// [`OpenNo::BadRecord`] at the first body after an open gate of it that spells no record,
    /// where no shut gate is before it.
    pub fn reopen(disk: D) -> Result<(Journal<D>, u32), (D, OpenNo)>
        ensures finds { IfOk result (λ opened. Finds D.seen disk (disk_of opened.0)
            (place_of opened.0)) }
        // If the disk keeps exactly one image, the journal represents it.
        ensures stands { IfOk result (λ opened. (carry_of : List Record → Carry) (records : List Record)
            → Settled carry_of D.honest D.seen D.may_leave disk records → JournalStands carry_of opened.0 records) }
        ensures counted { IfOk result (λ opened. opened.1 ≡ used_of opened.0) }
        ensures unbroken { IfOk result (λ opened. has_failed opened.0 ≡ false) }

        // why it is refused
        ensures refused { IfErr result (λ e. (image : List ℕ) → D.seen disk ≡ Some image →
            RefusesOpen e.1 image) }
        // A disk that represents records is refused only if it failed.
        ensures never { IfErr result (λ e. (carry_of : List Record → Carry) (image : List ℕ) (records : List Record)
            → D.seen disk ≡ Some image → StandsFor carry_of image records → e.1 ≡ OpenNo.Disk) }
        ensures short { D.size disk < least_size → IsErrAnd result (λ e. e.1 ≡ OpenNo.Alien) }

        // the disk
        ensures reads { MatchResult result
            (λ opened. OnlyReads D.size D.honest D.seen D.may_leave D.moment D.left_since D.cuts disk
            (disk_of opened.0))
            (λ e. OnlyReads D.size D.honest D.seen D.may_leave D.moment D.left_since D.cuts disk e.0) }
        ensures cause { MatchResult result (λ opened. D.faults disk ≤ D.faults (disk_of opened.0))
            (λ e. Caused (D.faults disk) (D.faults e.0) (e.1 ≡ OpenNo.Disk)) }
        ensures sure { IsReady D.spent disk → MatchResult result
            (λ opened. IsReady D.spent (disk_of opened.0)) (λ e. e.1 ≢ OpenNo.Disk) }
    {
        let mut disk = disk;
        match find_place(&mut disk, &mut OnlyCounted) {
            Ok(place) => {
                let used = place.used;
                let journal = Journal {
                    disk,
                    place,
                    failed: false,
                };
                Ok((journal, used))
            }
            Err(why) => Err((disk, why)),
        }
    }

    /// How many records the journal has, with those before its current half.
    pub fn used(&self) -> u32
        ensures value { result ≡ used_of self.now }
        ensures fits { result ≤ MOST_RECORDS }
        ensures later { base_of self.now ≤ result }
    {
        self.place.used
    }

    /// How many records the journal takes at most, on whatever disk: 4,294,967,295.
    pub fn capacity(&self) -> u32
        ensures { result ≡ MOST_RECORDS }
    {
        MOST_RECORDS as u32
    }

    /// How many records stood before the current half. They can't be read any more;
    /// [`Journal::carry`] is what is kept of them.
    pub fn base(&self) -> u32
        ensures value { result ≡ base_of self.now }
        ensures fits { result ≤ MOST_RECORDS }
        ensures later { result ≤ used_of self.now }
    {
        self.place.base
    }

    /// The carry of the records before the current half.
    pub fn carry(&self) -> &Carry
        ensures value { result.now ≡ carry_before self.now }
        ensures rightly { IsRightly (base_of self.now) result.now }
    {
        &self.place.carry
    }

    /// The disk, to be looked at.
    pub fn disk(&self) -> &D
        ensures { result.now ≡ disk_of self.now }
    {
        &self.disk
    }

    /// The disk.
    pub fn into_disk(self) -> D
        ensures { result ≡ disk_of self }
    {
        let Journal {
            disk,
            place: _,
            failed: _,
        } = self;
        disk
    }

    /// Reads the record of an index, the first at 0. The disk is only read.
    ///
    /// It has to be one of the current half, from [`Journal::base`] on. [`ReadNo::BadRecord`] comes
    /// where the body of that record spells none, which never happens on a disk whose reads give
    /// what the journal was opened on.
    pub fn read_at(&mut self, index: u32) -> Result<Record, ReadNo>
        requires from { base_of self.old ≤ index }
        requires within { index < used_of self.old }
        ensures gives { IfOk result (GivesRecord D.seen (disk_of self.old) (place_of self.old)
            index) }
        ensures refused { IfErr result (RefusesRecord D.seen (disk_of self.old) (place_of self.old)
            index) }

        // the journal stays as it is
        ensures stands { (carry_of : List Record → Carry) (records : List Record)
            → JournalStands carry_of self.old records → JournalStands carry_of self.new records }
        ensures told { (rest : List Record) → JournalReadsFrom self.old rest →
            JournalReadsFrom self.new rest }
        ensures place { place_of self.new ≡ place_of self.old }
        ensures unbroken { has_failed self.new ≡ has_failed self.old }
        ensures reads { OnlyReads D.size D.honest D.seen D.may_leave D.moment D.left_since D.cuts (disk_of self.old)
            (disk_of self.new) }
        ensures ready { IsReady D.spent (disk_of self.old) → IsReady D.spent (disk_of self.new) }
        ensures cause { Caused (D.faults (disk_of self.old)) (D.faults (disk_of self.new))
            (result ≡ Err ReadNo.Disk) }
    {
        read_record(&mut self.disk, &self.place, index)
    }

    /// Puts a record after the others, by four disk calls. At `Ok` every power cut leaves it. Where
    /// the current half is full, the other one is begun first, by six calls, with the carry of all
    /// records so far (`docs/JOURNAL.md`, "A turn").
    ///
    /// `carry` is that of the records before. No earlier put on this value may have failed.
    /// [`JournalNo::Full`] comes where the journal has as many records as it takes, and changes
    /// nothing. After [`JournalNo::Disk`] it is open whether the record stands, and the disk has to
    /// be opened again.
    pub fn put(&mut self, entry: &Record, carry: &Carry) -> Result<(), JournalNo>
        requires whole { has_failed self.old ≡ false }
        requires encodable { Encodable entry.now }
        requires rightly { IsRightly (used_of self.old) carry.now }

        // each image that a power cut at a moment of the call may leave: Within a call of the disk
        // or between two, of the turn too, whether calls fail or not, each image that a power cut
        // may leave represents the records before, or these and the new one.
        ensures moments { (carry_of : List Record → Carry) (records : List Record)
            → JournalStandsWith carry_of self.old carry.now records
            → LeavesOnly D.moment D.left_since (disk_of self.old) (disk_of self.new)
            (StandsForOneOf carry_of records entry.now) }

        // at the end:
        // At Ok each image represents these and the new one.
        ensures done { OnOk result ((carry_of : List Record → Carry) (records : List Record)
            → JournalStandsWith carry_of self.old carry.now records
            → JournalStands carry_of self.new (records ++ entry.now ∷ [])) }
        // After a failure each image is one of the two.
        ensures left { OnErr result ((carry_of : List Record → Carry) (records : List Record)
            → JournalStandsWith carry_of self.old carry.now records
            → LeavesOneOf carry_of D.honest D.seen D.may_leave (disk_of self.new) records entry.now) }
        ensures counted { OnOk result (used_of self.new ≡ used_of self.old + 1) }
        // The half to which it is put has it beside the ones before it, or it alone, where the
        // current half was full.
        ensures turns { OnOk result (kept_of self.new
            ≡ kept_before (half_room (D.size (disk_of self.old))) (kept_of self.old) + 1) }
        ensures still { OnErr result (place_of self.new ≡ place_of self.old) }
        ensures unbroken { OnOk result (has_failed self.new ≡ false) }
        // Nothing more may be put on that value: what is in the slot is open.
        ensures broken { result ≡ Err JournalNo.Disk → has_failed self.new ≡ true }

        // why it is refused
        ensures full { (result ≡ Err (JournalNo.Full (used_of self.old)))
            ↔ (used_of self.old ≡ MOST_RECORDS) }
        ensures why { IfErr result (λ why. (why ≡ JournalNo.Disk)
            ⊎ (why ≡ JournalNo.Full (used_of self.old))) }
        ensures unchanged { result ≡ Err (JournalNo.Full (used_of self.old)) → self.new ≡ self.old }

        // the disk
        ensures goes_on { GoesOn D.size D.honest D.seen D.cuts (disk_of self.old) (disk_of self.new) }
        ensures takes { Takes D.below D.spent put_calls put_bytes (disk_of self.old)
            (disk_of self.new) }
        ensures cause { Caused (D.faults (disk_of self.old)) (D.faults (disk_of self.new))
            (result ≡ Err JournalNo.Disk) }
    {
        let used = self.place.used;
        if used == self.capacity() {
            return Err(JournalNo::Full { used });
        }
        match put_next(&mut self.disk, &mut self.place, carry, entry) {
            Ok(()) => Ok(()),
            Err(Failed) => {
                self.failed = true;
                Err(JournalNo::Disk)
            }
        }
    }

    /// Makes the first `calls` of the four disk calls of a put and gives the disk back, for a crash
    /// within a put. A turn that is due is made whole before them, also where `calls` is 0.
    pub fn put_calls(self, entry: &Record, carry: &Carry, calls: u8) -> Result<D, (D, Failed)>
        requires few { calls ≤ 4 }
        requires room { used_of self < MOST_RECORDS }
        requires encodable { Encodable entry.now }
        requires rightly { IsRightly (used_of self) carry.now }

        // each image that a power cut at a moment of the call may leave
        ensures moments { Puts D.honest D.seen D.may_leave D.moment D.left_since (place_of self) carry.now entry.now
            calls (disk_of self) (disk_back result) }

        // and at the end:
        // After four calls that were Ok the new one too.
        ensures done { OnOk result (calls ≡ 4 → (carry_of : List Record → Carry) (records : List Record)
            → JournalStandsWith carry_of self carry.now records
            → Settled carry_of D.honest D.seen D.may_leave (disk_back result) (records ++ entry.now ∷ [])) }
        ensures left { (carry_of : List Record → Carry) (records : List Record)
            → JournalStandsWith carry_of self carry.now records
            → LeavesOneOf carry_of D.honest D.seen D.may_leave (disk_back result) records entry.now }
        ensures left_early { calls ≤ 2 → (carry_of : List Record → Carry) (records : List Record)
            → JournalStandsWith carry_of self carry.now records
            → Leaves carry_of D.honest D.seen D.may_leave (disk_back result) records }

        // the disk
        ensures goes_on { GoesOn D.size D.honest D.seen D.cuts (disk_of self) (disk_back result) }
        ensures cause { HasCause (D.faults (disk_of self)) (D.faults (disk_back result)) result }
    {
        let Journal {
            mut disk,
            place,
            failed: _,
        } = self;
        match put_record(&mut disk, &place, carry, entry, calls) {
            Ok(_) => Ok(disk),
            Err(failed) => Err((disk, failed)),
        }
    }

    /// Cuts the power and gives the disk back, which then keeps one of the images that this might
    /// leave, which one by `choice`.
    pub fn power_cut(self, choice: u64) -> Result<D, (D, Failed)>
        ensures stands { OnOk result ((carry_of : List Record → Carry) (records : List Record)
            → Leaves carry_of D.honest D.seen D.may_leave (disk_of self) records
            → Settled carry_of D.honest D.seen D.may_leave (disk_back result) records) }
        ensures one_of { OnOk result ((carry_of : List Record → Carry) (records : List Record) (entry : Record)
            → LeavesOneOf carry_of D.honest D.seen D.may_leave (disk_of self) records entry
            → Settled carry_of D.honest D.seen D.may_leave (disk_back result) records
            ⊎ Settled carry_of D.honest D.seen D.may_leave (disk_back result) (records ++ entry ∷ [])) }
        ensures cut { OnOk result (IsCutBy D.honest D.seen D.may_leave D.cut_to choice (disk_of self)
            (disk_back result)) }

        // a cut that fails
        ensures seen { OnErr result (D.honest (disk_of self) ≡ true
            → D.seen (disk_back result) ≡ D.seen (disk_of self)) }

        // either
        ensures counted { CountsCut (D.cuts (disk_of self)) (D.cuts (disk_back result)) result }
        ensures images { D.honest (disk_of self) ≡ true
            → IsWithin (D.may_leave (disk_of self)) (D.may_leave (disk_back result)) }
        ensures moments { D.honest (disk_of self) ≡ true → LeavesOnly D.moment D.left_since (disk_of self)
            (disk_back result) (D.may_leave (disk_of self)) }
        ensures outlasts { Outlasts D.size D.honest D.seen D.cuts (disk_of self) (disk_back result) }
        ensures cause { HasCause (D.faults (disk_of self)) (D.faults (disk_back result)) result }
    {
        let Journal {
            mut disk,
            place: _,
            failed: _,
        } = self;
        match disk.power_cut(choice) {
            Ok(()) => Ok(disk),
            Err(failed) => Err((disk, failed)),
        }
    }

    /// Cuts the power within a put or in none, opens what is left in place, and says how many
    /// records it has. Each is replayed as it is found, so each slot is read once.
    ///
    /// `put` is the record of the put that is interrupted, after the first `calls` of its four disk
    /// calls, 0 to 4, where a turn that is due is made whole before them; `carry` is that of the
    /// records before, and `choice` is that of [`Disk::power_cut`]. No earlier put on this value
    /// may have failed. [`OpenNo::Disk`] comes where a disk call fails, and the others as from
    /// [`Journal::reopen`]. After any of them nothing more may be put, and some of the records may
    /// have been replayed.
    pub fn restart<R: Replay>(
        &mut self,
        put: &Option<Record>,
        carry: &Carry,
        calls: u8,
        choice: u64,
        replay: &mut R,
    ) -> Result<u32, OpenNo>
        requires whole { has_failed self.old ≡ false }
        requires few { calls ≤ 4 }
        requires room { IfSome put.now (λ _. used_of self.old < MOST_RECORDS) }
        requires encodable { IfSome put.now Encodable }
        requires rightly { IfSome put.now (λ _. IsRightly (used_of self.old) carry.now) }

        // each image that a power cut at a moment of the call may leave
        ensures moments { (carry_of : List Record → Carry) (records : List Record)
            → JournalStandsBefore carry_of self.old carry.now put.now records
            → LeavesOnly D.moment D.left_since (disk_of self.old) (disk_of self.new)
            (StandsForWith carry_of put.now records) }

        // what is opened: The records before, or these and the one of the put that was cut short:
        // up to two calls the records alone, after four the new one too.
        ensures stands { OnOk result ((carry_of : List Record → Carry) (records : List Record)
            → JournalStandsBefore carry_of self.old carry.now put.now records
            → (left : List Record) × LeftBy calls put.now records left
            × JournalStands carry_of self.new left) }
        ensures finds { OnOk result (Finds D.seen (disk_of self.new) (disk_of self.new)
            (place_of self.new)) }
        ensures counted { IfOk result (λ used. used ≡ used_of self.new) }
        ensures unbroken { OnOk result (has_failed self.new ≡ false) }
        // What goes over the records was handed as many as the journal has, one by one, oldest
        // first.
        ensures replayed { OnOk result (ReplaysAll D.seen R.replayed (disk_of self.new) (place_of self.new) replay.old
            replay.new) }

        // why nothing is opened, and what stands then
        ensures refused { IfErr result (λ why. (image : List ℕ) → D.seen (disk_of self.new) ≡ Some image
            → RefusesOpen why image) }
        ensures never { IfErr result (λ why. (carry_of : List Record → Carry) (records : List Record)
            → JournalStandsBefore carry_of self.old carry.now put.now records → why ≡ OpenNo.Disk) }
        ensures left { OnErr result ((carry_of : List Record → Carry) (records : List Record)
            → JournalStandsBefore carry_of self.old carry.now put.now records
            → LeavesWith carry_of D.honest D.seen D.may_leave (disk_of self.new) put.now records) }
        ensures still { OnErr result (place_of self.new ≡ place_of self.old) }
        ensures broken { OnErr result (has_failed self.new ≡ true) }

        // the disk:
        // Exactly one cut, by the choice given, and the disk was only read after it.
        ensures cut { result ≢ Err OpenNo.Disk
            → CutOnce D.size D.honest D.seen D.cuts D.cut_to choice (disk_of self.old) (disk_of self.new) }
        ensures outlasts { Outlasts D.size D.honest D.seen D.cuts (disk_of self.old)
            (disk_of self.new) }
        ensures cause { Caused (D.faults (disk_of self.old)) (D.faults (disk_of self.new))
            (result ≡ Err OpenNo.Disk) }
    {
        self.failed = true;
        let Ok(()) = cut_power(&mut self.disk, &self.place, carry, put, calls, choice) else {
            return Err(OpenNo::Disk);
        };
        match find_place(&mut self.disk, replay) {
            Ok(place) => {
                let used = place.used;
                self.place = place;
                self.failed = false;
                Ok(used)
            }
            Err(why) => Err(why),
        }
    }
}

impl<D: Settle> Journal<D> {
    ghost use Rattle.cct_journal.specs.Journal.{disk_of, has_failed, place_of};

    /// The caller who makes the calls of the disk made all of them, and none failed.
    pub fn settle(&mut self)
        ensures none { D.noted (disk_of self.new) ≡ 0 }
        ensures disk { Settles D.size D.honest D.seen D.may_leave D.cuts D.faults (disk_of self.old)
            (disk_of self.new) }
        ensures place { place_of self.new ≡ place_of self.old }
        ensures unbroken { has_failed self.new ≡ has_failed self.old }
    {
        self.disk.settle();
    }
}
