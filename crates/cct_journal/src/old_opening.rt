//! The journal of an older version that is on a disk is found.
ghost use Rattle.std.specs.Prelude.{◌≡◌, ℕ, ◌+◌, ◌<◌, ◌≤◌, ◌↔◌, true, false, Err, Some, List};
ghost use Rattle.std.specs.Prelude.{length, IfErr, IfNone, IfOk};
ghost use Rattle.std.specs.Prelude.{IfSome, IsTrue, MatchOption, take};
ghost use Rattle.cct_edge.specs.Faults.{Caused, HasCause};
ghost use Rattle.cct_model_lines.specs.declared.carry.Carry.{Carry};
ghost use Rattle.cct_disk.specs.Disk.{OnlyReads};
ghost use Rattle.cct_journal.specs.Half.{half, has_open_gate};
ghost use Rattle.cct_journal.specs.Fronts.{IsCurrentHalf};
ghost use Rattle.cct_journal.specs.Image.{least_size};
ghost use Rattle.cct_journal.specs.OldImage.{BeginsSecond, IsOldAt, first_header};
ghost use Rattle.cct_journal.specs.OldStands.{HasFreeHalf, IsOldPlaced, MayBeCounted, OldBeginsAt};
ghost use Rattle.cct_journal.specs.OldStands.{OldFinds, RefusesOld, first_at, with_used};
ghost use Rattle.cct_journal.specs.OldStands.{OldBeginsWhere, RefusesWhere};

use crate::OldNo;
use crate::format::{FIRST_VERSION, LEAST, SECOND_VERSION, START, TITLE, VERSION};
use crate::old_place::{OldPlace, OldVersion};
use crate::old_reading::count_slots;
use crate::old_start::read_old_start;
use crate::opening::{Current, find_current, find_start, place_at};
use crate::place::Place;
use crate::reading::{read_in, slots_on};
use cct_disk::Disk;
use cct_edge::Failed;
use cct_model_lines::Carry;

/// The bytes of the header of version 1.
const FIRST_HEADER: usize = 32;

/// Whether these are the bytes that a journal of version 1 begins with: the title and the version,
/// and 16 bytes 0.
fn is_first_header(bytes: &[u8; FIRST_HEADER]) -> bool
    ensures { IsTrue result ↔ (bytes.now ≡ first_header) }
{
    let mut header = [0; FIRST_HEADER];
    header[..15].copy_from_slice(&TITLE);
    header[15] = FIRST_VERSION;
    header == *bytes
}

/// The place of a journal of version 1 before its first record: in the first half, with generation
/// 0, base 0 and the empty carry.
fn first_place(other_open: bool) -> OldPlace
    ensures { result ≡ first_at other_open }
{
    OldPlace {
        version: OldVersion::One,
        place: Place {
            used: 0,
            second: false,
            generation: 0,
            base: 0,
            carry: Carry::empty(),
            other_open,
        },
    }
}

/// Reads what a journal of version 1 begins with, and shows its place before its first record.
fn find_first<D: Disk>(disk: &mut D, current: Current) -> Result<OldPlace, OldNo>
    requires { least_size ≤ D.size disk.old }
    ensures counted { IfOk result (MayBeCounted (D.size disk.old)) }
    ensures begins { IfOk result (λ old. (image : List ℕ) → D.seen disk.old ≡ Some image
        → OldBeginsWhere FIRST_VERSION current image old) }
    ensures refused { IfErr result (λ why. (image : List ℕ) → D.seen disk.old ≡ Some image
        → RefusesWhere FIRST_VERSION current why image) }
    ensures reads { OnlyReads D.size D.honest D.seen D.may_leave D.moment D.left_since D.cuts
        disk.old disk.new }
    ensures cause { Caused (D.faults disk.old) (D.faults disk.new) (result ≡ Err OldNo.Disk) }
{
    let mut bytes = [0; FIRST_HEADER];
    read_in(disk, false, 0, &mut bytes)?;
    if is_first_header(&bytes) {
        Ok(first_place(current.other_open))
    } else {
        Err(OldNo::Alien)
    }
}

/// Reads what a half of version 2 begins with, and shows its place before its first record.
fn find_second<D: Disk>(disk: &mut D, current: Current) -> Result<OldPlace, OldNo>
    requires { least_size ≤ D.size disk.old }
    ensures counted { IfOk result (MayBeCounted (D.size disk.old)) }
    ensures begins { IfOk result (λ old. (image : List ℕ) → D.seen disk.old ≡ Some image
        → OldBeginsWhere SECOND_VERSION current image old) }
    ensures refused { IfErr result (λ why. (image : List ℕ) → D.seen disk.old ≡ Some image
        → RefusesWhere SECOND_VERSION current why image) }
    ensures reads { OnlyReads D.size D.honest D.seen D.may_leave D.moment D.left_since D.cuts
        disk.old disk.new }
    ensures cause { Caused (D.faults disk.old) (D.faults disk.new) (result ≡ Err OldNo.Disk) }
{
    let mut bytes = [0; START];
    read_in(disk, current.second, 0, &mut bytes)?;
    let Some(start) = read_old_start(&bytes, current.second) else {
        return Err(OldNo::Alien);
    };
    Ok(OldPlace {
        version: OldVersion::Two,
        place: place_at(current, start),
    })
}

/// Why no older version is found where the current half has today's: that version itself, a start
/// that is none, or a failure.
fn refuse_today<D: Disk>(disk: &mut D, current: Current) -> OldNo
    requires { least_size ≤ D.size disk.old }
    ensures refused { (image : List ℕ) → D.seen disk.old ≡ Some image →
        RefusesWhere VERSION current result image }
    ensures reads { OnlyReads D.size D.honest D.seen D.may_leave D.moment D.left_since D.cuts
        disk.old disk.new }
    ensures cause { Caused (D.faults disk.old) (D.faults disk.new) (result ≡ OldNo.Disk) }
{
    match find_start(disk, current.second) {
        Ok(Some(_)) => OldNo::Current,
        Ok(None) => OldNo::Alien,
        Err(Failed) => OldNo::Disk,
    }
}

/// The place of the journal of an older version on a disk, before the first record of its current
/// half.
fn find_old_half<D: Disk>(disk: &mut D) -> Result<OldPlace, OldNo>
    requires { least_size ≤ D.size disk.old }
    ensures counted { IfOk result (MayBeCounted (D.size disk.old)) }
    ensures begins { IfOk result (λ old. (image : List ℕ) → D.seen disk.old ≡ Some image →
        OldBeginsAt image old) }
    ensures refused { IfErr result (λ why. (image : List ℕ) → D.seen disk.old ≡ Some image →
        RefusesOld why image) }
    ensures reads { OnlyReads D.size D.honest D.seen D.may_leave D.moment D.left_since D.cuts
        disk.old disk.new }
    ensures cause { Caused (D.faults disk.old) (D.faults disk.new) (result ≡ Err OldNo.Disk) }
{
    let Some(current) = find_current(disk)? else {
        return Err(OldNo::Alien);
    };
    if current.version == FIRST_VERSION {
        find_first(disk, current)
    } else if current.version == SECOND_VERSION {
        find_second(disk, current)
    } else {
        Err(refuse_today(disk, current))
    }
}

/// Whether the half that a turn begins is free of the records of a journal of an older version, of
/// which there are so many.
fn has_free_half(len: u64, version: OldVersion, used: u32) -> bool
    ensures { IsTrue result ↔ HasFreeHalf version len used }
{
    match version {
        OldVersion::One => u64::from(used) + 2 <= slots_on(len),
        OldVersion::Two => true,
    }
}

/// The place of the journal of an older version on a disk, which is only read.
pub(crate) fn find_old<D: Disk>(disk: &mut D) -> Result<OldPlace, OldNo>
    ensures placed { IfOk result (IsOldPlaced (D.size disk.old)) }
    ensures finds { IfOk result (OldFinds D.seen disk.old) }

    // why none is found
    ensures refused { IfErr result (λ why. (image : List ℕ) → D.seen disk.old ≡ Some image →
        RefusesOld why image) }
    ensures short { D.size disk.old < least_size → result ≡ Err OldNo.Alien }

    // the disk
    ensures reads { OnlyReads D.size D.honest D.seen D.may_leave D.moment D.left_since D.cuts
        disk.old disk.new }
    ensures cause { Caused (D.faults disk.old) (D.faults disk.new) (result ≡ Err OldNo.Disk) }
{
    let len = disk.len();
    if len < LEAST {
        return Err(OldNo::Alien);
    }
    let old = find_old_half(disk)?;
    let used = count_slots(disk, &old)?;
    if has_free_half(len, old.version, used) {
        Ok(counted(old, used))
    } else {
        Err(OldNo::NoRoom { used })
    }
}

/// A place with so many records.
fn counted(old: OldPlace, used: u32) -> OldPlace
    ensures { result ≡ with_used old used }
{
    OldPlace {
        version: old.version,
        place: Place { used, ..old.place },
    }
}
