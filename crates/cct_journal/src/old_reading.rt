//! The records of a journal of an older version are read.
ghost use Rattle.std.specs.Prelude.{◌≡◌, ℕ, ◌+◌, ◌-◌, ◌*◌, ◌<◌, ◌≤◌, Err, Some, List, length};
ghost use Rattle.std.specs.Prelude.{IfErr, IfOk};
ghost use Rattle.cct_edge.specs.Faults.{Caused, HasCause};
ghost use Rattle.cct_model_lines.specs.declared.record.Record.{Record};
ghost use Rattle.cct_disk.specs.Disk.{OnlyReads};
ghost use Rattle.cct_journal.specs.Image.{least_size};
ghost use Rattle.cct_journal.specs.OldImage.{bodies_at, old_body_in, old_gate_in, old_room};
ghost use Rattle.cct_journal.specs.OldImage.{old_slot};
ghost use Rattle.cct_journal.specs.OldStands.{GivesOld, IsOldPlaced, MayBeCounted};
ghost use Rattle.cct_journal.specs.OldStands.{RefusesOldRecord};

use crate::ReadNo;
use crate::format::{FIRST_SLOT, MOST_RECORDS, OPEN, SLOT};
use crate::old_place::{OldPlace, OldVersion};
use crate::reading::{Slot, room_on, slot_of, start_on};
use cct_disk::Disk;
use cct_edge::Failed;
use cct_model_lines::Record;
use cct_record::read_old;

/// How many records a journal of an older version takes on so many bytes, after so many before its
/// half.
fn old_room_on(len: u64, version: OldVersion, base: u32) -> u32
    requires { least_size ≤ len }
    ensures value { result ≡ old_room version len base }
    ensures fits { result + base ≤ MOST_RECORDS }
{
    match version {
        OldVersion::One => (len / SLOT - 1).min(MOST_RECORDS - u64::from(base)) as u32,
        OldVersion::Two => room_on(len, base),
    }
}

/// Where the slot of the record of an index begins.
fn old_slot_on(len: u64, old: &OldPlace, index: u32) -> u64
    requires room { index < old.now.place.base + old_room old.now.version len old.now.place.base }
    requires from { old.now.place.base ≤ index }
    ensures value { result ≡ old_slot old.now.version len old.now.place.second old.now.place.base
        index }
    ensures within { result + SLOT ≤ len }
{
    match old.version {
        OldVersion::One => SLOT * (1 + u64::from(index - old.place.base)),
        OldVersion::Two => {
            let start = start_on(len, old.place.second);
            start + SLOT * (FIRST_SLOT + u64::from(index - old.place.base))
        }
    }
}

/// Reads the slot of the record of an index.
fn read_old_slot<D: Disk>(disk: &mut D, old: &OldPlace, index: u32) -> Result<Slot, Failed>
    requires room { index < old.now.place.base
        + old_room old.now.version (D.size disk.old) old.now.place.base }
    requires from { old.now.place.base ≤ index }
    ensures gate { IfOk result (λ found. (image : List ℕ) → D.seen disk.old ≡ Some image
        → found.gate ≡ old_gate_in old.now index image) }
    ensures body { IfOk result (λ found. (image : List ℕ) → D.seen disk.old ≡ Some image
        → found.body ≡ old_body_in old.now index image) }
    ensures reads { OnlyReads D.size D.honest D.seen D.may_leave D.moment D.left_since D.cuts
        disk.old disk.new }
    ensures cause { HasCause (D.faults disk.old) (D.faults disk.new) result }
{
    let at = old_slot_on(disk.len(), old, index);
    let mut bytes = [0; 32];
    disk.read(at, &mut bytes)?;
    Ok(slot_of(&bytes))
}

/// Counts the open slots of a journal of an older version up to the first shut gate, whatever their
/// bodies are, and says how many records that makes with those before its half.
pub(crate) fn count_slots<D: Disk>(disk: &mut D, old: &OldPlace) -> Result<u32, Failed>
    requires { MayBeCounted (D.size disk.old) old.now }
    ensures later { IfOk result (λ used. old.now.place.base ≤ used) }
    ensures fits { IfOk result (λ used. used
        ≤ old.now.place.base + old_room old.now.version (D.size disk.old) old.now.place.base) }
    ensures counted { IfOk result (λ used. (image : List ℕ) → D.seen disk.old ≡ Some image
        → used ≡ old.now.place.base + length (bodies_at old.now image)) }
    ensures reads { OnlyReads D.size D.honest D.seen D.may_leave D.moment D.left_since D.cuts
        disk.old disk.new }
    ensures cause { HasCause (D.faults disk.old) (D.faults disk.new) result }
{
    let base = old.place.base;
    let room = old_room_on(disk.len(), old.version, base);
    for many in 0..room {
        let slot = read_old_slot(disk, old, base + many)?;
        if slot.gate != OPEN {
            return Ok(base + many);
        }
    }
    Ok(base + room)
}

/// Reads the record of an index of a journal of an older version, one of those after its carry.
pub(crate) fn read_old_record<D: Disk>(
    disk: &mut D,
    old: &OldPlace,
    index: u32,
) -> Result<Record, ReadNo>
    requires placed { IsOldPlaced (D.size disk.old) old.now }
    requires from { old.now.place.base ≤ index }
    requires within { index < old.now.place.used }
    ensures gives { IfOk result (GivesOld D.seen disk.old old.now index) }
    ensures refused { IfErr result (RefusesOldRecord D.seen disk.old old.now index) }
    ensures reads { OnlyReads D.size D.honest D.seen D.may_leave D.moment D.left_since D.cuts
        disk.old disk.new }
    ensures cause { Caused (D.faults disk.old) (D.faults disk.new) (result ≡ Err ReadNo.Disk) }
{
    let slot = read_old_slot(disk, old, index)?;
    match read_old(old.version.number(), &slot.body) {
        Some(entry) => Ok(entry),
        None => Err(ReadNo::BadRecord { index }),
    }
}
