//! What is on the disk is read: bytes of a half, single slots of it, and its records.
ghost use Rattle.std.specs.Prelude.{◌≡◌, ℕ, ◌+◌, ◌*◌, ◌<◌, ◌≤◌, Err, Some, List, length, IfErr};
ghost use Rattle.std.specs.Prelude.{IfOk, OnOk, drop, slice_index, take};
ghost use Rattle.cct_edge.specs.Faults.{Caused, HasCause};
ghost use Rattle.cct_model_lines.specs.declared.record.Record.{Record};
ghost use Rattle.cct_disk.specs.Disk.{IsReady, OnlyReads};
ghost use Rattle.cct_journal.specs.Half.{half, slots_in, start_at, window};
ghost use Rattle.cct_journal.specs.Image.{body_at, gate_at, least_size, room_of};
ghost use Rattle.cct_journal.specs.Stands.{IsPlaced};
ghost use Rattle.cct_journal.specs.Opening.{CountsIn, GivesRecord, RefusesRecord, Replayed};
ghost use Rattle.cct_journal.specs.Opening.{StopsCount};

use crate::format::{FIRST_SLOT, MOST_RECORDS, OPEN, SLOT};
use crate::place::Place;
use crate::{OpenNo, ReadNo, Replay};
use cct_disk::Disk;
use cct_edge::Failed;
use cct_model_lines::Record;
use cct_record::read;

/// What is in a slot.
#[derive(Clone, Copy)]
pub(crate) struct Slot {
    pub(crate) gate: u8,
    pub(crate) body: [u8; 31],
}

/// What is in a slot of these bytes.
pub(crate) fn slot_of(bytes: &[u8; 32]) -> Slot
    ensures gate { result.gate ≡ slice_index bytes.now 0 }
    ensures body { result.body ≡ take 31 (drop 1 bytes.now) }
{
    let mut body = [0; 31];
    body.copy_from_slice(&bytes[1..]);
    Slot {
        gate: bytes[0],
        body,
    }
}

/// How many slots each half has, on so many bytes.
pub(crate) fn slots_on(len: u64) -> u64
    ensures { result ≡ slots_in len }
{
    len / (2 * SLOT)
}

/// Where a half begins, on so many bytes.
pub(crate) fn start_on(len: u64, second: bool) -> u64
    ensures { result ≡ start_at len second }
{
    if second { SLOT * slots_on(len) } else { 0 }
}

/// How many records a half takes on so many bytes, after so many before it.
pub(crate) fn room_on(len: u64, base: u32) -> u32
    requires { least_size ≤ len }
    ensures value { result ≡ room_of len base }
    ensures fits { result + base ≤ MOST_RECORDS }
{
    (slots_on(len) - FIRST_SLOT).min(MOST_RECORDS - u64::from(base)) as u32
}

/// Fills a room with the bytes of a half from a place of it on.
pub(crate) fn read_in<D: Disk>(
    disk: &mut D,
    second: bool,
    at: u64,
    room: &mut [u8],
) -> Result<(), Failed>
    requires { at + length room.old ≤ 32 * slots_in (D.size disk.old) }
    ensures gives { OnOk result ((image : List ℕ) → D.seen disk.old ≡ Some image
        → room.new ≡ window at (length room.old) (half image second)) }
    ensures room { length room.new ≡ length room.old }
    ensures reads { OnlyReads D.size D.honest D.seen D.may_leave D.moment D.left_since D.cuts
        disk.old disk.new }
    ensures ready { IsReady D.spent disk.old → IsReady D.spent disk.new }
    ensures cause { HasCause (D.faults disk.old) (D.faults disk.new) result }
{
    let start = start_on(disk.len(), second);
    disk.read(start + at, room)
}

/// Reads the slot of a record of a half, the first at 0.
pub(crate) fn read_slot<D: Disk>(disk: &mut D, second: bool, many: u32) -> Result<Slot, Failed>
    requires { FIRST_SLOT + many < slots_in (D.size disk.old) }
    ensures gate { IfOk result (λ found. (image : List ℕ) → D.seen disk.old ≡ Some image
        → found.gate ≡ gate_at (half image second) (FIRST_SLOT + many)) }
    ensures body { IfOk result (λ found. (image : List ℕ) → D.seen disk.old ≡ Some image
        → found.body ≡ body_at (half image second) (FIRST_SLOT + many)) }
    ensures reads { OnlyReads D.size D.honest D.seen D.may_leave D.moment D.left_since D.cuts
        disk.old disk.new }
    ensures ready { IsReady D.spent disk.old → IsReady D.spent disk.new }
    ensures cause { HasCause (D.faults disk.old) (D.faults disk.new) result }
{
    let mut bytes = [0; 32];
    read_in(
        disk,
        second,
        SLOT * (FIRST_SLOT + u64::from(many)),
        &mut bytes,
    )?;
    Ok(slot_of(&bytes))
}

/// Replays the carry of a place and then the records after it, each as it is found, and says how
/// many records there are: those of the carry, and those of the slots up to the first shut gate,
/// the end of the half or the most records of a journal.
pub(crate) fn replay_records<D: Disk, R: Replay>(
    disk: &mut D,
    place: &Place,
    replay: &mut R,
) -> Result<u32, OpenNo>
    requires { IsPlaced (D.size disk.old) place.now }
    ensures later { IfOk result (λ used. place.now.base ≤ used) }
    ensures fits { IfOk result (λ used. used ≤ place.now.base
        + room_of (D.size disk.old) place.now.base) }
    ensures replayed { IfOk result (λ used. Replayed R.replayed place.now.base place.now.carry replay.old replay.new used
        (λ records. (image : List ℕ) → D.seen disk.old ≡ Some image
        → CountsIn image place.now.second place.now.base records)) }
    ensures stopped { IfErr result (λ why. (image : List ℕ) → D.seen disk.old ≡ Some image
        → StopsCount why image place.now.second place.now.base) }
    ensures reads { OnlyReads D.size D.honest D.seen D.may_leave D.moment D.left_since D.cuts
        disk.old disk.new }
    ensures ready { IsReady D.spent disk.old → IsReady D.spent disk.new }
    ensures cause { Caused (D.faults disk.old) (D.faults disk.new) (result ≡ Err OpenNo.Disk) }
{
    let base = place.base;
    let room = room_on(disk.len(), base);
    replay.begin(base, &place.carry);
    for many in 0..room {
        let slot = read_slot(disk, place.second, many)?;
        let index = base + many;
        if slot.gate != OPEN {
            return Ok(index);
        }
        match read(&slot.body) {
            Some(entry) => replay.replay(index, &entry),
            None => return Err(OpenNo::BadRecord { index }),
        }
    }
    Ok(base + room)
}

/// Reads the record of an index of the journal at a place, one of those after its carry.
pub(crate) fn read_record<D: Disk>(
    disk: &mut D,
    place: &Place,
    index: u32,
) -> Result<Record, ReadNo>
    requires placed { IsPlaced (D.size disk.old) place.now }
    requires from { place.now.base ≤ index }
    requires within { index < place.now.used }
    ensures gives { IfOk result (GivesRecord D.seen disk.old place.now index) }
    ensures refused { IfErr result (RefusesRecord D.seen disk.old place.now index) }
    ensures reads { OnlyReads D.size D.honest D.seen D.may_leave D.moment D.left_since D.cuts
        disk.old disk.new }
    ensures ready { IsReady D.spent disk.old → IsReady D.spent disk.new }
    ensures cause { Caused (D.faults disk.old) (D.faults disk.new) (result ≡ Err ReadNo.Disk) }
{
    let slot = read_slot(disk, place.second, index - place.base)?;
    match read(&slot.body) {
        Some(entry) => Ok(entry),
        None => Err(ReadNo::BadRecord { index }),
    }
}
