//! The other half is begun where the current one is full.
ghost use Rattle.std.specs.Prelude.{◌≡◌, ℕ, ◌+◌, ◌-◌, ◌^◌, ◌<◌, ◌≤◌, true, false, Some, List, IfOk};
ghost use Rattle.std.specs.Prelude.{OnOk, length};
ghost use Rattle.cct_edge.specs.Faults.{HasCause};
ghost use Rattle.cct_model_lines.specs.Carried.{IsRightly};
ghost use Rattle.cct_model_lines.specs.declared.carry.Carry.{Carry};
ghost use Rattle.cct_model_lines.specs.declared.record.Record.{Record};
ghost use Rattle.cct_disk.specs.Disk.{GoesOn, Holds, LeavesOnly, Takes};
ghost use Rattle.cct_journal.specs.Gated.{IsBegun, behind_open_gate};
ghost use Rattle.cct_journal.specs.Image.{StandsFor, half_room, kept_before, least_size};
ghost use Rattle.cct_journal.specs.Image.{room_of};
ghost use Rattle.cct_journal.specs.Places.{after_turn, behind_start, turned_or};
ghost use Rattle.cct_journal.specs.Turning.{IsBeginning, IsClosing, IsTurnedBy, begun_by};
ghost use Rattle.cct_journal.specs.Turning.{closed_by, turned_by};
ghost use Rattle.cct_journal.specs.Stands.{IsPlaced, Stands, StandsWith};
ghost use Rattle.cct_journal.specs.Start.{start_of};

use crate::format::{MOST_RECORDS, START};
use crate::place::Place;
use crate::range::{GATED_CALLS, write_gated, write_range};
use crate::reading::{room_on, start_on};
use crate::start::spell_start;
use cct_disk::Disk;
use cct_edge::Failed;
use cct_model_lines::Carry;

/// Where the first write of a turn goes: to the gate of the other half, if that is open, and else
/// to the place after it, since a write that fails may leave any byte.
fn closing_place(start: u64, is_open: bool) -> u64
    requires { start + 1 < 2 ^ 64 }
    ensures opened { is_open ≡ true → result ≡ start }
    ensures shut { is_open ≡ false → result ≡ start + 1 }
{
    if is_open { start } else { start + 1 }
}

/// Shuts the gate of the other half, by two disk calls, which are made too if it is shut.
fn close_other<D: Disk>(disk: &mut D, place: &Place) -> Result<(), Failed>
    requires { least_size ≤ D.size disk.old }
    ensures moments { (image : List ℕ) → Holds D.honest D.seen D.may_leave disk.old image
        → LeavesOnly D.moment D.left_since disk.old disk.new (IsClosing place.now image) }
    ensures done { OnOk result ((image : List ℕ) → Holds D.honest D.seen D.may_leave disk.old image
        → Holds D.honest D.seen D.may_leave disk.new (closed_by place.now image)) }
    ensures goes_on { GoesOn D.size D.honest D.seen D.cuts disk.old disk.new }
    ensures takes { Takes D.below D.spent 2 1 disk.old disk.new }
    ensures cause { HasCause (D.faults disk.old) (D.faults disk.new) result }
{
    let start = start_on(disk.len(), !place.second);
    write_range(disk, closing_place(start, place.other_open), &[0], true)
}

/// What is written after the gate of a half that begins: the rest of its start, and a shut gate in
/// its first slot.
fn spell_behind(generation: u32, base: u32, carry: &Carry) -> [u8; START]
    requires { IsRightly base carry.now }
    ensures spelt { result ≡ behind_start generation base carry.now }
    ensures whole { length (start_of generation base carry.now) ≡ START }
{
    let start = spell_start(generation, base, carry);
    let mut bytes = [0; START];
    bytes[..START - 1].copy_from_slice(&start[1..]);
    bytes
}

/// Begins a half, by four disk calls: its bytes after the gate, and then the gate.
pub(crate) fn write_start<D: Disk>(
    disk: &mut D,
    at: u64,
    generation: u32,
    base: u32,
    carry: &Carry,
) -> Result<(), Failed>
    requires room { at + 1 + START ≤ D.size disk.old }
    requires fits { at + 1 < 2 ^ 64 }
    requires rightly { IsRightly base carry.now }
    ensures moments { (image : List ℕ) → Holds D.honest D.seen D.may_leave disk.old image
        → LeavesOnly D.moment D.left_since disk.old disk.new
        (IsBegun at (behind_start generation base carry.now) image) }
    ensures done { OnOk result (D.honest disk.old ≡ true → (image : List ℕ) → D.seen disk.old ≡ Some image
        → Holds D.honest D.seen D.may_leave disk.new
        (behind_open_gate at (behind_start generation base carry.now) image)) }
    ensures whole { length (start_of generation base carry.now) ≡ START }
    ensures goes_on { GoesOn D.size D.honest D.seen D.cuts disk.old disk.new }
    ensures takes { Takes D.below D.spent 4 (START + 1) disk.old disk.new }
    ensures cause { HasCause (D.faults disk.old) (D.faults disk.new) result }
{
    let bytes = spell_behind(generation, base, carry);
    write_gated(disk, at, &bytes, GATED_CALLS)
}

/// Begins the other half with the carry of all records so far, by four disk calls.
fn begin_other<D: Disk>(disk: &mut D, place: &Place, carry: &Carry) -> Result<Place, Failed>
    requires long { least_size ≤ D.size disk.old }
    requires turned { place.now.generation < MOST_RECORDS }
    requires rightly { IsRightly place.now.used carry.now }
    ensures moments { (image : List ℕ) → Holds D.honest D.seen D.may_leave disk.old image
        → LeavesOnly D.moment D.left_since disk.old disk.new (IsBeginning place.now carry.now image) }
    ensures done { OnOk result ((image : List ℕ) → Holds D.honest D.seen D.may_leave disk.old image
        → Holds D.honest D.seen D.may_leave disk.new (begun_by place.now carry.now image)) }
    ensures place { IfOk result (λ turned. turned ≡ after_turn place.now carry.now) }
    ensures goes_on { GoesOn D.size D.honest D.seen D.cuts disk.old disk.new }
    ensures takes { Takes D.below D.spent 4 (START + 1) disk.old disk.new }
    ensures cause { HasCause (D.faults disk.old) (D.faults disk.new) result }
{
    let generation = place.generation + 1;
    let start = start_on(disk.len(), !place.second);
    write_start(disk, start, generation, place.used, carry)?;
    Ok(Place {
        used: place.used,
        second: !place.second,
        generation,
        base: place.used,
        carry: carry.copied(),
        other_open: true,
    })
}

/// Begins the other half with the carry of all records so far, by six disk calls, and then shows
/// its place.
pub(crate) fn turn_half<D: Disk>(
    disk: &mut D,
    place: &Place,
    carry: &Carry,
) -> Result<Place, Failed>
    requires long { least_size ≤ D.size disk.old }
    requires turned { place.now.generation < MOST_RECORDS }
    requires rightly { IsRightly place.now.used carry.now }
    ensures moments { (image : List ℕ) → Holds D.honest D.seen D.may_leave disk.old image
        → LeavesOnly D.moment D.left_since disk.old disk.new (IsTurnedBy place.now carry.now image) }
    ensures done { OnOk result ((image : List ℕ) → Holds D.honest D.seen D.may_leave disk.old image
        → Holds D.honest D.seen D.may_leave disk.new (turned_by place.now carry.now image)) }
    ensures place { IfOk result (λ turned. turned ≡ after_turn place.now carry.now) }
    ensures goes_on { GoesOn D.size D.honest D.seen D.cuts disk.old disk.new }
    ensures takes { Takes D.below D.spent 6 (START + 2) disk.old disk.new }
    ensures cause { HasCause (D.faults disk.old) (D.faults disk.new) result }
{
    close_other(disk, place)?;
    begin_other(disk, place, carry)
}

/// Begins the other half, if the current one is full, by six disk calls, and then shows its place.
pub(crate) fn turn_if_full<D: Disk>(
    disk: &mut D,
    place: &Place,
    carry: &Carry,
) -> Result<Option<Place>, Failed>
    requires placed { IsPlaced (D.size disk.old) place.now }
    requires few { place.now.used < MOST_RECORDS }
    requires rightly { IsRightly place.now.used carry.now }
    ensures moments { (carry_of : List Record → Carry) (records : List Record)
        → StandsWith carry_of D.honest D.seen D.may_leave disk.old place.now carry.now records
        → LeavesOnly D.moment D.left_since disk.old disk.new (λ c. StandsFor carry_of c records) }
    ensures done { IfOk result (λ turned. (carry_of : List Record → Carry) (records : List Record)
        → StandsWith carry_of D.honest D.seen D.may_leave disk.old place.now carry.now records
        → Stands carry_of D.honest D.seen D.may_leave disk.new (turned_or place.now turned) records) }
    ensures placed { IfOk result (λ turned. IsPlaced (D.size disk.old) (turned_or place.now turned)) }
    ensures room { IfOk result (λ turned. (turned_or place.now turned).used
        < (turned_or place.now turned).base + room_of (D.size disk.old) (turned_or place.now turned).base) }
    ensures used { IfOk result (λ turned. (turned_or place.now turned).used ≡ place.now.used) }
    ensures turns { IfOk result (λ turned. (turned_or place.now turned).used
        - (turned_or place.now turned).base ≡ kept_before (half_room (D.size disk.old)) (place.now.used - place.now.base)) }
    ensures goes_on { GoesOn D.size D.honest D.seen D.cuts disk.old disk.new }
    ensures takes { Takes D.below D.spent 6 (START + 2) disk.old disk.new }
    ensures cause { HasCause (D.faults disk.old) (D.faults disk.new) result }
{
    if !is_full(disk, place) {
        return Ok(None);
    }
    let turned = turn_half(disk, place, carry)?;
    Ok(Some(turned))
}

/// Whether the current half is full.
#[inline]
pub(crate) fn is_full<D: Disk>(disk: &D, place: &Place) -> bool
    requires placed { IsPlaced (D.size disk.now) place.now }
    ensures full { result ≡ true
        → place.now.used ≡ place.now.base + room_of (D.size disk.now) place.now.base }
    ensures room { result ≡ false
        → place.now.used < place.now.base + room_of (D.size disk.now) place.now.base }
{
    place.used - place.base >= room_on(disk.len(), place.base)
}
