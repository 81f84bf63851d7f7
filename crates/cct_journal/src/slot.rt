//! A record is put into the slot after the others.
ghost use Rattle.std.specs.Prelude.{◌≡◌, ◌⊎◌, ◌+◌, ◌<◌, ◌≤◌, List, [], ◌∷◌, ◌++◌, OnOk};
ghost use Rattle.cct_edge.specs.Faults.{HasCause};
ghost use Rattle.cct_model_lines.specs.declared.carry.Carry.{Carry};
ghost use Rattle.cct_model_lines.specs.declared.record.Record.{Record};
ghost use Rattle.cct_record.specs.Body.{Encodable, InRange, body_of};
ghost use Rattle.cct_disk.specs.Disk.{GoesOn, LeavesOnly, Takes};
ghost use Rattle.cct_journal.specs.Image.{StandsFor, StandsForOneOf, room_of};
ghost use Rattle.cct_journal.specs.Places.{after_put};
ghost use Rattle.cct_journal.specs.Stands.{IsPlaced, Stands};

use crate::format::{FIRST_SLOT, SLOT};
use crate::place::Place;
use crate::range::{GATED_CALLS, write_gated};
use crate::reading::{slots_on, start_on};
use cct_disk::Disk;
use cct_edge::Failed;
use cct_model_lines::Record;
use cct_record::encode;

/// The body of a record, and a shut gate after it.
fn spell_slot(entry: &Record) -> [u8; 32]
    requires { Encodable entry.now }
    ensures spelt { result ≡ body_of entry.now ++ 0 ∷ [] }
    ensures in_range { InRange entry.now }
{
    let mut bytes = [0; 32];
    bytes[..31].copy_from_slice(&encode(entry));
    bytes
}

/// How many bytes a put writes after the gate of a slot: the body, and the gate of the next slot,
/// if the half has one.
fn bytes_behind(slot: u64, slots: u64) -> usize
    requires { slot < slots }
    ensures { ((result ≡ 32) × (slot + 1 < slots)) ⊎ ((result ≡ 31) × (slots ≤ slot + 1)) }
{
    if slot + 1 < slots { 32 } else { 31 }
}

/// Makes the first `calls` of the four disk calls that put a record at a place, where the half has
/// to have room for it.
pub(crate) fn put_slot<D: Disk>(
    disk: &mut D,
    place: &Place,
    entry: &Record,
    calls: u8,
) -> Result<(), Failed>
    requires placed { IsPlaced (D.size disk.old) place.now }
    requires room { place.now.used < place.now.base + room_of (D.size disk.old) place.now.base }
    requires few { calls ≤ GATED_CALLS }
    requires encodable { Encodable entry.now }
    ensures moments { (carry_of : List Record → Carry) (records : List Record)
        → Stands carry_of D.honest D.seen D.may_leave disk.old place.now records
        → LeavesOnly D.moment D.left_since disk.old disk.new (StandsForOneOf carry_of records entry.now) }
    ensures early { calls ≤ 2 → (carry_of : List Record → Carry) (records : List Record)
        → Stands carry_of D.honest D.seen D.may_leave disk.old place.now records
        → LeavesOnly D.moment D.left_since disk.old disk.new (λ c. StandsFor carry_of c records) }
    ensures done { OnOk result (calls ≡ GATED_CALLS → (carry_of : List Record → Carry) (records : List Record)
        → Stands carry_of D.honest D.seen D.may_leave disk.old place.now records
        → Stands carry_of D.honest D.seen D.may_leave disk.new (after_put place.now) (records ++ entry.now ∷ [])) }
    ensures goes_on { GoesOn D.size D.honest D.seen D.cuts disk.old disk.new }
    ensures takes { Takes D.below D.spent 4 33 disk.old disk.new }
    ensures cause { HasCause (D.faults disk.old) (D.faults disk.new) result }
{
    let len = disk.len();
    let slot = FIRST_SLOT + u64::from(place.used - place.base);
    let gate = start_on(len, place.second) + SLOT * slot;
    let bytes = spell_slot(entry);
    let count = bytes_behind(slot, slots_on(len));
    write_gated(disk, gate, &bytes[..count], calls)
}
