//! A record is put after the others, in the other half where the current one is full.
ghost use Rattle.std.specs.Prelude.{◌≡◌, ◌+◌, ◌-◌, ◌<◌, ◌≤◌, List, [], ◌∷◌, ◌++◌, IfOk, OnErr, OnOk};
ghost use Rattle.cct_edge.specs.Faults.{HasCause};
ghost use Rattle.cct_model_lines.specs.Carried.{IsRightly};
ghost use Rattle.cct_model_lines.specs.declared.carry.Carry.{Carry};
ghost use Rattle.cct_model_lines.specs.declared.record.Record.{Record};
ghost use Rattle.cct_record.specs.Body.{Encodable};
ghost use Rattle.cct_disk.specs.Disk.{GoesOn, LeavesOnly, Takes};
ghost use Rattle.cct_journal.specs.Image.{StandsForOneOf, half_room, kept_before};
ghost use Rattle.cct_journal.specs.Places.{after_put, turned_or};
ghost use Rattle.cct_journal.specs.Turning.{put_bytes, put_calls};
ghost use Rattle.cct_journal.specs.Stands.{IsPlaced, Puts, Stands, StandsWith};

use crate::format::MOST_RECORDS;
use crate::place::Place;
use crate::range::GATED_CALLS;
use crate::slot::put_slot;
use crate::turning::{is_full, turn_if_full};
use cct_disk::Disk;
use cct_edge::Failed;
use cct_model_lines::{Carry, Record};

/// The place that a turn led to, or that before, where there was none.
fn place_after<'a>(turned: &'a Option<Place>, place: &'a Place) -> &'a Place
    ensures { result.now ≡ turned_or place.now turned.now }
{
    match turned {
        Some(turned) => turned,
        None => place,
    }
}

/// Goes on to the place after a put, and after the turn before it.
fn go_on(place: &mut Place, turned: Option<Place>)
    requires { (turned_or place.old turned).used < MOST_RECORDS }
    ensures { place.new ≡ after_put (turned_or place.old turned) }
{
    if let Some(turned) = turned {
        *place = turned;
    }
    place.used += 1;
}

/// Makes the first `calls` of the four disk calls that put a record after the others, where there
/// has to be room for it. Before them it makes a turn whole, if the current half is full, and then
/// shows the new place, of the records before.
pub(crate) fn put_record<D: Disk>(
    disk: &mut D,
    place: &Place,
    carry: &Carry,
    entry: &Record,
    calls: u8,
) -> Result<Option<Place>, Failed>
    requires placed { IsPlaced (D.size disk.old) place.now }
    requires room { place.now.used < MOST_RECORDS }
    requires few { calls ≤ GATED_CALLS }
    requires encodable { Encodable entry.now }
    requires rightly { IsRightly place.now.used carry.now }
    ensures moments { Puts D.honest D.seen D.may_leave D.moment D.left_since place.now carry.now entry.now calls disk.old
        disk.new }
    ensures done { IfOk result (λ turned. calls ≡ GATED_CALLS → (carry_of : List Record → Carry) (records : List Record)
        → StandsWith carry_of D.honest D.seen D.may_leave disk.old place.now carry.now records
        → Stands carry_of D.honest D.seen D.may_leave disk.new (after_put (turned_or place.now turned))
        (records ++ entry.now ∷ [])) }
    ensures placed { IfOk result (λ turned. IsPlaced (D.size disk.old)
        (after_put (turned_or place.now turned))) }
    ensures used { IfOk result (λ turned. (turned_or place.now turned).used ≡ place.now.used) }
    ensures turns { IfOk result (λ turned. (turned_or place.now turned).used
        - (turned_or place.now turned).base ≡ kept_before (half_room (D.size disk.old)) (place.now.used - place.now.base)) }
    ensures later { IfOk result (λ turned. (turned_or place.now turned).base
        ≤ (turned_or place.now turned).used) }
    ensures goes_on { GoesOn D.size D.honest D.seen D.cuts disk.old disk.new }
    ensures takes { Takes D.below D.spent put_calls put_bytes disk.old disk.new }
    ensures cause { HasCause (D.faults disk.old) (D.faults disk.new) result }
{
    let turned = turn_if_full(disk, place, carry)?;
    put_slot(disk, place_after(&turned, place), entry, calls)?;
    Ok(turned)
}

/// Puts a record after the others, by four disk calls, and goes on to the place after it. Where the
/// current half is full, a turn is made before.
pub(crate) fn put_next<D: Disk>(
    disk: &mut D,
    place: &mut Place,
    carry: &Carry,
    entry: &Record,
) -> Result<(), Failed>
    requires placed { IsPlaced (D.size disk.old) place.old }
    requires room { place.old.used < MOST_RECORDS }
    requires encodable { Encodable entry.now }
    requires rightly { IsRightly place.old.used carry.now }
    ensures moments { (carry_of : List Record → Carry) (records : List Record)
        → StandsWith carry_of D.honest D.seen D.may_leave disk.old place.old carry.now records
        → LeavesOnly D.moment D.left_since disk.old disk.new (StandsForOneOf carry_of records entry.now) }
    ensures done { OnOk result ((carry_of : List Record → Carry) (records : List Record)
        → StandsWith carry_of D.honest D.seen D.may_leave disk.old place.old carry.now records
        → Stands carry_of D.honest D.seen D.may_leave disk.new place.new (records ++ entry.now ∷ [])) }
    ensures placed { OnOk result (IsPlaced (D.size disk.new) place.new) }
    ensures counted { OnOk result (place.new.used ≡ place.old.used + 1) }
    ensures turns { OnOk result (place.new.used - place.new.base
        ≡ kept_before (half_room (D.size disk.old)) (place.old.used - place.old.base) + 1) }
    ensures still { OnErr result (place.new ≡ place.old) }
    ensures goes_on { GoesOn D.size D.honest D.seen D.cuts disk.old disk.new }
    ensures takes { Takes D.below D.spent put_calls put_bytes disk.old disk.new }
    ensures cause { HasCause (D.faults disk.old) (D.faults disk.new) result }
{
    if is_full(disk, place) {
        return put_turned(disk, place, carry, entry);
    }
    put_slot(disk, place, entry, GATED_CALLS)?;
    place.used += 1;
    Ok(())
}

/// The same with the test for a turn. A place is wide: in a function of its own none is made where
/// no turn is due.
#[inline(never)]
fn put_turned<D: Disk>(
    disk: &mut D,
    place: &mut Place,
    carry: &Carry,
    entry: &Record,
) -> Result<(), Failed>
    requires placed { IsPlaced (D.size disk.old) place.old }
    requires room { place.old.used < MOST_RECORDS }
    requires encodable { Encodable entry.now }
    requires rightly { IsRightly place.old.used carry.now }
    ensures moments { (carry_of : List Record → Carry) (records : List Record)
        → StandsWith carry_of D.honest D.seen D.may_leave disk.old place.old carry.now records
        → LeavesOnly D.moment D.left_since disk.old disk.new (StandsForOneOf carry_of records entry.now) }
    ensures done { OnOk result ((carry_of : List Record → Carry) (records : List Record)
        → StandsWith carry_of D.honest D.seen D.may_leave disk.old place.old carry.now records
        → Stands carry_of D.honest D.seen D.may_leave disk.new place.new (records ++ entry.now ∷ [])) }
    ensures placed { OnOk result (IsPlaced (D.size disk.new) place.new) }
    ensures counted { OnOk result (place.new.used ≡ place.old.used + 1) }
    ensures turns { OnOk result (place.new.used - place.new.base
        ≡ kept_before (half_room (D.size disk.old)) (place.old.used - place.old.base) + 1) }
    ensures still { OnErr result (place.new ≡ place.old) }
    ensures goes_on { GoesOn D.size D.honest D.seen D.cuts disk.old disk.new }
    ensures takes { Takes D.below D.spent put_calls put_bytes disk.old disk.new }
    ensures cause { HasCause (D.faults disk.old) (D.faults disk.new) result }
{
    let turned = put_record(disk, place, carry, entry, GATED_CALLS)?;
    go_on(place, turned);
    Ok(())
}
