//! The power is cut, within a put or in none.
ghost use Rattle.std.specs.Prelude.{◌≡◌, ◌<◌, ◌≤◌, List, IfSome, OnOk};
ghost use Rattle.cct_edge.specs.Faults.{HasCause};
ghost use Rattle.cct_model_lines.specs.Carried.{IsRightly};
ghost use Rattle.cct_model_lines.specs.declared.carry.Carry.{Carry};
ghost use Rattle.cct_model_lines.specs.declared.record.Record.{Record};
ghost use Rattle.cct_record.specs.Body.{Encodable};
ghost use Rattle.cct_disk.specs.Disk.{GoesOn, LeavesOnly, Outlasts};
ghost use Rattle.cct_journal.specs.PowerCuts.{LeavesBy, LeftBy, StandsForWith};
ghost use Rattle.cct_journal.specs.Stands.{CutOnce, IsPlaced, Settled, StandsBefore};

use crate::format::MOST_RECORDS;
use crate::place::Place;
use crate::putting::put_record;
use crate::range::GATED_CALLS;
use cct_disk::Disk;
use cct_edge::Failed;
use cct_model_lines::{Carry, Record};

/// Makes the first `calls` of the four disk calls of a put, where there is one, and before them a
/// turn that is due.
fn begin_put<D: Disk>(
    disk: &mut D,
    place: &Place,
    carry: &Carry,
    put: &Option<Record>,
    calls: u8,
) -> Result<(), Failed>
    requires placed { IsPlaced (D.size disk.old) place.now }
    requires room { IfSome put.now (λ _. place.now.used < MOST_RECORDS) }
    requires few { calls ≤ GATED_CALLS }
    requires encodable { IfSome put.now Encodable }
    requires rightly { IfSome put.now (λ _. IsRightly place.now.used carry.now) }
    ensures moments { (carry_of : List Record → Carry) (records : List Record)
        → StandsBefore carry_of D.honest D.seen D.may_leave disk.old place.now carry.now put.now records
        → LeavesOnly D.moment D.left_since disk.old disk.new (StandsForWith carry_of put.now records) }
    ensures left { OnOk result ((carry_of : List Record → Carry) (records : List Record)
        → StandsBefore carry_of D.honest D.seen D.may_leave disk.old place.now carry.now put.now records
        → LeavesBy carry_of D.honest D.seen D.may_leave disk.new calls put.now records) }
    ensures goes_on { GoesOn D.size D.honest D.seen D.cuts disk.old disk.new }
    ensures cause { HasCause (D.faults disk.old) (D.faults disk.new) result }
{
    match put {
        None => Ok(()),
        Some(entry) => {
            put_record(disk, place, carry, entry, calls)?;
            Ok(())
        }
    }
}

/// Cuts the power after the first `calls` of the four disk calls of a put, or in no put.
pub(crate) fn cut_power<D: Disk>(
    disk: &mut D,
    place: &Place,
    carry: &Carry,
    put: &Option<Record>,
    calls: u8,
    choice: u64,
) -> Result<(), Failed>
    requires placed { IsPlaced (D.size disk.old) place.now }
    requires room { IfSome put.now (λ _. place.now.used < MOST_RECORDS) }
    requires few { calls ≤ GATED_CALLS }
    requires encodable { IfSome put.now Encodable }
    requires rightly { IfSome put.now (λ _. IsRightly place.now.used carry.now) }
    ensures moments { (carry_of : List Record → Carry) (records : List Record)
        → StandsBefore carry_of D.honest D.seen D.may_leave disk.old place.now carry.now put.now records
        → LeavesOnly D.moment D.left_since disk.old disk.new (StandsForWith carry_of put.now records) }
    ensures left { OnOk result ((carry_of : List Record → Carry) (records : List Record)
        → StandsBefore carry_of D.honest D.seen D.may_leave disk.old place.now carry.now put.now records
        → (left : List Record) × LeftBy calls put.now records left
        × Settled carry_of D.honest D.seen D.may_leave disk.new left) }
    ensures cut { OnOk result (CutOnce D.size D.honest D.seen D.cuts D.cut_to choice disk.old
        disk.new) }
    ensures outlasts { Outlasts D.size D.honest D.seen D.cuts disk.old disk.new }
    ensures cause { HasCause (D.faults disk.old) (D.faults disk.new) result }
{
    begin_put(disk, place, carry, put, calls)?;
    disk.power_cut(choice)?;
    Ok(())
}
