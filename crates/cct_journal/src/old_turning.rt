//! A journal of an older version is turned into one of today.
ghost use Rattle.std.specs.Prelude.{◌≡◌, ℕ, IfOk, List};
ghost use Rattle.cct_edge.specs.Faults.{HasCause};
ghost use Rattle.cct_model_lines.specs.Carried.{IsRightly};
ghost use Rattle.cct_model_lines.specs.declared.carry.Carry.{Carry};
ghost use Rattle.cct_model_lines.specs.declared.record.Record.{Record};
ghost use Rattle.cct_disk.specs.Disk.{GoesOn, LeavesOnly};
ghost use Rattle.cct_journal.specs.OldImage.{IsTurning};
ghost use Rattle.cct_journal.specs.OldStands.{BeginsEmpty, IsOldPlaced, OldStands};
ghost use Rattle.cct_journal.specs.Places.{after_turn};
ghost use Rattle.cct_journal.specs.Stands.{IsPlaced};

use crate::old_place::OldPlace;
use crate::place::Place;
use crate::turning::turn_half;
use cct_disk::Disk;
use cct_edge::Failed;
use cct_model_lines::Carry;

/// Begins the other half of a journal of an older version as one of today, with the carry of all
/// its records, by six disk calls.
pub(crate) fn turn_old<D: Disk>(
    disk: &mut D,
    old: &OldPlace,
    carry: &Carry,
) -> Result<Place, Failed>
    requires placed { IsOldPlaced (D.size disk.old) old.now }
    requires rightly { IsRightly old.now.place.used carry.now }
    ensures moments { (rest : List Record) → OldStands D.honest D.seen D.may_leave disk.old old.now rest
        → LeavesOnly D.moment D.left_since disk.old disk.new (IsTurning old.now carry.now rest) }
    ensures done { IfOk result (λ turned. (rest : List Record)
        → OldStands D.honest D.seen D.may_leave disk.old old.now rest
        → BeginsEmpty D.honest D.seen D.may_leave disk.new turned) }
    ensures place { IfOk result (λ turned. turned ≡ after_turn old.now.place carry.now) }
    ensures placed { IfOk result (IsPlaced (D.size disk.old)) }
    ensures goes_on { GoesOn D.size D.honest D.seen D.cuts disk.old disk.new }
    ensures cause { HasCause (D.faults disk.old) (D.faults disk.new) result }
{
    turn_half(disk, &old.place, carry)
}
