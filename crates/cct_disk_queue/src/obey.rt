//! The calls of a queue, made on a part in their order: all that its caller owes.
ghost use Rattle.std.specs.Prelude.{◌≡◌, ◌∷◌, [], List, ℕ, length, map, reverse, OnOk};
ghost use Rattle.cct_disk.specs.Disk.{GoesOn, Holds, LeavesOnly};
ghost use Rattle.cct_edge.specs.Faults.{HasCause};
ghost use Rattle.cct_disk_queue.specs.Calls.{Act, AreIn, AreWithin, Since, called};
ghost use Rattle.cct_disk_queue.specs.Obeyed.{HasMade};

use crate::QueueDisk;
use crate::calls::Note;
use cct_disk::Disk;
use cct_edge::Failed;

/// Makes the calls that a queue notes on a part, in their order, up to the first that fails. So
/// does a caller who obeys, in any language.
pub fn make_calls<D: Disk>(queue: &QueueDisk, part: &mut D) -> Result<(), Failed>
    requires within { AreWithin (D.size part.old) queue.now.calls }
    // Whenever the power is cut, the part has an image that the queue might have left since its
    // base.
    ensures moments { (base : List ℕ) → Holds D.honest D.seen D.may_leave part.old base
        → LeavesOnly D.moment D.left_since part.old part.new (Since base queue.now.calls 0) }
    // Where each was done, the part has the bytes that the queue shows, and leaves no more than
    // that might.
    ensures made { OnOk result ((base : List ℕ) → Holds D.honest D.seen D.may_leave part.old base
        → HasMade D.honest D.seen D.may_leave part.new base queue.now.calls) }
    ensures goes_on { GoesOn D.size D.honest D.seen D.cuts part.old part.new }
    // It stops only where a call of the part failed.
    ensures cause { HasCause (D.faults part.old) (D.faults part.new) result }
{
    let (notes, kept) = queue.parts();
    make_noted(notes, kept, part)
}

/// Makes noted calls on a part.
#[tactic(auto, using(crate::proofs::Noted::in_last, crate::proofs::Noted::within_last))]
fn make_noted<D: Disk>(notes: &[Note], kept: &[u8], part: &mut D) -> Result<(), Failed>
    requires there { AreIn (length kept.now) (reverse notes.now) }
    requires within { AreWithin (D.size part.old) (map (called kept.now) (reverse notes.now)) }
    ensures moments { (base : List ℕ) → Holds D.honest D.seen D.may_leave part.old base
        → LeavesOnly D.moment D.left_since part.old part.new (Since base (map (called kept.now) (reverse notes.now)) 0) }
    ensures made { OnOk result ((base : List ℕ) → Holds D.honest D.seen D.may_leave part.old base
        → HasMade D.honest D.seen D.may_leave part.new base (map (called kept.now) (reverse notes.now))) }
    ensures goes_on { GoesOn D.size D.honest D.seen D.cuts part.old part.new }
    ensures cause { HasCause (D.faults part.old) (D.faults part.new) result }
{
    match notes {
        [] => Ok(()),
        [before @ .., last] => {
            make_noted(before, kept, part)?;
            make_one(*last, kept, part)
        }
    }
}

/// Makes one noted call on a part.
fn make_one<D: Disk>(note: Note, kept: &[u8], part: &mut D) -> Result<(), Failed>
    requires there { AreIn (length kept.now) (note ∷ []) }
    requires within { AreWithin (D.size part.old) (called kept.now note ∷ []) }
    ensures moments { (base : List ℕ) (before : List Act) → HasMade D.honest D.seen D.may_leave part.old base before
        → LeavesOnly D.moment D.left_since part.old part.new (Since base (called kept.now note ∷ before) 0) }
    ensures made { OnOk result ((base : List ℕ) (before : List Act)
        → HasMade D.honest D.seen D.may_leave part.old base before
        → HasMade D.honest D.seen D.may_leave part.new base (called kept.now note ∷ before)) }
    ensures goes_on { GoesOn D.size D.honest D.seen D.cuts part.old part.new }
    ensures cause { HasCause (D.faults part.old) (D.faults part.new) result }
{
    match note {
        Note::Write { at, from, len } => part.write(at, &kept[from..from + len]),
        Note::Sync => part.sync(),
    }
}
