//! One write and one sync, and two of them with a gate: the units of all that is written to the
//! disk.
ghost use Rattle.std.specs.Prelude.{◌≡◌, ℕ, ◌+◌, ◌^◌, ◌<◌, ◌≤◌, true, Some, List, [], ◌∷◌, length};
ghost use Rattle.std.specs.Prelude.{OnOk};
ghost use Rattle.cct_edge.specs.Faults.{HasCause};
ghost use Rattle.cct_disk.specs.Disk.{GoesOn, Holds, LeavesOnly, SameOutside, Takes, put_at};
ghost use Rattle.cct_journal.specs.Gated.{IsBegun, behind_open_gate};

use crate::format::OPEN;
use cct_disk::Disk;
use cct_edge::Failed;

/// Writes bytes from a place on, and where `synced` says so lets the disk keep them.
pub(crate) fn write_range<D: Disk>(
    disk: &mut D,
    at: u64,
    bytes: &[u8],
    synced: bool,
) -> Result<(), Failed>
    requires { at + length bytes.now ≤ D.size disk.old }
    ensures moments { (image : List ℕ) → Holds D.honest D.seen D.may_leave disk.old image
        → LeavesOnly D.moment D.left_since disk.old disk.new (SameOutside at (length bytes.now) image) }
    ensures done { OnOk result (synced ≡ true → D.honest disk.old ≡ true → (image : List ℕ)
        → D.seen disk.old ≡ Some image
        → Holds D.honest D.seen D.may_leave disk.new (put_at image at bytes.now)) }
    ensures goes_on { GoesOn D.size D.honest D.seen D.cuts disk.old disk.new }
    ensures takes { Takes D.below D.spent 2 (length bytes.now) disk.old disk.new }
    ensures cause { HasCause (D.faults disk.old) (D.faults disk.new) result }
{
    disk.write(at, bytes)?;
    if !synced {
        return Ok(());
    }
    disk.sync()
}

/// The calls by which bytes are written after a gate that is opened.
pub(crate) const GATED_CALLS: u8 = 4;

/// Makes the first `calls` of four calls: it writes bytes after a gate, syncs, writes the gate
/// open, and syncs. So the gate is never open over bytes that the disk might lose.
pub(crate) fn write_gated<D: Disk>(
    disk: &mut D,
    at: u64,
    bytes: &[u8],
    calls: u8,
) -> Result<(), Failed>
    requires room { at + 1 + length bytes.now ≤ D.size disk.old }
    requires fits { at + 1 < 2 ^ 64 }
    requires few { calls ≤ GATED_CALLS }
    ensures moments { (image : List ℕ) → Holds D.honest D.seen D.may_leave disk.old image
        → LeavesOnly D.moment D.left_since disk.old disk.new (IsBegun at bytes.now image) }
    ensures early { calls ≤ 2 → (image : List ℕ) → Holds D.honest D.seen D.may_leave disk.old image
        → LeavesOnly D.moment D.left_since disk.old disk.new (SameOutside (at + 1) (length bytes.now) image) }
    ensures done { OnOk result (calls ≡ GATED_CALLS → D.honest disk.old ≡ true → (image : List ℕ)
        → D.seen disk.old ≡ Some image
        → Holds D.honest D.seen D.may_leave disk.new (behind_open_gate at bytes.now image)) }
    ensures goes_on { GoesOn D.size D.honest D.seen D.cuts disk.old disk.new }
    ensures takes { Takes D.below D.spent 4 (length bytes.now + 1) disk.old disk.new }
    ensures cause { HasCause (D.faults disk.old) (D.faults disk.new) result }
{
    if calls == 0 {
        return Ok(());
    }
    write_range(disk, at + 1, bytes, calls >= 2)?;
    if calls <= 2 {
        return Ok(());
    }
    write_range(disk, at, &[OPEN], calls == GATED_CALLS)
}
