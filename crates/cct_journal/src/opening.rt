//! The journal that is on a disk is found.
ghost use Rattle.std.specs.Prelude.{◌≡◌, ◌↔◌, ℕ, ◌<◌, ◌≤◌, ◌==◌, true, false, Bool, Err, Some};
ghost use Rattle.std.specs.Prelude.{List, IsTrue, if◌then◌else◌};
ghost use Rattle.std.specs.Prelude.{IfErr, IfOk, IfSome, MatchOption};
ghost use Rattle.cct_edge.specs.Faults.{Caused, HasCause};
ghost use Rattle.cct_model_lines.specs.declared.carry.Carry.{Carry};
ghost use Rattle.cct_model_lines.specs.declared.record.Record.{Record};
ghost use Rattle.cct_disk.specs.Disk.{IsReady, OnlyReads};
ghost use Rattle.cct_journal.specs.Half.{IsCurrent, IsOpen, IsVersionOf, half};
ghost use Rattle.cct_journal.specs.Start.{Begins, MayBegin};
ghost use Rattle.cct_journal.specs.Fronts.{BeginsAt, IsCurrentHalf, IsFront, before_records};
ghost use Rattle.cct_journal.specs.Image.{least_size};
ghost use Rattle.cct_journal.specs.Opening.{Finds, RefusesOpen, ReplaysAll};
ghost use Rattle.cct_journal.specs.Stands.{IsPlaced, Settled, Stands};

use crate::format::{FIRST_VERSION, LEAST, OPEN, SECOND_VERSION, START, TITLE, VERSION};
use crate::place::Place;
use crate::reading::{read_in, replay_records};
use crate::start::{Start, read_start};
use crate::{OpenNo, Replay};
use cct_disk::Disk;
use cct_edge::Failed;

/// The bytes at the front of a half that say whether it counts: its gate, the title, the version
/// and its generation.
const FRONT: usize = 20;

/// What is at the front of a half.
#[derive(Clone, Copy)]
pub(crate) struct Front {
    /// Whether the gate is open.
    gate_open: bool,
    /// Whether the half is open: its gate is, and it has the title and a version that it may have.
    is_open: bool,
    version: u8,
    generation: u32,
}

/// The half that counts, where there is one.
#[derive(Clone, Copy)]
pub(crate) struct Current {
    pub(crate) second: bool,
    pub(crate) version: u8,
    /// Whether the gate of the other half is open.
    pub(crate) other_open: bool,
}

/// Whether the first or the second half may have a version.
fn may_have(second: bool, version: u8) -> bool
    ensures { IsTrue result ↔ IsVersionOf second version }
{
    if version == FIRST_VERSION {
        !second
    } else {
        version == SECOND_VERSION || version == VERSION
    }
}

/// Whether the first or the second half is open, by its first bytes.
fn is_open(bytes: &[u8; FRONT], second: bool) -> bool
    ensures { IsTrue result ↔ IsOpen second bytes.now }
{
    bytes[..15] == TITLE[..] && may_have(second, bytes[15])
}

/// The generation of a half of a version, by the number that is in its header.
fn generation_of(version: u8, turns: u32) -> u32
    ensures { result ≡ (if version == 1 then 0 else turns) }
{
    if version == FIRST_VERSION { 0 } else { turns }
}

/// What the first bytes of a half say.
fn front_of(bytes: &[u8; FRONT], second: bool) -> Front
    ensures { IsFront second result bytes.now }
{
    let version = bytes[15];
    let turns = u32::from_le_bytes([bytes[16], bytes[17], bytes[18], bytes[19]]);
    Front {
        gate_open: bytes[0] == OPEN,
        is_open: is_open(bytes, second),
        version,
        generation: generation_of(version, turns),
    }
}

/// Reads the front of a half.
fn look_at<D: Disk>(disk: &mut D, second: bool) -> Result<Front, Failed>
    requires { least_size ≤ D.size disk.old }
    ensures front { IfOk result (λ front. (image : List ℕ) → D.seen disk.old ≡ Some image
        → IsFront second front (half image second)) }
    ensures reads { OnlyReads D.size D.honest D.seen D.may_leave D.moment D.left_since D.cuts
        disk.old disk.new }
    ensures ready { IsReady D.spent disk.old → IsReady D.spent disk.new }
    ensures cause { HasCause (D.faults disk.old) (D.faults disk.new) result }
{
    let mut bytes = [0; FRONT];
    read_in(disk, second, 0, &mut bytes)?;
    Ok(front_of(&bytes, second))
}

/// Which half is the current one, where there is one.
fn choose(first: Front, second: Front) -> Option<Current>
    ensures { (image : List ℕ) → IsFront false first (half image false) → IsFront true second (half image true)
        → MatchOption result ((second : Bool) → IsCurrent second image → ⊥) (IsCurrentHalf image) }
{
    if first.is_open && (!second.is_open || second.generation <= first.generation) {
        Some(Current {
            second: false,
            version: first.version,
            other_open: second.gate_open,
        })
    } else if second.is_open {
        Some(Current {
            second: true,
            version: second.version,
            other_open: first.gate_open,
        })
    } else {
        None
    }
}

/// Finds the current half of a disk, of whatever version, where there is one.
pub(crate) fn find_current<D: Disk>(disk: &mut D) -> Result<Option<Current>, Failed>
    requires { least_size ≤ D.size disk.old }
    ensures found { IfOk result (λ found. (image : List ℕ) → D.seen disk.old ≡ Some image
        → MatchOption found ((second : Bool) → IsCurrent second image → ⊥) (IsCurrentHalf image)) }
    ensures reads { OnlyReads D.size D.honest D.seen D.may_leave D.moment D.left_since D.cuts
        disk.old disk.new }
    ensures ready { IsReady D.spent disk.old → IsReady D.spent disk.new }
    ensures cause { HasCause (D.faults disk.old) (D.faults disk.new) result }
{
    let first = look_at(disk, false)?;
    let second = look_at(disk, true)?;
    Ok(choose(first, second))
}

/// The place of a journal whose current half begins so, before its first record.
pub(crate) fn place_at(current: Current, start: Start) -> Place
    ensures { result ≡ before_records current start }
{
    Place {
        used: start.base,
        second: current.second,
        generation: start.generation,
        base: start.base,
        carry: start.carry,
        other_open: current.other_open,
    }
}

/// Reads what a half begins with before its records, if it is the one spelling of a start.
pub(crate) fn find_start<D: Disk>(disk: &mut D, second: bool) -> Result<Option<Start>, Failed>
    requires { least_size ≤ D.size disk.old }
    ensures may { IfOk result (λ found. IfSome found
        (λ s. MayBegin second s.generation s.base s.carry)) }
    ensures found { IfOk result (λ found. (image : List ℕ) → D.seen disk.old ≡ Some image → MatchOption found
        ((generation base : ℕ) (carry : Carry) → Begins second generation base carry (half image second) → ⊥)
        (λ s. Begins second s.generation s.base s.carry (half image second))) }
    ensures reads { OnlyReads D.size D.honest D.seen D.may_leave D.moment D.left_since D.cuts
        disk.old disk.new }
    ensures ready { IsReady D.spent disk.old → IsReady D.spent disk.new }
    ensures cause { HasCause (D.faults disk.old) (D.faults disk.new) result }
{
    let mut bytes = [0; START];
    read_in(disk, second, 0, &mut bytes)?;
    Ok(read_start(&bytes, second))
}

/// The place of the journal on a disk, before the first record of its current half.
fn find_half<D: Disk>(disk: &mut D) -> Result<Place, OpenNo>
    requires { least_size ≤ D.size disk.old }
    ensures placed { IfOk result (λ place. IsPlaced (D.size disk.old) place) }
    ensures begins { IfOk result (λ place. (image : List ℕ) → D.seen disk.old ≡ Some image →
        BeginsAt image place) }
    ensures refused { IfErr result (λ why. (image : List ℕ) → D.seen disk.old ≡ Some image →
        RefusesOpen why image) }
    ensures reads { OnlyReads D.size D.honest D.seen D.may_leave D.moment D.left_since D.cuts
        disk.old disk.new }
    ensures ready { IsReady D.spent disk.old → IsReady D.spent disk.new }
    ensures cause { Caused (D.faults disk.old) (D.faults disk.new) (result ≡ Err OpenNo.Disk) }
{
    let Some(current) = find_current(disk)? else {
        return Err(OpenNo::Alien);
    };
    let Some(start) = find_start(disk, current.second)? else {
        return Err(OpenNo::Alien);
    };
    Ok(place_at(current, start))
}

/// The place of the journal on a disk, which is only read. Its carry is replayed, and each of its
/// records after it.
pub(crate) fn find_place<D: Disk, R: Replay>(disk: &mut D, replay: &mut R) -> Result<Place, OpenNo>
    ensures placed { IfOk result (λ place. IsPlaced (D.size disk.old) place) }
    ensures finds { IfOk result (λ place. Finds D.seen disk.old disk.new place) }
    ensures replayed { IfOk result (λ place. ReplaysAll D.seen R.replayed disk.new place replay.old
        replay.new) }
    // If the disk keeps exactly one image, a journal at that place represents it.
    ensures stands { IfOk result (λ place. (carry_of : List Record → Carry) (records : List Record)
        → Settled carry_of D.honest D.seen D.may_leave disk.old records
        → Stands carry_of D.honest D.seen D.may_leave disk.new place records) }

    // why none is found
    ensures refused { IfErr result (λ why. (image : List ℕ) → D.seen disk.old ≡ Some image →
        RefusesOpen why image) }
    ensures short { D.size disk.old < least_size → result ≡ Err OpenNo.Alien }

    // the disk
    ensures reads { OnlyReads D.size D.honest D.seen D.may_leave D.moment D.left_since D.cuts
        disk.old disk.new }
    ensures ready { IsReady D.spent disk.old → IsReady D.spent disk.new }
    ensures cause { Caused (D.faults disk.old) (D.faults disk.new) (result ≡ Err OpenNo.Disk) }
{
    if disk.len() < LEAST {
        return Err(OpenNo::Alien);
    }
    let half = find_half(disk)?;
    let used = replay_records(disk, &half, replay)?;
    Ok(Place { used, ..half })
}
