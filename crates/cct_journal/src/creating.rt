//! A journal is created on a blank disk.
ghost use Rattle.std.specs.Prelude.{◌≡◌, ◌≢◌, ℕ, ◌+◌, ◌<◌, ◌≤◌, true, Err, Some, List, length};
ghost use Rattle.std.specs.Prelude.{IfErr, IfOk, IfSome, MatchOption, OnOk};
ghost use Rattle.cct_edge.specs.Faults.{Caused, HasCause};
ghost use Rattle.cct_disk.specs.Disk.{GoesOn, Holds, IsReady, LeavesOnly, OnlyReads};
ghost use Rattle.cct_journal.specs.Image.{IsBlank, IsBlankBetween, IsFirstByteFrom};
ghost use Rattle.cct_journal.specs.Creating.{Creates, IsCreated, IsNotBlank, RefusesCreate};
ghost use Rattle.cct_journal.specs.Stands.{IsPlaced};

use crate::CreateNo;
use crate::format::{BLOCK, LEAST};
use crate::place::Place;
use crate::turning::write_start;
use cct_disk::Disk;
use cct_edge::Failed;
use cct_model_lines::Carry;

/// The first byte that isn't 0.
fn first_byte(bytes: &[u8]) -> Option<usize>
    ensures { MatchOption result (IsBlank bytes.now) (IsFirstByteFrom 0 bytes.now) }
{
    if is_blank(bytes) {
        None
    } else {
        bytes.iter().position(|byte| *byte != 0)
    }
}

/// Whether each byte is 0. It gathers the bits of all of them, and so tests once.
#[tactic(auto, using(crate::proofs::Gathered::blank_gathered))]
fn is_blank(bytes: &[u8]) -> bool
    ensures { result ≡ true → IsBlank bytes.now }
{
    bytes.iter().fold(0, |bits, byte| bits | byte) == 0
}

/// Reads as many bytes as the room has, and says where among them the first stands that isn't 0.
fn read_block<D: Disk>(disk: &mut D, at: u64, room: &mut [u8]) -> Result<Option<usize>, Failed>
    requires { at + length room.old ≤ D.size disk.old }
    ensures within { IfOk result (λ found. IfSome found (λ index. index < length room.old)) }
    ensures found { IfOk result (λ found. (image : List ℕ) → D.seen disk.old ≡ Some image
        → MatchOption found (IsBlankBetween at (at + length room.old) image)
        (λ index. IsFirstByteFrom at image (at + index))) }
    ensures reads { OnlyReads D.size D.honest D.seen D.may_leave D.moment D.left_since D.cuts
        disk.old disk.new }
    ensures ready { IsReady D.spent disk.old → IsReady D.spent disk.new }
    ensures cause { HasCause (D.faults disk.old) (D.faults disk.new) result }
{
    disk.read(at, room)?;
    Ok(first_byte(room))
}

/// Whether every byte of the disk is 0, which is read in blocks. Where one isn't, the answer shows
/// the first.
fn check_blank<D: Disk>(disk: &mut D) -> Result<(), CreateNo>
    ensures blank { OnOk result ((image : List ℕ) → D.seen disk.old ≡ Some image → IsBlank image) }
    ensures refused { IfErr result (λ why. IsNotBlank (D.seen disk.old) why) }
    ensures reads { OnlyReads D.size D.honest D.seen D.may_leave D.moment D.left_since D.cuts
        disk.old disk.new }
    ensures ready { IsReady D.spent disk.old → IsReady D.spent disk.new }
    ensures cause { Caused (D.faults disk.old) (D.faults disk.new) (result ≡ Err CreateNo.Disk) }
{
    let len = disk.len();
    let mut room = [0; BLOCK];
    let mut at = 0;
    while at < len {
        let count = (len - at).min(BLOCK as u64) as usize;
        if let Some(index) = read_block(disk, at, &mut room[..count])? {
            return Err(CreateNo::NotBlank {
                at: at + index as u64,
            });
        }
        at += count as u64;
    }
    Ok(())
}

/// Begins the first half of a blank disk with no record and no carry, and gives the place of its
/// first record.
pub(crate) fn lay_header<D: Disk>(disk: &mut D) -> Result<Place, CreateNo>
    ensures placed { IfOk result (IsPlaced (D.size disk.old)) }
    ensures created { IfOk result (λ place. Creates D.size D.honest D.seen D.may_leave disk.old
        disk.new place) }
    ensures refused { IfErr result (RefusesCreate (D.size disk.old) (D.seen disk.old)) }
    ensures unchanged { IfErr result (λ why. why ≢ CreateNo.Disk → OnlyReads D.size D.honest D.seen D.may_leave
        D.moment D.left_since D.cuts disk.old disk.new) }

    // the disk at each moment, and after the call
    ensures moments { (image : List ℕ) → Holds D.honest D.seen D.may_leave disk.old image
        → LeavesOnly D.moment D.left_since disk.old disk.new (IsCreated image) }
    ensures goes_on { GoesOn D.size D.honest D.seen D.cuts disk.old disk.new }
    ensures sure { IsReady D.spent disk.old → D.faults disk.new ≡ 0 }
    ensures cause { Caused (D.faults disk.old) (D.faults disk.new) (result ≡ Err CreateNo.Disk) }
{
    let len = disk.len();
    if len < LEAST {
        return Err(CreateNo::Small { len });
    }
    check_blank(disk)?;
    let carry = Carry::empty();
    write_start(disk, 0, 0, 0, &carry)?;
    Ok(Place {
        used: 0,
        second: false,
        generation: 0,
        base: 0,
        carry,
        other_open: false,
    })
}
