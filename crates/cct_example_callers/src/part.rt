//! A journal on a memory part whose erased bytes are ff, as those of an EEPROM are.
ghost use Rattle.std.specs.Prelude.{◌≡◌, ◌+◌, ◌≤◌, None, [], false, length};
ghost use Rattle.cct_edge.specs.Faults.{HasCause, next_count};
ghost use Rattle.cct_disk.specs.Laws.{untold_fits};

use cct_disk::Disk;
use cct_edge::Failed;
use cct_journal::{CreateNo, Journal};
use cct_model_lines::{Carry, Record};
use std::test::Fail;

/// How many bytes the part has.
const BYTES: usize = 2560;

/// A part, played in memory. A real one has the same two calls, and either may fail.
#[derive(Drop)]
struct Part {
    cells: [u8; BYTES],
}

impl Part {
    /// Fills `room` with the bytes from `at` on, if the part answers.
    fn read(&self, at: usize, room: &mut [u8]) -> bool
        requires { at + length room.old ≤ BYTES }
        ensures { length room.new ≡ length room.old }
    {
        room.copy_from_slice(&self.cells[at..at + room.len()]);
        true
    }

    /// Writes a byte, erased or not, and waits until it is done.
    fn program(&mut self, at: usize, byte: u8) -> bool
        requires { at + 1 ≤ BYTES }
    {
        self.cells[at] = byte;
        true
    }
}

/// A disk over a part. It stores each byte inverted, so an erased part is a blank disk. It claims
/// nothing of its bytes.
#[derive(Drop)]
struct PartDisk {
    part: Part,
    faults: u64,
    cuts: u64,
}

impl PartDisk {
    /// A disk over a part whose bytes are all this one.
    fn filled(byte: u8) -> PartDisk {
        PartDisk {
            part: Part {
                cells: [byte; BYTES],
            },
            faults: 0,
            cuts: 0,
        }
    }
}

/// The answer of a call that was done or not, which counts one more fault in the latter case.
fn answer(done: bool, faults: &mut u64) -> Result<(), Failed>
    ensures { HasCause faults.old faults.new result }
{
    if done {
        return Ok(());
    }
    *faults = faults.saturating_add(1);
    Err(Failed)
}

/// Reads bytes of the part, and inverts them.
fn read_inverted(part: &Part, at: usize, room: &mut [u8]) -> bool
    requires { at + length room.old ≤ BYTES }
    ensures { length room.new ≡ length room.old }
{
    let done = part.read(at, room);
    for index in 0..room.len() {
        room[index] = !room[index];
    }
    done
}

/// Programs bytes, inverted, up to one that the part doesn't take.
fn program_inverted(part: &mut Part, at: usize, bytes: &[u8]) -> bool
    requires { at + length bytes.now ≤ BYTES }
{
    for (index, byte) in bytes.iter().enumerate() {
        if !part.program(at + index, !*byte) {
            return false;
        }
    }
    true
}

impl Disk for PartDisk {
    ghost use Rattle.cct_example_callers.specs.declared.part.TheConstants.{BYTES};

    ghost size = { λ _. BYTES };

    ghost honest = { λ _. false };

    ghost seen = { λ _. None };

    ghost may_leave = { λ _ _. Unit {0} };

    ghost moment = { λ _. 0 };

    ghost left_since = { λ _ _ _. Unit {0} };

    ghost faults = { λ s. s.faults };

    ghost spent = { λ _ _ _. ⊥ };

    ghost cuts = { λ s. s.cuts };

    ghost below = { λ _. [] };

    ghost cut_to = { λ before _ now. now.cuts ≡ next_count before.cuts };

    ghost fits = { λ _ bytes is. untold_fits BYTES bytes is };

    ghost is_image = { λ _ _ _ _. tt };

    ghost unfailed = { λ _ _ _ spent. absurd spent };

    ghost counts_now = { λ _ _ _ _ _. tt };

    ghost only_now = { λ _ _ _. tt };

    fn len(&self) -> u64 {
        BYTES as u64
    }

    fn read(&mut self, at: u64, room: &mut [u8]) -> Result<(), Failed> {
        let done = read_inverted(&self.part, at as usize, room);
        answer(done, &mut self.faults)
    }

    fn write(&mut self, at: u64, bytes: &[u8]) -> Result<(), Failed> {
        let done = program_inverted(&mut self.part, at as usize, bytes);
        answer(done, &mut self.faults)
    }

    /// Each byte was waited for, so nothing is left to be done.
    fn sync(&mut self) -> Result<(), Failed> {
        Ok(())
    }

    fn power_cut(&mut self, _choice: u64) -> Result<(), Failed> {
        self.cuts = self.cuts.saturating_add(1);
        Ok(())
    }
}

/// Something is sold at a price.
const SOLD: Record = Record::Sold { id: 7, price: 150 };

#[test]
fn an_erased_part_takes_a_journal(rt: HostRuntime) -> Result<(), Fail> {
    let mut journal = Journal::create(PartDisk::filled(0xff)).map_err(|(_, why)| why)?;
    journal.put(&SOLD, &Carry::empty())?;

    // The gate of the first record is a5, and its body begins with its kind, 8: on the part both
    // are inverted.
    let disk = journal.into_disk();
    assert_eq!(rt;
        (disk.part.cells[1152], disk.part.cells[1153]),
        (0x5a, 0xf7)
    );

    // What was programmed is no blank disk any more, and is opened in place of that.
    let Err((disk, CreateNo::NotBlank { at: 0 })) = Journal::create(disk) else {
        panic!(rt; "a journal stands there");
    };
    let (mut journal, used) = Journal::reopen(disk).map_err(|(_, why)| why)?;
    assert_eq!(rt; used, 1);
    assert_eq!(rt; journal.base(), 0);
    let Record::Sold { id: 7, price: 150 } = journal.read_at(0)? else {
        panic!(rt; "the sale was put");
    };
    Ok(())
}

#[test]
fn a_part_of_zeros_is_not_blank(rt: HostRuntime) -> Result<(), Fail> {
    let Err((_, CreateNo::NotBlank { at: 0 })) = Journal::create(PartDisk::filled(0)) else {
        panic!(rt; "zeros are read as ff");
    };
    Ok(())
}
