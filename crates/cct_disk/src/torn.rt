// A disk in memory that tears a write that is made to fail.
ghost use Rattle.std.specs.Prelude.{◌≡◌, ◌⊎◌, ◌+◌, ◌≤◌, true, Some, IfOk, OnOk};
ghost use Rattle.std.specs.Prelude.{ℕ, List, [], length, take, drop};
ghost use Rattle.cct_edge.specs.Memory.{FailsNext};
ghost use Rattle.cct_disk.specs.Content.{settled, unsynced_in, may_leave, left_since, ElapsesTo};
ghost use Rattle.cct_disk.specs.Disk.{SameOutside, Follows, IsWithin, Only};
ghost use Rattle.cct_disk.specs.Memory.{blank, Answers, AnswersTorn, IsAfterCut, LacksRoom};
ghost use Rattle.cct_disk.specs.Memory.{after_change, after_read};
ghost use Rattle.cct_disk.specs.Torn.{IsTornAfterCut, TornGoesOn, TornOutlasts};
ghost use Rattle.cct_disk.specs.Laws.{fits_bytes, bytes_are_image, now_counts, now_only};

use crate::Disk;
use crate::memory::MemDisk;
use cct_edge::Failed;
use std::alloc::{AllocError, Global};
use std::marker::Model;

/// A `MemDisk` that tears a write that is made to fail.
///
/// Such a write fails, but sets each byte of its range by the disk's choice as a cut does: 0 leaves
/// the byte that stood there, 1 the byte to be written, 2 the latter at even places and the former
/// at odd ones, and any other choice the sum of choice and place, modulo 256. Its range counts as
/// written: until a sync or a cut, a cut may leave any bytes there. Each other call that is made to
/// fail, and each that lacks room, fails and changes nothing.
#[derive(Drop)]
pub struct TornDisk {
    memory: MemDisk,
    choice: u64,
}

impl Model for TornDisk {
    ghost use Rattle.cct_disk.specs.Torn.{TornMemory};

    ghost Value = { TornMemory };

    ghost view = { λ s. record { memory = s.memory; choice = s.choice } };
}

impl TornDisk {
    /// A disk of `len` zeros, with the room of a `MemDisk`. The calls whose numbers stand in
    /// `fails` fail, and the writes among them are torn by `choice`; reads, writes, syncs and cuts
    /// are counted together, and the first is 1.
    pub fn new(
        alloc: Global,
        len: u64,
        fails: Vec<u64>,
        choice: u64,
    ) -> Result<TornDisk, AllocError>
        ensures { IfOk result (λ s. s ≡ record { memory = blank len fails.items; choice = choice }) }
    {
        let memory = MemDisk::new(alloc, len, fails)?;
        Ok(TornDisk { memory, choice })
    }
}

impl Disk for TornDisk {
    ghost size = { λ s. length s.memory.content.bytes };

    ghost honest = { λ _. true };

    ghost seen = { λ s. Some s.memory.content.bytes };

    ghost may_leave = { λ s. may_leave s.memory.content };

    ghost moment = { λ s. length s.memory.content.past };

    ghost left_since = { λ s. left_since s.memory.content };

    ghost faults = { λ s. s.memory.faults };

    ghost spent = { λ _ _ _. ⊥ };

    ghost cuts = { λ s. s.memory.cuts };

    ghost below = { λ _. [] };

    ghost cut_to = { λ before choice now. IsTornAfterCut choice before now };

    ghost fits = { λ s bytes is. fits_bytes s.memory.content bytes is };

    ghost is_image = { λ s bytes _ is. bytes_are_image s.memory.content bytes is };

    ghost unfailed = { λ _ _ _ spent. absurd spent };

    ghost counts_now = { λ s t image _ now. now_counts s.memory.content.past s.memory.content.replaced
        s.memory.content.bytes t image now };

    ghost only_now = { λ s image left. now_only s.memory.content.past s.memory.content.replaced s.memory.content.bytes
        image left };

    fn len(&self) -> u64 {
        self.memory.len()
    }

    fn read(&mut self, at: u64, room: &mut [u8]) -> Result<(), Failed>
        requires { at + length room.old ≤ length self.old.memory.content.bytes }
        ensures gives { OnOk result ((s : List ℕ) → Some self.old.memory.content.bytes ≡ Some s →
            room.new ≡ take (length room.new) (drop at s)) }
        ensures room { length room.new ≡ length room.old }
        ensures answers { Answers (FailsNext self.old.memory.fails self.old.memory.calls)
            (λ now. now ≡ after_read self.old.memory) self.old.memory self.new.memory result }
        ensures choice { self.new.choice ≡ self.old.choice }
    {
        self.memory.read(at, room)
    }

    fn write(&mut self, at: u64, bytes: &[u8]) -> Result<(), Failed>
        requires { at + length bytes.now ≤ length self.old.memory.content.bytes }
        ensures goes_on { TornGoesOn self.old self.new }
        ensures images { Follows (SameOutside at (length bytes.now)) (may_leave self.old.memory.content)
            (may_leave self.new.memory.content) }
        ensures time { ElapsesTo self.old.memory.content self.new.memory.content }
        ensures answers { AnswersTorn self.old.choice at bytes.now self.old.memory self.new.memory
            result }
        ensures choice { self.new.choice ≡ self.old.choice }
    {
        self.memory.write_or_tear(at, bytes, self.choice)
    }

    fn sync(&mut self) -> Result<(), Failed>
        ensures kept { OnOk result (Only self.new.memory.content.bytes
            (may_leave self.new.memory.content)) }
        ensures images { IsWithin (may_leave self.old.memory.content)
            (may_leave self.new.memory.content) }
        ensures time { ElapsesTo self.old.memory.content self.new.memory.content }
        ensures answers { Answers (FailsNext self.old.memory.fails self.old.memory.calls ⊎ LacksRoom self.old.memory 0)
            (λ now. now ≡ after_change (settled self.old.memory.content) self.old.memory)
            self.old.memory self.new.memory result }
        ensures choice { self.new.choice ≡ self.old.choice }
    {
        self.memory.sync()
    }

    fn power_cut(&mut self, choice: u64) -> Result<(), Failed>
        ensures outlasts { TornOutlasts self.old self.new }
        // What a read gives is one of the images that the cut might leave.
        ensures left { OnOk result (may_leave self.old.memory.content self.new.memory.content.bytes) }
        // A further cut leaves the same.
        ensures kept { OnOk result (Only self.new.memory.content.bytes
            (may_leave self.new.memory.content)) }
        ensures images { IsWithin (may_leave self.old.memory.content)
            (may_leave self.new.memory.content) }
        ensures time { ElapsesTo self.old.memory.content self.new.memory.content }
        ensures answers { Answers (FailsNext self.old.memory.fails self.old.memory.calls
            ⊎ LacksRoom self.old.memory (unsynced_in self.old.memory.content.past))
            (λ now. IsAfterCut choice self.old.memory now) self.old.memory self.new.memory result }
        ensures choice { self.new.choice ≡ self.old.choice }
    {
        self.memory.power_cut(choice)
    }
}
