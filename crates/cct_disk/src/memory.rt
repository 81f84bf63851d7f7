// A disk in memory that keeps a trace of its changes, and each of whose calls can be made to fail
// by its number.
ghost use Rattle.std.specs.Prelude.{◌≡◌, ◌⊎◌, ◌↔◌, ◌+◌, ◌<◌, ◌≤◌, true, Some, IsErr, IfOk, OnOk};
ghost use Rattle.std.specs.Prelude.{OnErr};
ghost use Rattle.std.specs.Prelude.{ℕ, List, [], length, take, drop, set};
ghost use Rattle.cct_edge.specs.Faults.{next_count};
ghost use Rattle.cct_edge.specs.Memory.{FailsNext};
ghost use Rattle.cct_disk.specs.Content.{written, settled, unsynced_in, may_leave, left_since};
ghost use Rattle.cct_disk.specs.Content.{ElapsesTo};
ghost use Rattle.cct_disk.specs.Disk.{SameOutside, Follows, IsWithin, Only};
ghost use Rattle.cct_disk.specs.Traced.{IsTraced, HasRoom, PassesRoom};
ghost use Rattle.cct_disk.specs.Memory.{blank, Answers, AnswersTorn, IsAfterCut, LacksRoom};
ghost use Rattle.cct_disk.specs.Memory.{after_change, after_read};
ghost use Rattle.cct_disk.specs.Memory.{MemoryGoesOn, MemoryOutlasts, Spent};
ghost use Rattle.cct_disk.specs.Laws.{fits_bytes, bytes_are_image, now_counts, now_only};

use crate::Disk;
use crate::calls::Calls;
use crate::traced::Traced;
use cct_edge::Failed;
use std::alloc::{AllocError, Global};
use std::marker::Model;

/// A disk in memory, which is honest and says what a read gives. All its memory is taken when it is
/// made.
///
/// A cut sets each byte that was written since the last sync or cut by its choice: 0 leaves the
/// byte before those writes, 1 the byte that was written, 2 the latter at even places and the
/// former at odd ones, and any other choice the sum of choice and place, modulo 256.
#[derive(Drop)]
pub struct MemDisk {
    content: Traced,
    calls: Calls,
    cuts: u64,
}

impl Model for MemDisk {
    ghost use Rattle.cct_disk.specs.Memory.{MemoryDisk};
    ghost use Rattle.cct_disk.specs.Traced.{content_of, IsTraced};

    ghost Value = { MemoryDisk };

    ghost view = { λ s. record {
      content = content_of s.content;
      changes = s.content.changes;
      fails = s.calls.fails.items;
      calls = s.calls.made;
      faults = s.calls.faults;
      cuts = s.cuts;
    } };

    ghost invariant = { λ s. IsTraced s.content };
}

impl MemDisk {
    /// A disk of `len` zeros. The calls whose numbers stand in `fails` fail and change nothing;
    /// reads, writes, syncs and cuts are counted together, and the first is 1.
    ///
    /// It takes the room for 262,144 writes, syncs and cuts, and for 8,388,608 bytes that they
    /// replace: a write takes its length of that, a cut the lengths of all writes since the last
    /// sync or cut.
    pub fn new(alloc: Global, len: u64, fails: Vec<u64>) -> Result<MemDisk, AllocError>
        ensures { IfOk result (λ s. s ≡ blank len fails.items) }
    {
        Ok(MemDisk {
            content: Traced::new(alloc, len as usize)?,
            calls: Calls::new(fails),
            cuts: 0,
        })
    }

    /// Sets one byte, for tests. Where no write since the last sync or cut covers it, it is as if
    /// it had always stood there: every image has it.
    pub fn poke(&mut self, at: u64, byte: u8)
        requires { at < length self.old.content.bytes }
        ensures { self.new ≡ record self.old {
          content = record self.old.content { bytes = set self.old.content.bytes at byte };
        } }
    {
        self.content.poke(at as usize, byte);
    }

    // Writes, but tears its range by this choice where its number is one that is made to fail.
    pub(crate) fn write_or_tear(&mut self, at: u64, bytes: &[u8], choice: u64) -> Result<(), Failed>
        requires { at + length bytes.now ≤ length self.old.content.bytes }
        ensures goes_on { MemoryGoesOn self.old self.new }
        ensures images { Follows (SameOutside at (length bytes.now)) (may_leave self.old.content)
            (may_leave self.new.content) }
        ensures time { ElapsesTo self.old.content self.new.content }
        ensures answers { AnswersTorn choice at bytes.now self.old self.new result }
    {
        if let Err(failed) = begin_change(&self.content, &mut self.calls, bytes.len()) {
            if self.content.has_room(bytes.len()) {
                self.content.write_torn(at as usize, bytes, choice);
            }
            return Err(failed);
        }
        self.content.write(at as usize, bytes);
        Ok(())
    }
}

// Begins a call that changes a disk and replaces so many bytes. It fails where its number is one
// that is made to fail, and where there is no room.
fn begin_change(content: &Traced, calls: &mut Calls, replaced: usize) -> Result<(), Failed>
    requires { IsTraced content.now }
    ensures fails { IsErr result ↔
        (FailsNext calls.old.fails.items calls.old.made
        ⊎ PassesRoom content.now.changes (length content.now.replaced.items) replaced) }
    ensures begun { OnOk result ((calls.new ≡ record calls.old { made = next_count calls.old.made })
        × HasRoom content.now replaced) }
    ensures failed { OnErr result (calls.new ≡ record calls.old {
      made = next_count calls.old.made;
      faults = next_count calls.old.faults;
    }) }
{
    calls.begin()?;
    if !content.has_room(replaced) {
        return Err(calls.fail());
    }
    Ok(())
}

impl Disk for MemDisk {
    ghost size = { λ s. length s.content.bytes };

    ghost honest = { λ _. true };

    ghost seen = { λ s. Some s.content.bytes };

    ghost may_leave = { λ s. may_leave s.content };

    ghost moment = { λ s. length s.content.past };

    ghost left_since = { λ s. left_since s.content };

    ghost faults = { λ s. s.faults };

    ghost spent = { Spent };

    ghost cuts = { λ s. s.cuts };

    ghost below = { λ _. [] };

    ghost cut_to = { λ before choice now. IsAfterCut choice before now };

    ghost fits = { λ s bytes is. fits_bytes s.content bytes is };

    ghost is_image = { λ s bytes _ is. bytes_are_image s.content bytes is };

    ghost unfailed = { λ _ _ _ spent. spent.unfailed };

    ghost counts_now = { λ s t image _ now. now_counts s.content.past s.content.replaced s.content.bytes t image now };

    ghost only_now = { λ s image left. now_only s.content.past s.content.replaced s.content.bytes image left };

    fn len(&self) -> u64 {
        self.content.bytes().len() as u64
    }

    fn read(&mut self, at: u64, room: &mut [u8]) -> Result<(), Failed>
        requires { at + length room.old ≤ length self.old.content.bytes }
        ensures gives { OnOk result ((s : List ℕ) → Some self.old.content.bytes ≡ Some s →
            room.new ≡ take (length room.new) (drop at s)) }
        ensures room { length room.new ≡ length room.old }
        ensures answers { Answers (FailsNext self.old.fails self.old.calls) (λ now. now ≡ after_read self.old)
            self.old self.new result }
    {
        self.calls.begin()?;
        let at = at as usize;
        room.copy_from_slice(&self.content.bytes()[at..at + room.len()]);
        Ok(())
    }

    fn write(&mut self, at: u64, bytes: &[u8]) -> Result<(), Failed>
        requires { at + length bytes.now ≤ length self.old.content.bytes }
        ensures goes_on { MemoryGoesOn self.old self.new }
        ensures images { Follows (SameOutside at (length bytes.now)) (may_leave self.old.content)
            (may_leave self.new.content) }
        ensures time { ElapsesTo self.old.content self.new.content }
        ensures answers { Answers (FailsNext self.old.fails self.old.calls ⊎ LacksRoom self.old (length bytes.now))
            (λ now. now ≡ after_change (written at bytes.now self.old.content) self.old) self.old self.new result }
    {
        begin_change(&self.content, &mut self.calls, bytes.len())?;
        self.content.write(at as usize, bytes);
        Ok(())
    }

    fn sync(&mut self) -> Result<(), Failed>
        ensures kept { OnOk result (Only self.new.content.bytes (may_leave self.new.content)) }
        ensures images { IsWithin (may_leave self.old.content) (may_leave self.new.content) }
        ensures time { ElapsesTo self.old.content self.new.content }
        ensures answers { Answers (FailsNext self.old.fails self.old.calls ⊎ LacksRoom self.old 0)
            (λ now. now ≡ after_change (settled self.old.content) self.old) self.old self.new result }
    {
        begin_change(&self.content, &mut self.calls, 0)?;
        self.content.settle();
        Ok(())
    }

    fn power_cut(&mut self, choice: u64) -> Result<(), Failed>
        ensures outlasts { MemoryOutlasts self.old self.new }
        // What a read gives is one of the images that the cut might leave.
        ensures left { OnOk result (may_leave self.old.content self.new.content.bytes) }
        // A further cut leaves the same.
        ensures kept { OnOk result (Only self.new.content.bytes (may_leave self.new.content)) }
        ensures images { IsWithin (may_leave self.old.content) (may_leave self.new.content) }
        ensures time { ElapsesTo self.old.content self.new.content }
        ensures answers { Answers
            (FailsNext self.old.fails self.old.calls ⊎ LacksRoom self.old (unsynced_in self.old.content.past))
            (λ now. IsAfterCut choice self.old now) self.old self.new result }
    {
        begin_change(&self.content, &mut self.calls, self.content.unsynced())?;
        self.content.cut(choice);
        self.cuts = self.cuts.saturating_add(1);
        Ok(())
    }
}
