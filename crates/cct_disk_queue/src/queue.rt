//! The disk whose calls a caller makes.
ghost use Rattle.std.specs.Prelude.{◌≡◌, ◌+◌, ◌<◌, ◌≤◌, ◌∷◌, [], ℕ, List, Option, length, map};
ghost use Rattle.std.specs.Prelude.{drop, reverse, slice_get, take, true, Some, OnOk, OnErr};
ghost use Rattle.std.specs.Prelude.{IsErr, IsOk};
ghost use Rattle.cct_edge.specs.Faults.{next_count, HasCause};
ghost use Rattle.cct_disk.specs.Disk.{IsReady};
ghost use Rattle.std.specs.Option.{option_map};
ghost use Rattle.cct_disk_queue.specs.Calls.{AreIn, Sync, act_of, bytes_in, called};
ghost use Rattle.cct_disk_queue.specs.Queue.{Spent, bytes_of, faulted, fits_bytes, image_now};
ghost use Rattle.cct_disk_queue.specs.Queue.{leaves, noted, now_counts, now_only, since};

use crate::calls::{Call, MOST_BYTES, MOST_CALLS, Note, call_at, make_all, note_write};
use arrayvec::ArrayVec;
use cct_disk::{Disk, Settle};
use cct_edge::Failed;
use std::marker::Model;

/// A disk whose calls a caller makes on a part of his own. It has what the part held before the
/// calls that are noted, and says what they make of that.
///
/// It is honest if its caller is: if he makes the calls in their order, each on a part that keeps
/// what was synced, and says that he made them only where none failed. A call fails only where
/// there is no room to note it, a read only where a call is noted, and each power cut.
#[derive(Drop)]
pub struct QueueDisk {
    base: Vec<u8>,
    notes: ArrayVec<Note, MOST_CALLS>,
    /// The bytes of the writes that are noted, one after the other.
    kept: ArrayVec<u8, MOST_BYTES>,
    faults: u64,
}

impl Model for QueueDisk {
    ghost use Rattle.std.specs.Prelude.{◌≡◌, length, map, reverse};
    ghost use Rattle.cct_disk_queue.specs.Calls.{AreIn, bytes_in, called};
    ghost use Rattle.cct_disk_queue.specs.Queue.{Queue, IsQueued};

    ghost Value = { Queue };

    ghost view = { λ s. record {
      base = s.base.items;
      calls = map (called s.kept.items) (reverse s.notes.items);
      faults = s.faults;
    } };

    ghost invariant = { λ s. AreIn (length s.kept.items) (reverse s.notes.items)
        × IsQueued s.base.items (map (called s.kept.items) (reverse s.notes.items))
        × (bytes_in (map (called s.kept.items) (reverse s.notes.items)) ≡ length s.kept.items) };
}

impl QueueDisk {
    /// The disk over what the caller's part holds, with no call noted.
    pub fn new(base: Vec<u8>) -> QueueDisk
        ensures value { result ≡ record { base = base.items; calls = []; faults = 0 } }
        ensures ready { IsReady Spent result }
    {
        QueueDisk {
            base,
            notes: ArrayVec::new(),
            kept: ArrayVec::new(),
            faults: 0,
        }
    }

    /// How many calls are noted.
    pub fn count(&self) -> usize
        ensures { result ≡ length self.now.calls }
    {
        self.notes.len()
    }

    /// The call of an index, the first that was noted at 0.
    pub fn call(&self, index: usize) -> Option<Call<'_>>
        ensures { option_map act_of result ≡ slice_get (reverse self.now.calls) index }
    {
        call_at(self.notes.as_slice(), self.kept.as_slice(), index)
    }

    /// What the part holds once its calls are made.
    pub fn into_part(self) -> Vec<u8>
        ensures { result.items ≡ bytes_of self }
    {
        let QueueDisk {
            base,
            notes,
            kept,
            faults: _,
        } = self;
        let mut part = base;
        make_all(&mut part, notes.as_slice(), kept.as_slice());
        part
    }

    /// The calls that are noted, and the bytes of their writes.
    pub(crate) fn parts(&self) -> (&[Note], &[u8])
        ensures there { AreIn (length result.1.now) (reverse result.0.now) }
        ensures calls { map (called result.1.now) (reverse result.0.now) ≡ self.now.calls }
    {
        (self.notes.as_slice(), self.kept.as_slice())
    }

    /// One more fault.
    fn fail(&mut self) -> Failed
        ensures counted { self.new ≡ faulted self.old }
        ensures later { self.old.faults ≤ self.new.faults }
    {
        self.faults = self.faults.saturating_add(1);
        Failed
    }
}

impl Disk for QueueDisk {
    ghost size = { λ s. length (bytes_of s) };

    ghost honest = { λ _. true };

    ghost seen = { λ s. Some (bytes_of s) };

    ghost may_leave = { λ s. leaves s };

    ghost moment = { λ s. length s.calls };

    ghost left_since = { λ s. since s };

    ghost faults = { λ s. s.faults };

    ghost spent = { Spent };

    ghost cuts = { λ _. 0 };

    ghost below = { λ s. s.base };

    ghost cut_to = { λ _ _ _. ⊥ };

    ghost fits = { λ s bytes is. fits_bytes s bytes is };

    ghost is_image = { λ s bytes _ is. image_now s bytes is };

    ghost unfailed = { λ _ _ _ spent. spent.unfailed };

    ghost counts_now = { λ s t image le now. now_counts s.base s.calls t image now };

    ghost only_now = { λ s image left. now_only s.base s.calls image left };

    fn len(&self) -> u64 {
        self.base.len() as u64
    }

    fn read(&mut self, at: u64, room: &mut [u8]) -> Result<(), Failed>
        requires { at + length room.old ≤ length (bytes_of self.old) }
        ensures gives { OnOk result (room.new
            ≡ take (length room.new) (drop at (bytes_of self.old))) }
        ensures room { length room.new ≡ length room.old }
        ensures stays { OnOk result (self.new ≡ self.old) }
        ensures sure { length self.old.calls ≡ 0 → IsOk result }
        ensures failed { OnErr result (self.new ≡ faulted self.old) }
        ensures cause { HasCause self.old.faults self.new.faults result }
    {
        if !self.notes.is_empty() {
            return Err(self.fail());
        }
        let at = at as usize;
        room.copy_from_slice(&self.base[at..at + room.len()]);
        Ok(())
    }

    fn write(&mut self, at: u64, bytes: &[u8]) -> Result<(), Failed>
        requires { at + length bytes.now ≤ length (bytes_of self.old) }
        ensures written { OnOk result (self.new ≡ noted at bytes.now self.old) }
        ensures sure { length self.old.calls < MOST_CALLS
            → bytes_in self.old.calls + length bytes.now ≤ MOST_BYTES → IsOk result }
        ensures failed { OnErr result (self.new ≡ faulted self.old) }
        ensures cause { HasCause self.old.faults self.new.faults result }
    {
        match note_write(&mut self.notes, &mut self.kept, at, bytes) {
            Ok(()) => Ok(()),
            Err(Failed) => Err(self.fail()),
        }
    }

    fn sync(&mut self) -> Result<(), Failed>
        ensures synced { OnOk result (self.new ≡ record self.old { calls = Sync ∷ self.old.calls }) }
        ensures sure { length self.old.calls < MOST_CALLS → IsOk result }
        ensures failed { OnErr result (self.new ≡ faulted self.old) }
        ensures cause { HasCause self.old.faults self.new.faults result }
    {
        if self.notes.is_full() {
            return Err(self.fail());
        }
        self.notes.push(Note::Sync);
        Ok(())
    }

    fn power_cut(&mut self, _choice: u64) -> Result<(), Failed>
        ensures fails { IsErr result }
        ensures failed { self.new ≡ faulted self.old }
        ensures cause { HasCause self.old.faults self.new.faults result }
    {
        Err(self.fail())
    }
}

impl Settle for QueueDisk {
    ghost noted = { λ s. length s.calls };

    fn settle(&mut self)
        // His part holds what the calls made of it.
        ensures settled { self.new ≡ record self.old { base = bytes_of self.old; calls = [] } }
    {
        make_all(&mut self.base, self.notes.as_slice(), self.kept.as_slice());
        self.notes.clear();
        self.kept.clear();
    }
}
