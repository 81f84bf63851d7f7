// A source and a sink in memory, each of whose calls can be made to fail by its number.
ghost use Rattle.std.specs.Prelude.{◌≡◌, ◌⊎◌, ◌↔◌, ◌<◌, ◌≤◌, [], Some, IsTrue, IsErr, IfOk};
ghost use Rattle.std.specs.Prelude.{MatchResult, OnOk, OnErr};
ghost use Rattle.std.specs.Prelude.{Contains, length, take, min};
ghost use Rattle.std.specs.Io.{ReadsAtMost};
ghost use Rattle.std.specs.Io.KnownBytes.{ReadConsumes};
ghost use Rattle.cct_edge.specs.Faults.{HasCause, next_count};
ghost use Rattle.cct_edge.specs.Memory.{FailsNext, PassesRoom, amount_into, input_after};
ghost use Rattle.cct_edge.specs.Memory.{input_after_fault};
ghost use Rattle.cct_edge.specs.Memory.{output_after, output_after_fault};

use crate::fault::count_fault;
use crate::{Failed, Sink, Source};
use std::alloc::{AllocError, Global};
use std::marker::Model;

// The calls that fail, by their numbers, and how many calls and faults there were.
#[derive(Drop)]
struct Calls {
    fails: Vec<u64>,
    made: u64,
    faults: u64,
}

impl Calls {
    fn new(fails: Vec<u64>) -> Self
        ensures { result ≡ record { fails = fails; made = 0; faults = 0 } }
    {
        Calls {
            fails,
            made: 0,
            faults: 0,
        }
    }

    // Counts one more call, and says whether it fails.
    fn count(&mut self) -> bool
        ensures fails { IsTrue result ↔ FailsNext self.old.fails.items self.old.made }
        ensures counted { self.new ≡ record self.old { made = next_count self.old.made } }
    {
        self.made = self.made.saturating_add(1);
        self.fails.contains(&self.made)
    }
}

// Copies as much of the front of `bytes` into the front of `room` as fits, but at most `most`
// bytes.
fn copy_front(bytes: &[u8], most: usize, room: &mut [u8]) -> usize
    ensures amount { result ≡ min (length room.old) (min most (length bytes.now)) }
    ensures copied { take result room.new ≡ take result bytes.now }
{
    let count = room.len().min(most).min(bytes.len());
    room[..count].copy_from_slice(&bytes[..count]);
    count
}

/// A source of bytes that are in memory.
#[derive(Drop)]
pub struct MemSource {
    bytes: Vec<u8>,
    taken: usize,
    most: usize,
    calls: Calls,
}

impl Model for MemSource {
    ghost use Rattle.std.specs.Prelude.{◌≤◌, drop, vec_len};
    ghost use Rattle.cct_edge.specs.Memory.{MemoryInput};

    ghost Value = { MemoryInput };

    ghost view = { λ s. record {
      left = drop s.taken s.bytes.items;
      most = s.most;
      fails = s.calls.fails.items;
      calls = s.calls.made;
      faults = s.calls.faults;
    } };

    ghost invariant = { λ s. (s.taken ≤ vec_len s.bytes) × (1 ≤ s.most) };
}

impl MemSource {
    /// A source that gives `bytes`, at most `most` of them in one call. The calls whose numbers
    /// stand in `fails` fail; the first call is 1.
    pub fn new(bytes: Vec<u8>, most: usize, fails: Vec<u64>) -> MemSource
        requires { 1 ≤ most }
        ensures { result ≡ record {
          left = bytes.items;
          most = most;
          fails = fails.items;
          calls = 0;
          faults = 0;
        } }
    {
        MemSource {
            bytes,
            taken: 0,
            most,
            calls: Calls::new(fails),
        }
    }
}

impl Source for MemSource {
    ghost left = { λ s. Some s.left };

    ghost faults = { λ s. s.faults };

    ghost takes = { λ before room answer now. MatchResult answer
        (λ n. (n ≡ amount_into room before) × (now ≡ input_after n before))
        (λ _. now ≡ input_after_fault before) };

    fn take(&mut self, room: &mut [u8]) -> Result<usize, Failed>
        requires { 0 < length room.old }
        ensures bound { ReadsAtMost result room.new }
        ensures bytes { ReadConsumes (Some self.old.left) (Some self.new.left) result room.new }
        ensures cause { HasCause self.old.faults self.new.faults result }

        // which calls fail, how many bytes come, and what either answer leaves
        ensures fails { IsErr result ↔ FailsNext self.old.fails self.old.calls }
        ensures amount { IfOk result (λ n. n ≡ amount_into (length room.old) self.old) }
        ensures after { IfOk result (λ n. self.new ≡ input_after n self.old) }
        ensures after_fault { OnErr result
            ((self.new ≡ input_after_fault self.old) × (room.new ≡ room.old)) }
    {
        if self.calls.count() {
            return Err(count_fault(&mut self.calls.faults));
        }
        let count = copy_front(&self.bytes[self.taken..], self.most, room);
        self.taken += count;
        Ok(count)
    }
}

/// A sink that keeps what is written in memory, up to a number of bytes.
#[derive(Drop)]
pub struct MemSink {
    bytes: Vec<u8>,
    room: usize,
    calls: Calls,
}

impl Model for MemSink {
    ghost use Rattle.std.specs.Prelude.{◌≤◌, vec_len, vec_capacity};
    ghost use Rattle.cct_edge.specs.Memory.{MemoryOutput};

    ghost Value = { MemoryOutput };

    ghost view = { λ s. record {
      written = s.bytes.items;
      room = s.room;
      fails = s.calls.fails.items;
      calls = s.calls.made;
      faults = s.calls.faults;
    } };

    ghost invariant = { λ s. (vec_len s.bytes ≤ s.room) × (s.room ≤ vec_capacity s.bytes) };
}

impl MemSink {
    /// An empty sink for `room` bytes, whose memory it takes at once. A call whose number is in
    /// `fails` fails, and so does one whose piece passes the room; the first call is 1.
    pub fn new(alloc: Global, room: usize, fails: Vec<u64>) -> Result<MemSink, AllocError>
        ensures { IfOk result (λ s. s ≡ record {
          written = [];
          room = room;
          fails = fails.items;
          calls = 0;
          faults = 0;
        }) }
    {
        let bytes = Vec::with_capacity(alloc, room)?;
        Ok(MemSink {
            bytes,
            room,
            calls: Calls::new(fails),
        })
    }

    /// What has been written.
    pub fn bytes(&self) -> &[u8]
        ensures { result.now ≡ self.now.written }
    {
        &self.bytes
    }
}

impl Sink for MemSink {
    ghost written = { λ s. Some s.written };

    ghost faults = { λ s. s.faults };

    ghost puts = { λ before piece answer now.
        MatchResult answer (λ _. now ≡ output_after piece before) (λ _. now ≡ output_after_fault before) };

    fn put(&mut self, piece: &[u8]) -> Result<(), Failed>
        ensures cause { HasCause self.old.faults self.new.faults result }

        // which calls fail, and what either answer leaves
        ensures fails { IsErr result ↔
            (FailsNext self.old.fails self.old.calls ⊎ PassesRoom self.old piece.now) }
        ensures after { OnOk result (self.new ≡ output_after piece.now self.old) }
        ensures after_fault { OnErr result (self.new ≡ output_after_fault self.old) }
    {
        if self.calls.count() || self.room - self.bytes.len() < piece.len() {
            return Err(count_fault(&mut self.calls.faults));
        }
        self.bytes.extend_from_slice(piece).unwrap();
        Ok(())
    }
}
