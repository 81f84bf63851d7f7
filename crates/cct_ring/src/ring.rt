//! The credit buffer, which header 229 reads (ccTalk Generic Specification 4, part 2).
ghost use Rattle.std.specs.Prelude.{◌≡◌, List, [], ◌∷◌, length, slice_get, unwrap_or, IfOk};
ghost use Rattle.cct_model_wire.specs.declared.coin.Pair.{Pair};
ghost use Rattle.cct_model_wire.specs.declared.coin.TheConstants.{EVENTS};
ghost use Rattle.cct_model_wire.specs.Acceptor.{counter, last_five, no_event};

use cct_model_wire::{Credits, EVENTS, Pair};
use circular_buffer::HeapCircularBuffer;
use std::alloc::{AllocError, Global};

/// What is in a place for which there is no event yet.
const NO_EVENT: Pair = Pair { a: 0, b: 0 };

/// The credit buffer of a coin acceptor: the event counter, and the last five events, newest first.
///
/// A contract shows a buffer by the list of all events put into it since it was made or cleared,
/// newest first.
#[derive(Drop)]
pub struct CreditRing {
    counter: u8,
    newest: HeapCircularBuffer<Pair>,
    ghost room: { newest.capacity ≡ EVENTS },
}

impl CreditRing {
    ghost use Rattle.cct_ring.specs.Ring.{Holds};

    /// A credit buffer without events. This takes all memory that it ever has: room for five
    /// events.
    ///
    /// Fails only where there is no memory for them.
    pub fn new(alloc: Global) -> Result<CreditRing, AllocError>
        ensures empty { IfOk result (λ ring. Holds ring []) }
    {
        let newest = HeapCircularBuffer::with_capacity(alloc, EVENTS)?;
        Ok(CreditRing { counter: 0, newest })
    }

    /// Puts in an event: the counter rises, from 255 to 1, and of six events the oldest is
    /// forgotten. This can't be refused, and takes no memory.
    pub fn push(&mut self, pair: Pair)
        ensures one_more { (pushed : List Pair) → Holds self.old pushed →
            Holds self.new (pair ∷ pushed) }
    {
        self.counter = self.counter.checked_add(1).unwrap_or(1);
        self.newest.push_front(pair);
    }

    /// Forgets every event, as a reset does: the counter is 0 again. The memory is kept.
    pub fn clear(&mut self)
        ensures empty { Holds self.new [] }
    {
        self.counter = 0;
        self.newest.clear();
    }

    /// What header 229 reads: the event counter, which is 0 before the first event, then 1 to 255,
    /// and 1 again; and the last five events, newest first, filled up with (0, 0).
    pub fn reading(&self) -> Credits
        ensures credits { (pushed : List Pair) → Holds self.now pushed →
            result ≡ record { counter = counter (length pushed); pairs = last_five pushed } }
    {
        Credits {
            counter: self.counter,
            pairs: [
                self.event(0),
                self.event(1),
                self.event(2),
                self.event(3),
                self.event(4),
            ],
        }
    }

    /// The event at a place, 0 for the newest, or no event.
    fn event(&self, place: usize) -> Pair
        ensures event { result ≡ unwrap_or (slice_get self.now.newest.items place) no_event }
    {
        self.newest.get(place).copied().unwrap_or(NO_EVENT)
    }
}
