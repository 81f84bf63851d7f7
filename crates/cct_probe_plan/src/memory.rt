//! What is kept of the replies of a device.
ghost use Rattle.std.specs.Prelude.{◌≡◌, ◌≤◌, [], None, drop, length, take};
ghost use Rattle.cct_model_wire.specs.declared.wire.TheConstants.{MOST_HEARD};
ghost use Rattle.cct_probe_plan.specs.Values.{counter_after};

use crate::values::counter_after;
use arrayvec::ArrayVec;
use cct_model_lines::MOST_HEARD;

/// What is kept of the replies of a device.
#[derive(Drop)]
pub struct Memory {
    /// How many silent reads stand before a message to it.
    pub gap: u16,
    /// Its life count or accept counter at first.
    pub first: Option<u32>,
    /// The same at last.
    pub last: Option<u32>,
    /// A number of three bytes.
    pub(crate) count: u32,
    /// An event counter.
    pub(crate) counter: u8,
    /// What followed the echo in the last exchange that wasn't just a listening.
    pub(crate) reply: ArrayVec<u8, MOST_HEARD>,
}

impl Memory {
    /// Nothing is kept, and a silent read is before each message.
    pub fn new() -> Memory
        ensures gap { result.gap ≡ 1 }
        ensures first { result.first ≡ None }
        ensures last { result.last ≡ None }
        ensures reply { result.reply.items ≡ [] }
    {
        Memory {
            gap: 1,
            first: None,
            last: None,
            count: 0,
            counter: 0,
            reply: ArrayVec::new(),
        }
    }

    /// The event counter once so many events more came than were kept.
    pub(crate) fn awaited(&self, more: u16) -> u8
        ensures { result ≡ counter_after self.now.counter more }
    {
        counter_after(self.counter, more)
    }

    /// Keeps what followed the echo.
    pub(crate) fn keep_reply(&mut self, rest: &[u8])
        ensures reply { self.new.reply.items ≡ take MOST_HEARD rest.now }
        ensures others { self.new ≡ record self.old { reply = self.new.reply } }
    {
        let (front, _) = cut(rest, MOST_HEARD);
        self.reply.clear();
        self.reply.try_extend_from_slice(front).unwrap();
    }
}

/// The first so many bytes, and the others.
pub(crate) fn cut(bytes: &[u8], many: usize) -> (&[u8], &[u8])
    ensures first { result.0.now ≡ take many bytes.now }
    ensures other { result.1.now ≡ drop many bytes.now }
    ensures few { length result.0.now ≤ many }
{
    if many <= bytes.len() {
        bytes.split_at(many)
    } else {
        (bytes, &[])
    }
}
