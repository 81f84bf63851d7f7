//! A message whose bytes come one by one.
ghost use Rattle.std.specs.Prelude.{◌≡◌, ◌↔◌, ◌+◌, ◌-◌, ◌<◌, ◌≤◌, ℕ, true, List, [], ◌∷◌, ◌++◌};
ghost use Rattle.std.specs.Prelude.{None, Some, IfErr, IfOk, IsSome, OnErr, length, slice_range};
ghost use Rattle.std.specs.Prelude.{take};
ghost use Rattle.cct_model_wire.specs.declared.wire.CheckKind.{CheckKind};
ghost use Rattle.cct_model_wire.specs.declared.wire.TheConstants.{MOST_SENT};
ghost use Rattle.cct_model_wire.specs.Message.{message};
ghost use Rattle.cct_frame.specs.Frame.{before_last, message_of, run_over};

use cct_frame::{FrameFault, FrameView, check_step, read_checked};
use cct_model_wire::{CheckKind, MOST_SENT};

/// What the bytes since the last gap are, with the one that was fed.
#[derive(Clone, Copy, Debug, PartialEq, Eq)]
pub enum Fed {
    /// They are no message, and may become one.
    More,
    /// They are a message.
    Whole,
    /// They are more than a message can have.
    TooLong,
}

/// The bytes of a wire since the last gap, as they come: it says when they are a message, and what
/// that says. It needs no device, so a host may take its replies from a line by it. Each byte goes
/// into the sum or the CRC when it comes, and none is looked at again. Its contracts describe it by
/// the bytes that came since the last gap.
#[derive(Clone, Copy)]
pub struct Framer {
    kind: CheckKind,
    /// The first bytes since the gap.
    buffer: [u8; MOST_SENT],
    /// How many bytes came since the gap, as far as a number goes.
    count: usize,
    /// What the check made of the bytes in the buffer but the last: whether a byte is the last
    /// isn't known when it comes.
    check: u16,
    ghost running: { check ≡ run_over kind (before_last (take count buffer)) },
}

impl Framer {
    ghost use Rattle.cct_wire.specs.Framer.{Since, fault_since};

    /// A framer to which no byte came.
    #[tactic(auto, using(crate::proofs::Framers::run_nothing))]
    pub fn new(kind: CheckKind) -> Framer
        ensures kind { result.kind ≡ kind }
        ensures gap { Since result [] }
    {
        Framer {
            kind,
            buffer: [0; MOST_SENT],
            count: 0,
            check: 0,
        }
    }

    /// One byte more comes. What is in the buffer is a message's at most, and a byte after that is
    /// only counted.
    #[inline]
    pub fn feed(&mut self, byte: u8) -> Fed
        ensures kind { self.new.kind ≡ self.old.kind }
        ensures since { (bytes : List ℕ) → Since self.old bytes →
            Since self.new (bytes ++ byte ∷ []) }
        // A byte after those of the longest message is only counted.
        ensures too_long { (bytes : List ℕ) → Since self.old bytes
            → ((result ≡ Fed.TooLong) ↔ (MOST_SENT ≤ length bytes)) }
        ensures whole { (bytes : List ℕ) → Since self.old bytes
            → ((result ≡ Fed.Whole) ↔ IsSome (message self.old.kind (bytes ++ byte ∷ []))) }
    {
        if self.count >= MOST_SENT {
            self.count = self.count.saturating_add(1);
            return Fed::TooLong;
        }
        self.take_in(byte);
        if self.is_whole() {
            Fed::Whole
        } else {
            Fed::More
        }
    }

    /// A byte for which there is room goes into the buffer, and the one before it into the check.
    #[inline]
    fn take_in(&mut self, byte: u8)
        requires { self.old.count < MOST_SENT }
        ensures kind { self.new.kind ≡ self.old.kind }
        ensures count { self.new.count ≡ self.old.count + 1 }
        ensures held { take self.new.count self.new.buffer ≡ take self.old.count self.old.buffer
            ++ byte ∷ [] }
    {
        if self.count > 0 {
            let place = self.count - 1;
            self.check = check_step(self.kind, self.check, place, self.buffer[place]);
        }
        self.buffer[self.count] = byte;
        self.count += 1;
    }

    /// Whether the bytes in the buffer are a message.
    #[inline]
    fn is_whole(&self) -> bool
        requires { self.now.count ≤ MOST_SENT }
        ensures { (result ≡ true) ↔ IsSome
            (message self.now.kind (take self.now.count self.now.buffer)) }
    {
        read_checked(self.kind, &self.buffer[..self.count], self.check).is_ok()
    }

    /// A gap: what comes next is the first byte of a message.
    #[inline]
    #[tactic(auto, using(crate::proofs::Framers::run_nothing))]
    pub fn gap(&mut self)
        ensures kind { self.new.kind ≡ self.old.kind }
        ensures gap { Since self.new [] }
    {
        self.count = 0;
        self.check = 0;
    }

    /// Whether no byte came since the gap.
    #[inline]
    pub fn is_empty(&self) -> bool
        ensures { (bytes : List ℕ) → Since self.now bytes → ((result ≡ true) ↔ (bytes ≡ [])) }
    {
        self.count == 0
    }

    /// The message that came since the gap, or what is wrong first. Its data stay where they are in
    /// the buffer.
    #[tactic(auto, using(cct_frame::proofs::Places::none_many, crate::proofs::Framers::count_many))]
    pub fn view(&self) -> Result<FrameView<'_>, FrameFault>
        // What `read` gives of all bytes since the gap; if they are more than a message can have,
        // the fault says how many.
        ensures whole { (bytes : List ℕ) → Since self.now bytes
            → IfOk result (λ view. message self.now.kind bytes ≡ Some (message_of view)) }
        ensures body { (bytes : List ℕ) → Since self.now bytes
            → IfOk result (λ view. view.body.now ≡ slice_range bytes 4 (length bytes - 1)) }
        ensures first_fault { (bytes : List ℕ) → Since self.now bytes
            → IfErr result (λ fault. fault_since self.now.kind bytes ≡ Some fault) }
        ensures no_message { (bytes : List ℕ) → Since self.now bytes
            → OnErr result (message self.now.kind bytes ≡ None) }
    {
        if self.count > MOST_SENT {
            return Err(FrameFault::Length {
                said: self.buffer[1],
                have: self.count,
            });
        }
        read_checked(self.kind, &self.buffer[..self.count], self.check)
    }
}
