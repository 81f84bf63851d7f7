//! The devices on the line, and what they heard of a message that isn't whole yet.
ghost use Rattle.std.specs.Prelude.{◌≡◌, ◌≤◌, ◌<◌, ℕ, List, [], ◌∷◌, ◌++◌, drop, length, IfOk};
ghost use Rattle.std.specs.Prelude.{IsTrue, false, true};
ghost use Rattle.cct_model.specs.terms.wire.TheConstants.{MOST_SENT};
ghost use Rattle.cct_model.specs.lines.entry.Entry.{Entry};
ghost use Rattle.cct_model.specs.lines.entry.Entry.TheVariants as entry;
ghost use Rattle.cct_model.specs.Exchange.{device_at};
ghost use Rattle.cct_model.specs.Family.{IsPlaced};
ghost use Rattle.cct_model.specs.Legal.{OfKnowing, happening_entry};
ghost use Rattle.cct_model.specs.Setup.{IsSoundSetup};
ghost use Rattle.cct_model.specs.Transcript.{heard_after};
ghost use Rattle.cct_bus.specs.Bus as buses;
ghost use Rattle.cct_live_port.specs.Answer.{is_complete};

use arrayvec::ArrayVec;
use cct_bus::Bus;
use cct_model::{Happening, MOST_HEARD, MOST_SENT, Setup};
use cct_wire::Link;
use std::alloc::{AllocError, Global};

/// The devices of a setup on a line. Contracts describe it by the transcript of all that happened,
/// newest entry first, and by the bytes of a message that isn't whole yet.
#[derive(Drop)]
pub struct Machine<'s> {
    bus: Bus<'s>,
    /// The bytes of a message that isn't whole yet.
    heard: ArrayVec<u8, MOST_SENT>,
    ghost room: { length heard.items < MOST_SENT },
}

impl<'s> Machine<'s> {
    ghost use Rattle.cct_devices.specs.Machine.{HasActed, StandsFor, answered_to, setup_of};

    /// The devices of a setup as after power-up, to which no byte came.
    pub fn new(alloc: Global, setup: &'s Setup) -> Result<Machine<'s>, AllocError>
        requires sound { IsSoundSetup setup.now }
        ensures setup { IfOk result (λ machine. setup_of machine ≡ setup.now) }
        ensures fresh { IfOk result (λ machine. StandsFor machine [] []) }
    {
        Ok(Machine {
            bus: Bus::new(alloc, setup)?,
            heard: ArrayVec::new(),
        })
    }

    /// The devices hear one byte more. Once the message is whole by the length that it gives, they
    /// act on it, and what they answer replaces what `said` holds; else nothing does.
    pub fn hear(&mut self, byte: u8, said: &mut ArrayVec<u8, MOST_HEARD>)
        ensures setup { setup_of self.new ≡ setup_of self.old }
        ensures more { (past : List Entry) (bytes : List ℕ) → StandsFor self.old past bytes
            → is_complete (bytes ++ byte ∷ []) ≡ false
            → (said.new.items ≡ []) × StandsFor self.new past (bytes ++ byte ∷ []) }
        ensures whole { (past : List Entry) (bytes : List ℕ) → StandsFor self.old past bytes
            → is_complete (bytes ++ byte ∷ []) ≡ true
            → (said.new.items ≡ answered_to (setup_of self.old) past (bytes ++ byte ∷ []))
            × HasActed (setup_of self.old) past (bytes ++ byte ∷ []) self.new }
    {
        self.heard.push(byte);
        said.clear();
        if is_whole(self.heard.as_slice()) {
            answer(&mut self.bus, self.heard.as_slice(), said);
            self.heard.clear();
        }
    }

    /// A silence: the bytes of a message that isn't whole yet are none.
    pub fn gap(&mut self)
        ensures setup { setup_of self.new ≡ setup_of self.old }
        ensures stands { (past : List Entry) (bytes : List ℕ) → StandsFor self.old past bytes
            → StandsFor self.new past [] }
    {
        self.heard.clear();
    }

    /// Something happens to the device at an address: true then, and false where there is none
    /// whose family knows it.
    pub fn befall(&mut self, addr: u8, what: Happening) -> bool
        requires placed { IsPlaced what }
        ensures setup { setup_of self.new ≡ setup_of self.old }
        ensures stands { IsTrue result → (past : List Entry) (bytes : List ℕ) → StandsFor self.old past bytes
            → OfKnowing what (device_at (setup_of self.old).devices addr)
            (λ d. StandsFor self.new (happening_entry addr d past what ∷ past) bytes) }
    {
        if !self.bus.knows(addr, what) {
            return false;
        }
        self.bus.befall(addr, what);
        true
    }
}

/// Whether bytes are at least as many as the message has that they begin. Fewer leave room for one
/// more.
fn is_whole(bytes: &[u8]) -> bool
    ensures whole { result ≡ is_complete bytes.now }
    ensures room { result ≡ false → length bytes.now < MOST_SENT }
{
    bytes.len() >= 5 && bytes.len() - 5 >= usize::from(bytes[1])
}

/// The devices of a bus act on a message, and what they answer is in the place of what `said`
/// holds.
fn answer(bus: &mut Bus<'_>, bytes: &[u8], said: &mut ArrayVec<u8, MOST_HEARD>)
    requires short { length bytes.now ≤ MOST_SENT }
    ensures setup { buses.setup_of bus.new ≡ buses.setup_of bus.old }
    ensures answer { (past : List Entry) → buses.StandsFor bus.old past
        → said.new.items ≡ drop (length bytes.now) (heard_after (buses.setup_of bus.old) past bytes.now) }
    ensures stands { (past : List Entry) → buses.StandsFor bus.old past → buses.StandsFor bus.new
        (entry.Wire 0 bytes.now (heard_after (buses.setup_of bus.old) past bytes.now) ∷ past) }
{
    let mut whole = ArrayVec::new();
    bus.exchange(bytes, &mut whole);
    said.clear();
    said.try_extend_from_slice(after_echo(bytes.len(), whole.as_slice()))
        .unwrap();
}

/// What follows an echo of so many bytes.
fn after_echo(count: usize, whole: &[u8]) -> &[u8]
    ensures { result.now ≡ drop count whole.now }
{
    whole.get(count..).unwrap_or(&[])
}
