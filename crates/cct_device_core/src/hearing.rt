//! What the bytes that a device hears ask of it.
ghost use Rattle.std.specs.Prelude.{◌≡◌, true, false, ℕ, List, [], ◌∷◌, ◌++◌, None, Some};
ghost use Rattle.std.specs.Prelude.{MatchOption, unwrap_or};
ghost use Rattle.cct_wire.specs.Framer.{Since};
ghost use Rattle.cct_device_core.specs.Listening.{is_for};
ghost use Rattle.cct_model_wire.specs.declared.device.DeviceSetup.{DeviceSetup};
ghost use Rattle.cct_model_wire.specs.declared.wire.TheConstants.{HOST};
ghost use Rattle.cct_model_wire.specs.Exchange.{asked_of, asker, asks_of};
ghost use Rattle.cct_frame.specs.Frame.{message_of};

use cct_frame::{FrameView, read};
use cct_model_wire::{BROADCAST, CheckKind, DeviceSetup, HOST, Request};
use cct_msg::asked_of;
use cct_wire::Framer;

/// What a device is asked, and whom it answers.
#[derive(Clone, Copy, PartialEq, Eq)]
pub struct Asked {
    pub request: Request,
    pub asker: u8,
}

/// How a device hears the bytes of the wire, one by one. The first byte of a message says whom it
/// is for: where that is another device, the others pass by, since whatever they are asks nothing
/// of this one. Its contracts describe it by the bytes that came since the last gap.
#[derive(Clone, Copy)]
pub struct Listener {
    framer: Framer,
    /// Whether the bytes since the gap are of a message for another device. The framer has none of
    /// them.
    elsewhere: bool,
}

impl Listener {
    ghost use Rattle.cct_device_core.specs.Listening.{HeardSince, kind_of};

    /// The listener of a device that heard no byte.
    pub fn new(kind: CheckKind) -> Listener
        ensures kind { kind_of result ≡ kind }
        ensures gap { (addr : ℕ) → HeardSince result addr [] }
    {
        Listener {
            framer: Framer::new(kind),
            elsewhere: false,
        }
    }

    /// The device at an address hears one byte more.
    #[inline]
    pub fn byte(&mut self, address: u8, byte: u8)
        ensures kind { kind_of self.new ≡ kind_of self.old }
        ensures heard { (bytes : List ℕ) → HeardSince self.old address bytes
            → HeardSince self.new address (bytes ++ byte ∷ []) }
    {
        if self.elsewhere {
            return;
        }
        if self.framer.is_empty() {
            self.first_byte(address, byte);
        } else {
            self.framer.feed(byte);
        }
    }

    /// The device at an address hears the first byte of a message.
    #[inline]
    fn first_byte(&mut self, address: u8, byte: u8)
        requires { self.old.elsewhere ≡ false }
        ensures kind { kind_of self.new ≡ kind_of self.old }
        ensures heard { HeardSince self.old address [] → HeardSince self.new address (byte ∷ []) }
    {
        if is_for(address, byte) {
            self.framer.feed(byte);
        } else {
            self.elsewhere = true;
        }
    }

    /// A gap: what comes next is the first byte of a message.
    #[inline]
    pub fn gap(&mut self)
        ensures kind { kind_of self.new ≡ kind_of self.old }
        ensures gap { (addr : ℕ) → HeardSince self.new addr [] }
    {
        self.framer.gap();
        self.elsewhere = false;
    }

    /// Whether the bytes since the gap are of a message for another device. They ask nothing of
    /// this one.
    #[inline]
    #[tactic(auto, using(crate::proofs::Listening::asks_nothing))]
    pub fn passes_by(&self) -> bool
        ensures { result ≡ true → (d : DeviceSetup) (bytes : List ℕ) → HeardSince self.now d.addr bytes
            → asks_of d bytes ≡ None }
    {
        self.elsewhere
    }

    /// What the bytes since the gap ask of the device of a setup, or nothing where they are no
    /// message under its check, or none that asks something of it.
    #[inline]
    #[tactic(auto, using(crate::proofs::Listening::asks_nothing))]
    pub fn asked(&self, setup: &DeviceSetup) -> Option<Asked>
        requires { kind_of self.now ≡ setup.now.kind }
        // The bytes since the last gap ask nothing of a device if they are no message under its
        // check, or are for another address, though it takes in no byte of a message for another.
        ensures { (bytes : List ℕ) → HeardSince self.now setup.now.addr bytes
            → MatchOption result (asks_of setup.now bytes ≡ None)
            (λ asked. (asks_of setup.now bytes ≡ Some asked.request)
            × (asker setup.now.kind bytes ≡ asked.asker)) }
    {
        if self.elsewhere {
            None
        } else {
            asked_in(setup, &self.framer)
        }
    }
}

/// Whether the first byte of a message shows the device at an address that it is for it, or for
/// all.
#[inline]
fn is_for(address: u8, to: u8) -> bool
    ensures { result ≡ is_for address to }
{
    to == address || to == BROADCAST
}

/// What the bytes that a framer has since the gap ask of the device of a setup.
#[tactic(auto, unfolding(cct_model_wire::specs::Exchange::asks_of, cct_model_wire::specs::Exchange::asker))]
fn asked_in(setup: &DeviceSetup, framer: &Framer) -> Option<Asked>
    requires { framer.now.kind ≡ setup.now.kind }
    ensures { (bytes : List ℕ) → Since framer.now bytes → MatchOption result (asks_of setup.now bytes ≡ None)
        (λ asked. (asks_of setup.now bytes ≡ Some asked.request) × (asker setup.now.kind bytes ≡ asked.asker)) }
{
    match framer.view() {
        Err(_) => None,
        Ok(view) => asked_by(setup, &view),
    }
}

/// What a message asks of the device of a setup, and whom it answers.
#[inline(always)]
fn asked_by(setup: &DeviceSetup, view: &FrameView<'_>) -> Option<Asked>
    ensures { MatchOption result (asked_of setup.now.addr (message_of view.now) ≡ None)
        (λ asked. (asked_of setup.now.addr (message_of view.now) ≡ Some asked.request)
        × (unwrap_or (message_of view.now).from HOST ≡ asked.asker)) }
{
    match asked_of(setup.addr, view) {
        None => None,
        Some(request) => Some(Asked {
            request,
            asker: view.from.unwrap_or(HOST),
        }),
    }
}

/// What a whole piece asks of the device of a setup, or nothing where it is no message under its
/// check, or none that asks something of it.
#[inline(always)]
#[tactic(auto, unfolding(cct_model_wire::specs::Exchange::asks_of, cct_model_wire::specs::Exchange::asker))]
pub fn asked_whole(setup: &DeviceSetup, piece: &[u8]) -> Option<Asked>
    ensures { MatchOption result (asks_of setup.now piece.now ≡ None)
        (λ asked. (asks_of setup.now piece.now ≡ Some asked.request)
        × (asker setup.now.kind piece.now ≡ asked.asker)) }
{
    match read(setup.kind, piece) {
        Err(_) => None,
        Ok(view) => asked_by(setup, &view),
    }
}
