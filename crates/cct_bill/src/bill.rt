//! The bill acceptor as a device. From the standard (ccTalk Generic Specification 4, part 3) it
//! takes that header 159 is answered with an event counter and five events, and that header 154
//! carries one byte. Which pair represents which event, and the replies to header 154, are this
//! project's own.
ghost use Rattle.std.specs.Prelude.{◌≡◌, ◌<◌, ◌≤◌, ◌^◌, ◌&&◌, ℕ, List, [], ◌∷◌, ◌++◌, false, true};
ghost use Rattle.std.specs.Prelude.{if◌then◌else◌, is_some, Some, IfOk, IfSome, MatchOption};
ghost use Rattle.std.specs.Option.{option_map};
ghost use Rattle.cct_model_wire.specs.declared.device.DeviceSetup.{DeviceSetup};
ghost use Rattle.cct_model_wire.specs.declared.request.Request.TheVariants.{RouteBill};
ghost use Rattle.cct_model_wire.specs.Bill.{bill_held, bill_reply, holds, is_way};
ghost use Rattle.cct_model_wire.specs.Device.{IsBill, IsSound, reply_of};
ghost use Rattle.cct_model_wire.specs.Exchange.{answer, asks_of};
ghost use Rattle.cct_model_wire.specs.History.{Met, coin, heard, reset};
ghost use Rattle.cct_model_wire.specs.Reply.{IsSayable, ack, nak, reply_shown};
ghost use Rattle.cct_device_core.specs.Listening.{kind_of};

use arrayvec::ArrayVec;
use cct_device_core::{Asked, Listener, asked_whole, common_reply, give};
use cct_device_intake::Intake;
use cct_model_wire::{
    COIN_PLACES, DeviceBody, DeviceSetup, MOST_SENT, Pair, RETURN_CODE, Reply, Request, STACK_CODE,
};
use std::alloc::{AllocError, Global};

/// In the event of a bill of a place: it is held in the escrow.
const HELD: u8 = 1;

/// In the event of a bill of a place: it was stacked.
const STACKED: u8 = 0;

/// The error event of a held bill that was given back.
const RETURNED: Pair = Pair { a: 0, b: 1 };

/// The error event of a bill that wasn't held.
const INHIBITED: Pair = Pair { a: 0, b: 2 };

/// A bill acceptor of a setup. Its contracts describe it by all that it met, newest first.
#[derive(Drop)]
pub struct BillAcceptor<'s> {
    setup: &'s DeviceSetup,
    listener: Listener,
    /// Its inhibits, its events and its accept counter. It has no sorter: the paths stay as they
    /// are.
    intake: Intake,
    /// The place of the bill that is held in the escrow.
    held: Option<u8>,
    ghost check: { kind_of listener ≡ setup.now.kind },
    ghost serial: { setup.now.serial < 2 ^ 24 },
}

impl<'s> BillAcceptor<'s> {
    ghost use Rattle.cct_bill.specs.Bill.{HasHeard, IsAtGap, StandsFor, is_change, start_of};

    /// A bill acceptor as after a reset, with its accept counter where the setup starts it. This
    /// takes all memory that it ever has.
    ///
    /// Fails only where there is no memory for it.
    pub fn new(alloc: Global, setup: &'s DeviceSetup) -> Result<BillAcceptor<'s>, AllocError>
        requires sound { IsSound setup.now }
        requires bill { IsBill setup.now.body }
        ensures fresh { IfOk result (λ bills. StandsFor bills setup.now []) }
        ensures gap { IfOk result (λ bills. IsAtGap bills) }
    {
        match &setup.body {
            DeviceBody::Bill { accepts, .. } => Ok(BillAcceptor {
                setup,
                listener: Listener::new(setup.kind),
                intake: Intake::new(alloc, *accepts)?,
                held: None,
            }),
            DeviceBody::Acceptor { .. } => unreachable!(),
            DeviceBody::Hopper { .. } => unreachable!(),
        }
    }

    /// A bill of a place, 1 to 16, is put in: true where it is held, and false where it is given
    /// back at once, since its place or every bill is inhibited, or another bill is held. It is an
    /// event either way.
    pub fn present(&mut self, place: u8) -> bool
        requires low { 1 ≤ place }
        requires high { place ≤ COIN_PLACES }
        ensures stands { (d : DeviceSetup) (past : List Met) → StandsFor self.old d past
            → StandsFor self.new d (coin place ∷ past) }
        // All that came before decides: the inhibits since the last reset, and the bill that was
        // last held.
        ensures answer { (d : DeviceSetup) (past : List Met) → StandsFor self.old d past
            → result ≡ holds past place }
        ensures heard { (bytes : List ℕ) → HasHeard self.old bytes → HasHeard self.new bytes }
    {
        if !self.holds(place) {
            self.intake.tell(INHIBITED);
            return false;
        }
        self.intake.tell(Pair { a: place, b: HELD });
        self.held = Some(place);
        true
    }

    /// The bill acceptor starts again as after power-up: it gives a held bill back without an
    /// event, and forgets its settings and its events. The accept counter goes on.
    pub fn reset(&mut self)
        ensures stands { (d : DeviceSetup) (past : List Met) → StandsFor self.old d past
            → StandsFor self.new d (reset ∷ past) }
        ensures heard { (bytes : List ℕ) → HasHeard self.old bytes → HasHeard self.new bytes }
    {
        self.intake.reset();
        self.held = None;
    }

    /// Hears one byte more. It acts on it, and answers, only when a gap comes.
    #[inline]
    pub fn byte(&mut self, byte: u8)
        ensures stands { (d : DeviceSetup) (past : List Met) → StandsFor self.old d past →
            StandsFor self.new d past }
        ensures heard { (bytes : List ℕ) → HasHeard self.old bytes →
            HasHeard self.new (bytes ++ byte ∷ []) }
    {
        self.listener.byte(self.setup.addr, byte);
    }

    /// A gap: the bill acceptor acts on what the bytes since the last one ask, and answers: true
    /// with the answer in `out`, or false with nothing there where it is silent. It is silent to
    /// bytes that are no message under its check, to another address, to a request that no bill
    /// acceptor knows, and to every broadcast but the address poll, which asks nothing at its own
    /// address.
    pub fn gap(&mut self, out: &mut ArrayVec<u8, MOST_SENT>) -> bool
        // A gap does what the bytes since the last one ask, and nothing if they ask nothing.
        // Hearing a message is hearing its bytes and then a gap.
        ensures stands { (d : DeviceSetup) (past : List Met) (bytes : List ℕ) → StandsFor self.old d past
            → HasHeard self.old bytes → StandsFor self.new d (heard (asks_of d bytes) ∷ past) }
        ensures answer { (d : DeviceSetup) (past : List Met) (bytes : List ℕ) → StandsFor self.old d past
            → HasHeard self.old bytes → MatchOption (answer d past bytes) ((result ≡ false) × (out.new.items ≡ []))
            (λ said. (result ≡ true) × (out.new.items ≡ said)) }
        ensures gap { IsAtGap self.new }
    {
        out.clear();
        if self.listener.passes_by() {
            self.listener.gap();
            return false;
        }
        let asked = self.listener.asked(self.setup);
        self.listener.gap();
        match asked {
            None => false,
            Some(Asked { request, asker }) => {
                let reply = self.act(request);
                give(self.setup, asker, request, reply, out)
            }
        }
    }

    /// Hears a piece and then a gap, where no byte came since the last one. It acts and answers as
    /// `gap` says.
    pub fn hear(&mut self, piece: &[u8], out: &mut ArrayVec<u8, MOST_SENT>) -> bool
        requires gap { IsAtGap self.old }
        // Bytes do what they ask, and nothing if they ask nothing.
        ensures stands { (d : DeviceSetup) (past : List Met) → StandsFor self.old d past
            → StandsFor self.new d (heard (asks_of d piece.now) ∷ past) }
        // Byte for byte, the answer is the one that all that came before makes it; else there is
        // silence.
        ensures answer { (d : DeviceSetup) (past : List Met) → StandsFor self.old d past
            → MatchOption (answer d past piece.now) ((result ≡ false) × (out.new.items ≡ []))
            (λ bytes. (result ≡ true) × (out.new.items ≡ bytes)) }
        ensures gap { IsAtGap self.new }
    {
        out.clear();
        let setup = self.setup;
        match asked_whole(setup, piece) {
            None => false,
            Some(Asked { request, asker }) => {
                let reply = self.act(request);
                give(setup, asker, request, reply, out)
            }
        }
    }

    /// Whether a bill of a place, 1 to 16, is held when it is put in: the inhibits let it in, and
    /// none is held before.
    fn holds(&self, place: u8) -> bool
        requires low { 1 ≤ place }
        requires high { place ≤ COIN_PLACES }
        ensures { (d : DeviceSetup) (past : List Met) → StandsFor self.now d past → result
            ≡ holds past place }
    {
        match self.held {
            Some(_) => false,
            None => self.intake.lets_in(place),
        }
    }

    /// Acts on a request, and gives the reply, or none where no bill acceptor knows the request.
    #[tactic(auto, unfolding(cct_model_wire::specs::Device::reply_of, cct_model_wire::specs::Device::common_reply, cct_model_wire::specs::Bill::bill_reply), using(crate::proofs::Replies::own_is))]
    fn act(&mut self, request: Request) -> Option<Reply<'s>>
        ensures stands { (d : DeviceSetup) (past : List Met) → StandsFor self.old d past
            → StandsFor self.new d (heard (Some request) ∷ past) }
        ensures answer { (d : DeviceSetup) (past : List Met) → StandsFor self.old d past
            → option_map reply_shown result ≡ reply_of d past request }
        ensures sayable { IfSome result (λ y. IsSayable (reply_shown y)) }
        ensures heard { (bytes : List ℕ) → HasHeard self.old bytes → HasHeard self.new bytes }
    {
        match request {
            Request::ResetDevice => {
                self.reset();
                Some(Reply::Ack)
            }
            Request::SetMask { mask } => Some(self.intake.set_mask(mask)),
            Request::SetMaster { value } => Some(self.intake.set_master(value)),
            Request::RouteBill { way } => Some(self.route(way)),
            _ => self.tell(request),
        }
    }

    /// Header 154 with a byte: the held bill is stacked, or given back. It is refused where none is
    /// held, and so is another byte.
    fn route(&mut self, way: u8) -> Reply<'static>
        ensures stands { (d : DeviceSetup) (past : List Met) → StandsFor self.old d past
            → StandsFor self.new d (heard (Some (RouteBill way)) ∷ past) }
        ensures answer { (d : DeviceSetup) (past : List Met) → StandsFor self.old d past
            → reply_shown result ≡ (if is_some (bill_held past) && is_way way then ack else nak) }
        ensures sayable { IsSayable (reply_shown result) }
        ensures heard { (bytes : List ℕ) → HasHeard self.old bytes → HasHeard self.new bytes }
    {
        match self.held {
            None => Reply::Nak,
            Some(place) => self.route_held(place, way),
        }
    }

    /// The same where the bill of a place is held.
    fn route_held(&mut self, place: u8, way: u8) -> Reply<'static>
        requires held { self.old.held ≡ Some place }
        ensures stands { (d : DeviceSetup) (past : List Met) → StandsFor self.old d past
            → StandsFor self.new d (heard (Some (RouteBill way)) ∷ past) }
        ensures answer { reply_shown result ≡ (if is_way way then ack else nak) }
        ensures sayable { IsSayable (reply_shown result) }
        ensures heard { (bytes : List ℕ) → HasHeard self.old bytes → HasHeard self.new bytes }
    {
        match way {
            STACK_CODE => {
                self.intake.accept(Pair {
                    a: place,
                    b: STACKED,
                });
                self.held = None;
                Reply::Ack
            }
            RETURN_CODE => {
                self.intake.tell(RETURNED);
                self.held = None;
                Reply::Ack
            }
            _ => Reply::Nak,
        }
    }

    /// The reply to a request that changes nothing.
    #[tactic(auto, unfolding(cct_model_wire::specs::Device::reply_of, cct_model_wire::specs::Device::common_reply), using(crate::proofs::Replies::own_is))]
    fn tell(&self, request: Request) -> Option<Reply<'s>>
        ensures answer { (d : DeviceSetup) (past : List Met) → StandsFor self.now d past → is_change request ≡ false
            → option_map reply_shown result ≡ reply_of d past request }
        ensures sayable { IfSome result (λ y. IsSayable (reply_shown y)) }
    {
        match common_reply(self.setup, request) {
            None => self.tell_bills(request),
            reply => reply,
        }
    }

    /// The reply to a request for the acceptor's bills that changes nothing.
    #[tactic(auto, unfolding(cct_model_wire::specs::Bill::bill_reply))]
    fn tell_bills(&self, request: Request) -> Option<Reply<'s>>
        ensures answer { (d : DeviceSetup) (past : List Met) → StandsFor self.now d past → is_change request ≡ false
            → option_map reply_shown result ≡ bill_reply (start_of d.body) past request }
        ensures sayable { IfSome result (λ y. IsSayable (reply_shown y)) }
    {
        match request {
            Request::ReadBills => Some(Reply::Credits(self.intake.reading())),
            _ => self.intake.told(request),
        }
    }
}
