//! The hopper as a device (ccTalk Generic Specification 4, part 3).
ghost use Rattle.std.specs.Prelude.{◌≡◌, ◌≢◌, ◌==◌, ℕ, List, [], ◌∷◌, ◌++◌, false, true, not, Some};
ghost use Rattle.std.specs.Prelude.{IfSome, MatchOption};
ghost use Rattle.std.specs.Option.{option_map};
ghost use Rattle.cct_model_wire.specs.declared.device.DeviceSetup.{DeviceSetup};
ghost use Rattle.cct_model_wire.specs.declared.request.TheConstants.{ENABLE_CODE};
ghost use Rattle.cct_model_wire.specs.declared.request.Request.TheVariants.{Dispense, Enable};
ghost use Rattle.cct_model_wire.specs.declared.request.Request.TheVariants.{StopNow, TestHopper};
ghost use Rattle.cct_model_wire.specs.Device.{IsHopper, IsSound, reply_of};
ghost use Rattle.cct_model_wire.specs.Exchange.{answer, asks_of};
ghost use Rattle.cct_model_wire.specs.History.{Met, fall, heard, jam, reset};
ghost use Rattle.cct_model_wire.specs.Hopper.{dispense_reply, hopper_reply, register_of, remaining};
ghost use Rattle.cct_model_wire.specs.Hopper.{taken_of};
ghost use Rattle.cct_model_wire.specs.Reply.{IsSayable, reply_shown};

use crate::device::Device;
use crate::register::Register;
use crate::states::{AfterFall, HopperIdle, HopperOff, HopperPaying};
use arrayvec::ArrayVec;
use bitflags::Flags;
use cct_device_core::{Asked, asked_whole, common_reply, give};
use cct_life::LifeCount;
use cct_model_wire::{DeviceBody, DeviceSetup, ENABLE_CODE, MOST_SENT, Reply, Request};

/// A hopper of a setup, in one of its three states. Its contracts describe it by all that it met,
/// newest first.
#[derive(Drop)]
pub enum Hopper<'s> {
    /// It may not pay.
    Off(HopperOff<'s>),
    /// It may pay, and has no coin left to pay.
    Idle(HopperIdle<'s>),
    /// It pays.
    Paying(HopperPaying<'s>),
}

impl<'s> Hopper<'s> {
    ghost use Rattle.cct_hopper.specs.Hopper.{HasHeard, IsAtGap, StandsFor, device_of, is_change};
    ghost use Rattle.cct_hopper.specs.Hopper.{left_of, may_pay, start_of};

    /// A hopper as after a reset, with its life count where the setup starts it.
    pub fn new(setup: &'s DeviceSetup) -> Hopper<'s>
        requires sound { IsSound setup.now }
        requires hopper { IsHopper setup.now.body }
        ensures fresh { StandsFor result setup.now [] }
        ensures gap { IsAtGap result }
    {
        match &setup.body {
            DeviceBody::Hopper { life, .. } => {
                Hopper::Off(HopperOff::new(setup, LifeCount::new(*life)))
            }
            DeviceBody::Acceptor { .. } => unreachable!(),
            DeviceBody::Bill { .. } => unreachable!(),
        }
    }

    /// A coin falls out, which is paid where the hopper is paying: true then, and false where it is
    /// nothing to it.
    pub fn fall(&mut self) -> bool
        ensures stands { (d : DeviceSetup) (past : List Met) → StandsFor self.old d past
            → StandsFor self.new d (fall ∷ past) }
        ensures answer { (d : DeviceSetup) (past : List Met) → StandsFor self.old d past
            → result ≡ not (remaining d.serial past == 0) }
        ensures heard { (bytes : List ℕ) → HasHeard self.old bytes → HasHeard self.new bytes }
    {
        match self {
            Hopper::Paying(hopper) => {
                match hopper.twin().fall() {
                    AfterFall::Paying(hopper) => *self = Hopper::Paying(hopper),
                    AfterFall::Idle(hopper) => *self = Hopper::Idle(hopper),
                }
                true
            }
            _ => false,
        }
    }

    /// A coin is stuck, which ends the payout where the hopper is paying: true then, and false
    /// where it is nothing to it.
    pub fn jam(&mut self) -> bool
        ensures stands { (d : DeviceSetup) (past : List Met) → StandsFor self.old d past
            → StandsFor self.new d (jam ∷ past) }
        ensures answer { (d : DeviceSetup) (past : List Met) → StandsFor self.old d past
            → result ≡ not (remaining d.serial past == 0) }
        ensures heard { (bytes : List ℕ) → HasHeard self.old bytes → HasHeard self.new bytes }
    {
        match self {
            Hopper::Paying(hopper) => {
                *self = Hopper::Idle(hopper.twin().jam());
                true
            }
            _ => false,
        }
    }

    /// The hopper starts again as after power-up: it is off, and a payout is forgotten. The life
    /// count goes on.
    pub fn reset(&mut self)
        ensures stands { (d : DeviceSetup) (past : List Met) → StandsFor self.old d past
            → StandsFor self.new d (reset ∷ past) }
        ensures heard { (bytes : List ℕ) → HasHeard self.old bytes → HasHeard self.new bytes }
    {
        let hopper = match self {
            Hopper::Off(hopper) => hopper.twin().reset(),
            Hopper::Idle(hopper) => hopper.twin().reset(),
            Hopper::Paying(hopper) => hopper.twin().reset(),
        };
        *self = Hopper::Off(hopper);
    }

    /// Hears one byte more. It acts on it, and answers, only when a gap comes.
    #[inline]
    pub fn byte(&mut self, byte: u8)
        ensures stands { (d : DeviceSetup) (past : List Met) → StandsFor self.old d past →
            StandsFor self.new d past }
        ensures heard { (bytes : List ℕ) → HasHeard self.old bytes →
            HasHeard self.new (bytes ++ byte ∷ []) }
    {
        match self {
            Hopper::Off(hopper) => hopper.device.byte(byte),
            Hopper::Idle(hopper) => hopper.device.byte(byte),
            Hopper::Paying(hopper) => hopper.device.byte(byte),
        }
    }

    /// A gap: the hopper acts on what the bytes since the last one ask, and answers: true with the
    /// answer in `out`, or false with nothing there where the hopper is silent. It is silent to
    /// bytes that are no message under its check, to another address, to a request that no hopper
    /// knows, and to every broadcast but the address poll, which asks nothing at its own address.
    pub fn gap(&mut self, out: &mut ArrayVec<u8, MOST_SENT>) -> bool
        // A gap does what the bytes since the last one ask, and nothing if they ask nothing.
        ensures stands { (d : DeviceSetup) (past : List Met) (bytes : List ℕ) → StandsFor self.old d past
            → HasHeard self.old bytes → StandsFor self.new d (heard (asks_of d bytes) ∷ past) }
        ensures answer { (d : DeviceSetup) (past : List Met) (bytes : List ℕ) → StandsFor self.old d past
            → HasHeard self.old bytes → MatchOption (answer d past bytes) ((result ≡ false) × (out.new.items ≡ []))
            (λ said. (result ≡ true) × (out.new.items ≡ said)) }
        ensures gap { IsAtGap self.new }
    {
        out.clear();
        if self.device().listener.passes_by() {
            self.forget_bytes();
            return false;
        }
        let setup = self.device().setup;
        let asked = self.device().listener.asked(setup);
        self.forget_bytes();
        match asked {
            None => false,
            Some(Asked { request, asker }) => {
                let reply = self.act(request);
                give(setup, asker, request, reply, out)
            }
        }
    }

    /// Hears a piece and then a gap, where no byte came since the last one. It acts and answers as
    /// `gap` says.
    pub fn hear(&mut self, piece: &[u8], out: &mut ArrayVec<u8, MOST_SENT>) -> bool
        requires gap { IsAtGap self.old }
        ensures stands { (d : DeviceSetup) (past : List Met) → StandsFor self.old d past
            → StandsFor self.new d (heard (asks_of d piece.now) ∷ past) }
        // Byte for byte, the answer is the one that all that came before makes it; else there is
        // silence.
        ensures answer { (d : DeviceSetup) (past : List Met) → StandsFor self.old d past
            → MatchOption (answer d past piece.now) ((result ≡ false) × (out.new.items ≡ []))
            (λ bytes. (result ≡ true) × (out.new.items ≡ bytes)) }
        ensures gap { IsAtGap self.new }
    {
        out.clear();
        let setup = self.device().setup;
        match asked_whole(setup, piece) {
            None => false,
            Some(Asked { request, asker }) => {
                let reply = self.act(request);
                give(setup, asker, request, reply, out)
            }
        }
    }

    /// No byte came since the last gap any more.
    #[inline]
    fn forget_bytes(&mut self)
        ensures stands { (d : DeviceSetup) (past : List Met) → StandsFor self.old d past →
            StandsFor self.new d past }
        ensures gap { IsAtGap self.new }
    {
        match self {
            Hopper::Off(hopper) => hopper.device.forget_bytes(),
            Hopper::Idle(hopper) => hopper.device.forget_bytes(),
            Hopper::Paying(hopper) => hopper.device.forget_bytes(),
        }
    }

    /// Acts on a request, and gives the reply, or none where no hopper knows the request.
    #[tactic(auto, unfolding(cct_model_wire::specs::Device::reply_of, cct_model_wire::specs::Device::common_reply, cct_model_wire::specs::Hopper::hopper_reply), using(crate::proofs::Replies::own_is))]
    fn act(&mut self, request: Request) -> Option<Reply<'s>>
        ensures stands { (d : DeviceSetup) (past : List Met) → StandsFor self.old d past
            → StandsFor self.new d (heard (Some request) ∷ past) }
        ensures answer { (d : DeviceSetup) (past : List Met) → StandsFor self.old d past
            → option_map reply_shown result ≡ reply_of d past request }
        ensures sayable { IfSome result (λ y. IsSayable (reply_shown y)) }
        ensures heard { (bytes : List ℕ) → HasHeard self.old bytes → HasHeard self.new bytes }
    {
        match request {
            Request::ResetDevice => {
                self.reset();
                Some(Reply::Ack)
            }
            Request::Enable { code } => {
                self.set_enabled(code);
                Some(Reply::Ack)
            }
            Request::Dispense { serial, count } => { Some(self.dispense(serial, count)) }
            Request::StopNow => { Some(Reply::Remaining { count: self.stop() }) }
            Request::TestHopper => {
                let bits = self.register().bits();
                self.set_tested();
                Some(Reply::Register { bits })
            }
            _ => self.tell(request),
        }
    }

    /// The reply to a request that changes nothing.
    #[tactic(auto, unfolding(cct_model_wire::specs::Device::reply_of, cct_model_wire::specs::Device::common_reply), using(crate::proofs::Replies::own_is))]
    fn tell(&self, request: Request) -> Option<Reply<'s>>
        ensures stands { (d : DeviceSetup) (past : List Met) → StandsFor self.now d past → is_change request ≡ false
            → StandsFor self.now d (heard (Some request) ∷ past) }
        ensures answer { (d : DeviceSetup) (past : List Met) → StandsFor self.now d past → is_change request ≡ false
            → option_map reply_shown result ≡ reply_of d past request }
        ensures sayable { IfSome result (λ y. IsSayable (reply_shown y)) }
    {
        match common_reply(self.device().setup, request) {
            None => self.tell_payout(request),
            reply => reply,
        }
    }

    /// The reply to a request for the hopper's payouts that changes nothing.
    #[tactic(auto, unfolding(cct_model_wire::specs::Hopper::hopper_reply))]
    fn tell_payout(&self, request: Request) -> Option<Reply<'s>>
        ensures answer { (d : DeviceSetup) (past : List Met) → StandsFor self.now d past → is_change request ≡ false
            → option_map reply_shown result ≡ hopper_reply d.serial (start_of d.body) past request }
        ensures sayable { IfSome result (λ y. IsSayable (reply_shown y)) }
    {
        let device = self.device();
        match request {
            Request::GetStatus => Some(Reply::Status {
                counter: device.counter,
                remaining: self.remaining(),
                paid: device.paid,
                unpaid: device.unpaid,
            }),
            Request::GetLife => Some(Reply::Life {
                count: device.life.now(),
            }),
            Request::CipherDispense => Some(Reply::Nak),
            Request::PumpRng => Some(Reply::Nak),
            Request::CipherKey => Some(Reply::Nak),
            _ => None,
        }
    }

    /// The test register.
    fn register(&self) -> Register
        ensures { (d : DeviceSetup) (past : List Met) → StandsFor self.now d past
            → result.0 ≡ register_of d.serial past }
    {
        let device = self.device();
        Register::with(device.timeout, !device.tested, !self.may_pay())
    }

    /// Header 164 with a code.
    fn set_enabled(&mut self, code: u8)
        ensures stands { (d : DeviceSetup) (past : List Met) → StandsFor self.old d past
            → StandsFor self.new d (heard (Some (Enable code)) ∷ past) }
        ensures heard { (bytes : List ℕ) → HasHeard self.old bytes → HasHeard self.new bytes }
    {
        if code == ENABLE_CODE {
            self.enable();
        } else {
            self.disable();
        }
    }

    /// The hopper may pay. A payout goes on.
    fn enable(&mut self)
        ensures stands { (d : DeviceSetup) (past : List Met) → StandsFor self.old d past
            → StandsFor self.new d (heard (Some (Enable ENABLE_CODE)) ∷ past) }
        ensures heard { (bytes : List ℕ) → HasHeard self.old bytes → HasHeard self.new bytes }
    {
        if let Hopper::Off(hopper) = self {
            *self = Hopper::Idle(hopper.twin().enable());
        }
    }

    /// The hopper may not pay any more, which ends a payout.
    fn disable(&mut self)
        ensures stands { (d : DeviceSetup) (past : List Met) (code : ℕ) → code ≢ ENABLE_CODE → StandsFor self.old d past
            → StandsFor self.new d (heard (Some (Enable code)) ∷ past) }
        ensures heard { (bytes : List ℕ) → HasHeard self.old bytes → HasHeard self.new bytes }
    {
        match self {
            Hopper::Off(_) => {}
            Hopper::Idle(hopper) => *self = Hopper::Off(hopper.twin().disable()),
            Hopper::Paying(hopper) => *self = Hopper::Off(hopper.twin().disable()),
        }
    }

    /// Header 167 with four data bytes: pays, or refuses. One that is off or pays takes none.
    fn dispense(&mut self, serial: u32, count: u8) -> Reply<'static>
        ensures stands { (d : DeviceSetup) (past : List Met) → StandsFor self.old d past
            → StandsFor self.new d (heard (Some (Dispense serial count)) ∷ past) }
        ensures answer { (d : DeviceSetup) (past : List Met) → StandsFor self.old d past
            → reply_shown result ≡ dispense_reply (taken_of d.serial past (Some (Dispense serial count))) }
        ensures sayable { IsSayable (reply_shown result) }
        ensures heard { (bytes : List ℕ) → HasHeard self.old bytes → HasHeard self.new bytes }
    {
        match self {
            Hopper::Idle(hopper) => {
                if hopper.refusal(serial, count).is_some() {
                    return Reply::Nak;
                }
                match hopper.twin().dispense(serial, count) {
                    Ok(hopper) => *self = Hopper::Paying(hopper),
                    Err(_) => unreachable!(),
                }
                Reply::Ack
            }
            _ => Reply::Nak,
        }
    }

    /// Header 172: stops a payout, and says how many coins were left.
    fn stop(&mut self) -> u8
        ensures stands { (d : DeviceSetup) (past : List Met) → StandsFor self.old d past
            → StandsFor self.new d (heard (Some StopNow) ∷ past) }
        ensures answer { (d : DeviceSetup) (past : List Met) → StandsFor self.old d past
            → result ≡ remaining d.serial past }
        ensures heard { (bytes : List ℕ) → HasHeard self.old bytes → HasHeard self.new bytes }
    {
        match self {
            Hopper::Paying(hopper) => {
                let (idle, left) = hopper.twin().stop();
                *self = Hopper::Idle(idle);
                left
            }
            _ => 0,
        }
    }

    /// The test register was read.
    fn set_tested(&mut self)
        ensures stands { (d : DeviceSetup) (past : List Met) → StandsFor self.old d past
            → StandsFor self.new d (heard (Some TestHopper) ∷ past) }
        ensures heard { (bytes : List ℕ) → HasHeard self.old bytes → HasHeard self.new bytes }
    {
        match self {
            Hopper::Off(hopper) => hopper.device.tested = true,
            Hopper::Idle(hopper) => hopper.device.tested = true,
            Hopper::Paying(hopper) => hopper.device.tested = true,
        }
    }

    /// The hopper itself, in whatever state it is.
    fn device(&self) -> &Device<'s>
        ensures { result.now ≡ device_of self.now }
    {
        match self {
            Hopper::Off(hopper) => &hopper.device,
            Hopper::Idle(hopper) => &hopper.device,
            Hopper::Paying(hopper) => &hopper.device,
        }
    }

    /// Whether it may pay.
    fn may_pay(&self) -> bool
        ensures { result ≡ may_pay self.now }
    {
        match self {
            Hopper::Off(_) => false,
            _ => true,
        }
    }

    /// How many coins it has left to pay.
    fn remaining(&self) -> u8
        ensures { result ≡ left_of self.now }
    {
        match self {
            Hopper::Paying(hopper) => hopper.remaining,
            _ => 0,
        }
    }
}
