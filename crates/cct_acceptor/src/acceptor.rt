//! The coin acceptor as a device (ccTalk Generic Specification 4, part 2).
ghost use Rattle.std.specs.Prelude.{◌≡◌, ◌<◌, ◌≤◌, ◌^◌, ◌&&◌, ℕ, List, [], ◌∷◌, ◌++◌, false, true};
ghost use Rattle.std.specs.Prelude.{if◌then◌else◌, Some, IfOk, IfSome, MatchOption};
ghost use Rattle.std.specs.Option.{option_map};
ghost use Rattle.cct_model_wire.specs.declared.coin.Pair.{Pair};
ghost use Rattle.cct_model_wire.specs.declared.device.DeviceSetup.{DeviceSetup};
ghost use Rattle.cct_model_wire.specs.Device.{IsAcceptor, IsSound, reply_of};
ghost use Rattle.cct_model_wire.specs.Acceptor.{acceptor_reply, id_at, path_of};
ghost use Rattle.cct_model_wire.specs.Exchange.{answer, asks_of};
ghost use Rattle.cct_model_wire.specs.History.{Met, alien, coin, heard, reset};
ghost use Rattle.cct_model_wire.specs.Reply.{IsSayable, ack, coin_id, nak, path, reply_shown};
ghost use Rattle.cct_model_wire.specs.Setting.{Setting, default_set, is_path, is_place, path_set};
ghost use Rattle.cct_device_core.specs.Listening.{kind_of};
ghost use Rattle.cct_device_intake.specs.Intake.{Holds};

use arrayvec::ArrayVec;
use cct_device_core::{Asked, Listener, asked_whole, common_reply, give};
use cct_device_intake::Intake;
use cct_model_wire::{COIN_PLACES, Coin, DeviceBody, DeviceSetup, MOST_SENT, Pair, Reply, Request};
use cct_sorter::is_place;
use std::alloc::{AllocError, Global};

/// The error event of a piece that is no coin.
const ALIEN: Pair = Pair { a: 0, b: 1 };

/// The error event of an inhibited coin.
const INHIBITED: Pair = Pair { a: 0, b: 2 };

/// What became of a coin that fell in.
#[derive(Clone, Copy, Debug, PartialEq, Eq)]
pub enum Inserted {
    /// It was taken, by the sorter path of its place.
    Accepted(Coin),
    /// It was given back: its place is inhibited, or every coin is.
    Inhibited,
}

/// A coin acceptor of a setup. Its contracts describe it by all that it met, newest first.
#[derive(Drop)]
pub struct Acceptor<'s> {
    setup: &'s DeviceSetup,
    listener: Listener,
    /// The identifications of its coins, that of place 1 first.
    ids: &'s [[u8; 6]; COIN_PLACES],
    intake: Intake,
    ghost check: { kind_of listener ≡ setup.now.kind },
    ghost serial: { setup.now.serial < 2 ^ 24 },
}

impl<'s> Acceptor<'s> {
    ghost use Rattle.cct_acceptor.specs.Acceptor.{HasHeard, IsAtGap, StandsFor, ids_of, inserted};
    ghost use Rattle.cct_acceptor.specs.Acceptor.{is_change, start_of};

    /// An acceptor as after a reset, with its accept counter where the setup starts it. This takes
    /// all memory that it ever has.
    ///
    /// Fails only where there is no memory for it.
    pub fn new(alloc: Global, setup: &'s DeviceSetup) -> Result<Acceptor<'s>, AllocError>
        requires sound { IsSound setup.now }
        requires acceptor { IsAcceptor setup.now.body }
        ensures fresh { IfOk result (λ acceptor. StandsFor acceptor setup.now []) }
        ensures gap { IfOk result (λ acceptor. IsAtGap acceptor) }
    {
        match &setup.body {
            DeviceBody::Acceptor { accepts, ids, .. } => Ok(Acceptor {
                setup,
                listener: Listener::new(setup.kind),
                ids,
                intake: Intake::new(alloc, *accepts)?,
            }),
            DeviceBody::Hopper { .. } => unreachable!(),
            DeviceBody::Bill { .. } => unreachable!(),
        }
    }

    /// A coin of a place, 1 to 16, falls in. It is an event either way.
    pub fn insert(&mut self, place: u8) -> Inserted
        requires low { 1 ≤ place }
        requires high { place ≤ COIN_PLACES }
        ensures stands { (d : DeviceSetup) (past : List Met) → StandsFor self.old d past
            → StandsFor self.new d (coin place ∷ past) }
        // All that came before decides: the last mask, the master inhibit and the path of the place
        // since the last reset.
        ensures answer { (d : DeviceSetup) (past : List Met) → StandsFor self.old d past
            → result ≡ inserted past place }
        ensures heard { (bytes : List ℕ) → HasHeard self.old bytes → HasHeard self.new bytes }
    {
        if !self.intake.lets_in(place) {
            self.intake.tell(INHIBITED);
            return Inserted::Inhibited;
        }
        let path = self.intake.table.path_of(place);
        self.intake.accept(Pair { a: place, b: path });
        Inserted::Accepted(Coin { place, path })
    }

    /// A piece that is no coin falls in, and is given back: an event too.
    pub fn alien(&mut self)
        ensures stands { (d : DeviceSetup) (past : List Met) → StandsFor self.old d past
            → StandsFor self.new d (alien ∷ past) }
        ensures heard { (bytes : List ℕ) → HasHeard self.old bytes → HasHeard self.new bytes }
    {
        self.intake.tell(ALIEN);
    }

    /// The acceptor starts again as after power-up: it forgets its settings and its events. The
    /// accept counter goes on.
    pub fn reset(&mut self)
        ensures stands { (d : DeviceSetup) (past : List Met) → StandsFor self.old d past
            → StandsFor self.new d (reset ∷ past) }
        ensures heard { (bytes : List ℕ) → HasHeard self.old bytes → HasHeard self.new bytes }
    {
        self.intake.reset();
    }

    /// Hears one byte more. It acts on it, and answers, only when a gap comes.
    #[inline]
    pub fn byte(&mut self, byte: u8)
        ensures stands { (d : DeviceSetup) (past : List Met) → StandsFor self.old d past →
            StandsFor self.new d past }
        ensures heard { (bytes : List ℕ) → HasHeard self.old bytes →
            HasHeard self.new (bytes ++ byte ∷ []) }
    {
        self.listener.byte(self.setup.addr, byte);
    }

    /// A gap: the acceptor acts on what the bytes since the last one ask, and answers: true with
    /// the answer in `out`, or false with nothing there where the acceptor is silent. It is silent
    /// to bytes that are no message under its check, to another address, to a request that no
    /// acceptor knows, and to every broadcast but the address poll, which asks nothing at its own
    /// address.
    pub fn gap(&mut self, out: &mut ArrayVec<u8, MOST_SENT>) -> bool
        // A gap does what the bytes since the last one ask, and nothing if they ask nothing.
        // Hearing a message is hearing its bytes and then a gap.
        ensures stands { (d : DeviceSetup) (past : List Met) (bytes : List ℕ) → StandsFor self.old d past
            → HasHeard self.old bytes → StandsFor self.new d (heard (asks_of d bytes) ∷ past) }
        ensures answer { (d : DeviceSetup) (past : List Met) (bytes : List ℕ) → StandsFor self.old d past
            → HasHeard self.old bytes → MatchOption (answer d past bytes) ((result ≡ false) × (out.new.items ≡ []))
            (λ said. (result ≡ true) × (out.new.items ≡ said)) }
        ensures gap { IsAtGap self.new }
    {
        out.clear();
        if self.listener.passes_by() {
            self.listener.gap();
            return false;
        }
        let asked = self.listener.asked(self.setup);
        self.listener.gap();
        match asked {
            None => false,
            Some(Asked { request, asker }) => {
                let reply = self.act(request);
                give(self.setup, asker, request, reply, out)
            }
        }
    }

    /// Hears a piece and then a gap, where no byte came since the last one. It acts and answers as
    /// `gap` says.
    pub fn hear(&mut self, piece: &[u8], out: &mut ArrayVec<u8, MOST_SENT>) -> bool
        requires gap { IsAtGap self.old }
        // Bytes do what they ask, and nothing if they ask nothing.
        ensures stands { (d : DeviceSetup) (past : List Met) → StandsFor self.old d past
            → StandsFor self.new d (heard (asks_of d piece.now) ∷ past) }
        // Byte for byte, the answer is the one that all that came before makes it; else there is
        // silence.
        ensures answer { (d : DeviceSetup) (past : List Met) → StandsFor self.old d past
            → MatchOption (answer d past piece.now) ((result ≡ false) × (out.new.items ≡ []))
            (λ bytes. (result ≡ true) × (out.new.items ≡ bytes)) }
        ensures gap { IsAtGap self.new }
    {
        out.clear();
        let setup = self.setup;
        match asked_whole(setup, piece) {
            None => false,
            Some(Asked { request, asker }) => {
                let reply = self.act(request);
                give(setup, asker, request, reply, out)
            }
        }
    }

    /// Acts on a request, and gives the reply, or none where no acceptor knows the request.
    #[tactic(auto, unfolding(cct_model_wire::specs::Device::reply_of, cct_model_wire::specs::Device::common_reply, cct_model_wire::specs::Acceptor::acceptor_reply), using(crate::proofs::Replies::own_is))]
    fn act(&mut self, request: Request) -> Option<Reply<'s>>
        ensures stands { (d : DeviceSetup) (past : List Met) → StandsFor self.old d past
            → StandsFor self.new d (heard (Some request) ∷ past) }
        ensures answer { (d : DeviceSetup) (past : List Met) → StandsFor self.old d past
            → option_map reply_shown result ≡ reply_of d past request }
        ensures sayable { IfSome result (λ y. IsSayable (reply_shown y)) }
        ensures heard { (bytes : List ℕ) → HasHeard self.old bytes → HasHeard self.new bytes }
    {
        match request {
            Request::ResetDevice => {
                self.reset();
                Some(Reply::Ack)
            }
            Request::SetMask { mask } => Some(self.intake.set_mask(mask)),
            Request::SetMaster { value } => Some(self.intake.set_master(value)),
            Request::SetPath { place, path } => Some(set_path(&mut self.intake, place, path)),
            Request::SetDefault { path } => Some(set_default(&mut self.intake, path)),
            _ => self.tell(request),
        }
    }

    /// The reply to a request that changes nothing.
    #[tactic(auto, unfolding(cct_model_wire::specs::Device::reply_of, cct_model_wire::specs::Device::common_reply), using(crate::proofs::Replies::own_is))]
    fn tell(&self, request: Request) -> Option<Reply<'s>>
        ensures answer { (d : DeviceSetup) (past : List Met) → StandsFor self.now d past → is_change request ≡ false
            → option_map reply_shown result ≡ reply_of d past request }
        ensures sayable { IfSome result (λ y. IsSayable (reply_shown y)) }
    {
        match common_reply(self.setup, request) {
            None => self.tell_coins(request),
            reply => reply,
        }
    }

    /// The reply to a request for the acceptor's coins that changes nothing.
    #[tactic(auto, unfolding(cct_model_wire::specs::Acceptor::acceptor_reply))]
    fn tell_coins(&self, request: Request) -> Option<Reply<'s>>
        ensures answer { (d : DeviceSetup) (past : List Met) → StandsFor self.now d past → is_change request ≡ false
            → option_map reply_shown result ≡ acceptor_reply (start_of d.body) (ids_of d.body) past request }
        ensures sayable { IfSome result (λ y. IsSayable (reply_shown y)) }
    {
        match request {
            Request::ReadCredits => Some(Reply::Credits(self.intake.reading())),
            Request::GetPath { place } => Some(self.path(place)),
            Request::GetDefault => Some(Reply::Path {
                path: self.intake.table.default_path(),
            }),
            Request::CoinId { place } => Some(self.coin_id(place)),
            _ => self.intake.told(request),
        }
    }

    /// The sorter path of a coin place, or a refusal where there is no such place.
    fn path(&self, place: u8) -> Reply<'s>
        ensures answer { (d : DeviceSetup) (past : List Met) → StandsFor self.now d past
            → reply_shown result ≡ (if is_place place then path (path_of past place) else nak) }
        ensures sayable { IsSayable (reply_shown result) }
    {
        if is_place(place) {
            Reply::Path {
                path: self.intake.table.path_of(place),
            }
        } else {
            Reply::Nak
        }
    }

    /// The identification of the coin of a place, or a refusal where there is no such place.
    #[tactic(auto, using(crate::proofs::Replies::id_read))]
    fn coin_id(&self, place: u8) -> Reply<'s>
        ensures answer { (d : DeviceSetup) (past : List Met) → StandsFor self.now d past
            → reply_shown result ≡ (if is_place place then coin_id (id_at (ids_of d.body) place) else nak) }
        ensures sayable { IsSayable (reply_shown result) }
    {
        if is_place(place) {
            Reply::CoinId {
                id: self.ids[place as usize - 1],
            }
        } else {
            Reply::Nak
        }
    }
}

/// Sets the sorter path of a coin place, and gives the reply.
fn set_path(intake: &mut Intake, place: u8, path: u8) -> Reply<'static>
    ensures holds { (start accepted : ℕ) (set : List Setting) (pushed : List Pair)
        → Holds intake.old start set pushed accepted → Holds intake.new start (path_set place path ∷ set) pushed accepted }
    ensures reply { reply_shown result ≡ (if is_place place && is_path path then ack else nak) }
{
    acknowledgement(intake.table.set_path(place, path).is_ok())
}

/// Sets the default path, and gives the reply.
fn set_default(intake: &mut Intake, path: u8) -> Reply<'static>
    ensures holds { (start accepted : ℕ) (set : List Setting) (pushed : List Pair)
        → Holds intake.old start set pushed accepted → Holds intake.new start (default_set path ∷ set) pushed accepted }
    ensures reply { reply_shown result ≡ (if is_path path then ack else nak) }
{
    acknowledgement(intake.table.set_default(path).is_ok())
}

/// The reply to a setting: it was taken, or refused.
fn acknowledgement(taken: bool) -> Reply<'static>
    ensures { reply_shown result ≡ (if taken then ack else nak) }
{
    if taken { Reply::Ack } else { Reply::Nak }
}
