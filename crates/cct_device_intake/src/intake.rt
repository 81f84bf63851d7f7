//! What a device that takes money holds, whether coins or bills (ccTalk Generic Specification 4,
//! part 2): headers 231 and 230 set and read its inhibit mask, 228 and 227 its master inhibit, and
//! 225 shows its accept counter.
ghost use Rattle.std.specs.Prelude.{◌≡◌, ◌<◌, ◌≤◌, ◌^◌, ℕ, suc, List, [], ◌∷◌, false, IfOk, IfSome};
ghost use Rattle.std.specs.Option.{option_map};
ghost use Rattle.cct_model_wire.specs.declared.coin.Pair.{Pair};
ghost use Rattle.cct_model_wire.specs.Acceptor.{counted, credits_in, inhibit_reply};
ghost use Rattle.cct_model_wire.specs.History.{Met};
ghost use Rattle.cct_model_wire.specs.Reply.{IsSayable, ack, reply_shown};
ghost use Rattle.cct_model_wire.specs.Setting.{Setting, accepts_in, mask_set, master_set};

use cct_model_wire::{COIN_PLACES, Credits, Pair, Reply, Request};
use cct_ring::CreditRing;
use cct_sorter::CoinTable;
use std::alloc::{AllocError, Global};

/// The accept counter has three bytes, and starts again at 0 after its last number.
const COUNTS: u32 = 1 << 24;

/// The inhibits, the events and the accept counter of a device that takes money.
///
/// A contract shows it by the number at which its accept counter started, by all settings and all
/// events since its last reset, newest first, and by how much it ever accepted.
#[derive(Drop)]
pub struct Intake {
    /// The inhibits, and the sorter paths where the device has a sorter.
    pub table: CoinTable,
    ring: CreditRing,
    /// How many coins or bills were accepted, modulo [`COUNTS`].
    accepts: u32,
    ghost counts: { accepts < 2 ^ 24 },
}

impl Intake {
    ghost use Rattle.cct_device_intake.specs.Intake.{Holds, IsInhibits, is_setting};

    /// One as after a reset, with its accept counter at a number below 2^24. This takes all memory
    /// that it ever has.
    ///
    /// Fails only where there is no memory for it.
    pub fn new(alloc: Global, accepts: u32) -> Result<Intake, AllocError>
        requires { accepts < 2 ^ 24 }
        ensures { IfOk result (λ intake. Holds intake accepts [] [] 0) }
    {
        Ok(Intake {
            table: CoinTable::new(),
            ring: CreditRing::new(alloc)?,
            accepts,
        })
    }

    /// Whether its inhibits let in the coin or the bill of a place.
    pub fn lets_in(&self, place: u8) -> bool
        requires low { 1 ≤ place }
        requires high { place ≤ COIN_PLACES }
        ensures { (start accepted : ℕ) (set : List Setting) (pushed : List Pair) → Holds self.now start set pushed accepted
            → result ≡ accepts_in set place }
    {
        self.table.accepts(place)
    }

    /// Puts in an event by which nothing is accepted.
    pub fn tell(&mut self, event: Pair)
        ensures { (start accepted : ℕ) (set : List Setting) (pushed : List Pair) → Holds self.old start set pushed accepted
            → Holds self.new start set (event ∷ pushed) accepted }
    {
        self.ring.push(event);
    }

    /// Puts in an event by which a coin or a bill is accepted: the accept counter rises.
    pub fn accept(&mut self, event: Pair)
        ensures { (start accepted : ℕ) (set : List Setting) (pushed : List Pair) → Holds self.old start set pushed accepted
            → Holds self.new start set (event ∷ pushed) (suc accepted) }
    {
        self.ring.push(event);
        self.accepts = (self.accepts + 1) % COUNTS;
    }

    /// Forgets every setting and every event. The accept counter goes on.
    pub fn reset(&mut self)
        ensures { (start accepted : ℕ) (set : List Setting) (pushed : List Pair) → Holds self.old start set pushed accepted
            → Holds self.new start [] [] accepted }
    {
        self.table.reset();
        self.ring.clear();
    }

    /// The event counter and the last five events.
    pub fn reading(&self) -> Credits
        ensures { (start accepted : ℕ) (set : List Setting) (pushed : List Pair) → Holds self.now start set pushed accepted
            → result ≡ credits_in pushed }
    {
        self.ring.reading()
    }

    /// Sets the inhibit mask, and gives the reply.
    pub fn set_mask(&mut self, mask: u16) -> Reply<'static>
        ensures holds { (start accepted : ℕ) (set : List Setting) (pushed : List Pair)
            → Holds self.old start set pushed accepted → Holds self.new start (mask_set mask ∷ set) pushed accepted }
        ensures reply { reply_shown result ≡ ack }
    {
        self.table.set_mask(mask);
        Reply::Ack
    }

    /// Sets the master inhibit by a byte, and gives the reply.
    pub fn set_master(&mut self, value: u8) -> Reply<'static>
        ensures holds { (start accepted : ℕ) (set : List Setting) (pushed : List Pair)
            → Holds self.old start set pushed accepted → Holds self.new start (master_set value ∷ set) pushed accepted }
        ensures reply { reply_shown result ≡ ack }
    {
        self.table.set_master(value);
        Reply::Ack
    }

    /// The reply to a request that sets nothing, or none where the request reads none of the
    /// inhibits and not the accept counter.
    pub fn told(&self, request: Request) -> Option<Reply<'static>>
        ensures reply { (start accepted : ℕ) (set : List Setting) (pushed : List Pair) (past : List Met)
            → Holds self.now start set pushed accepted → IsInhibits set past → is_setting request ≡ false
            → option_map reply_shown result ≡ inhibit_reply (counted start accepted) past request }
        ensures sayable { IfSome result (λ y. IsSayable (reply_shown y)) }
    {
        match request {
            Request::GetMask => Some(Reply::Mask {
                mask: self.table.mask(),
            }),
            Request::GetMaster => Some(Reply::Master {
                value: u8::from(self.table.master()),
            }),
            Request::AcceptCount => Some(Reply::Accepts {
                count: self.accepts,
            }),
            _ => None,
        }
    }
}
