//! What a handle holds: the settings of a device, or a device core. A core borrows its settings for
//! as long as it is there.
ghost use Rattle.std.specs.Prelude.{◌≡◌, ◌≢◌, ◌≤◌, ℕ, List, [], ◌∷◌, ◌++◌, if◌then◌else◌, IfOk};
ghost use Rattle.std.specs.Prelude.{length, take, unwrap_or};
ghost use Rattle.cct_model_wire.specs.declared.device.DeviceSetup.{DeviceSetup};
ghost use Rattle.cct_model_wire.specs.declared.wire.TheConstants.{MOST_SENT};
ghost use Rattle.cct_model_wire.specs.Device.{IsSound};
ghost use Rattle.cct_model_wire.specs.Exchange.{answer, asks_of};
ghost use Rattle.cct_model_wire.specs.History.{Met, fall, heard, jam, reset};
ghost use Rattle.cct_c.specs.Held.{answer_code, inserted_code, inserted_path};

use crate::codes::{BAD_HANDLE, BAD_PLACE, NO_ROOM, NOTHING, OK, SILENCE, WRONG_FAMILY};
use crate::frames::put;
use arrayvec::ArrayVec;
use cct_acceptor::{Acceptor, Inserted};
use cct_bill::BillAcceptor;
use cct_hopper::Hopper;
use cct_model_wire::{COIN_PLACES, DeviceBody, DeviceSetup, MOST_SENT};
use std::alloc::{AllocError, Global};

/// Settings, or a coin acceptor, a hopper or a bill acceptor. Its contracts describe a device by
/// all that it met, newest first.
#[derive(Drop)]
pub enum Held {
    Settings(DeviceSetup),
    Acceptor(Acceptor<'static>),
    Hopper(Hopper<'static>),
    Bill(BillAcceptor<'static>),
}

impl Held {
    ghost use Rattle.cct_c.specs.Held.{HasHeard, StandsFor, acceptor_code, device_code, met_alien};
    ghost use Rattle.cct_c.specs.Held.{met_paying, met_put, path_told, paying_code, put_code};

    /// The device of a setup as after power-up.
    pub(crate) fn device(alloc: Global, setup: &'static DeviceSetup) -> Result<Held, AllocError>
        requires sound { IsSound setup.now }
        ensures fresh { IfOk result (λ held. StandsFor held setup.now []) }
        ensures gap { IfOk result (λ held. HasHeard held []) }
    {
        match &setup.body {
            DeviceBody::Acceptor { .. } => Ok(Held::Acceptor(Acceptor::new(alloc, setup)?)),
            DeviceBody::Hopper { .. } => Ok(Held::Hopper(Hopper::new(setup))),
            DeviceBody::Bill { .. } => Ok(Held::Bill(BillAcceptor::new(alloc, setup)?)),
        }
    }

    /// One byte more is heard.
    pub(crate) fn byte(&mut self, byte: u8) -> u32
        ensures stands { (d : DeviceSetup) (past : List Met) → StandsFor self.old d past →
            StandsFor self.new d past }
        ensures heard { (bytes : List ℕ) → HasHeard self.old bytes →
            HasHeard self.new (bytes ++ byte ∷ []) }
        ensures code { result ≡ device_code self.old }
    {
        match self {
            Held::Settings(_) => BAD_HANDLE,
            Held::Acceptor(acceptor) => {
                acceptor.byte(byte);
                OK
            }
            Held::Hopper(hopper) => {
                hopper.byte(byte);
                OK
            }
            Held::Bill(bills) => {
                bills.byte(byte);
                OK
            }
        }
    }

    /// A gap: the device acts on what the bytes since the last one ask. Its answer goes to the
    /// front of `out`, which has room for the longest message; else nothing happens.
    pub(crate) fn answer(&mut self, out: &mut [u8], written: &mut usize) -> u32
        ensures stands { (d : DeviceSetup) (past : List Met) (bytes : List ℕ) → MOST_SENT ≤ length out.old
            → StandsFor self.old d past → HasHeard self.old bytes → StandsFor self.new d (heard (asks_of d bytes) ∷ past) }
        ensures answer { (d : DeviceSetup) (past : List Met) (bytes : List ℕ) → MOST_SENT ≤ length out.old
            → StandsFor self.old d past → HasHeard self.old bytes → result ≡ answer_code (answer d past bytes) }
        ensures said { (d : DeviceSetup) (past : List Met) (bytes : List ℕ) → MOST_SENT ≤ length out.old
            → StandsFor self.old d past → HasHeard self.old bytes → result ≡ OK
            → take written.new out.new ≡ unwrap_or (answer d past bytes) [] }
        ensures gap { (bytes : List ℕ) → MOST_SENT ≤ length out.old → HasHeard self.old bytes →
            HasHeard self.new [] }
        ensures refused { result ≢ OK → (out.new ≡ out.old) × (written.new ≡ written.old) }
    {
        if out.len() < MOST_SENT {
            return NO_ROOM;
        }
        let mut said: ArrayVec<u8, MOST_SENT> = ArrayVec::new();
        let code = self.gap(&mut said);
        if code != OK {
            return code;
        }
        put(said.as_slice(), out, written)
    }

    /// A gap: the device acts on what the bytes since the last one ask, and answers, or is silent.
    #[tactic(auto, using(crate::proofs::Said::code_is, crate::proofs::Said::said_is))]
    fn gap(&mut self, said: &mut ArrayVec<u8, MOST_SENT>) -> u32
        ensures stands { (d : DeviceSetup) (past : List Met) (bytes : List ℕ) → StandsFor self.old d past
            → HasHeard self.old bytes → StandsFor self.new d (heard (asks_of d bytes) ∷ past) }
        ensures answer { (d : DeviceSetup) (past : List Met) (bytes : List ℕ) → StandsFor self.old d past
            → HasHeard self.old bytes → result ≡ answer_code (answer d past bytes) }
        ensures said { (d : DeviceSetup) (past : List Met) (bytes : List ℕ) → StandsFor self.old d past
            → HasHeard self.old bytes → said.new.items ≡ unwrap_or (answer d past bytes) [] }
        ensures gap { (bytes : List ℕ) → HasHeard self.old bytes → HasHeard self.new [] }
    {
        match self {
            Held::Settings(_) => BAD_HANDLE,
            Held::Acceptor(acceptor) => answered(acceptor.gap(said)),
            Held::Hopper(hopper) => answered(hopper.gap(said)),
            Held::Bill(bills) => answered(bills.gap(said)),
        }
    }

    /// A coin or a bill of a place is put in; the sorter path of a coin that is taken is reported.
    pub(crate) fn put(&mut self, place: u8, path: &mut u8) -> u32
        ensures stands { (d : DeviceSetup) (past : List Met) → 1 ≤ place → place ≤ COIN_PLACES → StandsFor self.old d past
            → StandsFor self.new d (met_put self.old place past) }
        ensures answer { (d : DeviceSetup) (past : List Met) → 1 ≤ place → place ≤ COIN_PLACES → StandsFor self.old d past
            → (result ≡ put_code self.old place past) × (path.new ≡ path_told self.old place past path.old) }
        ensures heard { (bytes : List ℕ) → HasHeard self.old bytes → HasHeard self.new bytes }
    {
        if place < 1 || usize::from(place) > COIN_PLACES {
            return BAD_PLACE;
        }
        match self {
            Held::Settings(_) => BAD_HANDLE,
            Held::Hopper(_) => WRONG_FAMILY,
            Held::Acceptor(acceptor) => inserted(acceptor.insert(place), path),
            Held::Bill(bills) => done(bills.present(place)),
        }
    }

    /// An object that is no coin is put in.
    pub(crate) fn put_alien(&mut self) -> u32
        ensures stands { (d : DeviceSetup) (past : List Met) → StandsFor self.old d past
            → StandsFor self.new d (met_alien self.old past) }
        ensures code { result ≡ acceptor_code self.old }
        ensures heard { (bytes : List ℕ) → HasHeard self.old bytes → HasHeard self.new bytes }
    {
        match self {
            Held::Settings(_) => BAD_HANDLE,
            Held::Acceptor(acceptor) => {
                acceptor.alien();
                OK
            }
            Held::Hopper(_) => WRONG_FAMILY,
            Held::Bill(_) => WRONG_FAMILY,
        }
    }

    /// A coin falls out of a hopper.
    pub(crate) fn fall(&mut self) -> u32
        ensures stands { (d : DeviceSetup) (past : List Met) → StandsFor self.old d past
            → StandsFor self.new d (met_paying self.old fall past) }
        ensures answer { (d : DeviceSetup) (past : List Met) → StandsFor self.old d past
            → result ≡ paying_code self.old d.serial past }
        ensures heard { (bytes : List ℕ) → HasHeard self.old bytes → HasHeard self.new bytes }
    {
        match self {
            Held::Settings(_) => BAD_HANDLE,
            Held::Acceptor(_) => WRONG_FAMILY,
            Held::Hopper(hopper) => done(hopper.fall()),
            Held::Bill(_) => WRONG_FAMILY,
        }
    }

    /// A coin is stuck in a hopper.
    pub(crate) fn jam(&mut self) -> u32
        ensures stands { (d : DeviceSetup) (past : List Met) → StandsFor self.old d past
            → StandsFor self.new d (met_paying self.old jam past) }
        ensures answer { (d : DeviceSetup) (past : List Met) → StandsFor self.old d past
            → result ≡ paying_code self.old d.serial past }
        ensures heard { (bytes : List ℕ) → HasHeard self.old bytes → HasHeard self.new bytes }
    {
        match self {
            Held::Settings(_) => BAD_HANDLE,
            Held::Acceptor(_) => WRONG_FAMILY,
            Held::Hopper(hopper) => done(hopper.jam()),
            Held::Bill(_) => WRONG_FAMILY,
        }
    }

    /// The device starts again as after power-up.
    pub(crate) fn reset(&mut self) -> u32
        ensures stands { (d : DeviceSetup) (past : List Met) → StandsFor self.old d past
            → StandsFor self.new d (reset ∷ past) }
        ensures heard { (bytes : List ℕ) → HasHeard self.old bytes → HasHeard self.new bytes }
        ensures code { result ≡ device_code self.old }
    {
        match self {
            Held::Settings(_) => BAD_HANDLE,
            Held::Acceptor(acceptor) => {
                acceptor.reset();
                OK
            }
            Held::Hopper(hopper) => {
                hopper.reset();
                OK
            }
            Held::Bill(bills) => {
                bills.reset();
                OK
            }
        }
    }
}

/// What a call answers to a coin of which this became; the sorter path of one that was taken is
/// reported.
fn inserted(inserted: Inserted, path: &mut u8) -> u32
    ensures code { result ≡ inserted_code inserted }
    ensures path { path.new ≡ inserted_path inserted path.old }
{
    match inserted {
        Inserted::Accepted(coin) => {
            *path = coin.path;
            OK
        }
        Inserted::Inhibited => NOTHING,
    }
}

/// What a call answers to bytes that a device answers, or not.
fn answered(answers: bool) -> u32
    ensures { result ≡ (if answers then OK else SILENCE) }
{
    if answers { OK } else { SILENCE }
}

/// What a call answers to something that was done, or was nothing to the device.
fn done(done: bool) -> u32
    ensures { result ≡ (if done then OK else NOTHING) }
{
    if done { OK } else { NOTHING }
}
