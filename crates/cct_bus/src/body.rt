//! What a device on the wire is: a coin acceptor, a bill acceptor or a hopper.
ghost use Rattle.std.specs.Prelude.{◌≡◌, true, ℕ, List, [], ◌∷◌, IfOk, unwrap_or};
ghost use Rattle.cct_model.specs.terms.device.DeviceSetup.{DeviceSetup};
ghost use Rattle.cct_model.specs.Device.{IsSound};
ghost use Rattle.cct_model.specs.Exchange.{answer, asks_of};
ghost use Rattle.cct_model.specs.Family.{IsPlaced, known_to, met_by};
ghost use Rattle.cct_model.specs.History.{Met, heard};
ghost use Rattle.cct_model.specs.terms.family.Family.TheVariants as family;
ghost use Rattle.cct_acceptor.specs.Acceptor as acceptors;
ghost use Rattle.cct_bill.specs.Bill as bills;
ghost use Rattle.cct_hopper.specs.Hopper as hoppers;
ghost use Rattle.cct_bus.specs.Outcome.{becomes};

use crate::outcome::{Outcome, of_effect, of_inserted};
use arrayvec::ArrayVec;
use cct_acceptor::Acceptor;
use cct_bill::BillAcceptor;
use cct_hopper::Hopper;
use cct_model::{DeviceBody, DeviceSetup, Happening, MOST_SENT};
use std::alloc::{AllocError, Global};

/// A coin acceptor, a bill acceptor or a hopper. Its contracts describe it by all that it met,
/// newest first.
#[derive(Drop)]
pub(crate) enum Body<'s> {
    Acceptor(Acceptor<'s>),
    Hopper(Hopper<'s>),
    Bill(BillAcceptor<'s>),
}

impl<'s> Body<'s> {
    ghost use Rattle.cct_bus.specs.Body.{HasHeard, IsAtGap, StandsFor, family_in};

    /// The device of a setup as after power-up. This takes all memory that it ever has.
    pub(crate) fn new(alloc: Global, setup: &'s DeviceSetup) -> Result<Body<'s>, AllocError>
        requires sound { IsSound setup.now }
        ensures fresh { IfOk result (λ body. StandsFor body setup.now []) }
        ensures gap { IfOk result (λ body. IsAtGap body) }
    {
        match &setup.body {
            DeviceBody::Acceptor { .. } => Ok(Body::Acceptor(Acceptor::new(alloc, setup)?)),
            DeviceBody::Hopper { .. } => Ok(Body::Hopper(Hopper::new(setup))),
            DeviceBody::Bill { .. } => Ok(Body::Bill(BillAcceptor::new(alloc, setup)?)),
        }
    }

    /// It hears the bytes of a piece one by one, and then a gap: it acts on what they ask, and puts
    /// its answer in the place of what `said` holds: nothing where it is silent.
    #[tactic(auto, using(crate::proofs::Said::said_is))]
    pub(crate) fn hear(&mut self, piece: &[u8], said: &mut ArrayVec<u8, MOST_SENT>)
        requires gap { IsAtGap self.old }
        ensures stands { (d : DeviceSetup) (past : List Met) → StandsFor self.old d past
            → StandsFor self.new d (heard (asks_of d piece.now) ∷ past) }
        ensures answer { (d : DeviceSetup) (past : List Met) → StandsFor self.old d past
            → said.new.items ≡ unwrap_or (answer d past piece.now) [] }
        ensures gap { IsAtGap self.new }
    {
        match self {
            Body::Acceptor(acceptor) => {
                acceptor.hear(piece, said);
            }
            Body::Hopper(hopper) => {
                hopper.hear(piece, said);
            }
            Body::Bill(bills) => {
                bills.hear(piece, said);
            }
        }
    }

    /// Something happens to it that its family knows.
    pub(crate) fn befall(&mut self, what: Happening) -> Outcome
        requires known { known_to what (family_in self.old) ≡ true }
        requires placed { IsPlaced what }
        ensures stands { (d : DeviceSetup) (past : List Met) → StandsFor self.old d past
            → StandsFor self.new d (met_by what ∷ past) }
        ensures answer { (d : DeviceSetup) (past : List Met) → StandsFor self.old d past
            → result ≡ becomes what d.serial past }
        ensures heard { (bytes : List ℕ) → HasHeard self.old bytes → HasHeard self.new bytes }
    {
        match self {
            Body::Acceptor(acceptor) => befall_acceptor(acceptor, what),
            Body::Hopper(hopper) => befall_hopper(hopper, what),
            Body::Bill(bills) => befall_bills(bills, what),
        }
    }
}

/// Something happens to a coin acceptor.
fn befall_acceptor(acceptor: &mut Acceptor<'_>, what: Happening) -> Outcome
    requires known { known_to what family.Acceptor ≡ true }
    requires placed { IsPlaced what }
    ensures stands { (d : DeviceSetup) (past : List Met) → acceptors.StandsFor acceptor.old d past
        → acceptors.StandsFor acceptor.new d (met_by what ∷ past) }
    ensures answer { (d : DeviceSetup) (past : List Met) → acceptors.StandsFor acceptor.old d past
        → result ≡ becomes what d.serial past }
    ensures heard { (bytes : List ℕ) → acceptors.HasHeard acceptor.old bytes →
        acceptors.HasHeard acceptor.new bytes }
{
    match what {
        Happening::Coin { place } => of_inserted(acceptor.insert(place)),
        Happening::Alien => {
            acceptor.alien();
            Outcome::Nothing
        }
        Happening::Reset => {
            acceptor.reset();
            Outcome::Done
        }
        Happening::Bill { .. } => unreachable!(),
        Happening::Fall => unreachable!(),
        Happening::Jam => unreachable!(),
    }
}

/// Something happens to a hopper.
fn befall_hopper(hopper: &mut Hopper<'_>, what: Happening) -> Outcome
    requires known { known_to what family.Hopper ≡ true }
    ensures stands { (d : DeviceSetup) (past : List Met) → hoppers.StandsFor hopper.old d past
        → hoppers.StandsFor hopper.new d (met_by what ∷ past) }
    ensures answer { (d : DeviceSetup) (past : List Met) → hoppers.StandsFor hopper.old d past
        → result ≡ becomes what d.serial past }
    ensures heard { (bytes : List ℕ) → hoppers.HasHeard hopper.old bytes →
        hoppers.HasHeard hopper.new bytes }
{
    match what {
        Happening::Fall => of_effect(hopper.fall()),
        Happening::Jam => of_effect(hopper.jam()),
        Happening::Reset => {
            hopper.reset();
            Outcome::Done
        }
        Happening::Coin { .. } => unreachable!(),
        Happening::Alien => unreachable!(),
        Happening::Bill { .. } => unreachable!(),
    }
}

/// Something happens to a bill acceptor.
fn befall_bills(acceptor: &mut BillAcceptor<'_>, what: Happening) -> Outcome
    requires known { known_to what family.Bill ≡ true }
    requires placed { IsPlaced what }
    ensures stands { (d : DeviceSetup) (past : List Met) → bills.StandsFor acceptor.old d past
        → bills.StandsFor acceptor.new d (met_by what ∷ past) }
    ensures answer { (d : DeviceSetup) (past : List Met) → bills.StandsFor acceptor.old d past
        → result ≡ becomes what d.serial past }
    ensures heard { (bytes : List ℕ) → bills.HasHeard acceptor.old bytes →
        bills.HasHeard acceptor.new bytes }
{
    match what {
        Happening::Bill { place } => of_effect(acceptor.present(place)),
        Happening::Reset => {
            acceptor.reset();
            Outcome::Done
        }
        Happening::Coin { .. } => unreachable!(),
        Happening::Alien => unreachable!(),
        Happening::Fall => unreachable!(),
        Happening::Jam => unreachable!(),
    }
}
