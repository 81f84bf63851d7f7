//! One device on the wire.
ghost use Rattle.std.specs.Prelude.{◌≡◌, ◌≤◌, true, List, ◌∷◌, [], IfOk, length, unwrap_or};
ghost use Rattle.cct_model.specs.terms.device.DeviceSetup.{DeviceSetup};
ghost use Rattle.cct_model.specs.Device.{IsSound};
ghost use Rattle.cct_model.specs.Exchange.{answer, asks_of};
ghost use Rattle.cct_model.specs.Family.{IsPlaced, family_of, known_to, met_by};
ghost use Rattle.cct_model.specs.History.{Met, heard};
ghost use Rattle.cct_bus.specs.Body.{KeepsGap, StandsFor};
ghost use Rattle.cct_bus.specs.Outcome.{becomes};
ghost use Rattle.cct_bus.specs.Room.{most_said};

use crate::body::Body;
use crate::outcome::Outcome;
use arrayvec::ArrayVec;
use cct_model::{DeviceSetup, Happening, MOST_SENT};
use std::alloc::{AllocError, Global};

/// A device on the wire, with its setup. Between two calls no byte came to it since the last gap.
#[derive(Drop)]
pub(crate) struct Device<'s> {
    pub(crate) setup: &'s DeviceSetup,
    body: Body<'s>,
    ghost still: { KeepsGap body },
    ghost lived: { ∥ ((past : List Met) × StandsFor body setup.now past) ∥₁ },
}

impl<'s> Device<'s> {
    ghost use Rattle.cct_bus.specs.Device.{Lived, setup_in};

    /// The device of a setup as after power-up. This takes all memory that it ever has.
    pub(crate) fn new(alloc: Global, setup: &'s DeviceSetup) -> Result<Device<'s>, AllocError>
        requires sound { IsSound setup.now }
        ensures setup { IfOk result (λ device. setup_in device ≡ setup.now) }
        ensures fresh { IfOk result (λ device. Lived device []) }
    {
        let body = Body::new(alloc, setup)?;
        Ok(Device { setup, body })
    }

    /// The device hears a piece byte by byte and then a gap, acts on what it asks, and puts its
    /// answer in the place of what `said` holds: nothing where it is silent.
    pub(crate) fn hear(&mut self, piece: &[u8], said: &mut ArrayVec<u8, MOST_SENT>)
        ensures setup { self.new.setup ≡ self.old.setup }
        ensures lived { (past : List Met) → Lived self.old past
            → Lived self.new (heard (asks_of (setup_in self.old) piece.now) ∷ past) }
        ensures answer { (past : List Met) → Lived self.old past
            → said.new.items ≡ unwrap_or (answer (setup_in self.old) past piece.now) [] }
        ensures room { length said.new.items ≤ MOST_SENT → length said.new.items
            ≤ most_said (setup_in self.old).addr piece.now }
    {
        self.body.hear(piece, said);
    }

    /// Something happens to the device that its family knows.
    pub(crate) fn befall(&mut self, what: Happening) -> Outcome
        requires known { known_to what (family_of (setup_in self.old).body) ≡ true }
        requires placed { IsPlaced what }
        ensures setup { self.new.setup ≡ self.old.setup }
        ensures lived { (past : List Met) → Lived self.old past →
            Lived self.new (met_by what ∷ past) }
        ensures answer { (past : List Met) → Lived self.old past
            → result ≡ becomes what (setup_in self.old).serial past }
    {
        self.body.befall(what)
    }
}
