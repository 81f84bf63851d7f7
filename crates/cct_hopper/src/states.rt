//! The three states of a hopper as types (ccTalk Generic Specification 4, part 3). Each owns the
//! whole hopper, and each call consumes it and gives the next one, so nobody asks a hopper to pay
//! that is off or pays already.
ghost use Rattle.std.specs.Prelude.{◌≡◌, ◌≢◌, ◌==◌, ◌≤◌, ◌<◌, ◌+◌, ◌^◌, ⊤, false, Some, None, List};
ghost use Rattle.std.specs.Prelude.{ℕ, [], ◌∷◌, IfSome, MatchOption, MatchResult};

use crate::device::{Device, next_event};
use cct_device_core::Listener;
use cct_life::LifeCount;
use cct_model_wire::DeviceSetup;
use thiserror::Error;

/// A hopper that may not pay, as it is after power-up.
#[derive(Drop)]
pub struct HopperOff<'s> {
    pub(crate) device: Device<'s>,
}

/// A hopper that may pay, with no coin left to pay.
#[derive(Drop)]
pub struct HopperIdle<'s> {
    pub(crate) device: Device<'s>,
}

/// A hopper that pays.
#[derive(Drop)]
pub struct HopperPaying<'s> {
    pub(crate) device: Device<'s>,
    /// How many coins are left to fall.
    pub(crate) remaining: u8,
    ghost some: { remaining ≢ 0 },
    ghost count: { device.paid + remaining ≤ 255 },
}

/// What a hopper is after a coin of its payout fell.
#[derive(Drop)]
pub enum AfterFall<'s> {
    /// Coins are left to fall.
    Paying(HopperPaying<'s>),
    /// It was the last one.
    Idle(HopperIdle<'s>),
}

/// Why an idle hopper doesn't pay what it is asked.
#[derive(Clone, Copy, Debug, Error, PartialEq, Eq)]
pub enum DispenseNo {
    /// The request is for a hopper with another serial number.
    #[error("the serial number is another hopper's")]
    WrongSerial,
    /// The request is for no coin.
    #[error("a payout has one coin or more")]
    Nothing,
}

impl<'s> HopperOff<'s> {
    ghost use Rattle.cct_model_wire.specs.declared.device.DeviceSetup.{DeviceSetup};
    ghost use Rattle.cct_model_wire.specs.declared.request.TheConstants.{ENABLE_CODE};
    ghost use Rattle.cct_model_wire.specs.declared.request.Request.TheVariants.{Enable};
    ghost use Rattle.cct_model_wire.specs.Device.{IsHopper};
    ghost use Rattle.cct_model_wire.specs.History.{Met, heard, reset};
    ghost use Rattle.cct_life.specs.Life.{count_of};
    ghost use Rattle.cct_hopper.specs.Hopper.{HasHeard, IsAtGap, StandsFor, start_of};
    ghost use Rattle.cct_hopper.specs.declared.hopper.Hopper.TheVariants.{Idle, Off};

    /// The hopper of a setup after power-up, with this life count.
    pub(crate) fn new(setup: &'s DeviceSetup, life: LifeCount) -> HopperOff<'s>
        requires serial { setup.now.serial < 2 ^ 24 }
        requires hopper { IsHopper setup.now.body }
        requires life { count_of life ≡ start_of setup.now.body }
        ensures fresh { StandsFor (Off result) setup.now [] }
        ensures gap { IsAtGap (Off result) }
    {
        HopperOff {
            device: Device::new(setup, life, Listener::new(setup.kind)),
        }
    }

    /// Header 164 with the code that enables it.
    pub fn enable(self) -> HopperIdle<'s>
        ensures stands { (d : DeviceSetup) (past : List Met) → StandsFor (Off self.entry) d past
            → StandsFor (Idle result) d (heard (Some (Enable ENABLE_CODE)) ∷ past) }
        ensures heard { (bytes : List ℕ) → HasHeard (Off self.entry) bytes →
            HasHeard (Idle result) bytes }
    {
        HopperIdle {
            device: self.device,
        }
    }

    /// Starts again as after power-up, with the life count that it has.
    pub fn reset(self) -> HopperOff<'s>
        ensures stands { (d : DeviceSetup) (past : List Met) → StandsFor (Off self.entry) d past
            → StandsFor (Off result) d (reset ∷ past) }
        ensures heard { (bytes : List ℕ) → HasHeard (Off self.entry) bytes →
            HasHeard (Off result) bytes }
    {
        HopperOff {
            device: Device::new(self.device.setup, self.device.life, self.device.listener),
        }
    }

    /// The same hopper once more, where the one at hand is let go or replaced: what borrows isn't
    /// moved out of it.
    pub(crate) fn twin(&self) -> HopperOff<'s>
        ensures { result ≡ self.now }
    {
        HopperOff {
            device: self.device,
        }
    }
}

impl<'s> HopperIdle<'s> {
    ghost use Rattle.cct_model_wire.specs.declared.device.DeviceSetup.{DeviceSetup};
    ghost use Rattle.cct_model_wire.specs.declared.request.TheConstants.{ENABLE_CODE};
    ghost use Rattle.cct_model_wire.specs.declared.request.Request.TheVariants.{Dispense, Enable};
    ghost use Rattle.cct_model_wire.specs.History.{Met, heard, reset};
    ghost use Rattle.cct_hopper.specs.Hopper.{HasHeard, StandsFor, after_dispense, refusal};
    ghost use Rattle.cct_hopper.specs.Hopper.{serial_of};
    ghost use Rattle.cct_hopper.specs.declared.hopper.Hopper.TheVariants.{Idle, Off};

    /// Header 164 with any other code.
    pub fn disable(self) -> HopperOff<'s>
        ensures stands { (d : DeviceSetup) (past : List Met) (code : ℕ) → code ≢ ENABLE_CODE
            → StandsFor (Idle self.entry) d past → StandsFor (Off result) d (heard (Some (Enable code)) ∷ past) }
        ensures heard { (bytes : List ℕ) → HasHeard (Idle self.entry) bytes →
            HasHeard (Off result) bytes }
    {
        HopperOff {
            device: self.device,
        }
    }

    /// Why header 167 finds it unwilling to pay so many coins, or none where it pays them.
    pub(crate) fn refusal(&self, serial: u32, count: u8) -> Option<DispenseNo>
        ensures why { result ≡ refusal (serial_of self.now) serial count }
        ensures pays { MatchOption result ((serial ≡ serial_of self.now) × (count ≢ 0)) (λ _. ⊤) }
        ensures stays { (d : DeviceSetup) (past : List Met) → StandsFor (Idle self.now) d past
            → IfSome result (λ _. StandsFor (Idle self.now) d (heard (Some (Dispense serial count)) ∷ past)) }
    {
        if serial != self.device.setup.serial {
            Some(DispenseNo::WrongSerial)
        } else if count == 0 {
            Some(DispenseNo::Nothing)
        } else {
            None
        }
    }

    /// Header 167: pays so many coins, where the serial number is its own and the count isn't 0.
    /// Else it comes back as it was, with the reason: the serial number is looked at first.
    pub fn dispense(
        self,
        serial: u32,
        count: u8,
    ) -> Result<HopperPaying<'s>, (HopperIdle<'s>, DispenseNo)>
        // The idle hopper is consumed, so no other payout can be asked for.
        ensures stands { (d : DeviceSetup) (past : List Met) → StandsFor (Idle self.entry) d past
            → StandsFor (after_dispense result) d (heard (Some (Dispense serial count)) ∷ past) }
        // It comes back as it was, with the reason; the serial number is looked at first.
        ensures refused { MatchResult result (λ _. refusal (serial_of self.entry) serial count ≡ None)
            (λ no. (no.0 ≡ self.entry) × (refusal (serial_of self.entry) serial count ≡ Some no.1)) }
        ensures heard { (bytes : List ℕ) → HasHeard (Idle self.entry) bytes →
            HasHeard (after_dispense result) bytes }
    {
        if let Some(no) = self.refusal(serial, count) {
            return Err((self.twin(), no));
        }
        let mut device = self.device;
        device.counter = next_event(device.counter);
        device.paid = 0;
        device.unpaid = 0;
        device.timeout = false;
        Ok(HopperPaying {
            device,
            remaining: count,
        })
    }

    /// Starts again as after power-up, with the life count that it has.
    pub fn reset(self) -> HopperOff<'s>
        ensures stands { (d : DeviceSetup) (past : List Met) → StandsFor (Idle self.entry) d past
            → StandsFor (Off result) d (reset ∷ past) }
        ensures heard { (bytes : List ℕ) → HasHeard (Idle self.entry) bytes →
            HasHeard (Off result) bytes }
    {
        HopperOff {
            device: Device::new(self.device.setup, self.device.life, self.device.listener),
        }
    }

    /// The same hopper once more, where the one at hand is let go or replaced: what borrows isn't
    /// moved out of it.
    pub(crate) fn twin(&self) -> HopperIdle<'s>
        ensures { result ≡ self.now }
    {
        HopperIdle {
            device: self.device,
        }
    }
}

impl<'s> HopperPaying<'s> {
    ghost use Rattle.cct_model_wire.specs.declared.device.DeviceSetup.{DeviceSetup};
    ghost use Rattle.cct_model_wire.specs.declared.request.TheConstants.{ENABLE_CODE};
    ghost use Rattle.cct_model_wire.specs.declared.request.Request.TheVariants.{Enable, StopNow};
    ghost use Rattle.cct_model_wire.specs.History.{Met, fall, heard, jam, reset};
    ghost use Rattle.cct_model_wire.specs.Hopper.{remaining};
    ghost use Rattle.cct_hopper.specs.Hopper.{HasHeard, StandsFor, after_fall};
    ghost use Rattle.cct_hopper.specs.declared.hopper.Hopper.TheVariants.{Idle, Off, Paying};

    /// A coin falls out: it is paid, and the life count rises. After the last one the hopper is
    /// idle.
    pub fn fall(self) -> AfterFall<'s>
        ensures stands { (d : DeviceSetup) (past : List Met) → StandsFor (Paying self.entry) d past
            → StandsFor (after_fall result) d (fall ∷ past) }
        ensures heard { (bytes : List ℕ) → HasHeard (Paying self.entry) bytes →
            HasHeard (after_fall result) bytes }
    {
        let left = self.remaining - 1;
        let mut device = self.device;
        device.life.rise();
        device.paid += 1;
        if left == 0 {
            AfterFall::Idle(HopperIdle { device })
        } else {
            AfterFall::Paying(HopperPaying {
                device,
                remaining: left,
            })
        }
    }

    /// A coin is stuck: what is left stays unpaid, and the test register shows a timeout.
    pub fn jam(self) -> HopperIdle<'s>
        ensures stands { (d : DeviceSetup) (past : List Met) → StandsFor (Paying self.entry) d past
            → StandsFor (Idle result) d (jam ∷ past) }
        ensures heard { (bytes : List ℕ) → HasHeard (Paying self.entry) bytes →
            HasHeard (Idle result) bytes }
    {
        let mut device = self.device;
        device.unpaid = self.remaining;
        device.timeout = true;
        HopperIdle { device }
    }

    /// Header 172: what is left stays unpaid, and is reported. The hopper may still pay afterwards.
    pub fn stop(self) -> (HopperIdle<'s>, u8)
        ensures stands { (d : DeviceSetup) (past : List Met) → StandsFor (Paying self.entry) d past
            → StandsFor (Idle result.0) d (heard (Some StopNow) ∷ past) }
        ensures told { (d : DeviceSetup) (past : List Met) → StandsFor (Paying self.entry) d past
            → result.1 ≡ remaining d.serial past }
        ensures heard { (bytes : List ℕ) → HasHeard (Paying self.entry) bytes →
            HasHeard (Idle result.0) bytes }
    {
        let mut device = self.device;
        device.unpaid = self.remaining;
        (HopperIdle { device }, self.remaining)
    }

    /// Header 164 with any code but that which enables it: what is left stays unpaid.
    pub(crate) fn disable(self) -> HopperOff<'s>
        ensures stands { (d : DeviceSetup) (past : List Met) (code : ℕ) → code ≢ ENABLE_CODE
            → StandsFor (Paying self.entry) d past → StandsFor (Off result) d (heard (Some (Enable code)) ∷ past) }
        ensures heard { (bytes : List ℕ) → HasHeard (Paying self.entry) bytes →
            HasHeard (Off result) bytes }
    {
        let mut device = self.device;
        device.unpaid = self.remaining;
        HopperOff { device }
    }

    /// Starts again as after power-up, with the life count that it has.
    pub fn reset(self) -> HopperOff<'s>
        ensures stands { (d : DeviceSetup) (past : List Met) → StandsFor (Paying self.entry) d past
            → StandsFor (Off result) d (reset ∷ past) }
        ensures heard { (bytes : List ℕ) → HasHeard (Paying self.entry) bytes →
            HasHeard (Off result) bytes }
    {
        HopperOff {
            device: Device::new(self.device.setup, self.device.life, self.device.listener),
        }
    }

    /// The same hopper once more, where the one at hand is let go or replaced: what borrows isn't
    /// moved out of it.
    pub(crate) fn twin(&self) -> HopperPaying<'s>
        ensures device { result.device ≡ self.now.device }
        ensures remaining { result.remaining ≡ self.now.remaining }
    {
        HopperPaying {
            device: self.device,
            remaining: self.remaining,
        }
    }
}
