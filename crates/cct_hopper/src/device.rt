//! What a hopper holds in whatever state it is (ccTalk Generic Specification 4, part 3).
ghost use Rattle.std.specs.Prelude.{◌≡◌, ◌<◌, ◌==◌, ◌+◌, ◌^◌, ℕ, List, [], ◌∷◌, ◌++◌};
ghost use Rattle.std.specs.Prelude.{if◌then◌else◌};
ghost use Rattle.cct_device_core.specs.Listening.{kind_of};

use cct_device_core::Listener;
use cct_life::LifeCount;
use cct_model_wire::DeviceSetup;

/// The hopper itself, without what its state shows: whether it may pay, and how many coins are left
/// to fall.
#[derive(Clone, Copy)]
pub(crate) struct Device<'s> {
    pub(crate) setup: &'s DeviceSetup,
    pub(crate) listener: Listener,
    /// How many coins it ever paid.
    pub(crate) life: LifeCount,
    /// The event counter, which counts payouts: 0 before the first, then 1 to 255, and 1 again.
    pub(crate) counter: u8,
    /// How many coins of the last payout were paid.
    pub(crate) paid: u8,
    /// How many coins of the last payout stayed unpaid.
    pub(crate) unpaid: u8,
    /// Whether a jam ended the last payout.
    pub(crate) timeout: bool,
    /// Whether the test register was read.
    pub(crate) tested: bool,
    ghost check: { kind_of listener ≡ setup.now.kind },
    ghost serial: { setup.now.serial < 2 ^ 24 },
}

impl<'s> Device<'s> {
    ghost use Rattle.cct_life.specs.Life.{count_of};
    ghost use Rattle.cct_hopper.specs.Hopper.{DeviceHeard, at_power_up, memory};

    /// The hopper of a setup as after a reset, with this life count. What it heard since the last
    /// gap stays with it.
    pub(crate) fn new(setup: &'s DeviceSetup, life: LifeCount, listener: Listener) -> Device<'s>
        requires serial { setup.now.serial < 2 ^ 24 }
        requires check { kind_of listener ≡ setup.now.kind }
        ensures setup { result.setup.now ≡ setup.now }
        ensures listener { result.listener ≡ listener }
        ensures memory { memory result ≡ at_power_up (count_of life) }
    {
        Device {
            setup,
            listener,
            life,
            counter: 0,
            paid: 0,
            unpaid: 0,
            timeout: false,
            tested: false,
        }
    }

    /// Hears one byte more.
    #[inline]
    pub(crate) fn byte(&mut self, byte: u8)
        ensures setup { self.new.setup ≡ self.old.setup }
        ensures memory { memory self.new ≡ memory self.old }
        ensures heard { (bytes : List ℕ) → DeviceHeard self.old bytes →
            DeviceHeard self.new (bytes ++ byte ∷ []) }
    {
        self.listener.byte(self.setup.addr, byte);
    }

    /// No byte came since the last gap any more.
    #[inline]
    pub(crate) fn forget_bytes(&mut self)
        ensures setup { self.new.setup ≡ self.old.setup }
        ensures memory { memory self.new ≡ memory self.old }
        ensures gap { DeviceHeard self.new [] }
    {
        self.listener.gap();
    }
}

/// The event counter of one payout more: after 255 stands 1.
pub(crate) fn next_event(counter: u8) -> u8
    ensures { result ≡ (if counter == 255 then 1 else counter + 1) }
{
    counter.checked_add(1).unwrap_or(1)
}
