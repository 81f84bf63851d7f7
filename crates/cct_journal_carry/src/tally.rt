//! What a host needs of all its records, kept as it goes on by them.
ghost use Rattle.std.specs.Prelude.{◌≡◌, ◌+◌, ◌^◌, ◌-◌, ◌<◌, true, false, IfSome, IfNone};
ghost use Rattle.cct_model.specs.Setup.{IsSoundSetup};
ghost use Rattle.cct_model.specs.Carried.{IsRightly, empty_carry};
ghost use Rattle.cct_model.specs.Carry.{Fits, IsSafe, carry_with, follows_carry};
ghost use Rattle.cct_record.specs.Body.{Encodable};
ghost use Rattle.cct_journal_carry.specs.Sound.{IsSafe-prop, IsSoundSetup-prop};

use crate::fits::fits;
use crate::following::follows;
use crate::going_on::go_on;
use cct_model::{Carry, DEVICES, Record, Setup};

/// The carry of all records that a host went over, of which each follows those before it.
#[derive(Drop)]
pub struct Tally<'s> {
    setup: &'s Setup,
    /// How many records it went over.
    many: u32,
    carry: Carry,
    ghost sound: { IsSoundSetup setup.now } by { IsSoundSetup-prop setup.now },
    ghost safe: { IsSafe setup.now many carry } by { IsSafe-prop setup.now many carry },
}

impl<'s> Tally<'s> {
    ghost use Rattle.cct_journal_carry.specs.Tally.{Counts, carry_in, many_of, setup_of};

    /// The tally of no record.
    pub fn new(setup: &'s Setup) -> Tally<'s>
        requires sound { IsSoundSetup setup.now }
        ensures setup { setup_of result ≡ setup.now }
        ensures none { many_of result ≡ 0 }
        ensures empty { carry_in result ≡ empty_carry }
    {
        Tally {
            setup,
            many: 0,
            carry: Carry::empty(),
        }
    }

    /// The tally of so many records that are not known.
    pub fn counted(setup: &'s Setup, many: u32) -> Tally<'s>
        requires sound { IsSoundSetup setup.now }
        ensures setup { setup_of result ≡ setup.now }
        ensures many { many_of result ≡ many }
    {
        Tally {
            setup,
            many,
            carry: Carry::empty(),
        }
    }

    /// The tally of the records of a carry, of which there are `many`; none where the carry doesn't
    /// fit the setup.
    pub fn resume(setup: &'s Setup, many: u32, carry: &Carry) -> Option<Tally<'s>>
        requires sound { IsSoundSetup setup.now }
        requires rightly { IsRightly many carry.now }
        ensures resumed { IfSome result (λ tally. Counts setup.now many carry.now tally) }
        ensures fits { IfSome result (λ tally. Fits setup.now carry.now) }
        ensures refused { IfNone result (Fits setup.now carry.now → ⊥) }
    {
        if fits(setup, carry) {
            Some(Tally {
                setup,
                many,
                carry: carry.copied(),
            })
        } else {
            None
        }
    }

    /// Goes over one more record, after fewer than 2^32 - 1 of them, and says whether it follows
    /// them. One that doesn't is counted alone.
    pub fn add(&mut self, entry: &Record) -> bool
        requires few { many_of self.old < 2 ^ 32 - 1 }
        requires encodable { Encodable entry.now }
        ensures setup { setup_of self.new ≡ setup_of self.old }
        ensures counted { many_of self.new ≡ many_of self.old + 1 }
        ensures follows { result ≡ follows_carry (setup_of self.old) (carry_in self.old) entry.now }
        ensures next { result ≡ true → carry_in self.new
            ≡ carry_with (setup_of self.old) entry.now (carry_in self.old) }
        ensures kept { result ≡ false → carry_in self.new ≡ carry_in self.old }
    {
        // There is room for one more epoch or order: at most one is at each device.
        prove!(self.setup.devices.as_slice().len() <= DEVICES);
        let follows = follows(self.setup, &self.carry, entry);
        if follows {
            go_on(self.setup, &mut self.carry, entry);
        }
        self.many += 1;
        follows
    }

    /// The setup.
    pub fn setup(&self) -> &'s Setup
        ensures { result ≡ self.now.setup }
    {
        self.setup
    }

    /// How many records it went over.
    pub fn many(&self) -> u32
        ensures { result ≡ many_of self.now }
    {
        self.many
    }

    /// Their carry.
    pub fn carry(&self) -> &Carry
        ensures value { result.now ≡ carry_in self.now }
        ensures safe { IsSafe (setup_of self.now) (many_of self.now) result.now }
    {
        &self.carry
    }
}
