//! The books that are kept over the records of a journal.
ghost use Rattle.std.specs.Prelude.{◌≡◌, ◌+◌, ◌-◌, ◌^◌, ℕ, [], IfOk, IfSome, OnErr, OnOk};
ghost use Rattle.std.specs.Prelude.{option_map};
ghost use Rattle.cct_model.specs.Carried.{IsRightly};
ghost use Rattle.cct_model.specs.Setup.{IsSoundSetup};
ghost use Rattle.cct_record.specs.Body.{Encodable};

use crate::account::Account;
use crate::money::{Misfit, begin, go_over};
use crate::owners::{ADDRESSES, accounts_of, change};
use arrayvec::ArrayVec;
use cct_bench_report::Sums;
use cct_journal_carry::{Tally, id_of};
use cct_model::{Carry, Record, Setup};

/// What the records say so far: of each address, the greatest id, the sums over all, and, where a
/// setup is given, what they are worth.
#[derive(Drop)]
pub(crate) struct Books<'s> {
    pub(crate) accounts: ArrayVec<Account, ADDRESSES>,
    pub(crate) last_id: u32,
    pub(crate) sums: Sums,
    pub(crate) tally: Option<Tally<'s>>,
}

impl<'s> Books<'s> {
    ghost use Rattle.cct_bench_state.specs.Books.{Keeps, SuitsSetup};
    ghost use Rattle.cct_bench_state.specs.Reading.{AreReady, FollowsNot, GoesOn};

    /// The books over the records of a carry, of which there are `many`.
    pub(crate) fn of(setup: Option<&'s Setup>, many: u32, carry: &Carry) -> Result<Self, Misfit>
        requires sound { IfSome setup (λ setup. IsSoundSetup setup.now) }
        requires rightly { IsRightly many carry.now }
        ensures keeps { IfOk result (Keeps (option_map (λ s. s.now) setup.entry) carry.now []) }
        ensures ready { IfOk result (AreReady many) }
        ensures refused { OnErr result (SuitsSetup (option_map (λ s. s.now) setup.entry) carry.now
            [] → ⊥) }
    {
        let tally = begin(setup, many, carry)?;
        Ok(Books {
            accounts: accounts_of(carry),
            last_id: carry.last_id,
            sums: Sums::of(carry),
            tally,
        })
    }

    /// One record more, by which no sum grows by more than 2^32. One that doesn't follow is counted
    /// alone.
    pub(crate) fn add(&mut self, entry: &Record) -> Result<(), Misfit>
        requires ready { AreReady (2 ^ 32 - 2) self.old }
        requires encodable { Encodable entry.now }
        ensures keeps { OnOk result (GoesOn entry.now self.old self.new) }
        ensures ready { OnOk result ((many : ℕ) → AreReady many self.old →
            AreReady (many + 1) self.new) }
        ensures refused { OnErr result (FollowsNot entry.now self.old) }
    {
        go_over(&mut self.tally, entry)?;
        change(&mut self.accounts, entry);
        self.last_id = id_of(entry).max(self.last_id);
        self.sums.add(entry);
        Ok(())
    }
}
