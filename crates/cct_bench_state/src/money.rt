//! What the operator has, where a setup says what coins are worth.
ghost use Rattle.std.specs.Prelude.{◌≡◌, ◌+◌, ◌-◌, ◌^◌, ◌<◌, ◌≤◌, ◌∷◌, [], ℕ, List, Option, IfOk};
ghost use Rattle.std.specs.Prelude.{IfSome, OnErr, OnOk, is_ok, option_map};
ghost use Rattle.cct_journal_carry.specs.GoingOn.{IsCovered};
ghost use Rattle.cct_journal_carry.specs.Tally as tallies;
ghost use Rattle.cct_model.specs.Carried.{IsRightly};
ghost use Rattle.cct_model.specs.Carry.{carry_with, follows_carry, owed_by};
ghost use Rattle.cct_model.specs.Setup.{IsSoundSetup};
ghost use Rattle.cct_model.specs.lines.carry.Carry.{Carry};
ghost use Rattle.cct_model.specs.lines.record.Record.{Record};
ghost use Rattle.cct_model.specs.terms.device.Setup.{Setup};
ghost use Rattle.cct_record.specs.Body.{Encodable};
ghost use Rattle.cct_bench_state.specs.Books.{SuitsSetup, Tallies, money_in};

use cct_journal_carry::{Tally, coins_of};
use cct_model::{Carry, CarryOrder, Record, Setup, Totals};

/// A carry that doesn't fit the setup, or a record that doesn't follow.
pub(crate) struct Misfit;

/// The tally of the records of a carry, of which there are `many`, where a setup is given.
pub(crate) fn begin<'s>(
    setup: Option<&'s Setup>,
    many: u32,
    carry: &Carry,
) -> Result<Option<Tally<'s>>, Misfit>
    requires sound { IfSome setup (λ setup. IsSoundSetup setup.now) }
    requires rightly { IsRightly many carry.now }
    ensures begins { IfOk result (Tallies (option_map (λ s. s.now) setup.entry) carry.now []) }
    ensures counted { IfOk result (λ tally. IfSome tally (λ t. tallies.many_of t ≤ many)) }
    ensures refused { OnErr result (SuitsSetup (option_map (λ s. s.now) setup.entry) carry.now [] →
        ⊥) }
{
    let Some(setup) = setup else {
        return Ok(None);
    };
    match Tally::resume(setup, many, carry) {
        Some(tally) => Ok(Some(tally)),
        None => Err(Misfit),
    }
}

/// A tally, where there is one, goes over one record more, if it follows.
pub(crate) fn go_over(tally: &mut Option<Tally<'_>>, entry: &Record) -> Result<(), Misfit>
    requires few { IfSome tally.old (λ tally. tallies.many_of tally < 2 ^ 32 - 1) }
    requires encodable { Encodable entry.now }
    ensures counted { (many : ℕ) → IfSome tally.old (λ tally. tallies.many_of tally ≤ many)
        → IfSome tally.new (λ tally. tallies.many_of tally ≤ many + 1) }
    ensures goes_on { OnOk result ((setup : Option Setup) (c : Carry) (before : List Record)
        → Tallies setup c before tally.old → Tallies setup c (entry.now ∷ before) tally.new) }
    ensures refused { OnErr result ((setup : Option Setup) (c : Carry) (before : List Record)
        → Tallies setup c before tally.old → SuitsSetup setup c (entry.now ∷ before) → ⊥) }
{
    match tally {
        Some(tally) => follow(tally, entry),
        None => Ok(()),
    }
}

/// A tally goes over one record more, if it follows.
fn follow(tally: &mut Tally<'_>, entry: &Record) -> Result<(), Misfit>
    requires few { tallies.many_of tally.old < 2 ^ 32 - 1 }
    requires encodable { Encodable entry.now }
    ensures setup { tallies.setup_of tally.new ≡ tallies.setup_of tally.old }
    ensures counted { tallies.many_of tally.new ≡ tallies.many_of tally.old + 1 }
    ensures follows { is_ok result ≡ follows_carry (tallies.setup_of tally.old)
        (tallies.carry_in tally.old) entry.now }
    ensures next { OnOk result (tallies.carry_in tally.new
        ≡ carry_with (tallies.setup_of tally.old) entry.now (tallies.carry_in tally.old)) }
{
    if tally.add(entry) {
        Ok(())
    } else {
        Err(Misfit)
    }
}

/// What the operator has by the carry of a tally.
pub(crate) fn money_of(tally: &Tally<'_>) -> Totals
    ensures { result ≡ money_in (tallies.setup_of tally.now) (tallies.carry_in tally.now) }
{
    totals_by(tally.setup(), tally.carry())
}

/// What the operator has by a carry.
fn totals_by(setup: &Setup, carry: &Carry) -> Totals
    requires { IsCovered setup.now carry.now }
    ensures { result ≡ money_in setup.now carry.now }
{
    let earned = carry.value - carry.paid_value - carry.sold;
    let reserved = owed(setup, carry.orders.as_slice()) + carry.odd_value;
    Totals {
        available: earned - reserved,
        reserved,
        paid: carry.paid_value,
        sold: carry.sold,
    }
}

/// The amounts of open orders.
fn owed(setup: &Setup, orders: &[CarryOrder]) -> u64
    requires { owed_by setup.now orders.now < 2 ^ 64 }
    ensures { result ≡ owed_by setup.now orders.now }
{
    let mut owed = 0;
    for order in orders {
        owed += coins_of(setup, order.addr, order.count);
    }
    owed
}
