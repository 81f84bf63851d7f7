//! The table of least numbers of coins.
ghost use Rattle.std.specs.Prelude.{◌≡◌, ◌≤◌, ◌↔◌, IsTrue, IfOk, List, [], length, Some, None};
ghost use Rattle.std.specs.Bool.{OnTrue, OnFalse};
ghost use Rattle.cct_model.specs.Plan.{IsChosen, HasNoPlan};
ghost use Rattle.cct_plan.specs.Certificate.{Proves};
ghost use Rattle.cct_model.specs.lines.command.TheConstants.{GREATEST_AMOUNT};

use crate::choosing::{has_none_fewer, set_out};
use crate::filling::{FAR, ROW};
use crate::tray::TRAYS;
use arrayvec::ArrayVec;
use cct_model::Tray;
use std::alloc::{AllocError, Global};
use std::marker::Model;

/// A table of least numbers of coins: for each suffix of the trays of the plan that was asked last,
/// and for each amount up to the asked one, the least number of coins that pays it. So it is the
/// certificate of that plan.
///
/// A contract sees what a table was asked last, or nothing where it is new.
#[derive(Drop)]
pub struct Table {
    trays: ArrayVec<Tray, TRAYS>,
    amount: Option<u32>,
    /// Row by row: that of the last tray first, and `ROW` amounts in each. It is empty until a plan
    /// is asked, so that a table that is never asked costs no time, and no page of memory is
    /// touched for it.
    least: Vec<u16>,
}

impl Model for Table {
    ghost use Rattle.std.specs.Prelude.{◌≡◌, ◌*◌, ◌≤◌, length, Option, vec_capacity, vec_len};
    ghost use Rattle.cct_plan.specs.declared.tray.TheConstants.{TRAYS};
    ghost use Rattle.cct_plan.specs.declared.filling.TheConstants.{ROW};
    ghost use Rattle.cct_plan.specs.Certificate.{Asked};
    ghost use Rattle.cct_plan.specs.Row.{asked_in, cells_for, TellsAsked};

    ghost Value = { Option Asked };

    ghost view = { λ s. asked_in s.trays.items s.amount };

    ghost invariant = { λ s. (TRAYS * ROW ≤ vec_capacity s.least) × (vec_len s.least ≡ cells_for s.amount)
        × (length s.trays.items ≤ TRAYS) × TellsAsked s.least.items s.trays.items s.amount };
}

impl Table {
    /// A table that was asked nothing yet. This takes all memory that it ever has: room for 32
    /// trays and each amount.
    ///
    /// Fails only where there is no memory for them.
    pub fn new(alloc: Global) -> Result<Table, AllocError>
        ensures { IfOk result (λ table. table ≡ None) }
    {
        Ok(Table {
            trays: ArrayVec::new(),
            amount: None,
            least: Vec::with_capacity(alloc, TRAYS * ROW)?,
        })
    }

    /// Whether coins of these trays can pay an amount exactly, and how: `counts` is then the chosen
    /// plan, one count for each tray in their order, at most its stock and at most 255. It has as
    /// few coins as any plan; of those it is the one with the greatest count at the first tray,
    /// then at the second, and so on. Where there is no plan `counts` is empty.
    ///
    /// This takes no memory, and time that grows with the trays times the amount, whatever their
    /// stocks.
    pub fn plan(&mut self, trays: &[Tray], amount: u32, counts: &mut ArrayVec<u8, TRAYS>) -> bool
        requires few { length trays.now ≤ TRAYS }
        requires within { amount ≤ GREATEST_AMOUNT }
        ensures asked { self.new ≡ Some (record { trays = trays.now; amount = amount }) }
        ensures chosen { OnTrue result (IsChosen trays.now amount counts.new.items) }
        ensures none { OnFalse result ((counts.new.items ≡ []) × HasNoPlan trays.now amount) }
    {
        self.least.resize(TRAYS * ROW, FAR).unwrap();
        keep(&mut self.trays, trays);
        self.amount = Some(amount);
        set_out(&mut self.least, trays, amount as usize, counts)
    }

    /// Whether this table shows that no plan has fewer than `count` coins: it was last asked for
    /// these trays and this amount, and there is none. So it is `false` for each number above that
    /// of the plan, and for a new table; where there is no plan at all, no plan has fewer than any
    /// number.
    pub fn proves(&self, trays: &[Tray], amount: u32, count: u32) -> bool
        requires few { length trays.now ≤ TRAYS }
        requires within { amount ≤ GREATEST_AMOUNT }
        ensures { IsTrue result ↔ Proves self.now trays.now amount count }
    {
        if self.amount != Some(amount) {
            return false;
        }
        if !are_same(&self.trays, trays) {
            return false;
        }
        has_none_fewer(&self.least, trays, amount as usize, count)
    }
}

/// Keeps a copy of these trays in place of those before.
fn keep(kept: &mut ArrayVec<Tray, TRAYS>, trays: &[Tray])
    requires { length trays.now ≤ TRAYS }
    ensures { kept.new.items ≡ trays.now }
{
    kept.clear();
    for tray in trays {
        kept.push(*tray);
    }
}

/// Whether these are the same trays in the same order.
fn are_same(trays: &[Tray], others: &[Tray]) -> bool
    ensures { IsTrue result ↔ (trays.now ≡ others.now) }
{
    if trays.len() != others.len() {
        return false;
    }
    for i in 0..trays.len() {
        if trays[i] != others[i] {
            return false;
        }
    }
    true
}
