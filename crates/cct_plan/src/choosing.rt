//! Reading the chosen plan off the table.
ghost use Rattle.std.specs.Prelude.{◌≡◌, ◌≢◌, ℕ, ◌+◌, ◌-◌, ◌*◌, ◌<◌, ◌≤◌, ◌↔◌, IsTrue, List, []};
ghost use Rattle.std.specs.Prelude.{length};
ghost use Rattle.std.specs.Bool.{OnTrue, OnFalse};
ghost use Rattle.cct_model.specs.Plan.{IsChosen, HasNoPlan, NoneFewer};
ghost use Rattle.cct_plan.specs.Row.{least_in, Tells, IsLeast, IsGreatest, Meets, IsMet};

use crate::filling::{FAR, ROW, tabulate, told};
use crate::tray::{TRAYS, most, worth};
use arrayvec::ArrayVec;
use cct_model::Tray;

/// Fills the table for these trays and this amount, and sets the counts to the chosen plan, or to
/// none where there is no plan. The answer is whether there is one.
pub(crate) fn set_out(
    cells: &mut [u16],
    trays: &[Tray],
    amount: usize,
    counts: &mut ArrayVec<u8, TRAYS>,
) -> bool
    requires rows { length trays.now * ROW ≤ length cells.old }
    requires within { amount < ROW }
    requires few { length trays.now ≤ TRAYS }
    ensures least { IsLeast trays.now amount (least_in cells.new (length trays.now) amount) }
    ensures chosen { OnTrue result (IsChosen trays.now amount counts.new.items) }
    ensures none { OnFalse result ((counts.new.items ≡ []) × HasNoPlan trays.now amount) }
{
    tabulate(cells, trays, amount);
    if told(cells, trays.len(), amount) == FAR {
        counts.clear();
        return false;
    }
    choose(cells, trays, amount, counts);
    true
}

/// Whether no plan has fewer coins than this, by a table that shows the least number.
pub(crate) fn has_none_fewer(cells: &[u16], trays: &[Tray], amount: usize, count: u32) -> bool
    requires rows { length trays.now * ROW ≤ length cells.now }
    requires within { amount < ROW }
    requires few { length trays.now ≤ TRAYS }
    requires least { IsLeast trays.now amount (least_in cells.now (length trays.now) amount) }
    ensures { IsTrue result ↔ NoneFewer trays.now amount count }
{
    let least = told(cells, trays.len(), amount);
    if least == FAR {
        return true;
    }
    count <= least as u32
}

/// Sets the counts to the chosen plan of this amount, by a table that shows the least numbers of
/// coins of these trays.
fn choose(cells: &[u16], trays: &[Tray], amount: usize, counts: &mut ArrayVec<u8, TRAYS>)
    requires rows { length trays.now * ROW ≤ length cells.now }
    requires within { amount < ROW }
    requires few { length trays.now ≤ TRAYS }
    requires tells { Tells cells.now trays.now (length trays.now) amount }
    requires paid { least_in cells.now (length trays.now) amount ≢ FAR }
    ensures { IsChosen trays.now amount counts.new.items }
{
    counts.clear();
    let mut rest = amount;
    for i in 0..trays.len() {
        let tray = &trays[i];
        let later = trays.len() - 1 - i;
        let count = greatest(
            cells,
            later,
            tray,
            rest,
            told(cells, later + 1, rest) as usize,
        );
        counts.push(count as u8);
        rest -= worth(tray, count);
    }
}

/// The greatest count of a tray by which this least number of coins is met, over so many later
/// trays.
fn greatest(cells: &[u16], later: usize, tray: &Tray, amount: usize, least: usize) -> usize
    requires rows { later * ROW ≤ length cells.now }
    requires within { amount < ROW }
    requires met { IsMet tray.now (least_in cells.now later) amount least }
    ensures { IsGreatest tray.now (least_in cells.now later) amount least result }
{
    let mut count = most(tray);
    while !meets(cells, later, tray, amount, least, count) {
        count -= 1;
    }
    count
}

/// Whether so many coins of a tray, and the least number for what they leave, are this least number
/// of coins.
fn meets(
    cells: &[u16],
    later: usize,
    tray: &Tray,
    amount: usize,
    least: usize,
    count: usize,
) -> bool
    requires rows { later * ROW ≤ length cells.now }
    requires within { amount < ROW }
    requires few { count ≤ 255 }
    ensures { IsTrue result ↔ Meets tray.now (least_in cells.now later) amount least count }
{
    let paid = worth(tray, count);
    paid <= amount && count + told(cells, later, amount - paid) as usize == least
}
