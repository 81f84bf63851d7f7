//! Filling the table, row by row.
ghost use Rattle.std.specs.Prelude.{◌≡◌, ℕ, ◌+◌, ◌*◌, ◌<◌, ◌≤◌, length, slice_index};
ghost use Rattle.cct_model.specs.Plan.{most_of};
ghost use Rattle.cct_plan.specs.Row.{wider, IsLeastUpTo, least_in, Tells};

use crate::tray::{most, worth};
use cct_model::Tray;

/// The amounts of a row: 0 to 10,000.
pub(crate) const ROW: usize = 10_001;

/// What is in the table where there is no plan. A plan has 32 times 255 coins at most.
pub(crate) const FAR: u16 = 65_535;

/// Fills the table for these trays and each amount up to this one, from the last tray to the first.
pub(crate) fn tabulate(cells: &mut [u16], trays: &[Tray], amount: usize)
    requires rows { length trays.now * ROW ≤ length cells.old }
    requires within { amount < ROW }
    ensures { Tells cells.new trays.now (length trays.now) amount }
{
    for many in 0..trays.len() {
        add_row(cells, many, amount, &trays[trays.len() - 1 - many]);
    }
}

/// What the table says of so many last trays and an amount.
pub(crate) fn told(cells: &[u16], many: usize, amount: usize) -> u16
    requires rows { many * ROW ≤ length cells.now }
    requires within { amount < ROW }
    ensures { result ≡ least_in cells.now many amount }
{
    match many.checked_sub(1) {
        Some(row) => cells[row * ROW + amount],
        None if amount == 0 => 0,
        None => FAR,
    }
}

/// Adds the row of one tray more than so many last ones.
fn add_row(cells: &mut [u16], many: usize, amount: usize, tray: &Tray)
    requires rows { many * ROW + ROW ≤ length cells.old }
    requires within { amount < ROW }
    ensures least { (a : ℕ) → a ≤ amount → IsLeastUpTo (most_of tray.now) tray.now.value
        (least_in cells.old many) a (slice_index cells.new (many * ROW + a)) }
    ensures before { (i : ℕ) → i < many * ROW → slice_index cells.new i ≡ slice_index cells.old i }
{
    begin(cells, many, amount);
    fill(cells, many * ROW, amount, tray);
}

/// Begins that row with what the table says of so many last trays.
fn begin(cells: &mut [u16], many: usize, amount: usize)
    requires rows { many * ROW + ROW ≤ length cells.old }
    requires within { amount < ROW }
    ensures begun { (a : ℕ) → a ≤ amount → slice_index cells.new (many * ROW + a)
        ≡ least_in cells.old many a }
    ensures before { (i : ℕ) → i < many * ROW → slice_index cells.new i ≡ slice_index cells.old i }
{
    for a in 0..amount + 1 {
        cells[many * ROW + a] = told(cells, many, a);
    }
}

/// Lets any number of a tray's coins be taken: by 1, 2, 4 and so on of them at once, and the rest
/// of them at last.
fn fill(cells: &mut [u16], base: usize, amount: usize, tray: &Tray)
    requires { base + amount < length cells.old }
    ensures least { (a : ℕ) → a ≤ amount → IsLeastUpTo (most_of tray.now) tray.now.value
        (λ b. slice_index cells.old (base + b)) a (slice_index cells.new (base + a)) }
    ensures before { (i : ℕ) → i < base → slice_index cells.new i ≡ slice_index cells.old i }
{
    let all = most(tray);
    let mut taken = 0;
    while taken < all {
        let more = (taken + 1).min(all - taken);
        widen(cells, base, amount, worth(tray, more), more);
        taken += more;
    }
}

/// Lets `more` coins more of a tray, worth `step` together, be taken at once.
fn widen(cells: &mut [u16], base: usize, amount: usize, step: usize, more: usize)
    requires room { base + amount < length cells.old }
    requires few { more ≤ 255 }
    ensures within { (a : ℕ) → a ≤ amount → slice_index cells.new (base + a)
        ≡ wider cells.old base step more a }
    ensures before { (i : ℕ) → i < base → slice_index cells.new i ≡ slice_index cells.old i }
{
    let mut a = amount + 1;
    while a > step {
        a -= 1;
        let with_more = cells[base + (a - step)] as usize + more;
        let without = cells[base + a] as usize;
        cells[base + a] = with_more.min(without) as u16;
    }
}
