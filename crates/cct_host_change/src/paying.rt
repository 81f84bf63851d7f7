//! Settling a payment of a session, and the next one.
ghost use Rattle.std.specs.Prelude.{◌≡◌, ◌≤◌, ◌≢◌, MatchOption, Some, None, length};
ghost use Rattle.std.specs.Option.{IfSome, option_map};
ghost use Rattle.cct_model.specs.lines.command.TheConstants.{GREATEST_AMOUNT};
ghost use Rattle.cct_model.specs.Change.{IsStuck, PaysNext, first_pay, paid_in_phase, settled};
ghost use Rattle.cct_model.specs.Change.{settled_trays};
ghost use Rattle.cct_host_change.specs.Serving.{IsInBounds};

use crate::trays::{NewStock, restock, value_in};
use arrayvec::ArrayVec;
use cct_model::{Due, Payment, Phase, Session, Tray};
use cct_plan::{TRAYS, Table};

/// Settles the last payment of a session: the value of its paid coins is taken from the rest, and
/// the coins from the stock of its hopper.
pub(crate) fn settle(trays: &mut [Tray], session: &Session, due: Due) -> Session
    requires { IsInBounds session.now }
    ensures session { result ≡ settled trays.old due session.now }
    ensures trays { trays.new ≡ settled_trays due trays.old }
    ensures bounds { IsInBounds result }
{
    let worth = paid_in(due.phase) as u64 * value_in(trays, due.payment.addr) as u64;
    restock(trays, due.payment.addr, NewStock::Settled(due.phase));
    Session {
        amount: session.amount,
        rest: (session.rest as u64).saturating_sub(worth) as u32,
        next: session.next,
        due: None,
    }
}

/// The coins that were paid, as the record says that closed the order.
fn paid_in(phase: Phase) -> u8
    ensures { result ≡ paid_in_phase phase }
{
    match phase {
        Phase::Closed { paid, .. } => paid,
        Phase::Begun => 0,
        Phase::Opened => 0,
        Phase::Odd => 0,
        Phase::Lost => 0,
    }
}

/// The payment that a session makes next, by the chosen plan for its rest; none where there is no
/// plan, or no id is left.
pub(crate) fn next_payment(table: &mut Table, trays: &[Tray], session: &Session) -> Option<Payment>
    requires few { length trays.now ≤ TRAYS }
    requires rest { session.now.rest ≢ 0 }
    requires within { session.now.rest ≤ GREATEST_AMOUNT }
    ensures { MatchOption result (IsStuck trays.now session.now)
        (λ p. PaysNext trays.now session.now p) }
{
    match u32::try_from(session.next) {
        Ok(id) => planned_payment(table, trays, session, id),
        Err(_) => None,
    }
}

/// The same, with the id of the payment.
fn planned_payment(table: &mut Table, trays: &[Tray], session: &Session, id: u32) -> Option<Payment>
    requires few { length trays.now ≤ TRAYS }
    requires rest { session.now.rest ≢ 0 }
    requires within { session.now.rest ≤ GREATEST_AMOUNT }
    requires next { session.now.next ≡ id }
    ensures { MatchOption result (IsStuck trays.now session.now)
        (λ p. PaysNext trays.now session.now p) }
{
    let mut counts = ArrayVec::new();
    if table.plan(trays, session.rest, &mut counts) {
        first_payment(trays, counts.as_slice(), id)
    } else {
        None
    }
}

/// The payment of the first tray of which a plan takes a coin.
fn first_payment(trays: &[Tray], counts: &[u8], id: u32) -> Option<Payment>
    requires all { length counts.now ≡ length trays.now }
    ensures first { option_map (λ p. (p.addr, p.count)) result ≡ first_pay trays.now counts.now }
    ensures named { IfSome result (λ p. p.id ≡ id) }
{
    for i in 0..trays.len() {
        if counts[i] != 0 {
            return Some(Payment {
                addr: trays[i].addr,
                id,
                count: counts[i],
            });
        }
    }
    None
}
