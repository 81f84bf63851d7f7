//! A carry is written as bodies.
ghost use Rattle.std.specs.Prelude.{◌≡◌, ℕ, ◌+◌, ◌≤◌, ◌++◌, length, map};
ghost use Rattle.arrayvec.specs.ArrayVec.{array_vec_len};
ghost use Rattle.cct_model_lines.specs.Carried.{IsRightly};
ghost use Rattle.cct_record.specs.CarryBody.{bodies_of, epoch_body, first_sums, order_body};
ghost use Rattle.cct_record.specs.CarryBody.{second_sums, third_sums};

use crate::kind::{BODIES, BODY, FIRST_SUMS, OPENED, RUNNING, SECOND_SUMS, THIRD_SUMS};
use crate::writing::{add, add_id, filled_up, three_bytes};
use arrayvec::ArrayVec;
use cct_model_lines::{Carry, CarryEpoch, CarryOrder};

/// Puts the bodies of a carry in the place of what was in `bodies`: three of sums, then one for
/// each epoch and one for each order (`docs/JOURNAL.md`, "The carry").
///
/// The carry has to be one that some number of records may have.
pub fn encode_carry(carry: &Carry, bodies: &mut ArrayVec<[u8; 31], 35>)
    requires { (many : ℕ) × IsRightly many carry.now }
    // Exactly these bodies for each carry.
    ensures { bodies.new.items ≡ bodies_of carry.now }
{
    bodies.clear();
    bodies.push(first_sums(carry));
    bodies.push(second_sums(carry));
    bodies.push(third_sums(carry));
    add_epochs(bodies, carry.epochs.as_slice());
    add_orders(bodies, carry.orders.as_slice());
}

/// The body of the last id and of three sums of value.
#[tactic(auto, unfolding(crate::specs::CarryBody::first_sums))]
fn first_sums(carry: &Carry) -> [u8; BODY]
    ensures { result ≡ first_sums carry.now }
{
    let mut fields = ArrayVec::new();
    add(&mut fields, &[FIRST_SUMS]);
    add_id(&mut fields, carry.last_id);
    add(&mut fields, &carry.value.to_le_bytes());
    add(&mut fields, &carry.paid_value.to_le_bytes());
    add(&mut fields, &carry.odd_value.to_le_bytes());
    filled_up(&fields)
}

/// The body of three sums of numbers.
#[tactic(auto, unfolding(crate::specs::CarryBody::second_sums))]
fn second_sums(carry: &Carry) -> [u8; BODY]
    ensures { result ≡ second_sums carry.now }
{
    let mut fields = ArrayVec::new();
    add(&mut fields, &[SECOND_SUMS]);
    add(&mut fields, &carry.posted.to_le_bytes());
    add(&mut fields, &carry.lost.to_le_bytes());
    add(&mut fields, &carry.paid.to_le_bytes());
    filled_up(&fields)
}

/// The body of the two sums that are left.
#[tactic(auto, unfolding(crate::specs::CarryBody::third_sums))]
fn third_sums(carry: &Carry) -> [u8; BODY]
    ensures { result ≡ third_sums carry.now }
{
    let mut fields = ArrayVec::new();
    add(&mut fields, &[THIRD_SUMS]);
    add(&mut fields, &carry.unpaid.to_le_bytes());
    add(&mut fields, &carry.sold.to_le_bytes());
    filled_up(&fields)
}

/// The body of an epoch.
#[tactic(auto, unfolding(crate::specs::CarryBody::epoch_body))]
fn epoch_body(epoch: &CarryEpoch) -> [u8; BODY]
    ensures { result ≡ epoch_body epoch.now }
{
    let mut fields = ArrayVec::new();
    add(&mut fields, &[RUNNING, epoch.addr]);
    add(&mut fields, &epoch.mask.to_le_bytes());
    add(&mut fields, &[epoch.counter]);
    add(&mut fields, &three_bytes(epoch.accepts));
    filled_up(&fields)
}

/// The body of an order, which is that of the record that opened it.
#[tactic(auto, unfolding(crate::specs::CarryBody::order_body))]
fn order_body(order: &CarryOrder) -> [u8; BODY]
    ensures { result ≡ order_body order.now }
{
    let mut fields = ArrayVec::new();
    add(&mut fields, &[OPENED, order.addr]);
    add_id(&mut fields, order.id);
    add(&mut fields, &[order.count]);
    add(&mut fields, &three_bytes(order.life));
    filled_up(&fields)
}

/// Appends the bodies of epochs.
fn add_epochs(bodies: &mut ArrayVec<[u8; BODY], BODIES>, epochs: &[CarryEpoch])
    requires { array_vec_len bodies.old + length epochs.now ≤ BODIES }
    ensures items { bodies.new.items ≡ bodies.old.items ++ map epoch_body epochs.now }
    ensures len { array_vec_len bodies.new ≡ array_vec_len bodies.old + length epochs.now }
{
    for epoch in epochs {
        bodies.push(epoch_body(epoch));
    }
}

/// Appends the bodies of orders.
fn add_orders(bodies: &mut ArrayVec<[u8; BODY], BODIES>, orders: &[CarryOrder])
    requires { array_vec_len bodies.old + length orders.now ≤ BODIES }
    ensures items { bodies.new.items ≡ bodies.old.items ++ map order_body orders.now }
    ensures len { array_vec_len bodies.new ≡ array_vec_len bodies.old + length orders.now }
{
    for order in orders {
        bodies.push(order_body(order));
    }
}
