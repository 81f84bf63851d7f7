//! Bodies are read as the carry that they spell.
ghost use Rattle.std.specs.Prelude.{◌≡◌, ℕ, ◌+◌, ◌≤◌, ◌↔◌, All, IfNone, IfSome, IsTrue, drop};
ghost use Rattle.std.specs.Prelude.{length, map, take};
ghost use Rattle.cct_model_lines.specs.Carried.{AreSmall, EpochFits, IsBelow, IsRightly, OrderFits};
ghost use Rattle.cct_model_lines.specs.Carried.{Rise, addr_of_epoch, addr_of_order};
ghost use Rattle.cct_model_lines.specs.declared.carry.Carry.{Carry};
ghost use Rattle.cct_record.specs.CarryBody.{SpellsCarry, SpellsNone, bodies_of, carry_read};
ghost use Rattle.cct_record.specs.CarryBody.{eight_at, epoch_read, epochs_read, order_read};
ghost use Rattle.cct_record.specs.CarryBody.{orders_read};
ghost use Rattle.cct_record.specs.CarryTests.{EntriesFit};

use crate::encode_carry;
use crate::kind::{BODY, ENTRIES, RUNNING};
use crate::reading::{four_at, three_at, two_at};
use arrayvec::ArrayVec;
use cct_model_lines::{Carry, CarryEpoch, CarryEpochs, CarryOrder, CarryOrders, DEVICES};

/// The carry of `base` records that bodies spell (`docs/JOURNAL.md`, "The carry"), or none where
/// they spell none: they aren't the bodies of a carry in their order, or no carry of so many
/// records has these numbers.
#[tactic(auto, using(crate::proofs::CarryBack::refused_short, crate::proofs::CarryBack::refused_carry))]
pub fn read_carry(base: u32, bodies: &[[u8; 31]]) -> Option<Carry>
    ensures spelt { IfSome result (λ c. SpellsCarry base c bodies.now) }
    // Only bodies that spell no carry of so many records.
    ensures refused { IfNone result (SpellsNone base bodies.now) }
{
    let carry = carry_at(bodies)?;
    if is_spelt_by(base, &carry, bodies) {
        Some(carry)
    } else {
        None
    }
}

/// Whether bodies are those of a carry that so many records may have.
fn is_spelt_by(base: u32, carry: &Carry, bodies: &[[u8; BODY]]) -> bool
    requires { EntriesFit carry.now }
    ensures { IsTrue result ↔ SpellsCarry base carry.now bodies.now }
{
    is_rightly(base, carry) && are_bodies_of(carry, bodies)
}

/// Whether bodies are those of a carry.
fn are_bodies_of(carry: &Carry, bodies: &[[u8; BODY]]) -> bool
    requires { (many : ℕ) × IsRightly many carry.now }
    ensures { IsTrue result ↔ (bodies_of carry.now ≡ bodies.now) }
{
    let mut spelt = ArrayVec::new();
    encode_carry(carry, &mut spelt);
    spelt.as_slice() == bodies
}

/// Whether a carry may be that of so many records.
fn is_rightly(base: u32, carry: &Carry) -> bool
    requires { EntriesFit carry.now }
    ensures { IsTrue result ↔ IsRightly base carry.now }
{
    epochs_rise(carry.epochs.as_slice())
        && orders_rise(carry.orders.as_slice())
        && are_few(base, carry)
        && are_small(base, carry)
        && may_have_used(base, carry.last_id)
}

/// Whether the addresses of epochs rise strictly.
fn epochs_rise(epochs: &[CarryEpoch]) -> bool
    ensures { IsTrue result ↔ Rise (map addr_of_epoch epochs.now) }
{
    match epochs {
        [first, rest @ ..] => epochs_above(first.addr, rest) && epochs_rise(rest),
        [] => true,
    }
}

/// Whether the first of some epochs has a greater address, or there is none.
fn epochs_above(addr: u8, epochs: &[CarryEpoch]) -> bool
    ensures { IsTrue result ↔ IsBelow addr (map addr_of_epoch epochs.now) }
{
    match epochs {
        [next, ..] => addr < next.addr,
        [] => true,
    }
}

/// Whether the addresses of orders rise strictly.
fn orders_rise(orders: &[CarryOrder]) -> bool
    ensures { IsTrue result ↔ Rise (map addr_of_order orders.now) }
{
    match orders {
        [first, rest @ ..] => orders_above(first.addr, rest) && orders_rise(rest),
        [] => true,
    }
}

/// Whether the first of some orders has a greater address, or there is none.
fn orders_above(addr: u8, orders: &[CarryOrder]) -> bool
    ensures { IsTrue result ↔ IsBelow addr (map addr_of_order orders.now) }
{
    match orders {
        [next, ..] => addr < next.addr,
        [] => true,
    }
}

/// Whether a carry has at most 32 epochs and orders together, and at most as many as there are
/// records.
fn are_few(base: u32, carry: &Carry) -> bool
    ensures { IsTrue result ↔ ((length carry.now.epochs + length carry.now.orders ≤ 32)
        × (length carry.now.epochs + length carry.now.orders ≤ base)) }
{
    let count = carry.epochs.as_slice().len() + carry.orders.as_slice().len();
    count <= ENTRIES && count <= base as usize
}

/// Whether so many records may have used this last id: of none there is no id.
fn may_have_used(base: u32, last_id: u32) -> bool
    ensures { IsTrue result ↔ (base ≡ 0 → last_id ≡ 0) }
{
    base != 0 || last_id == 0
}

/// Whether no sum of a carry is above 2^32 times so many records.
fn are_small(base: u32, carry: &Carry) -> bool
    ensures { IsTrue result ↔ AreSmall base carry.now }
{
    let sums = [
        carry.value,
        carry.paid_value,
        carry.odd_value,
        carry.posted,
        carry.lost,
        carry.paid,
        carry.unpaid,
        carry.sold,
    ];
    are_at_most(u64::from(base) * (1 << 32), &sums)
}

/// Whether no sum is greater.
fn are_at_most(most: u64, sums: &[u64]) -> bool
    ensures { IsTrue result ↔ All (λ sum. sum ≤ most) sums.now }
{
    sums.iter().all(|sum| *sum <= most)
}

/// The carry whose numbers stand in bodies, or none where there are fewer than three bodies, or
/// more epochs or orders than devices.
#[tactic(auto, unfolding(crate::specs::CarryBody::carry_read))]
fn carry_at(bodies: &[[u8; BODY]]) -> Option<Carry>
    ensures stands { IfSome result (λ c. carry_read bodies.now ≡ Some c) }
    ensures fit { IfSome result EntriesFit }
    ensures none { IfNone result ((c : Carry) → length c.epochs ≤ DEVICES → length c.orders ≤ DEVICES →
        carry_read bodies.now ≡ Some c → ⊥) }
{
    match bodies {
        [first, second, third, rest @ ..] => {
            let (epochs, orders) = entries_at(rest)?;
            Some(Carry {
                last_id: four_at(first, 1),
                value: eight_at(first, 5),
                paid_value: eight_at(first, 13),
                odd_value: eight_at(first, 21),
                posted: eight_at(second, 1),
                lost: eight_at(second, 9),
                paid: eight_at(second, 17),
                unpaid: eight_at(third, 1),
                sold: eight_at(third, 9),
                epochs,
                orders,
            })
        }
        _ => None,
    }
}

/// The epochs and the orders that stand in bodies, or none where there are more of either than
/// devices.
fn entries_at(bodies: &[[u8; BODY]]) -> Option<(CarryEpochs, CarryOrders)>
    ensures epochs { IfSome result (λ entries. (entries.0 ≡ epochs_read bodies.now)
        × All EpochFits entries.0) }
    ensures orders { IfSome result (λ entries. (entries.1 ≡ orders_read bodies.now)
        × All OrderFits entries.1) }
    ensures none { IfNone result (length (epochs_read bodies.now) ≤ DEVICES →
        length (orders_read bodies.now) ≤ DEVICES → ⊥) }
{
    let (epochs, orders) = bodies.split_at(epoch_count(bodies));
    if DEVICES < epochs.len() || DEVICES < orders.len() {
        return None;
    }
    Some((epochs_at(epochs), orders_at(orders)))
}

/// How many bodies of epochs stand first.
fn epoch_count(bodies: &[[u8; BODY]]) -> usize
    ensures within { result ≤ length bodies.now }
    ensures epochs { epochs_read bodies.now ≡ map epoch_read (take result bodies.now) }
    ensures orders { orders_read bodies.now ≡ map order_read (drop result bodies.now) }
{
    let mut count = 0;
    for body in bodies {
        if body[0] != RUNNING {
            return count;
        }
        count += 1;
    }
    count
}

/// The epochs whose fields stand in bodies.
fn epochs_at(bodies: &[[u8; BODY]]) -> CarryEpochs
    requires { length bodies.now ≤ DEVICES }
    ensures epochs { result ≡ map epoch_read bodies.now }
    ensures fit { All EpochFits result }
{
    let mut epochs = CarryEpochs::new();
    for body in bodies {
        epochs.push(epoch_at(body));
    }
    epochs
}

/// The epoch whose fields stand in a body.
fn epoch_at(body: &[u8; BODY]) -> CarryEpoch
    ensures epoch { result ≡ epoch_read body.now }
    ensures fits { EpochFits result }
{
    CarryEpoch {
        addr: body[1],
        mask: two_at(body, 2),
        counter: body[4],
        accepts: three_at(body, 5),
    }
}

/// The orders whose fields stand in bodies.
fn orders_at(bodies: &[[u8; BODY]]) -> CarryOrders
    requires { length bodies.now ≤ DEVICES }
    ensures orders { result ≡ map order_read bodies.now }
    ensures fit { All OrderFits result }
{
    let mut orders = CarryOrders::new();
    for body in bodies {
        orders.push(order_at(body));
    }
    orders
}

/// The order whose fields stand in a body.
fn order_at(body: &[u8; BODY]) -> CarryOrder
    ensures order { result ≡ order_read body.now }
    ensures fits { OrderFits result }
{
    CarryOrder {
        id: four_at(body, 2),
        addr: body[1],
        count: body[6],
        life: three_at(body, 7),
    }
}

/// The number of eight bytes, low byte first.
fn eight_at(bytes: &[u8; BODY], at: usize) -> u64
    requires { at + 8 ≤ BODY }
    ensures { result ≡ eight_at bytes.now at }
{
    u64::from_le_bytes([
        bytes[at],
        bytes[at + 1],
        bytes[at + 2],
        bytes[at + 3],
        bytes[at + 4],
        bytes[at + 5],
        bytes[at + 6],
        bytes[at + 7],
    ])
}
