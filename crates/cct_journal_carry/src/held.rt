//! What a carry says before one more record.
ghost use Rattle.std.specs.Prelude.{◌≡◌, ◌==◌};
ghost use Rattle.std.specs.List.{find};
ghost use Rattle.std.specs.Option.{option_map};
ghost use Rattle.cct_model.specs.Carry.{epoch_from, epoch_held, order_from, order_held, order_with};

use cct_model::{Carry, CarryEpoch, CarryOrder, EpochState, OpenOrder};

/// The epoch at an address by a carry.
#[tactic(auto, using(crate::proofs::Splits::epoch_found))]
pub fn epoch_held(carry: &Carry, addr: u8) -> EpochState
    ensures { result ≡ epoch_held addr carry.now }
{
    running(epoch_at(carry.epochs.as_slice(), addr))
}

/// The open order at an address by a carry, or none.
#[tactic(auto, using(crate::proofs::Splits::order_found))]
pub fn order_held(carry: &Carry, addr: u8) -> Option<OpenOrder>
    ensures { result ≡ order_held addr carry.now }
{
    opened(order_at(carry.orders.as_slice(), addr))
}

/// The open order with an id, or none.
#[tactic(auto, using(crate::proofs::Splits::named_found))]
pub(crate) fn order_with(carry: &Carry, id: u32) -> Option<OpenOrder>
    ensures { result ≡ order_with id carry.now }
{
    opened(order_named(carry.orders.as_slice(), id))
}

/// The epoch that an entry of a carry is.
fn running(entry: Option<CarryEpoch>) -> EpochState
    ensures { result ≡ epoch_from entry }
{
    match entry {
        Some(
            CarryEpoch {
                mask,
                counter,
                accepts,
                ..
            },
        ) => EpochState::Running {
            mask,
            counter,
            accepts,
        },
        None => EpochState::Idle,
    }
}

/// The order that an entry of a carry is.
fn opened(entry: Option<CarryOrder>) -> Option<OpenOrder>
    ensures { result ≡ option_map order_from entry }
{
    match entry {
        Some(
            CarryOrder {
                id,
                addr,
                count,
                life,
            },
        ) => Some(OpenOrder {
            id,
            addr,
            count,
            life,
        }),
        None => None,
    }
}

/// The entry of the epoch at an address, or none.
fn epoch_at(epochs: &[CarryEpoch], addr: u8) -> Option<CarryEpoch>
    ensures { result ≡ find (λ epoch. epoch.addr == addr) epochs.now }
{
    epochs.iter().copied().find(|epoch| epoch.addr == addr)
}

/// The entry of the order at an address, or none.
fn order_at(orders: &[CarryOrder], addr: u8) -> Option<CarryOrder>
    ensures { result ≡ find (λ order. order.addr == addr) orders.now }
{
    orders.iter().copied().find(|order| order.addr == addr)
}

/// The entry of the order with an id, or none.
fn order_named(orders: &[CarryOrder], id: u32) -> Option<CarryOrder>
    ensures { result ≡ find (λ order. order.id == id) orders.now }
{
    orders.iter().copied().find(|order| order.id == id)
}
