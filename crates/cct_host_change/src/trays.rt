//! The trays of a setup, and their stocks.
ghost use Rattle.std.specs.Prelude.{◌≡◌, ◌≤◌, ◌<◌, ◌+◌, ◌∷◌, [], MatchOption, length, nat_le};
ghost use Rattle.std.specs.Prelude.{unwrap_or};
ghost use Rattle.std.specs.Option.{IfSome};
ghost use Rattle.std.specs.List.{position};
ghost use Rattle.cct_model.specs.Change.{restocked, stock_left, tray_of, trays_of, value_in};
ghost use Rattle.cct_model.specs.Exchange.{by_address};
ghost use Rattle.cct_host_change.specs.Trays.{becomes, put_tray};

use arrayvec::ArrayVec;
use cct_model::{DeviceBody, DeviceSetup, Phase, Tray};
use cct_plan::TRAYS;

/// What becomes of the stock of a tray.
#[derive(Clone, Copy)]
pub(crate) enum NewStock {
    /// The operator counted so many coins.
    Counted(u32),
    /// A payment is settled that ended so.
    Settled(Phase),
}

/// Adds the trays of devices, in rising order of address: a hopper has one, and it is empty.
pub(crate) fn add_trays(devices: &[DeviceSetup], trays: &mut ArrayVec<Tray, TRAYS>)
    requires few { length devices.now ≤ TRAYS }
    requires none { trays.old.items ≡ [] }
    ensures trays { trays.new.items ≡ trays_of (by_address devices.now) }
    ensures few { length trays.new.items ≤ length devices.now }
{
    match devices {
        [] => {}
        [first, rest @ ..] => {
            add_trays(rest, trays);
            if let Some(tray) = tray_of(first) {
                put(trays, tray);
            }
        }
    }
}

/// The empty tray of a hopper, or none.
fn tray_of(device: &DeviceSetup) -> Option<Tray>
    ensures trays { MatchOption result (tray_of device.now.addr device.now.body ≡ [])
        (λ t. tray_of device.now.addr device.now.body ≡ t ∷ []) }
    ensures there { IfSome result (λ t. t.addr ≡ device.now.addr) }
{
    match device.body {
        DeviceBody::Hopper { value, .. } => Some(Tray {
            addr: device.addr,
            value,
            stock: 0,
        }),
        DeviceBody::Acceptor { .. } => None,
        DeviceBody::Bill { .. } => None,
    }
}

/// Puts a tray before the first one whose address isn't below its own.
fn put(trays: &mut ArrayVec<Tray, TRAYS>, tray: Tray)
    requires { length trays.old.items < TRAYS }
    ensures trays { trays.new.items ≡ put_tray tray trays.old.items }
    ensures more { length trays.new.items ≡ length trays.old.items + 1 }
{
    let place = rank_of(trays.as_slice(), tray.addr);
    trays.insert(place, tray);
}

/// How many trays stand before the first whose address isn't below this one.
fn rank_of(trays: &[Tray], addr: u8) -> usize
    ensures rank { result ≡ unwrap_or (position (λ tray. nat_le addr tray.addr) trays.now)
        (length trays.now) }
    ensures within { result ≤ length trays.now }
{
    place_not_below(trays, addr).unwrap_or(trays.len())
}

/// The index of the first tray whose address isn't below this one, or none.
fn place_not_below(trays: &[Tray], addr: u8) -> Option<usize>
    ensures first { result ≡ position (λ tray. nat_le addr tray.addr) trays.now }
    ensures within { IfSome result (λ place. place < length trays.now) }
{
    trays.iter().position(|tray| addr <= tray.addr)
}

/// Sets the stock of the tray at an address.
pub(crate) fn restock(trays: &mut [Tray], addr: u8, stock: NewStock)
    ensures { trays.new ≡ restocked addr (becomes stock) trays.old }
{
    for i in 0..trays.len() {
        let tray = trays[i];
        if tray.addr == addr {
            trays[i] = Tray {
                addr: tray.addr,
                value: tray.value,
                stock: stock_after(stock, tray.stock),
            };
        }
    }
}

/// The stock that a tray then has.
fn stock_after(stock: NewStock, before: u32) -> u32
    ensures { result ≡ becomes stock before }
{
    match stock {
        NewStock::Counted(count) => count,
        NewStock::Settled(phase) => stock_left(phase, before),
    }
}

/// The stock after a payment that ended so: the paid coins are gone, and nothing is left where some
/// weren't paid.
fn stock_left(phase: Phase, before: u32) -> u32
    ensures { result ≡ stock_left phase before }
{
    match phase {
        Phase::Closed { paid, unpaid: 0 } => before.saturating_sub(paid as u32),
        Phase::Closed { .. } => 0,
        Phase::Begun => 0,
        Phase::Opened => 0,
        Phase::Odd => 0,
        Phase::Lost => 0,
    }
}

/// What a coin of the tray at an address is worth, 0 where there is none.
pub(crate) fn value_in(trays: &[Tray], addr: u8) -> u32
    ensures { result ≡ value_in trays.now addr }
{
    for tray in trays {
        if tray.addr == addr {
            return tray.value;
        }
    }
    0
}
