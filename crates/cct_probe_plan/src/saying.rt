//! The bytes of what is sent.
ghost use Rattle.std.specs.Prelude.{◌≡◌, ◌⊎◌, ◌%◌, ◌+◌, ◌∷◌, [], ◌++◌, None, length, take};
ghost use Rattle.cct_model_wire.specs.Exchange.{device_at};
ghost use Rattle.cct_model_wire.specs.Request.{three_bytes};
ghost use Rattle.cct_probe_plan.specs.Saying.{IsDamaged, IsOdd, IsSaid, asking, data_of, header_of};
ghost use Rattle.cct_probe_plan.specs.Saying.{other, poll, serial_of};

use crate::plan::{Ask, Odd, Say};
use crate::round::{Turn, mask_of, place_of, tried_place};
use arrayvec::ArrayVec;
use cct_frame::write;
use cct_model_lines::{CheckKind, DeviceBody, DeviceSetup, HOST, MOST_SENT, Setup};

/// The header of a poll.
const POLL: u8 = 254;

/// A byte that is before a message and is none.
const NOISE: u8 = 85;

/// Writes what is sent in the place of what `sent` holds.
pub fn write_say(say: Say, setup: &Setup, turn: Turn<'_>, sent: &mut ArrayVec<u8, MOST_SENT>)
    ensures { IsSaid say setup.now turn.entry.device.now turn.entry.round sent.new.items }
{
    match say {
        Say::Ask(ask) => write_ask(ask, turn, sent),
        Say::Odd(odd) => write_odd(odd, setup, turn, sent),
        Say::Nothing { .. } => sent.clear(),
    }
}

/// Writes a message to the device.
#[tactic(auto, unfolding(crate::specs::Saying::asking))]
fn write_ask(ask: Ask, turn: Turn<'_>, sent: &mut ArrayVec<u8, MOST_SENT>)
    ensures { sent.new.items ≡ asking turn.entry.device.now turn.entry.round ask }
{
    let device = turn.device;
    let mut data = ArrayVec::new();
    write_data(ask, turn, &mut data);
    write(
        device.kind,
        device.addr,
        HOST,
        header_of(ask, &device.body),
        data.as_slice(),
        sent,
    );
}

/// The header of a message.
fn header_of(ask: Ask, body: &DeviceBody) -> u8
    ensures { result ≡ header_of body.now ask }
{
    match ask {
        Ask::Plain { header } => header,
        Ask::One { header, .. } => header,
        Ask::Two { header, .. } => header,
        Ask::Credits => { if body.is_bill() { 159 } else { 229 } }
        Ask::Coin => 184,
        Ask::Bill => 157,
        Ask::Bit | Ask::Place => 231,
        Ask::Dispense { .. } => 167,
    }
}

/// The data bytes of a message.
fn write_data(ask: Ask, turn: Turn<'_>, bytes: &mut ArrayVec<u8, 4>)
    ensures { bytes.new.items ≡ data_of turn.entry.device.now turn.entry.round ask }
{
    bytes.clear();
    match ask {
        Ask::Plain { .. } | Ask::Credits => {}
        Ask::One { data: byte, .. } => bytes.push(byte),
        Ask::Two { first, second, .. } => push_two([first, second], bytes),
        Ask::Coin | Ask::Bill => bytes.push(place_of(turn.round)),
        Ask::Bit => push_two(mask_of(place_of(turn.round)), bytes),
        Ask::Place => push_two(mask_of(tried_place(&turn.device.body)), bytes),
        Ask::Dispense { coins, is_own } => {
            push_dispense(serial_of(turn.device, is_own), coins, bytes);
        }
    }
}

/// Two data bytes.
fn push_two(two: [u8; 2], bytes: &mut ArrayVec<u8, 4>)
    ensures { bytes.new.items ≡ two }
{
    let [first, second] = two;
    bytes.clear();
    bytes.push(first);
    bytes.push(second);
}

/// The data bytes of a dispense.
fn push_dispense(serial: u32, coins: u8, bytes: &mut ArrayVec<u8, 4>)
    ensures { bytes.new.items ≡ three_bytes serial ++ coins ∷ [] }
{
    let [low, middle, high, _] = serial.to_le_bytes();
    bytes.clear();
    bytes.push(low);
    bytes.push(middle);
    bytes.push(high);
    bytes.push(coins);
}

/// The serial number of the setup, or the one after it.
fn serial_of(device: &DeviceSetup, is_own: bool) -> u32
    ensures { result ≡ serial_of device.now is_own }
{
    if is_own {
        device.serial
    } else {
        device.serial.wrapping_add(1)
    }
}

/// Writes a poll that nobody may answer.
fn write_odd(odd: Odd, setup: &Setup, turn: Turn<'_>, sent: &mut ArrayVec<u8, MOST_SENT>)
    ensures { IsOdd odd setup.now turn.entry.device.now turn.entry.round sent.new.items }
{
    let device = turn.device;
    match odd {
        Odd::OtherCheck => write_poll(other(device.kind), device.addr, sent),
        Odd::Damaged => write_damaged(device, sent),
        Odd::Cut => write_cut(device, turn.round, sent),
        Odd::Noise => write_noisy(device, sent),
        Odd::Nobody => write_poll(device.kind, free_address(setup), sent),
    }
}

/// The other check.
fn other(kind: CheckKind) -> CheckKind
    ensures { result ≡ other kind }
{
    match kind {
        CheckKind::Simple => CheckKind::Crc,
        CheckKind::Crc => CheckKind::Simple,
    }
}

/// A poll of an address.
#[tactic(auto, using(crate::proofs::Polls::poll_length))]
fn write_poll(kind: CheckKind, addr: u8, sent: &mut ArrayVec<u8, MOST_SENT>)
    ensures poll { sent.new.items ≡ poll kind addr }
    ensures five { length sent.new.items ≡ 5 }
{
    write(kind, addr, HOST, POLL, &[], sent);
}

/// A poll with another last byte.
fn write_damaged(device: &DeviceSetup, sent: &mut ArrayVec<u8, MOST_SENT>)
    ensures { IsDamaged (poll device.now.kind device.now.addr) sent.new.items }
{
    write_poll(device.kind, device.addr, sent);
    let last = sent.pop().unwrap();
    sent.push(last.wrapping_add(1));
}

/// The first bytes of a poll: one in the first round, and one more in each.
fn write_cut(device: &DeviceSetup, round: u16, sent: &mut ArrayVec<u8, MOST_SENT>)
    ensures { sent.new.items ≡ take (round % 4 + 1) (poll device.now.kind device.now.addr) }
{
    write_poll(device.kind, device.addr, sent);
    sent.truncate(usize::from(round % 4) + 1);
}

/// A poll after a byte of noise.
fn write_noisy(device: &DeviceSetup, sent: &mut ArrayVec<u8, MOST_SENT>)
    ensures { sent.new.items ≡ 85 ∷ poll device.now.kind device.now.addr }
{
    let mut poll = ArrayVec::new();
    write_poll(device.kind, device.addr, &mut poll);
    sent.clear();
    sent.push(NOISE);
    sent.try_extend_from_slice(poll.as_slice()).unwrap();
}

/// The lowest address from 2 on that the setup doesn't have.
fn free_address(setup: &Setup) -> u8
    ensures { (device_at setup.now.devices result ≡ None) ⊎ (result ≡ 255) }
{
    for addr in 2..255 {
        if setup.device_at(addr).is_none() {
            return addr;
        }
    }
    255
}
