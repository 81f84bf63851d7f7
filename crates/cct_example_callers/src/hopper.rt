//! A hopper at address 3 under the simple checksum is to pay four coins. Two fall, and the third
//! sticks.
ghost use Rattle.cct_model_wire.specs.Device.{IsHopper, IsSound};

use crate::texts::texts;
use arrayvec::ArrayVec;
use cct_hopper::{AfterFall, DispenseNo, Hopper};
use cct_model_wire::{CheckKind, DeviceBody, DeviceSetup, MOST_SENT};
use std::test::Fail;

const SERIAL: u32 = 0x0003_0201;

/// What the hopper is. It has paid 16,777,214 coins before, and each of its coins is worth 10.
fn setup() -> DeviceSetup
    ensures sound { IsSound result }
    ensures hopper { IsHopper result.body }
{
    DeviceSetup {
        addr: 3,
        kind: CheckKind::Simple,
        serial: SERIAL,
        texts: texts(),
        named: true,
        body: DeviceBody::Hopper {
            life: 0x00ff_fffe,
            value: 10,
        },
    }
}

/// What the hopper answers to bytes that come one by one, and a gap after them: nothing if it is
/// silent.
fn answer(hopper: &mut Hopper<'_>, bytes: &[u8]) -> ArrayVec<u8, MOST_SENT> {
    let mut answer = ArrayVec::new();
    for byte in bytes {
        hopper.byte(*byte);
    }
    hopper.gap(&mut answer);
    answer
}

#[test]
fn a_payout_ends_with_a_jam(rt: HostRuntime) -> Result<(), Fail> {
    let setup = setup();
    let Hopper::Off(off) = Hopper::new(&setup) else {
        panic!(rt; "a hopper is off after power-up");
    };

    // Each state is a type. Off has no call that pays; idle pays only if the serial number is its
    // own.
    let idle = off.enable();
    let Err((idle, DispenseNo::WrongSerial)) = idle.dispense(SERIAL + 1, 4) else {
        panic!(rt; "another hopper's serial number");
    };
    let Ok(paying) = idle.dispense(SERIAL, 4) else {
        panic!(rt; "its own serial number");
    };

    // Paying has no call that dispenses. A coin that falls is one fewer, and after the last one it
    // is idle.
    let AfterFall::Paying(paying) = paying.fall() else {
        panic!(rt; "three are left");
    };
    let AfterFall::Paying(paying) = paying.fall() else {
        panic!(rt; "two are left");
    };
    let mut hopper = Hopper::Idle(paying.jam());

    // Header 166 reads the status: event counter 1, none left to pay, two paid, two unpaid.
    let heard = answer(&mut hopper, b"\x03\x00\x01\xa6\x56");
    assert_eq!(rt;
        heard.as_slice(),
        b"\x01\x04\x03\x00\x01\x00\x02\x02\xf3".as_slice()
    );

    // Header 168 reads the life count, low byte first: after ffffff comes 000000.
    let heard = answer(&mut hopper, b"\x03\x00\x01\xa8\x54");
    assert_eq!(rt;
        heard.as_slice(),
        b"\x01\x03\x03\x00\x00\x00\x00\xf9".as_slice()
    );
    Ok(())
}
