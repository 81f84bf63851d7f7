//! What a setup line adds to a setup.
ghost use Rattle.std.specs.Prelude.{◌≡◌, ◌≢◌, ◌≤◌, ◌-◌, Ok, Err, MatchResult, slice_index};
ghost use Rattle.std.specs.List.{slice_set};
ghost use Rattle.cct_model_lines.specs.Exchange.{device_at};
ghost use Rattle.cct_model_lines.specs.Setup.{IsSoundSetup};
ghost use Rattle.cct_model_lines.specs.SetupLine.{IsSetupLine};
ghost use Rattle.cct_model_lines.specs.Grammar.{add_device, change_device, valued, named, added};
ghost use Rattle.cct_script.specs.Changing.{Changes};

use cct_model_lines::{
    COIN_PLACES, DEVICES, DeviceBody, DeviceSetup, LineKind, Setup, SetupLine, Texts,
};
use std::alloc::AllocError;

/// Adds to a setup what a setup line says, `Begin` nothing. `Device` where the address of a new
/// device is another's, where the setup has `DEVICES` devices, where a value is for no acceptor, or
/// where texts are for no device; `Again` where the place has a value, or the device was given
/// texts. Nothing is changed then.
#[tactic(auto, unfolding(cct_model_lines::specs::Grammar::added))]
pub fn add(setup: &mut Setup, line: &SetupLine) -> Result<(), LineKind>
    requires { IsSetupLine line.now }
    ensures adds { Changes setup.old setup.new (added setup.old line.now) result }
    ensures sound { IsSoundSetup setup.old → IsSoundSetup setup.new }
{
    match line {
        SetupLine::Acceptor(device) => add_device(setup, device),
        SetupLine::Hopper(device) => add_device(setup, device),
        SetupLine::Bills(device) => add_device(setup, device),
        SetupLine::Value {
            addr,
            place,
            value,
            id,
        } => add_value(setup, *addr, *place, *value, *id),
        SetupLine::Named { addr, texts } => add_texts(setup, *addr, texts),
        SetupLine::Begin => Ok(()),
    }
}

/// The same texts once more.
fn texts_of(texts: &Texts) -> Texts
    ensures { result ≡ texts.now }
{
    let copy: Result<Texts, AllocError> = texts.clone();
    copy.unwrap()
}

/// Adds a device, where its address is new and there is room.
fn add_device(setup: &mut Setup, device: &DeviceSetup) -> Result<(), LineKind>
    ensures { Changes setup.old setup.new (add_device setup.old device.now) result }
{
    if setup.devices.as_slice().len() >= DEVICES || setup.device_at(device.addr).is_some() {
        return Err(LineKind::Device);
    }
    setup.devices.push(device.copied());
    Ok(())
}

/// Gives a place of an acceptor, of coins or of bills, its value and its identification.
fn add_value(
    setup: &mut Setup,
    addr: u8,
    place: u8,
    value: u32,
    id: [u8; 6],
) -> Result<(), LineKind>
    requires low { 1 ≤ place }
    requires high { place ≤ COIN_PLACES }
    ensures { Changes setup.old setup.new (change_device setup.old (device_at setup.old.devices addr)
        (λ d. valued d place value id d.body)) result }
{
    match setup.device_at(addr) {
        None => Err(LineKind::Device),
        Some(device) => {
            let mut device = device.copied();
            give_value(&mut device, place, value, id)?;
            setup.devices.replace(&device);
            Ok(())
        }
    }
}

/// Gives a place of this acceptor, of coins or of bills, its value and its identification.
fn give_value(device: &mut DeviceSetup, place: u8, value: u32, id: [u8; 6]) -> Result<(), LineKind>
    requires low { 1 ≤ place }
    requires high { place ≤ COIN_PLACES }
    ensures { MatchResult result
        (λ done. valued device.old place value id device.old.body ≡ Ok device.new)
        (λ why. valued device.old place value id device.old.body ≡ Err why) }
{
    match device.body {
        DeviceBody::Acceptor {
            accepts,
            mut values,
            mut ids,
        } => {
            put_at(place, value, id, &mut values, &mut ids)?;
            device.body = DeviceBody::Acceptor {
                accepts,
                values,
                ids,
            };
            Ok(())
        }
        DeviceBody::Hopper { .. } => Err(LineKind::Device),
        DeviceBody::Bill {
            accepts,
            mut values,
            mut ids,
        } => {
            put_at(place, value, id, &mut values, &mut ids)?;
            device.body = DeviceBody::Bill {
                accepts,
                values,
                ids,
            };
            Ok(())
        }
    }
}

/// Puts a value and an identification at a place of those of all places, where the place has no
/// value.
fn put_at(
    place: u8,
    value: u32,
    id: [u8; 6],
    values: &mut [u32; COIN_PLACES],
    ids: &mut [[u8; 6]; COIN_PLACES],
) -> Result<(), LineKind>
    requires low { 1 ≤ place }
    requires high { place ≤ COIN_PLACES }
    ensures { MatchResult result
        (λ _. (slice_index values.old (place - 1) ≡ 0)
        × (values.new ≡ slice_set values.old (place - 1) value)
        × (ids.new ≡ slice_set ids.old (place - 1) id))
        (λ why. (slice_index values.old (place - 1) ≢ 0) × (why ≡ LineKind.Again)) }
{
    let at = usize::from(place - 1);
    if values[at] != 0 {
        return Err(LineKind::Again);
    }
    values[at] = value;
    ids[at] = id;
    Ok(())
}

/// Gives a device its texts.
fn add_texts(setup: &mut Setup, addr: u8, texts: &Texts) -> Result<(), LineKind>
    ensures { Changes setup.old setup.new (change_device setup.old (device_at setup.old.devices addr)
        (λ d. named d texts.now)) result }
{
    match setup.device_at(addr) {
        None => Err(LineKind::Device),
        Some(device) => {
            if device.named {
                return Err(LineKind::Again);
            }
            let mut device = device.copied();
            device.texts = texts_of(texts);
            device.named = true;
            setup.devices.replace(&device);
            Ok(())
        }
    }
}
