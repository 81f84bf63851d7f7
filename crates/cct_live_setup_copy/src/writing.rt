//! A setup is written as its setup lines.
ghost use Rattle.std.specs.Prelude.{◌≡◌, ◌≤◌, ◌<◌, ◌+◌, [], ◌++◌, true, length};
ghost use Rattle.cct_text.specs.Adding.{Adds};
ghost use Rattle.cct_live_setup_copy.specs.Text.{check_field, device_line, device_text};
ghost use Rattle.cct_live_setup_copy.specs.Text.{devices_text, field, head_text, named_text};
ghost use Rattle.cct_live_setup_copy.specs.Text.{number_field, places_text, rest_text, setup_text};
ghost use Rattle.cct_live_setup_copy.specs.Text.{value_line, value_text, values_text};
ghost use Rattle.cct_live_setup_copy.specs.Writing.{WritesText};

use cct_edge::{Failed, Sink};
use cct_model_lines::{COIN_PLACES, CheckKind, DeviceBody, DeviceSetup, MOST_TEXT, Setup, Texts};
use cct_text::TextLine;

/// Writes the setup lines of a setup, with `begin`, each by one put (`docs/SCRIPT.md`). Whoever
/// reads them has the devices in the same order, with all that a setup line says.
#[tactic(auto, using(crate::proofs::Written::first_failed, crate::proofs::Written::both_written))]
pub fn write_setup<K: Sink>(setup: &Setup, out: &mut K) -> Result<(), Failed>
    ensures { WritesText K.written K.faults (setup_text setup.now) out.old result out.new }
{
    match put_devices(setup.devices.as_slice(), &mut TextLine::new(), out) {
        Ok(()) => put_text(b"begin\n", out),
        Err(failed) => Err(failed),
    }
}

/// Writes a text by one put.
fn put_text<K: Sink>(text: &[u8], out: &mut K) -> Result<(), Failed>
    ensures { WritesText K.written K.faults text.now out.old result out.new }
{
    out.put(text)
}

/// Writes the lines of devices.
#[tactic(auto, using(crate::proofs::Written::first_failed, crate::proofs::Written::both_written))]
fn put_devices<K: Sink>(
    devices: &[DeviceSetup],
    line: &mut TextLine,
    out: &mut K,
) -> Result<(), Failed>
    ensures { WritesText K.written K.faults (devices_text devices.now) out.old result out.new }
{
    match devices {
        [] => Ok(()),
        [device, devices @ ..] => match put_device(device, line, out) {
            Ok(()) => put_devices(devices, line, out),
            Err(failed) => Err(failed),
        },
    }
}

/// Writes the lines of one device.
#[tactic(auto, using(crate::proofs::Written::first_failed, crate::proofs::Written::both_written), unfolding(crate::specs::Text::device_text))]
fn put_device<K: Sink>(device: &DeviceSetup, line: &mut TextLine, out: &mut K) -> Result<(), Failed>
    ensures { WritesText K.written K.faults (device_text device.now) out.old result out.new }
{
    match put_head(device, line, out) {
        Ok(()) => put_rest(device, line, out),
        Err(failed) => Err(failed),
    }
}

/// Writes the first line of a device.
fn put_head<K: Sink>(device: &DeviceSetup, line: &mut TextLine, out: &mut K) -> Result<(), Failed>
    ensures { WritesText K.written K.faults (device_line device.now.body device.now) out.old result
        out.new }
{
    write_device(line, device);
    out.put(line.as_slice())
}

/// Writes the lines of a device after the first.
#[tactic(auto, using(crate::proofs::Written::first_failed, crate::proofs::Written::both_written), unfolding(crate::specs::Text::rest_text))]
fn put_rest<K: Sink>(device: &DeviceSetup, line: &mut TextLine, out: &mut K) -> Result<(), Failed>
    ensures { WritesText K.written K.faults (rest_text device.now) out.old result out.new }
{
    match put_values(device.addr, &device.body, line, out) {
        Ok(()) => put_texts(device, line, out),
        Err(failed) => Err(failed),
    }
}

/// Makes a line that of a device.
fn write_device(line: &mut TextLine, device: &DeviceSetup)
    ensures text { line.new ≡ device_line device.now.body device.now }
{
    line.clear();
    match device.body {
        DeviceBody::Acceptor { accepts, .. } => {
            write_head(line, b"acceptor", device);
            write_number(line, accepts);
        }
        DeviceBody::Bill { accepts, .. } => {
            write_head(line, b"bills", device);
            write_number(line, accepts);
        }
        DeviceBody::Hopper { life, value } => {
            write_head(line, b"hopper", device);
            write_number(line, life);
            write_number(line, value);
        }
    }
    line.push(b"\n");
}

/// Begins the line of a device.
fn write_head(line: &mut TextLine, word: &[u8], device: &DeviceSetup)
    requires empty { line.old ≡ [] }
    requires short { length word.now ≤ 20 }
    ensures text { line.new ≡ head_text word.now device.now }
    ensures short { length line.new ≤ 80 }
{
    line.push(word);
    write_number(line, u32::from(device.addr));
    write_check(line, device.kind);
    write_number(line, device.serial);
}

/// Writes a number as the next field.
fn write_number(line: &mut TextLine, number: u32)
    requires { length line.old + 21 ≤ MOST_TEXT }
    ensures { Adds line.old line.new (number_field number) 21 }
{
    line.push(b" ");
    line.push_number(u64::from(number));
}

/// Writes a check as the next field.
fn write_check(line: &mut TextLine, kind: CheckKind)
    requires { length line.old + 7 ≤ MOST_TEXT }
    ensures { Adds line.old line.new (check_field kind) 7 }
{
    match kind {
        CheckKind::Simple => line.push(b" simple"),
        CheckKind::Crc => line.push(b" crc"),
    }
}

/// Writes the lines of the places of a device that have a value.
fn put_values<K: Sink>(
    addr: u8,
    body: &DeviceBody,
    line: &mut TextLine,
    out: &mut K,
) -> Result<(), Failed>
    ensures { WritesText K.written K.faults (values_text addr body.now) out.old result out.new }
{
    match body {
        DeviceBody::Acceptor { values, ids, .. } => put_places(addr, 1, values, ids, line, out),
        DeviceBody::Bill { values, ids, .. } => put_places(addr, 1, values, ids, line, out),
        DeviceBody::Hopper { .. } => Ok(()),
    }
}

/// Writes the lines of places from one on.
#[tactic(auto, using(crate::proofs::Written::first_failed, crate::proofs::Written::both_written))]
fn put_places<K: Sink>(
    addr: u8,
    place: u32,
    values: &[u32],
    ids: &[[u8; 6]],
    line: &mut TextLine,
    out: &mut K,
) -> Result<(), Failed>
    requires { place + length values.now ≤ COIN_PLACES + 1 }
    ensures { WritesText K.written K.faults (places_text addr place values.now ids.now) out.old
        result out.new }
{
    match values {
        [] => Ok(()),
        [value, values @ ..] => match ids {
            [] => Ok(()),
            [id, ids @ ..] => match put_value(addr, place, *value, id, line, out) {
                Ok(()) => put_places(addr, place + 1, values, ids, line, out),
                Err(failed) => Err(failed),
            },
        },
    }
}

/// Writes the line of a place, if it has a value.
fn put_value<K: Sink>(
    addr: u8,
    place: u32,
    value: u32,
    id: &[u8; 6],
    line: &mut TextLine,
    out: &mut K,
) -> Result<(), Failed>
    ensures { WritesText K.written K.faults (value_text addr place value id.now) out.old result
        out.new }
{
    if value == 0 {
        return Ok(());
    }
    write_value(line, addr, place, value, id);
    out.put(line.as_slice())
}

/// Makes a line that of a place.
fn write_value(line: &mut TextLine, addr: u8, place: u32, value: u32, id: &[u8; 6])
    ensures { line.new ≡ value_line addr place value id.now }
{
    line.clear();
    line.push(b"value");
    write_number(line, u32::from(addr));
    write_number(line, place);
    write_number(line, value);
    write_field(line, id);
    line.push(b"\n");
}

/// Writes a text as the next field.
fn write_field(line: &mut TextLine, text: &[u8])
    requires short { length text.now ≤ 100 }
    requires room { length line.old + 101 ≤ MOST_TEXT }
    ensures { Adds line.old line.new (field text.now) 101 }
{
    line.push(b" ");
    line.push(text);
}

/// Writes the line of a device's texts, where a line said them.
fn put_texts<K: Sink>(device: &DeviceSetup, line: &mut TextLine, out: &mut K) -> Result<(), Failed>
    ensures { WritesText K.written K.faults
        (named_text device.now.named device.now.addr device.now.texts) out.old result out.new }
{
    if !device.named {
        return Ok(());
    }
    write_texts(line, device.addr, &device.texts);
    out.put(line.as_slice())
}

/// Makes a line that of a device's texts.
fn write_texts(line: &mut TextLine, addr: u8, texts: &Texts)
    ensures { line.new ≡ named_text true addr texts.now }
{
    line.clear();
    line.push(b"texts");
    write_number(line, u32::from(addr));
    write_field(line, texts.maker.as_slice());
    write_field(line, texts.product.as_slice());
    write_field(line, texts.software.as_slice());
    write_field(line, texts.build.as_slice());
    line.push(b"\n");
}
