//! Whether the data of a reply are as expected.
ghost use Rattle.std.specs.Prelude.{◌≡◌, take};
ghost use Rattle.cct_model_wire.specs.Request.{three_bytes};
ghost use Rattle.cct_live_survey.specs.Roll.{is_family_of};
ghost use Rattle.cct_live_survey.specs.declared.category.TheConstants.{MOST_CATEGORY};
ghost use Rattle.cct_probe_plan.specs.Values.{counter_after, counter_in, fit_of, fits_bill};
ghost use Rattle.cct_probe_plan.specs.Values.{fits_coin, fits_events, fits_halted, fits_number};
ghost use Rattle.cct_probe_plan.specs.Values.{fits_said, further, id_at, id_in, is_each, is_newest};
ghost use Rattle.cct_probe_plan.specs.Values.{are_zeros, is_newest_by};
ghost use Rattle.cct_probe_plan.specs.Values.{keep_counter, keep_number, keeps_counter, kept_by};
ghost use Rattle.cct_probe_plan.specs.Values.{next_counter, number_in, of_form, of_value, pairs_in};
ghost use Rattle.cct_probe_plan.specs.Values.{same, so_many, zeros};

use crate::memory::Memory;
use crate::plan::{Counted, Expected, Newest, Told};
use crate::round::{Turn, mask_of, place_of, tried_place};
use cct_live_survey::{Category, NO_COIN};
use cct_model_lines::{COIN_PLACES, DeviceBody, DeviceSetup};

/// What the data of a reply are against what is expected.
#[derive(Clone, Copy)]
pub(crate) enum Fits {
    /// As expected.
    Yes,
    /// Of the right number, and others.
    Others,
    /// Not so many bytes.
    Form,
}

/// Whether data are as expected. What is to be kept of them is.
pub(crate) fn fit_of(expected: Expected, turn: Turn<'_>, memory: &mut Memory, bytes: &[u8]) -> Fits
    ensures fits { result
        ≡ fit_of expected turn.entry.device.now turn.entry.round memory.old bytes.now }
    ensures kept { memory.new ≡ kept_by expected bytes.now memory.old }
    ensures reply { memory.new.reply.items ≡ memory.old.reply.items }
{
    match expected {
        Expected::Ack => so_many(0, bytes),
        Expected::One(byte) => same(&[byte], bytes),
        Expected::Two(first, second) => same(&[first, second], bytes),
        Expected::Zeros(many) => zeros(many, bytes),
        Expected::Any(many) => so_many(many, bytes),
        Expected::Said(told) => fits_said(told, turn, bytes),
        Expected::Count(counted) => fits_count(counted, memory, bytes),
        Expected::Events { more, newest } => {
            let place = tried_place(&turn.device.body);
            fits_events(more, newest, place, memory.counter, bytes)
        }
        Expected::Keeps => keeps_events(memory, bytes),
        Expected::Halted(coins) => fits_halted(coins, bytes),
    }
}

/// The data have the form.
fn of_form(has: bool) -> Fits
    ensures { result ≡ of_form has }
{
    if has { Fits::Yes } else { Fits::Form }
}

/// The data have the value.
fn of_value(has: bool) -> Fits
    ensures { result ≡ of_value has }
{
    if has { Fits::Yes } else { Fits::Others }
}

/// The data are these bytes.
fn same(wanted: &[u8], bytes: &[u8]) -> Fits
    ensures { result ≡ same wanted.now bytes.now }
{
    if bytes.len() == wanted.len() {
        of_value(bytes == wanted)
    } else {
        Fits::Form
    }
}

/// The data are so many bytes.
fn so_many(many: u8, bytes: &[u8]) -> Fits
    ensures { result ≡ so_many many bytes.now }
{
    of_form(bytes.len() == usize::from(many))
}

/// The data are so many bytes, each 0.
fn zeros(many: u8, bytes: &[u8]) -> Fits
    ensures { result ≡ zeros many bytes.now }
{
    if bytes.len() == usize::from(many) {
        of_value(are_zeros(bytes))
    } else {
        Fits::Form
    }
}

/// Whether each byte is 0.
fn are_zeros(bytes: &[u8]) -> bool
    ensures { result ≡ are_zeros bytes.now }
{
    bytes.iter().all(|byte| *byte == 0)
}

/// What the setup or the round says.
fn fits_said(told: Told, turn: Turn<'_>, bytes: &[u8]) -> Fits
    ensures { result ≡ fits_said told turn.entry.device.now turn.entry.round bytes.now }
{
    match told {
        Told::Serial => fits_serial(turn.device.serial, bytes),
        Told::Category => of_value(is_category(turn.device, bytes)),
        Told::Coin => fits_coin(id_at(&turn.device.body, place_of(turn.round)), bytes),
        Told::Bill => fits_bill(id_at(&turn.device.body, place_of(turn.round)), bytes),
        Told::Bit => same(&mask_of(place_of(turn.round)), bytes),
    }
}

/// The three bytes of a serial number.
fn fits_serial(serial: u32, bytes: &[u8]) -> Fits
    ensures { result ≡ same (three_bytes serial) bytes.now }
{
    let [low, middle, high, _] = serial.to_le_bytes();
    same(&[low, middle, high], bytes)
}

/// Whether a category is that of a device's kind.
fn is_category(device: &DeviceSetup, bytes: &[u8]) -> bool
    ensures { result ≡ is_family_of device.now (take MOST_CATEGORY bytes.now) }
{
    match Category::of(bytes).family() {
        Some(family) => family == device.body.family(),
        None => false,
    }
}

/// The identification of a coin, where the setup has one.
fn fits_coin(id: Option<[u8; 6]>, bytes: &[u8]) -> Fits
    ensures { result ≡ fits_coin id bytes.now }
{
    match id {
        Some(id) => same(&id, bytes),
        None => so_many(6, bytes),
    }
}

/// The identification of a bill, where the setup has one: the setup leaves out the last character,
/// the letter of the issue.
fn fits_bill(id: Option<[u8; 6]>, bytes: &[u8]) -> Fits
    ensures { result ≡ fits_bill id bytes.now }
{
    let id = match id {
        Some(id) => id,
        None => return so_many(7, bytes),
    };
    if bytes.is_empty() {
        Fits::Form
    } else {
        same(&id, &bytes[..bytes.len() - 1])
    }
}

/// The identification of the coin or the bill of a place, where the setup has one.
pub(crate) fn id_at(body: &DeviceBody, place: u8) -> Option<[u8; 6]>
    ensures { result ≡ id_at body.now place }
{
    match body {
        DeviceBody::Acceptor { values, ids, .. } => id_in(values, ids, place),
        DeviceBody::Bill { values, ids, .. } => id_in(values, ids, place),
        DeviceBody::Hopper { .. } => None,
    }
}

/// The same, by the values and the identifications of all places.
fn id_in(values: &[u32; COIN_PLACES], ids: &[[u8; 6]; COIN_PLACES], place: u8) -> Option<[u8; 6]>
    ensures { result ≡ id_in values.now ids.now place }
{
    let at = usize::from(place.saturating_sub(1)) % COIN_PLACES;
    if values[at] == 0 || ids[at] == NO_COIN {
        None
    } else {
        Some(ids[at])
    }
}

/// A number of three bytes.
fn number_in(bytes: &[u8]) -> Option<u32>
    ensures { result ≡ number_in bytes.now }
{
    match bytes {
        [low, middle, high] => Some(u32::from_le_bytes([*low, *middle, *high, 0])),
        _ => None,
    }
}

/// A number of three bytes against the one that is kept.
fn fits_count(counted: Counted, memory: &mut Memory, bytes: &[u8]) -> Fits
    ensures fits { result ≡ fits_number counted memory.old.count (number_in bytes.now) }
    ensures kept { memory.new ≡ keep_number counted (number_in bytes.now) memory.old }
    ensures reply { memory.new.reply.items ≡ memory.old.reply.items }
{
    let number = match number_in(bytes) {
        Some(number) => number,
        None => return Fits::Form,
    };
    match counted {
        Counted::First => memory.first = Some(number),
        Counted::Last => memory.last = Some(number),
        Counted::Keeps => memory.count = number,
        Counted::More(more) => return of_value(number == further(memory.count, more)),
    }
    Fits::Yes
}

/// A number of three bytes that is so much further.
fn further(number: u32, more: u8) -> u32
    ensures { result ≡ further number more }
{
    (number % 16_777_216 + u32::from(more)) % 16_777_216
}

/// The event counter, where the newest events come after it.
pub(crate) fn counter_in(bytes: &[u8]) -> Option<u8>
    ensures { result ≡ counter_in bytes.now }
{
    match bytes {
        [counter, pairs @ ..] if pairs.len() == 10 => Some(*counter),
        _ => None,
    }
}

/// The newest events, after the event counter.
fn pairs_in(bytes: &[u8]) -> &[u8]
    ensures { result.now ≡ pairs_in bytes.now }
{
    match bytes {
        [_, pairs @ ..] => pairs,
        [] => &[],
    }
}

/// The event counter is kept.
fn keeps_events(memory: &mut Memory, bytes: &[u8]) -> Fits
    ensures fits { result ≡ keeps_counter (counter_in bytes.now) }
    ensures kept { memory.new ≡ keep_counter (counter_in bytes.now) memory.old }
    ensures reply { memory.new.reply.items ≡ memory.old.reply.items }
{
    match counter_in(bytes) {
        Some(counter) => {
            memory.counter = counter;
            Fits::Yes
        }
        None => Fits::Form,
    }
}

/// So many more events than those kept, the newest as wanted.
fn fits_events(more: u16, newest: Newest, place: u8, kept: u8, bytes: &[u8]) -> Fits
    ensures { result ≡ fits_events more newest place kept bytes.now }
{
    match counter_in(bytes) {
        Some(counter) => of_value(
            counter == counter_after(kept, more) && is_newest(newest, place, pairs_in(bytes)),
        ),
        None => Fits::Form,
    }
}

/// The event counter after so many more events.
pub(crate) fn counter_after(counter: u8, more: u16) -> u8
    ensures { result ≡ counter_after counter more }
{
    let mut after = counter;
    for _event in 0..more {
        after = next_counter(after);
    }
    after
}

/// The event counter after one more event: 1 comes after 255.
fn next_counter(counter: u8) -> u8
    ensures { result ≡ next_counter counter }
{
    if counter == 255 { 1 } else { counter + 1 }
}

/// Whether the newest events are as wanted.
fn is_newest(newest: Newest, place: u8, pairs: &[u8]) -> bool
    ensures { result ≡ is_newest newest place pairs.now }
{
    match pairs {
        [first, second, ..] => is_newest_by(newest, place, *first, *second, pairs),
        _ => false,
    }
}

/// The same, by the pair of the newest one.
fn is_newest_by(newest: Newest, place: u8, first: u8, second: u8, pairs: &[u8]) -> bool
    ensures { result ≡ is_newest_by newest place first second pairs.now }
{
    match newest {
        Newest::Any => true,
        Newest::Taken => first == place,
        Newest::FiveTaken => is_each(place, pairs),
        Newest::Bill(what) => first == place && second == what,
        Newest::Error => first == 0,
    }
}

/// Whether each of five events is of a place.
fn is_each(place: u8, pairs: &[u8]) -> bool
    ensures { result ≡ is_each place pairs.now }
{
    match pairs {
        [a, _, b, _, c, _, d, _, e, _] => {
            *a == place && *b == place && *c == place && *d == place && *e == place
        }
        _ => false,
    }
}

/// No coin is left to pay, and what was paid and wasn't are so many together.
fn fits_halted(coins: u8, bytes: &[u8]) -> Fits
    ensures { result ≡ fits_halted coins bytes.now }
{
    match bytes {
        [_, left, paid, unpaid] => of_value(
            *left == 0 && u16::from(*paid) + u16::from(*unpaid) == u16::from(coins),
        ),
        _ => Fits::Form,
    }
}
