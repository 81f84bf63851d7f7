//! A setup is drafted of the devices that answer on a line.
ghost use Rattle.std.specs.Prelude.{◌≡◌};
ghost use Rattle.cct_live_survey.specs.Asking.{Inquires};

use crate::bills::draft_bills;
use crate::hoppers::draft_hopper;
use crate::lines::{At, Draft};
use crate::search::{addresses_heard, check_at, is_tried, tried};
use cct_edge::{Failed, Sink};
use cct_live_survey::{Room, TRIES, category_of, coin_id_of, serial_of};
use cct_model_lines::{COIN_PLACES, DeviceSet, Family};
use cct_wire::Link;

/// What was heard while a setup was drafted.
#[derive(Clone, Copy, PartialEq, Eq)]
pub enum Drafted {
    /// Bytes came that aren't the echo of what was sent.
    Heard,
    /// Nothing came, or nothing but the echo of what was sent. Nobody is on the line, or it is
    /// dead.
    Dead,
}

/// Searches a line for devices, and writes a setup of them: a line for each acceptor of coins or
/// bills and each hopper, a `value` line for each coin and each bill whose value is reported, and
/// `begin`. What it can't say goes to `notes`, a line each; and of a device of another kind, or
/// without a serial number, nothing else is written. Before each address that is tried `notes` gets
/// a line `address 7 of 24`.
///
/// All devices are polled under both checks. Each address that answers is asked, and beside them 2
/// to 17 and 40 to 47, since some devices don't know that poll. Each message is sent three times at
/// most. A coin is worth what its identification says (header 184), a bill its figures times the
/// scaling of its country (157 and 156), and a hopper's coins what it says of them (171, else 131).
/// A value is in units of the last decimal place that the devices count in, cents where `EU100A` is
/// 100 and the scaling of `EU` is 100. A hopper that doesn't say the value of its coins, or that
/// has several coins, gets a 0, which is none: nothing reads such a setup before a person has
/// written the value.
pub fn draft<L: Link, K: Sink, N: Sink>(
    link: &mut L,
    out: &mut K,
    notes: &mut N,
) -> Result<Drafted, Failed>
    // Whatever is heard, only questions who a device is, which coins it knows and what they are
    // worth were asked.
    ensures inquires { Inquires L.gives link.old link.new }
{
    let mut room = Room::new();
    let mut draft = Draft::new(out, notes);
    let heard = addresses_heard(link, &mut room);
    draft_all(&heard, link, &mut room, &mut draft)?;
    draft.put_begin()?;
    if room.is_silent {
        Ok(Drafted::Dead)
    } else {
        Ok(Drafted::Heard)
    }
}

/// Writes the lines of the devices at all addresses that are tried.
fn draft_all<L: Link, K: Sink, N: Sink>(
    heard: &DeviceSet,
    link: &mut L,
    room: &mut Room,
    draft: &mut Draft<'_, '_, K, N>,
) -> Result<(), Failed>
    ensures inquires { (first : L) → Inquires L.gives first link.old →
        Inquires L.gives first link.new }
{
    let many = tried(heard, 255);
    for addr in 2..=255 {
        if is_tried(heard, addr) {
            draft.note_address(tried(heard, addr), many)?;
            draft_address(addr, heard.has(addr), link, room, draft)?;
        }
    }
    Ok(())
}

/// Writes the lines of the device at an address, if one is there.
fn draft_address<L: Link, K: Sink, N: Sink>(
    addr: u8,
    was_heard: bool,
    link: &mut L,
    room: &mut Room,
    draft: &mut Draft<'_, '_, K, N>,
) -> Result<(), Failed>
    ensures inquires { (first : L) → Inquires L.gives first link.old →
        Inquires L.gives first link.new }
{
    match check_at(link, addr, was_heard, room) {
        Some(kind) => draft_device(At { kind, addr }, link, room, draft),
        None if was_heard => draft.note_silent(addr),
        None => Ok(()),
    }
}

/// Writes the lines of a device.
fn draft_device<L: Link, K: Sink, N: Sink>(
    at: At,
    link: &mut L,
    room: &mut Room,
    draft: &mut Draft<'_, '_, K, N>,
) -> Result<(), Failed>
    ensures inquires { (first : L) → Inquires L.gives first link.old →
        Inquires L.gives first link.new }
{
    let category = category_of(link, at.kind, at.addr, TRIES, room);
    let serial = serial_of(link, at.kind, at.addr, TRIES, room);
    let family = match &category {
        Some(category) => category.family(),
        None => None,
    };
    match (family, serial) {
        (Some(Family::Acceptor), Some(serial)) => {
            draft.put_acceptor(at, serial)?;
            draft_coins(at, link, room, draft)
        }
        (Some(Family::Hopper), Some(serial)) => draft_hopper(at, serial, link, room, draft),
        (Some(Family::Bill), Some(serial)) => {
            draft.put_bills(at, serial)?;
            draft_bills(at, link, room, draft)
        }
        _ => draft.note_category(at.addr, &category),
    }
}

/// Writes the values of the coins of an acceptor.
fn draft_coins<L: Link, K: Sink, N: Sink>(
    at: At,
    link: &mut L,
    room: &mut Room,
    draft: &mut Draft<'_, '_, K, N>,
) -> Result<(), Failed>
    ensures inquires { (first : L) → Inquires L.gives first link.old →
        Inquires L.gives first link.new }
{
    for place in 1..=COIN_PLACES as u8 {
        if let Some(id) = coin_id_of(link, at.kind, at.addr, place, TRIES, room) {
            draft.put_coin(at.addr, place, id)?;
        }
    }
    Ok(())
}
