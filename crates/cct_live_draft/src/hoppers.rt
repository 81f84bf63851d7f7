//! The value of the coins of a hopper.
ghost use Rattle.cct_live_survey.specs.Asking.{Inquires};

use crate::lines::{At, Draft};
use cct_edge::{Failed, Sink};
use cct_live_survey::{Room, ValueRequest, value_of};
use cct_text_worth::value_told;
use cct_wire::Link;

/// What a hopper says of the value of its coins.
#[derive(Clone, Copy)]
enum Worth {
    /// Each is worth so much, 1 to 1,000,000.
    Each(u32),
    /// It has several coins.
    Several,
    /// It doesn't say it.
    Untold,
}

/// Writes the line of a hopper, with the value of its coins where it is reported.
pub(crate) fn draft_hopper<L: Link, K: Sink, N: Sink>(
    at: At,
    serial: u32,
    link: &mut L,
    room: &mut Room,
    draft: &mut Draft<'_, '_, K, N>,
) -> Result<(), Failed>
    ensures inquires { (first : L) → Inquires L.gives first link.old →
        Inquires L.gives first link.new }
{
    match worth_of(at, link, room) {
        Worth::Each(value) => draft.put_hopper(at, serial, value),
        Worth::Several => {
            draft.put_hopper(at, serial, 0)?;
            draft.note_several(at.addr)
        }
        Worth::Untold => {
            draft.put_hopper(at, serial, 0)?;
            draft.note_hopper(at.addr)
        }
    }
}

/// What a hopper says of the value of its coins: by their identification, else by the value of the
/// first of its coins, where it has no second one.
fn worth_of<L: Link>(at: At, link: &mut L, room: &mut Room) -> Worth
    ensures inquires { (first : L) → Inquires L.gives first link.old →
        Inquires L.gives first link.new }
{
    if let Some(value) = told_by_id(at, link, room) {
        return Worth::Each(value);
    }
    let Some(value) = told_of_coin(at, 1, link, room) else {
        return Worth::Untold;
    };
    match told_of_coin(at, 2, link, room) {
        Some(_) => Worth::Several,
        None => Worth::Each(value),
    }
}

/// The value that the identification of a hopper's coins gives.
fn told_by_id<L: Link>(at: At, link: &mut L, room: &mut Room) -> Option<u32>
    ensures inquires { (first : L) → Inquires L.gives first link.old →
        Inquires L.gives first link.new }
{
    let told = value_of(link, at.kind, at.addr, ValueRequest::HopperCoin, room)?;
    match *told.as_slice() {
        [a, b, c, d, e, f] => value_told([a, b, c, d, e, f]),
        _ => None,
    }
}

/// The value of one of a hopper's coins, if it has that one.
fn told_of_coin<L: Link>(at: At, place: u8, link: &mut L, room: &mut Room) -> Option<u32>
    ensures inquires { (first : L) → Inquires L.gives first link.old →
        Inquires L.gives first link.new }
{
    let told = value_of(
        link,
        at.kind,
        at.addr,
        ValueRequest::HopperValue { place },
        room,
    )?;
    match *told.as_slice() {
        [_, _, _, _, _, _, low, high] if low != 0 || high != 0 => {
            Some(u32::from(u16::from_le_bytes([low, high])))
        }
        _ => None,
    }
}
