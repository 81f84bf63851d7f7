//! Which addresses of a line have a device, and under which check.
ghost use Rattle.std.specs.Prelude.{◌≡◌, ◌≤◌, ◌-◌};
ghost use Rattle.cct_live_survey.specs.Asking.{Inquires};

use cct_live_survey::{Room, TRIES, is_there, poll_all};
use cct_model_lines::{CheckKind, DeviceSet};
use cct_wire::{Link, bare_after_echo};

/// The addresses that answer a poll of all devices under either check.
pub(crate) fn addresses_heard<L: Link>(link: &mut L, room: &mut Room) -> DeviceSet
    ensures inquires { (first : L) → Inquires L.gives first link.old →
        Inquires L.gives first link.new }
{
    let mut heard = DeviceSet::new();
    poll_all(link, CheckKind::Simple, room);
    note_addresses(room, &mut heard);
    poll_all(link, CheckKind::Crc, room);
    note_addresses(room, &mut heard);
    heard
}

/// Adds the addresses that follow the echo of a poll of all devices.
fn note_addresses(room: &Room, heard: &mut DeviceSet) {
    if let Ok(rest) = bare_after_echo(room.sent.as_slice(), room.heard.as_slice()) {
        for addr in rest {
            heard.insert(*addr);
        }
    }
}

/// Whether an address is tried: it was heard, or is usual.
pub(crate) fn is_tried(heard: &DeviceSet, addr: u8) -> bool {
    heard.has(addr) || is_usual(addr)
}

/// Whether an address is one of those that the standard gives to coin acceptors and hoppers, up to
/// 17, or to bill acceptors, 40 to 47 (ccTalk Generic Specification 4, part 3, appendix on
/// categories and addresses).
fn is_usual(addr: u8) -> bool {
    matches!(addr, 2..=17 | 40..=47)
}

/// How many addresses from 2 up to this one are tried.
pub(crate) fn tried(heard: &DeviceSet, last: u8) -> u32 {
    let mut many: u32 = 0;
    for addr in 2..=last {
        if is_tried(heard, addr) {
            many = many.saturating_add(1);
        }
    }
    many
}

/// The check under which the device at an address acknowledges a poll. Where an address was heard,
/// it is polled up to three times under each check, and any other once.
pub(crate) fn check_at<L: Link>(
    link: &mut L,
    addr: u8,
    was_heard: bool,
    room: &mut Room,
) -> Option<CheckKind>
    ensures inquires { (first : L) → Inquires L.gives first link.old →
        Inquires L.gives first link.new }
{
    let tries = if was_heard { TRIES } else { 1 };
    if is_there(link, CheckKind::Simple, addr, tries, room) {
        Some(CheckKind::Simple)
    } else if is_there(link, CheckKind::Crc, addr, tries, room) {
        Some(CheckKind::Crc)
    } else {
        None
    }
}
