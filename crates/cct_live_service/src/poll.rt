//! The line `poll`: all that is to be done for a while.
ghost use Rattle.std.specs.Prelude.{◌≡◌, ◌≢◌, ◌<◌, ◌+◌, ◌%◌, ◌++◌, Some, false, true};
ghost use Rattle.cct_host.specs.Host.{has_failed, setup_of};
ghost use Rattle.cct_live_service.specs.AtDesk.{Both, FollowsDesk, IsApart};
ghost use Rattle.cct_live_service.specs.Doing.{Finds, IsAsking, IsPoll, ServesOn, ThenBy};
ghost use Rattle.cct_live_service.specs.Doing.{VisitsLast, VisitsOthers, VisitsTurn, VisitsUnless};
ghost use Rattle.cct_live_service.specs.Known.{Rested, TaskAfter, TaskNow};
ghost use Rattle.cct_live_service.specs.Linked.{Exchanges, UsesLink, watched};
ghost use Rattle.cct_live_service.specs.Parts.{Acts};

use crate::asking::ask_some;
use crate::page::Page;
use crate::served::Served;
use crate::session::go_on_with_session;
use crate::visit::{has_task, visit};
use cct_disk::Disk;
use cct_edge::Sink;
use cct_host::Host;
use cct_host_change::Desk;
use cct_live_port::CountedLink;
use cct_live_survey::Roll;

/// How many addresses there are.
const ADDRESSES: u16 = 256;

/// The devices that aren't doubtful are visited in rising order of address, from where the last
/// poll stopped, up to the first try that isn't answered. Where each was answered, and no acceptor
/// takes coins faster than it is read out, one doubtful device is visited, and some of the
/// questions that are left are asked; no more than one try of a poll isn't answered.
pub(crate) fn poll<K: Sink, D: Disk, L: CountedLink>(
    host: &mut Host<'_, D>,
    roll: &mut Roll,
    desk: &mut Desk,
    link: &mut L,
    out: &mut K,
    page: &mut Page,
) -> Result<(), Served>
    requires whole { has_failed host.old ≡ false }
    ensures acts { Acts K.written K.puts K.faults
        (Both (UsesLink L.gives L.sent L.failures (setup_of host.old).devices roll.old roll.new
        (watched link.old page.old) (watched link.new page.new))
        (FollowsDesk result desk.old desk.new))
        (Finds roll.old.findings roll.new.findings (ThenBy (ServesOn (Rested host.old desk.old) roll.old.findings)
        (λ said. IsPoll (λ more. TaskAfter host.old desk.old (said ++ more)))))
        result out.old out.new host.old host.new }
{
    page.rests.begin_poll();
    match go_on_with_session(host, roll, desk, link, out, page) {
        Ok(()) => visit_all(host, roll, desk, link, out, page),
        Err(how) => Err(how),
    }
}

/// The visits of a poll, and what is done after them.
fn visit_all<K: Sink, D: Disk, L: CountedLink>(
    host: &mut Host<'_, D>,
    roll: &mut Roll,
    desk: &mut Desk,
    link: &mut L,
    out: &mut K,
    page: &mut Page,
) -> Result<(), Served>
    requires whole { has_failed host.old ≡ false }
    ensures acts { Acts K.written K.puts K.faults
        (Both (UsesLink L.gives L.sent L.failures (setup_of host.old).devices roll.old roll.new
        (watched link.old page.old) (watched link.new page.new))
        (FollowsDesk result desk.old desk.new))
        (Finds roll.old.findings roll.new.findings (IsPoll (TaskAfter host.old desk.old))) result out.old out.new host.old host.new }
{
    let turn = next_doubtful(host, page);
    match visit_sound(host, turn, desk, link, out, page) {
        Ok(()) => visit_last(host, turn, roll, desk, link, out, page),
        Err(how) => Err(how),
    }
}

/// Visits the devices that are neither doubtful nor left alone, up to the first try that isn't
/// answered. The next poll begins after that device. The doubtful one that has its turn comes
/// later.
fn visit_sound<K: Sink, D: Disk, L: CountedLink>(
    host: &mut Host<'_, D>,
    turn: Option<u8>,
    desk: &mut Desk,
    link: &mut L,
    out: &mut K,
    page: &mut Page,
) -> Result<(), Served>
    requires whole { has_failed host.old ≡ false }
    ensures acts { Acts K.written K.puts K.faults (Both (Exchanges L.gives L.sent L.failures (setup_of host.old).devices
        (watched link.old page.old) (watched link.new page.new))
        (FollowsDesk result desk.old desk.new))
        (VisitsOthers (TaskAfter host.old desk.old) turn) result out.old out.new host.old host.new }
{
    let first = page.rests.first();
    for step in 0..ADDRESSES {
        let addr = address_after(first, step);
        match visit_if_sound(host, addr, turn, desk, link, out, page) {
            Ok(()) => {}
            Err(how) => return Err(how),
        }
        if page.rests.has_failed() {
            page.rests.begin_after(addr);
            return Ok(());
        }
    }
    page.rests.begin_after(u8::MAX);
    Ok(())
}

/// Visits the device at an address, unless it is doubtful or left alone, or has its turn later.
fn visit_if_sound<K: Sink, D: Disk, L: CountedLink>(
    host: &mut Host<'_, D>,
    addr: u8,
    turn: Option<u8>,
    desk: &mut Desk,
    link: &mut L,
    out: &mut K,
    page: &mut Page,
) -> Result<(), Served>
    requires whole { has_failed host.old ≡ false }
    ensures acts { Acts K.written K.puts K.faults (Both (Exchanges L.gives L.sent L.failures (setup_of host.old).devices
        (watched link.old page.old) (watched link.new page.new))
        (FollowsDesk result desk.old desk.new))
        (VisitsUnless (TaskNow host.old desk.old) turn addr) result out.old out.new host.old host.new }
{
    if is_now(page, addr, turn) {
        visit(host, addr, desk, link, out, page)
    } else {
        Ok(())
    }
}

/// Whether the device at an address is visited now: it is neither doubtful nor left alone, and
/// doesn't have its turn later.
fn is_now(page: &Page, addr: u8, turn: Option<u8>) -> bool
    ensures { result ≡ true → turn ≢ Some addr }
{
    match turn {
        Some(other) => other != addr && page.rests.is_sound(addr),
        None => page.rests.is_sound(addr),
    }
}

/// The address so many places after the first one. After the last address comes 0.
fn address_after(first: u8, step: u16) -> u8
    requires few { step < 256 }
    ensures { result ≡ (first + step) % 256 }
{
    first.wrapping_add(step as u8)
}

/// What is done after the visits of a poll: the doubtful device whose turn it is, and questions
/// that are left. Which of both comes first changes from poll to poll.
fn visit_last<K: Sink, D: Disk, L: CountedLink>(
    host: &mut Host<'_, D>,
    turn: Option<u8>,
    roll: &mut Roll,
    desk: &mut Desk,
    link: &mut L,
    out: &mut K,
    page: &mut Page,
) -> Result<(), Served>
    requires whole { has_failed host.old ≡ false }
    ensures acts { Acts K.written K.puts K.faults
        (Both (UsesLink L.gives L.sent L.failures (setup_of host.old).devices roll.old roll.new
        (watched link.old page.old) (watched link.new page.new))
        (FollowsDesk result desk.old desk.new))
        (Finds roll.old.findings roll.new.findings (VisitsLast (TaskAfter host.old desk.old) turn)) result out.old out.new host.old host.new }
{
    if page.rests.asks_first() {
        ask_then_visit(host, turn, roll, desk, link, out, page)
    } else {
        visit_then_ask(host, turn, roll, desk, link, out, page)
    }
}

/// Asks some of the questions that are left, and then visits a doubtful device, unless the poll is
/// spent before.
fn ask_then_visit<K: Sink, D: Disk, L: CountedLink>(
    host: &mut Host<'_, D>,
    turn: Option<u8>,
    roll: &mut Roll,
    desk: &mut Desk,
    link: &mut L,
    out: &mut K,
    page: &mut Page,
) -> Result<(), Served>
    requires whole { has_failed host.old ≡ false }
    ensures acts { Acts K.written K.puts K.faults
        (Both (UsesLink L.gives L.sent L.failures (setup_of host.old).devices roll.old roll.new
        (watched link.old page.old) (watched link.new page.new))
        (FollowsDesk result desk.old desk.new))
        (Finds roll.old.findings roll.new.findings (VisitsLast (TaskAfter host.old desk.old) turn)) result out.old out.new host.old host.new }
{
    match ask_if_unspent(host, roll, link, out, page) {
        Ok(()) => visit_doubtful(host, turn, desk, link, out, page),
        Err(how) => Err(how),
    }
}

/// Visits a doubtful device, and then asks some of the questions that are left, unless the poll is
/// spent before.
fn visit_then_ask<K: Sink, D: Disk, L: CountedLink>(
    host: &mut Host<'_, D>,
    turn: Option<u8>,
    roll: &mut Roll,
    desk: &mut Desk,
    link: &mut L,
    out: &mut K,
    page: &mut Page,
) -> Result<(), Served>
    requires whole { has_failed host.old ≡ false }
    ensures acts { Acts K.written K.puts K.faults
        (Both (UsesLink L.gives L.sent L.failures (setup_of host.old).devices roll.old roll.new
        (watched link.old page.old) (watched link.new page.new))
        (FollowsDesk result desk.old desk.new))
        (Finds roll.old.findings roll.new.findings (VisitsLast (TaskAfter host.old desk.old) turn)) result out.old out.new host.old host.new }
{
    match visit_doubtful(host, turn, desk, link, out, page) {
        Ok(()) => ask_if_unspent(host, roll, link, out, page),
        Err(how) => Err(how),
    }
}

/// Asks some of the questions that are left, unless the poll is spent.
fn ask_if_unspent<K: Sink, D: Disk, L: CountedLink>(
    host: &mut Host<'_, D>,
    roll: &mut Roll,
    link: &mut L,
    out: &mut K,
    page: &mut Page,
) -> Result<(), Served>
    requires whole { has_failed host.old ≡ false }
    ensures acts { Acts K.written K.puts K.faults
        (Both (UsesLink L.gives L.sent L.failures (setup_of host.old).devices roll.old roll.new
        (watched link.old page.old) (watched link.new page.new))
        IsApart)
        (Finds roll.old.findings roll.new.findings IsAsking) result out.old out.new host.old host.new }
{
    if page.rests.is_spent() {
        Ok(())
    } else {
        ask_some(host, roll, link, out, page)
    }
}

/// Visits the doubtful device whose turn it is, if there is one, unless the poll is spent.
fn visit_doubtful<K: Sink, D: Disk, L: CountedLink>(
    host: &mut Host<'_, D>,
    turn: Option<u8>,
    desk: &mut Desk,
    link: &mut L,
    out: &mut K,
    page: &mut Page,
) -> Result<(), Served>
    requires whole { has_failed host.old ≡ false }
    ensures acts { Acts K.written K.puts K.faults (Both (Exchanges L.gives L.sent L.failures (setup_of host.old).devices
        (watched link.old page.old) (watched link.new page.new))
        (FollowsDesk result desk.old desk.new))
        (VisitsTurn (TaskNow host.old desk.old) turn) result out.old out.new host.old host.new }
{
    match turn {
        Some(addr) => visit_if_unspent(host, addr, desk, link, out, page),
        None => Ok(()),
    }
}

/// The device at an address has its turn and is visited, unless the poll is spent.
fn visit_if_unspent<K: Sink, D: Disk, L: CountedLink>(
    host: &mut Host<'_, D>,
    addr: u8,
    desk: &mut Desk,
    link: &mut L,
    out: &mut K,
    page: &mut Page,
) -> Result<(), Served>
    requires whole { has_failed host.old ≡ false }
    ensures acts { Acts K.written K.puts K.faults (Both (Exchanges L.gives L.sent L.failures (setup_of host.old).devices
        (watched link.old page.old) (watched link.new page.new))
        (FollowsDesk result desk.old desk.new))
        (VisitsTurn (TaskNow host.old desk.old) (Some addr)) result out.old out.new host.old host.new }
{
    if page.rests.is_spent() {
        return Ok(());
    }
    page.rests.take_turn(addr);
    visit(host, addr, desk, link, out, page)
}

/// The address of the doubtful device whose turn it is: the first with something to do after the
/// one that had the last turn.
fn next_doubtful<D: Disk>(host: &Host<'_, D>, page: &Page) -> Option<u8> {
    let first = page.rests.next_turn();
    for step in 0..ADDRESSES {
        let addr = address_after(first, step);
        if page.rests.is_due(addr) && has_task(host, addr) {
            return Some(addr);
        }
    }
    None
}
