//! The acceptors that run are stopped at the end.
ghost use Rattle.std.specs.Prelude.{◌≡◌, List, false, true};
ghost use Rattle.std.specs.List.{list_any};
ghost use Rattle.cct_host.specs.Host.{Keeps, has_failed, setup_of};
ghost use Rattle.cct_host.specs.Standing.{epoch_at};
ghost use Rattle.cct_model.specs.lines.entry.Entry.{Entry};
ghost use Rattle.cct_live_service.specs.AtDesk.{Both, FollowsDesk};
ghost use Rattle.cct_live_service.specs.Doing.{GivesStop, LivesPast, StopsAt, StopsBy};
ghost use Rattle.cct_live_service.specs.Doing.{StopsRunning, StopsUpTo};
ghost use Rattle.cct_live_service.specs.Ends.{is_unanswered};
ghost use Rattle.cct_live_service.specs.Known.{KnownAfter};
ghost use Rattle.cct_live_service.specs.Opening.{is_running};
ghost use Rattle.cct_live_service.specs.Linked.{Exchanges, watched};
ghost use Rattle.cct_live_service.specs.Parts.{Acts};

use crate::attempts::{Until, go_on};
use crate::commands::answer;
use crate::page::Page;
use crate::served::Served;
use crate::standing::runs;
use cct_disk::Disk;
use cct_edge::Sink;
use cct_host::Host;
use cct_host_change::Desk;
use cct_live_port::CountedLink;
use cct_model::{Command, End, Entry};

/// What is done with the acceptors that run where the input ended, or said `end`.
#[derive(Clone, Copy, PartialEq, Eq)]
pub enum AtEnd {
    /// They go on accepting, and their epochs run.
    Leave,
    /// Each is stopped first: a job that is there makes attempts up to its end, and then a `stop`.
    /// One that doesn't answer three times in succession is left as it is.
    Stop,
}

/// Stops the acceptors that run, where it is wanted.
pub(crate) fn stop_at_end<K: Sink, D: Disk, L: CountedLink>(
    host: &mut Host<'_, D>,
    ends: AtEnd,
    desk: &mut Desk,
    link: &mut L,
    out: &mut K,
    page: &mut Page,
) -> Result<(), Served>
    requires whole { has_failed host.old ≡ false }
    ensures acts { Acts K.written K.puts K.faults (Both (Exchanges L.gives L.sent L.failures (setup_of host.old).devices
        (watched link.old page.old) (watched link.new page.new))
        (FollowsDesk result desk.old desk.new))
        (StopsBy ends (LivesPast result) (KnownAfter host.old desk.old) (setup_of host.old)) result out.old out.new host.old host.new }
{
    match ends {
        AtEnd::Leave => Ok(()),
        AtEnd::Stop => stop_all(host, desk, link, out, page),
    }
}

/// Stops each acceptor that runs, in rising order of address.
fn stop_all<K: Sink, D: Disk, L: CountedLink>(
    host: &mut Host<'_, D>,
    desk: &mut Desk,
    link: &mut L,
    out: &mut K,
    page: &mut Page,
) -> Result<(), Served>
    requires whole { has_failed host.old ≡ false }
    ensures acts { Acts K.written K.puts K.faults (Both (Exchanges L.gives L.sent L.failures (setup_of host.old).devices
        (watched link.old page.old) (watched link.new page.new))
        (FollowsDesk result desk.old desk.new))
        (StopsUpTo 256 (LivesPast result) (KnownAfter host.old desk.old) (setup_of host.old)) result out.old out.new host.old host.new }
{
    for addr in 0..=u8::MAX {
        match stop_if_running(host, addr, desk, link, out, page) {
            Ok(()) => {}
            Err(how) => return Err(how),
        }
    }
    Ok(())
}

/// Stops the acceptor at an address, if one runs there.
fn stop_if_running<K: Sink, D: Disk, L: CountedLink>(
    host: &mut Host<'_, D>,
    addr: u8,
    desk: &mut Desk,
    link: &mut L,
    out: &mut K,
    page: &mut Page,
) -> Result<(), Served>
    requires whole { has_failed host.old ≡ false }
    ensures acts { Acts K.written K.puts K.faults (Both (Exchanges L.gives L.sent L.failures (setup_of host.old).devices
        (watched link.old page.old) (watched link.new page.new))
        (FollowsDesk result desk.old desk.new))
        (StopsAt (LivesPast result) (KnownAfter host.old desk.old) (setup_of host.old) addr) result out.old out.new host.old host.new }
{
    if runs(host.epoch_at(addr)) {
        stop(host, addr, desk, link, out, page)
    } else {
        Ok(())
    }
}

/// The job at an address makes attempts up to its end, and then a `stop` does, unless that job got
/// no answer or ended the epoch.
fn stop<K: Sink, D: Disk, L: CountedLink>(
    host: &mut Host<'_, D>,
    addr: u8,
    desk: &mut Desk,
    link: &mut L,
    out: &mut K,
    page: &mut Page,
) -> Result<(), Served>
    requires whole { has_failed host.old ≡ false }
    ensures acts { Acts K.written K.puts K.faults (Both (Exchanges L.gives L.sent L.failures (setup_of host.old).devices
        (watched link.old page.old) (watched link.new page.new))
        (FollowsDesk result desk.old desk.new))
        (StopsRunning (LivesPast result) (KnownAfter host.old desk.old) (setup_of host.old) addr) result out.old out.new host.old host.new }
{
    match go_on(host, addr, Until::Ended, desk, link, out, page) {
        Ok(()) => {}
        Err(how) => return Err(how),
    }
    if is_to_stop(host, addr, page) {
        stop_idle(host, addr, desk, link, out, page)
    } else {
        Ok(())
    }
}

/// Whether the acceptor at an address still runs, and no job there has just ended for want of an
/// answer.
fn is_to_stop<D: Disk>(host: &Host<'_, D>, addr: u8, page: &Page) -> bool
    ensures stops { result ≡ true → list_any is_unanswered page.now.report.items ≡ false }
    ensures runs { result ≡ true → (past : List Entry) → Keeps host.now past →
        is_running (epoch_at (setup_of host.now) past addr) ≡ true }
    ensures stays { result ≡ false → list_any is_unanswered page.now.report.items ≡ false
        → (past : List Entry) → Keeps host.now past → is_running (epoch_at (setup_of host.now) past addr) ≡ false }
{
    runs(host.epoch_at(addr)) && !has_unanswered(page.report.as_slice())
}

/// Whether one of these entries says that a job ended for want of an answer.
fn has_unanswered(entries: &[Entry]) -> bool
    ensures { result ≡ list_any is_unanswered entries.now }
{
    entries.iter().any(|entry| is_unanswered(entry))
}

/// Whether an entry says that a job ended for want of an answer.
fn is_unanswered(entry: &Entry) -> bool
    ensures { result ≡ is_unanswered entry.now }
{
    matches!(
        entry,
        Entry::Ended {
            end: End::NoAnswer,
            ..
        }
    )
}

/// A `stop` is begun at an address, and makes attempts up to its end, if it is taken.
fn stop_idle<K: Sink, D: Disk, L: CountedLink>(
    host: &mut Host<'_, D>,
    addr: u8,
    desk: &mut Desk,
    link: &mut L,
    out: &mut K,
    page: &mut Page,
) -> Result<(), Served>
    requires whole { has_failed host.old ≡ false }
    ensures acts { Acts K.written K.puts K.faults (Both (Exchanges L.gives L.sent L.failures (setup_of host.old).devices
        (watched link.old page.old) (watched link.new page.new))
        (FollowsDesk result desk.old desk.new))
        (GivesStop (KnownAfter host.old desk.old) (setup_of host.old) addr) result out.old out.new host.old host.new }
{
    match answer(host, &Command::Stop { addr }, out, page) {
        Ok(()) => go_on(host, addr, Until::Ended, desk, link, out, page),
        Err(how) => Err(how),
    }
}
