//! Attempts of the job at an address.
ghost use Rattle.std.specs.Prelude.{◌≡◌, [], false, true, IfOk, OnErr, OnOk};
ghost use Rattle.std.specs.List.{list_any};
ghost use Rattle.cct_disk.specs.Disk.{GoesOn};
ghost use Rattle.cct_edge.specs.Faults.{HasCause};
ghost use Rattle.cct_host.specs.Host.{Fails, FailsBetween, FillsOn, Nexts, disk_of, has_failed};
ghost use Rattle.cct_host.specs.Host.{journal_of, setup_of};
ghost use Rattle.cct_live_service.specs.AtDesk.{Both, FollowsDesk};
ghost use Rattle.cct_live_service.specs.Doing.{EndsAs, GoesOnTo, IsAttemptWith, MakesAttempts};
ghost use Rattle.cct_live_service.specs.Ends.{is_end};
ghost use Rattle.cct_live_service.specs.Known.{HasJob, IsKnown};
ghost use Rattle.cct_live_service.specs.Linked.{Exchanges, HasGone, watched};
ghost use Rattle.cct_live_service.specs.Parts.{Acts};

use crate::page::{Page, Went};
use crate::served::{Served, by_writing};
use cct_disk::Disk;
use cct_edge::{Failed, Sink};
use cct_host::Host;
use cct_host_change::Desk;
use cct_live_port::CountedLink;
use cct_model::Entry;

/// How many attempts a job makes at most for one line.
pub(crate) const MOST_ATTEMPTS: u32 = 1024;

/// Up to what a job makes attempts.
#[derive(Clone, Copy)]
pub(crate) enum Until {
    /// Up to its end.
    Ended,
    /// Up to its end, or to the first try that isn't answered.
    Failed,
}

/// The job at an address makes one attempt, and its entries are written; then a `linefault`, where
/// its exchange failed and none went through since the last one reported, or a `lineback` where it
/// is the first to go through; then a bill that is held.
pub(crate) fn attempt<K: Sink, D: Disk, L: CountedLink>(
    host: &mut Host<'_, D>,
    addr: u8,
    desk: &mut Desk,
    link: &mut L,
    out: &mut K,
    page: &mut Page,
) -> Result<(), Served>
    requires whole { has_failed host.old ≡ false }
    ensures acts { Acts K.written K.puts K.faults (Both (Exchanges L.gives L.sent L.failures (setup_of host.old).devices
        (watched link.old page.old) (watched link.new page.new))
        (FollowsDesk result desk.old desk.new))
        (IsAttemptWith (L.sent link.new) page.new.report.items addr) result out.old out.new host.old host.new }
{
    match make(host, addr, link, page) {
        Ok(went) => {
            desk.see(page.report.as_slice());
            by_writing(page.write_attempt(host.setup(), addr, went, out))
        }
        Err(Failed) => Err(Served::Disk),
    }
}

/// The job at an address makes one attempt, whose entries are then the report, and this is how its
/// exchange went.
fn make<D: Disk, L: CountedLink>(
    host: &mut Host<'_, D>,
    addr: u8,
    link: &mut L,
    page: &mut Page,
) -> Result<Went, Failed>
    requires whole { has_failed host.old ≡ false }
    ensures whole { OnOk result (has_failed host.new ≡ false) }
    ensures setup { setup_of host.new ≡ setup_of host.old }
    ensures watch { page.new.watch ≡ page.old.watch }
    ensures nexts { OnOk result (Nexts L.gives link.old link.new addr host.old host.new []
        page.new.report.items) }
    ensures fills { OnOk result (FillsOn (journal_of host.old) (journal_of host.new)) }
    ensures went { IfOk result (HasGone L.sent L.failures link.old link.new) }
    ensures link { OnErr result (link.new ≡ link.old) }
    ensures fails { OnErr result (Fails host.old host.new addr) }
    ensures between { OnErr result (FailsBetween host.old host.new addr) }
    ensures cause { HasCause (D.faults (disk_of host.old)) (D.faults (disk_of host.new)) result }
    ensures goes_on { GoesOn D.size D.honest D.seen D.cuts (disk_of host.old) (disk_of host.new) }
{
    page.report.clear();
    let faults = link.faults();
    match host.next(addr, link, &mut page.report) {
        Ok(()) => Ok(Went {
            has_failed: link.faults() != faults,
            is_sent: link.was_sent(),
            is_answered: link.was_answered(),
        }),
        Err(Failed) => Err(Failed),
    }
}

/// The job at an address makes attempts until it has ended, or up to a failed try, or the most: one
/// at least.
pub(crate) fn attempts<K: Sink, D: Disk, L: CountedLink>(
    host: &mut Host<'_, D>,
    addr: u8,
    until: Until,
    desk: &mut Desk,
    link: &mut L,
    out: &mut K,
    page: &mut Page,
) -> Result<(), Served>
    requires whole { has_failed host.old ≡ false }
    ensures acts { Acts K.written K.puts K.faults (Both (Exchanges L.gives L.sent L.failures (setup_of host.old).devices
        (watched link.old page.old) (watched link.new page.new))
        (FollowsDesk result desk.old desk.new))
        (EndsAs result page.new.report.items (MakesAttempts until addr)) result out.old out.new host.old host.new }
{
    for _made in 0..MOST_ATTEMPTS {
        match attempt(host, addr, desk, link, out, page) {
            Ok(()) => {}
            Err(how) => return Err(how),
        }
        if is_over(until, page) {
            break;
        }
    }
    Ok(())
}

/// Whether no more attempts are made after the last one.
fn is_over(until: Until, page: &Page) -> bool
    ensures ended { until ≡ Until.Ended → result ≡ list_any is_end page.now.report.items }
    ensures goes_on { result ≡ false → list_any is_end page.now.report.items ≡ false }
{
    let is_ended = has_ended(page.report.as_slice());
    match until {
        Until::Ended => is_ended,
        Until::Failed => is_ended || page.has_failed(),
    }
}

/// Whether one of these entries says that no job is left.
fn has_ended(entries: &[Entry]) -> bool
    ensures { result ≡ list_any is_end entries.now }
{
    entries.iter().any(|entry| is_end(entry))
}

/// Whether an entry says that no job is left at its address.
fn is_end(entry: &Entry) -> bool
    ensures { result ≡ is_end entry.now }
{
    matches!(entry, Entry::Ended { .. } | Entry::Idle { .. })
}

/// The job at an address, if there is one, makes attempts until it has ended, or up to a failed
/// try, or the most. The entries of the last one are then the report, which is empty where none was
/// made.
pub(crate) fn go_on<K: Sink, D: Disk, L: CountedLink>(
    host: &mut Host<'_, D>,
    addr: u8,
    until: Until,
    desk: &mut Desk,
    link: &mut L,
    out: &mut K,
    page: &mut Page,
) -> Result<(), Served>
    requires whole { has_failed host.old ≡ false }
    ensures acts { Acts K.written K.puts K.faults (Both (Exchanges L.gives L.sent L.failures (setup_of host.old).devices
        (watched link.old page.old) (watched link.new page.new))
        (FollowsDesk result desk.old desk.new))
        (EndsAs result page.new.report.items (GoesOnTo (IsKnown host.old desk.old (HasJob (setup_of host.old) addr false)) until addr))
        result out.old out.new host.old host.new }
{
    if host.command_at(addr).is_some() {
        attempts(host, addr, until, desk, link, out, page)
    } else {
        page.report.clear();
        Ok(())
    }
}
