//! What a poll does at one device.
ghost use Rattle.std.specs.Prelude.{◌≡◌, List, false};
ghost use Rattle.std.specs.List.{list_any};
ghost use Rattle.cct_host.specs.Host.{Keeps, has_failed, setup_of};
ghost use Rattle.cct_host.specs.Standing.{command_at, epoch_at};
ghost use Rattle.cct_model.specs.lines.entry.Entry.{Entry};
ghost use Rattle.cct_live_service.specs.AtDesk.{Both, FollowsDesk, IsApart};
ghost use Rattle.cct_live_service.specs.Doing.{BeginsRound, EndsRound, IsVisit, ReadsOut};
ghost use Rattle.cct_live_service.specs.Ends.{is_moved};
ghost use Rattle.cct_live_service.specs.Known.{TaskNow, task_of};
ghost use Rattle.cct_live_service.specs.Linked.{AreQuiet, Exchanges, watched};
ghost use Rattle.cct_live_service.specs.Opening.{is_running};
ghost use Rattle.cct_live_service.specs.Parts.{Acts};

use crate::attempts::{Until, attempt, go_on};
use crate::commands::answer;
use crate::page::Page;
use crate::served::Served;
use crate::standing::runs;
use cct_disk::Disk;
use cct_edge::Sink;
use cct_host::Host;
use cct_host_change::Desk;
use cct_live_port::CountedLink;
use cct_model::{Command, End, Entry};

/// How many rounds read out an acceptor in a poll, each after the first since a coin came while it
/// was being read.
pub(crate) const MOST_ROUNDS: u8 = 4;

/// What is to be done at an address.
#[derive(Clone, Copy)]
enum Task {
    /// No job is there, and no epoch runs.
    Nothing,
    /// The job makes an attempt.
    Attempt,
    /// The acceptor is read out: its epoch runs and no job is there, or its round isn't at its end.
    ReadOut,
}

/// What is to be done at an address.
fn task_at<D: Disk>(host: &Host<'_, D>, addr: u8) -> Task
    ensures { (past : List Entry) → Keeps host.now past
        → task_of (command_at (setup_of host.now) past addr) (is_running (epoch_at (setup_of host.now) past addr))
        ≡ result }
{
    task_of(host.command_at(addr), runs(host.epoch_at(addr)))
}

/// What is to be done at an address, by the command of its job and by whether an epoch runs there.
fn task_of(job: Option<Command>, is_running: bool) -> Task
    ensures { result ≡ task_of job is_running }
{
    match job {
        Some(Command::Round { .. }) => Task::ReadOut,
        Some(_) => Task::Attempt,
        None => {
            if is_running {
                Task::ReadOut
            } else {
                Task::Nothing
            }
        }
    }
}

/// Whether something is to be done at an address.
pub(crate) fn has_task<D: Disk>(host: &Host<'_, D>, addr: u8) -> bool {
    !matches!(task_at(host, addr), Task::Nothing)
}

/// Does at an address what is to be done there: an acceptor is read out by rounds, and any other
/// job makes one attempt.
pub(crate) fn visit<K: Sink, D: Disk, L: CountedLink>(
    host: &mut Host<'_, D>,
    addr: u8,
    desk: &mut Desk,
    link: &mut L,
    out: &mut K,
    page: &mut Page,
) -> Result<(), Served>
    requires whole { has_failed host.old ≡ false }
    ensures acts { Acts K.written K.puts K.faults (Both (Exchanges L.gives L.sent L.failures (setup_of host.old).devices
        (watched link.old page.old) (watched link.new page.new))
        (FollowsDesk result desk.old desk.new))
        (IsVisit (TaskNow host.old desk.old) addr) result out.old out.new host.old host.new }
{
    match task_at(host, addr) {
        Task::Nothing => Ok(()),
        Task::Attempt => attempt(host, addr, desk, link, out, page),
        Task::ReadOut => read_out(host, addr, desk, link, out, page),
    }
}

/// An acceptor is read out by a round, and by further ones where a coin came meanwhile. If the last
/// one found so too, nothing more is done in the poll.
fn read_out<K: Sink, D: Disk, L: CountedLink>(
    host: &mut Host<'_, D>,
    addr: u8,
    desk: &mut Desk,
    link: &mut L,
    out: &mut K,
    page: &mut Page,
) -> Result<(), Served>
    requires whole { has_failed host.old ≡ false }
    ensures acts { Acts K.written K.puts K.faults (Both (Exchanges L.gives L.sent L.failures (setup_of host.old).devices
        (watched link.old page.old) (watched link.new page.new))
        (FollowsDesk result desk.old desk.new))
        (ReadsOut addr) result out.old out.new host.old host.new }
{
    for _round in 0..MOST_ROUNDS {
        match round(host, addr, desk, link, out, page) {
            Ok(()) => {}
            Err(how) => return Err(how),
        }
        if !has_moved(page) {
            return Ok(());
        }
    }
    page.rests.note_moved();
    Ok(())
}

/// Whether the last attempt ended a round since a coin came while its acceptor was being read.
fn has_moved(page: &Page) -> bool
    ensures { result ≡ list_any is_moved page.now.report.items }
{
    page.report.as_slice().iter().any(|entry| is_moved(entry))
}

/// Whether an entry says that a round ended since a coin came while its acceptor was being read.
fn is_moved(entry: &Entry) -> bool
    ensures { result ≡ is_moved entry.now }
{
    matches!(
        entry,
        Entry::Ended {
            end: End::Moved,
            ..
        }
    )
}

/// The round at an address goes on up to its end, or to the first try that isn't answered. One is
/// begun where no job is there, if it is taken.
fn round<K: Sink, D: Disk, L: CountedLink>(
    host: &mut Host<'_, D>,
    addr: u8,
    desk: &mut Desk,
    link: &mut L,
    out: &mut K,
    page: &mut Page,
) -> Result<(), Served>
    requires whole { has_failed host.old ≡ false }
    ensures acts { Acts K.written K.puts K.faults (Both (Exchanges L.gives L.sent L.failures (setup_of host.old).devices
        (watched link.old page.old) (watched link.new page.new))
        (FollowsDesk result desk.old desk.new))
        (EndsRound result page.new.report.items addr) result out.old out.new host.old host.new }
{
    match begin_round(host, addr, out, page) {
        Ok(()) => go_on(host, addr, Until::Failed, desk, link, out, page),
        Err(how) => Err(how),
    }
}

/// A round is begun at an address, where no job is there.
fn begin_round<K: Sink, D: Disk>(
    host: &mut Host<'_, D>,
    addr: u8,
    out: &mut K,
    page: &mut Page,
) -> Result<(), Served>
    requires whole { has_failed host.old ≡ false }
    ensures acts { Acts K.written K.puts K.faults (Both AreQuiet IsApart) (BeginsRound addr)
        result out.old out.new host.old host.new }
    ensures watch { page.new.watch ≡ page.old.watch }
{
    if host.command_at(addr).is_none() {
        answer(host, &Command::Round { addr }, out, page)
    } else {
        Ok(())
    }
}
