//! Devices are asked who they are, where that is still open, and what is found is reported.
ghost use Rattle.std.specs.Prelude.{◌≡◌, ◌≤◌, ◌++◌, List, Some, drop, false, length};
ghost use Rattle.cct_host.specs.Host.{has_failed, setup_of};
ghost use Rattle.cct_live_survey.specs.declared.finding.Finding.{Finding};
ghost use Rattle.cct_live_survey.specs.Roll.{AsksRoll};
ghost use Rattle.cct_live_service.specs.Asked.{AsksAt, asked_before, most_asked};
ghost use Rattle.cct_live_service.specs.AtDesk.{Both, IsApart};
ghost use Rattle.cct_live_service.specs.Doing.{Finds, IsAsking, IsFound, Tells};
ghost use Rattle.cct_live_service.specs.Linked.{AreQuiet, UsesLink, watched};
ghost use Rattle.cct_live_service.specs.Parts.{Acts};
ghost use Rattle.cct_live_service.specs.Told.{finding};

use crate::page::Page;
use crate::served::{Served, by_writing};
use cct_disk::Disk;
use cct_edge::Sink;
use cct_host::Host;
use cct_live_port::CountedLink;
use cct_live_survey::{Answered, Finding, Roll, write_finding};
use cct_model::{Command, Setup};
use cct_wire::Link;

/// How many questions are asked in a poll at most.
const MOST_QUESTIONS: u32 = 4;

/// In a poll some of the questions that are left are asked, up to one that isn't answered, and what
/// is found is reported. A device that was silent before a command comes first.
pub(crate) fn ask_some<K: Sink, D: Disk, L: CountedLink>(
    host: &mut Host<'_, D>,
    roll: &mut Roll,
    link: &mut L,
    out: &mut K,
    page: &mut Page,
) -> Result<(), Served>
    requires whole { has_failed host.old ≡ false }
    ensures acts { Acts K.written K.puts K.faults
        (Both (UsesLink L.gives L.sent L.failures (setup_of host.old).devices roll.old roll.new
        (watched link.old page.old) (watched link.new page.new))
        IsApart)
        (Finds roll.old.findings roll.new.findings IsAsking) result out.old out.new host.old host.new }
{
    let known = roll.findings().len();
    let answered = ask_next(page.rests.next_asked(), host.setup(), roll, link);
    page.rests.note_questions(answered);
    tell_new(host, roll, known, out, page)
}

/// Asks the device at an address what is left, or some of what is left at all.
fn ask_next<L: Link>(whom: Option<u8>, setup: &Setup, roll: &mut Roll, link: &mut L) -> Answered
    ensures asks { AsksRoll L.gives setup.now.devices whom (most_asked whom) roll.old link.old
        result roll.new link.new }
    ensures grows { (added : List Finding) × (roll.new.findings ≡ roll.old.findings ++ added) }
{
    match whom {
        Some(addr) => roll.ask_at(setup, addr, link),
        None => roll.ask(setup, MOST_QUESTIONS, link),
    }
}

/// Before a payment or a start is decided, the device there is asked what is left, up to a question
/// that isn't answered, and what is found is reported.
pub(crate) fn ask_before<K: Sink, D: Disk, L: CountedLink>(
    host: &mut Host<'_, D>,
    roll: &mut Roll,
    command: &Command,
    link: &mut L,
    out: &mut K,
    page: &mut Page,
) -> Result<(), Served>
    requires whole { has_failed host.old ≡ false }
    ensures acts { Acts K.written K.puts K.faults
        (Both (UsesLink L.gives L.sent L.failures (setup_of host.old).devices roll.old roll.new
        (watched link.old page.old) (watched link.new page.new))
        IsApart)
        (Finds roll.old.findings roll.new.findings IsAsking) result out.old out.new host.old host.new }
    ensures asks { AsksAt L.gives (setup_of host.old).devices (asked_before command.now) roll.old
        link.old roll.new link.new }
    ensures watch { page.new.watch ≡ page.old.watch }
{
    match asked_before(command) {
        Some(addr) => ask_at(host, roll, addr, link, out, page),
        None => Ok(()),
    }
}

/// The address of the device that is asked before a command is decided.
fn asked_before(command: &Command) -> Option<u8>
    ensures { result ≡ asked_before command.now }
{
    match *command {
        Command::Pay { addr, .. } => Some(addr),
        Command::Start { addr, .. } => Some(addr),
        _ => None,
    }
}

/// The device at an address is asked what is left, and what is found is reported.
fn ask_at<K: Sink, D: Disk, L: CountedLink>(
    host: &mut Host<'_, D>,
    roll: &mut Roll,
    addr: u8,
    link: &mut L,
    out: &mut K,
    page: &mut Page,
) -> Result<(), Served>
    requires whole { has_failed host.old ≡ false }
    ensures acts { Acts K.written K.puts K.faults
        (Both (UsesLink L.gives L.sent L.failures (setup_of host.old).devices roll.old roll.new
        (watched link.old page.old) (watched link.new page.new))
        IsApart)
        (Finds roll.old.findings roll.new.findings IsAsking) result out.old out.new host.old host.new }
    ensures asks { AsksAt L.gives (setup_of host.old).devices (Some addr) roll.old link.old roll.new
        link.new }
    ensures watch { page.new.watch ≡ page.old.watch }
{
    let known = roll.findings().len();
    let answered = roll.ask_at(host.setup(), addr, link);
    page.rests.note_asked(addr, answered);
    tell_new(host, roll, known, out, page)
}

/// Writes the findings after the first so many.
fn tell_new<K: Sink, D: Disk>(
    host: &mut Host<'_, D>,
    roll: &Roll,
    known: usize,
    out: &mut K,
    page: &mut Page,
) -> Result<(), Served>
    requires whole { has_failed host.old ≡ false }
    requires some { known ≤ length roll.now.findings }
    ensures acts { Acts K.written K.puts K.faults (Both AreQuiet IsApart) (IsFound (drop known roll.now.findings))
        result out.old out.new host.old host.new }
    ensures watch { page.new.watch ≡ page.old.watch }
{
    tell_all(host, &roll.findings()[known..], out, page)
}

/// Writes some findings.
fn tell_all<K: Sink, D: Disk>(
    host: &mut Host<'_, D>,
    findings: &[Finding],
    out: &mut K,
    page: &mut Page,
) -> Result<(), Served>
    requires whole { has_failed host.old ≡ false }
    ensures acts { Acts K.written K.puts K.faults (Both AreQuiet IsApart) (IsFound findings.now)
        result out.old out.new host.old host.new }
    ensures watch { page.new.watch ≡ page.old.watch }
{
    for found in findings {
        match tell_one(host, found, out, page) {
            Ok(()) => {}
            Err(how) => return Err(how),
        }
    }
    Ok(())
}

/// Writes a finding.
fn tell_one<K: Sink, D: Disk>(
    host: &mut Host<'_, D>,
    found: &Finding,
    out: &mut K,
    page: &mut Page,
) -> Result<(), Served>
    requires whole { has_failed host.old ≡ false }
    ensures acts { Acts K.written K.puts K.faults (Both AreQuiet IsApart) (Tells (finding found.now))
        result out.old out.new host.old host.new }
    ensures watch { page.new.watch ≡ page.old.watch }
{
    by_writing(write_finding(found, &mut page.line, out))
}
