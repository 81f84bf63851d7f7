//! What is answered at once: commands, the balance, the standing of the devices, and orders.
ghost use Rattle.std.specs.Prelude.{◌≡◌, ◌≤◌, ◌∷◌, [], List, false};
ghost use Rattle.cct_edge.specs.Faults.{Rose};
ghost use Rattle.cct_host.specs.Host.{Keeps, disk_of, has_failed, setup_of};
ghost use Rattle.cct_laws_live.specs.LiveStep as live;
ghost use Rattle.cct_model.specs.Script.{IsCommand};
ghost use Rattle.cct_model.specs.lines.entry.Entry.{Entry};
ghost use Rattle.cct_live_service.specs.Asked.{asked_before};
ghost use Rattle.cct_live_service.specs.AtDesk.{Both, IsApart};
ghost use Rattle.cct_live_service.specs.Doing.{DoesCommand, IsOrder, IsStatus, TellsOne};
ghost use Rattle.cct_live_service.specs.Hears.{HearsMore};
ghost use Rattle.cct_live_service.specs.Known.{MissedFrom};
ghost use Rattle.cct_live_service.specs.Linked.{AreQuiet, AreStanding, IsDecision};
ghost use Rattle.cct_live_service.specs.Parts.{Acts, HostGoes};
ghost use Rattle.cct_live_service.specs.Reported.{IsJust, IsOrderOf, open_by, open_in};
ghost use Rattle.cct_live_service.specs.Told.{as_told};
ghost use Rattle.cct_live_survey.specs.Finding.{withheld_by};

use crate::beside::Beside;
use crate::knowing::recorded_order;
use crate::notice::{Notice, tell};
use crate::page::Page;
use crate::served::{Served, by_writing};
use crate::standing::tell_status;
use cct_disk::Disk;
use cct_edge::Sink;
use cct_host::Host;
use cct_live_order::OrderTold;
use cct_live_survey::{Finding, Withheld, withheld_by};
use cct_model::{Command, Entry, OpenOrder};

/// Gives the host a command, unless what was found withholds it, which is reported.
pub(crate) fn answer_or_withhold<K: Sink, D: Disk>(
    host: &mut Host<'_, D>,
    findings: &[Finding],
    command: &Command,
    out: &mut K,
    page: &mut Page,
) -> Result<(), Served>
    requires whole { has_failed host.old ≡ false }
    requires told { IsCommand command.now }
    ensures acts { Acts K.written K.puts K.faults (Both (IsDecision (asked_before command.now)) IsApart)
        (DoesCommand command.now (withheld_by findings.now command.now))
        result out.old out.new host.old host.new }
    ensures watch { page.new.watch ≡ page.old.watch }
{
    match withheld_by(findings, command) {
        None => answer(host, command, out, page),
        Some(why) => withhold(host, command, why, out, page),
    }
}

/// Says that a command isn't given to the host.
fn withhold<K: Sink, D: Disk>(
    host: &mut Host<'_, D>,
    command: &Command,
    why: Withheld,
    out: &mut K,
    page: &mut Page,
) -> Result<(), Served>
    requires whole { has_failed host.old ≡ false }
    ensures acts { Acts K.written K.puts K.faults (Both (IsDecision (asked_before command.now)) IsApart) (DoesCommand command.now (Some why))
        result out.old out.new host.old host.new }
    ensures watch { page.new.watch ≡ page.old.watch }
{
    let notice = Notice::Withheld {
        command: *command,
        why,
    };
    by_writing(tell(out, &mut page.line, &notice))
}

/// The host is given a command, and what it answers is written.
pub(crate) fn answer<K: Sink, D: Disk>(
    host: &mut Host<'_, D>,
    command: &Command,
    out: &mut K,
    page: &mut Page,
) -> Result<(), Served>
    requires whole { has_failed host.old ≡ false }
    requires told { IsCommand command.now }
    ensures acts { Acts K.written K.puts K.faults (Both (IsDecision (asked_before command.now)) IsApart) (TellsOne (live.command command.now))
        result out.old out.new host.old host.new }
    ensures watch { page.new.watch ≡ page.old.watch }
{
    page.report.clear();
    page.report.push(answer_of(host, command));
    by_writing(page.write_report(out))
}

/// The entry of a command that the host is given.
fn answer_of<D: Disk>(host: &mut Host<'_, D>, command: &Command) -> Entry
    requires told { IsCommand command.now }
    ensures whole { has_failed host.new ≡ has_failed host.old }
    ensures setup { setup_of host.new ≡ setup_of host.old }
    ensures disk { disk_of host.new ≡ disk_of host.old }
    ensures lives { HostGoes host.old (live.command command.now ∷ [])
        (as_told (result ∷ [])) host.new }
    ensures quiet { Both (IsDecision (asked_before command.now)) IsApart (as_told (result ∷ [])) }
{
    match host.command(command) {
        Ok(()) => Entry::Taken(*command),
        Err(why) => Entry::No {
            command: *command,
            why,
        },
    }
}

/// The balance is written.
pub(crate) fn balance<K: Sink, D: Disk>(
    host: &mut Host<'_, D>,
    out: &mut K,
    page: &mut Page,
) -> Result<(), Served>
    requires whole { has_failed host.old ≡ false }
    ensures acts { Acts K.written K.puts K.faults (Both AreQuiet IsApart) (TellsOne live.balance)
        result out.old out.new host.old host.new }
    ensures watch { page.new.watch ≡ page.old.watch }
{
    page.report.clear();
    page.report.push(Entry::Balance(host.totals()));
    by_writing(page.write_report(out))
}

/// Says how each device stands.
pub(crate) fn status<K: Sink, D: Disk>(
    host: &mut Host<'_, D>,
    out: &mut K,
    page: &mut Page,
) -> Result<(), Served>
    requires whole { has_failed host.old ≡ false }
    ensures acts { Acts K.written K.puts K.faults (Both (AreStanding page.old.watch []) IsApart)
        (IsStatus (setup_of host.old).devices) result out.old out.new host.old host.new }
    ensures watch { page.new.watch ≡ page.old.watch }
{
    by_writing(tell_status(host, out, page))
}

/// Says what is known of an order.
pub(crate) fn order<K: Sink, D: Disk + Drop, O: Beside<D>>(
    host: &mut Host<'_, D>,
    id: u32,
    outside: &mut O,
    out: &mut K,
    page: &mut Page,
) -> Result<(), Served>
    requires whole { has_failed host.old ≡ false }
    ensures acts { Acts K.written K.puts K.faults (Both AreQuiet IsApart)
        (IsOrder (MissedFrom host.old (Rose (O.misses outside.old) (O.misses outside.new))) id)
        result out.old out.new host.old host.new }
    ensures watch { page.new.watch ≡ page.old.watch }
    ensures later { O.misses outside.old ≤ O.misses outside.new }
    ensures heard { HearsMore O.heard outside.old outside.new [] }
{
    let told = order_told(host, id, outside);
    by_writing(tell(out, &mut page.line, &Notice::Order { id, told }))
}

/// What is known of an order: the host knows those that are open, and the journal the others.
fn order_told<D: Disk + Drop, O: Beside<D>>(
    host: &Host<'_, D>,
    id: u32,
    outside: &mut O,
) -> OrderTold
    ensures known { (past : List Entry) → Keeps host.now past →
        IsJust (open_in (setup_of host.now) past id) result }
    ensures is { IsOrderOf host.now id (Rose (O.misses outside.old) (O.misses outside.new)) result }
    ensures later { O.misses outside.old ≤ O.misses outside.new }
    ensures heard { HearsMore O.heard outside.old outside.new [] }
{
    match open_order(host, id) {
        Some(told) => told,
        None => recorded_order(host, id, outside),
    }
}

/// Where an order is open, if it is.
fn open_order<D: Disk>(host: &Host<'_, D>, id: u32) -> Option<OrderTold>
    ensures known { (past : List Entry) → Keeps host.now past → result
        ≡ open_in (setup_of host.now) past id }
{
    for device in host.setup().devices.as_slice() {
        let told = open_by(id, device.addr, host.order_at(device.addr));
        if told.is_some() {
            return told;
        }
    }
    None
}

/// What is reported of the order of an id, where this is an open order at an address.
fn open_by(id: u32, addr: u8, order: Option<OpenOrder>) -> Option<OrderTold>
    ensures { result ≡ open_by id addr order }
{
    match order {
        Some(owed) => {
            if owed.id == id {
                Some(OrderTold::Open {
                    addr,
                    count: owed.count,
                })
            } else {
                None
            }
        }
        None => None,
    }
}
