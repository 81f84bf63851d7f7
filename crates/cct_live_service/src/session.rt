//! The operator's desk: stocks that are counted, and sessions of change, whose payments are given
//! to the host (`docs/SCRIPT.md`).
ghost use Rattle.std.specs.Prelude.{◌≡◌, ◌≤◌, ◌∷◌, [], ℕ, Some, None, IsErr, false};
ghost use Rattle.std.specs.Option.{option_map};
ghost use Rattle.cct_edge.specs.Bytes.{Serves};
ghost use Rattle.cct_host.specs.Desk.{no_of};
ghost use Rattle.cct_host.specs.Host.{disk_of, has_failed, setup_of};
ghost use Rattle.cct_laws_live.specs.LiveStep as live;
ghost use Rattle.cct_model.specs.declared.change.Payment.{Payment};
ghost use Rattle.cct_model.specs.lines.command.Step.{Step};
ghost use Rattle.cct_model.specs.lines.command.Step.TheVariants as step;
ghost use Rattle.cct_model.specs.lines.command.TheConstants.{GREATEST_AMOUNT};
ghost use Rattle.cct_model.specs.lines.entry.Entry.TheVariants as entry_of;
ghost use Rattle.cct_model.specs.Change as change;
ghost use Rattle.cct_model.specs.Change.{desk_after};
ghost use Rattle.cct_model.specs.Legal.{command_entry};
ghost use Rattle.cct_model.specs.Script.{IsCommand};
ghost use Rattle.cct_host_change.specs.Serving.{Asks, ServesBy, change_told};
ghost use Rattle.cct_live_survey.specs.declared.withholding.Withheld.{Withheld};
ghost use Rattle.cct_live_survey.specs.Finding.{withheld_by};
ghost use Rattle.cct_live_service.specs.declared.notice.Notice.TheVariants as notice_of;
ghost use Rattle.cct_live_service.specs.AtDesk.{Both, FollowsDesk, GivesAt};
ghost use Rattle.cct_live_service.specs.Doing.{DecidesPay, DoesPay, Finds, IsServing, ServesOn};
ghost use Rattle.cct_live_service.specs.Doing.{TellsStep};
ghost use Rattle.cct_live_service.specs.Known.{Rested};
ghost use Rattle.cct_live_service.specs.Linked.{AreQuiet, IsDecision, UsesLink, watched};
ghost use Rattle.cct_live_service.specs.Parts.{Acts, HostGoes};
ghost use Rattle.cct_live_service.specs.Session.{HasAsked};
ghost use Rattle.cct_live_service.specs.Told.{WritesTold, as_told, falls_short, pay_of, pays};
ghost use Rattle.cct_live_service.specs.Told.{withheld_for};

use crate::asking::ask_before;
use crate::notice::{Notice, tell};
use crate::page::Page;
use crate::served::{Served, by_writing};
use arrayvec::ArrayVec;
use cct_disk::Disk;
use cct_edge::{Failed, Sink};
use cct_host::Host;
use cct_host_change::{Desk, Serving, Shortfall};
use cct_live_port::CountedLink;
use cct_live_survey::{Finding, Roll, Withheld, withheld_by};
use cct_model::{Command, CommandNo, Entry, Payment};
use cct_text::{TextLine, write_entry};

/// The operator counted the coins of a hopper, which is reported.
pub(crate) fn count_stock<K: Sink, D: Disk>(
    host: &mut Host<'_, D>,
    desk: &mut Desk,
    addr: u8,
    count: u32,
    out: &mut K,
    page: &mut Page,
) -> Result<(), Served>
    requires whole { has_failed host.old ≡ false }
    ensures acts { Acts K.written K.puts K.faults (Both AreQuiet (FollowsDesk result desk.old desk.new))
        (TellsStep (step.Stock addr count))
        result out.old out.new host.old host.new }
    ensures watch { page.new.watch ≡ page.old.watch }
{
    desk.stock(addr, count);
    tell_desk(host, &Entry::Stock { addr, count }, out, page)
}

/// A session begins, unless one runs, which is reported.
pub(crate) fn begin_session<K: Sink, D: Disk>(
    host: &mut Host<'_, D>,
    desk: &mut Desk,
    first: u32,
    amount: u32,
    out: &mut K,
    page: &mut Page,
) -> Result<(), Served>
    requires whole { has_failed host.old ≡ false }
    requires ids { 1 ≤ first }
    requires within { amount ≤ GREATEST_AMOUNT }
    ensures acts { Acts K.written K.puts K.faults (Both AreQuiet (FollowsDesk result desk.old desk.new))
        (TellsStep (step.Change first amount))
        result out.old out.new host.old host.new }
    ensures watch { page.new.watch ≡ page.old.watch }
{
    let began = desk.change(first, amount);
    tell_desk(host, &change_entry(first, amount, began), out, page)
}

/// The entry of a `change`, by whether a session began.
fn change_entry(first: u32, amount: u32, began: bool) -> Entry
    ensures { result ≡ change_told first amount began }
{
    if began {
        Entry::ChangeOk { first, amount }
    } else {
        Entry::ChangeNo
    }
}

/// The session goes on, and it is reported how.
pub(crate) fn serve_session<K: Sink, D: Disk, L: CountedLink>(
    host: &mut Host<'_, D>,
    roll: &mut Roll,
    desk: &mut Desk,
    link: &mut L,
    out: &mut K,
    page: &mut Page,
) -> Result<(), Served>
    requires whole { has_failed host.old ≡ false }
    ensures acts { Acts K.written K.puts K.faults
        (Both (UsesLink L.gives L.sent L.failures (setup_of host.old).devices roll.old roll.new
        (watched link.old page.old) (watched link.new page.new))
        (FollowsDesk result desk.old desk.new))
        (Finds roll.old.findings roll.new.findings (IsServing roll.old.findings))
        result out.old out.new host.old host.new }
{
    let serving = desk.serve();
    act_on(host, roll, desk, serving, link, out, page)
}

/// In a poll the session goes on, if one runs, and no job is at the hopper of its last payment.
pub(crate) fn go_on_with_session<K: Sink, D: Disk, L: CountedLink>(
    host: &mut Host<'_, D>,
    roll: &mut Roll,
    desk: &mut Desk,
    link: &mut L,
    out: &mut K,
    page: &mut Page,
) -> Result<(), Served>
    requires whole { has_failed host.old ≡ false }
    ensures acts { Acts K.written K.puts K.faults
        (Both (UsesLink L.gives L.sent L.failures (setup_of host.old).devices roll.old roll.new
        (watched link.old page.old) (watched link.new page.new))
        (FollowsDesk result desk.old desk.new))
        (Finds roll.old.findings roll.new.findings (ServesOn (Rested host.old desk.old) roll.old.findings))
        result out.old out.new host.old host.new }
{
    match desk.serve() {
        Serving::Idle => Ok(()),
        Serving::Wait { addr } => {
            if host.command_at(addr).is_some() {
                Ok(())
            } else {
                tell_desk(host, &Entry::ServeWait { addr }, out, page)
            }
        }
        serving => act_on(host, roll, desk, serving, link, out, page),
    }
}

/// Gives the host the payment that a session comes to, or says what else it comes to.
fn act_on<K: Sink, D: Disk, L: CountedLink>(
    host: &mut Host<'_, D>,
    roll: &mut Roll,
    desk: &mut Desk,
    serving: Serving,
    link: &mut L,
    out: &mut K,
    page: &mut Page,
) -> Result<(), Served>
    requires whole { has_failed host.old ≡ false }
    requires asked { HasAsked serving desk.old }
    ensures acts { (old : change.Desk) → ServesBy serving old desk.old → Acts K.written K.puts K.faults
        (Both (UsesLink L.gives L.sent L.failures (setup_of host.old).devices roll.old roll.new
        (watched link.old page.old) (watched link.new page.new))
        (FollowsDesk result old desk.new))
        (Finds roll.old.findings roll.new.findings (IsServing roll.old.findings))
        result out.old out.new host.old host.new }
{
    match serving {
        Serving::Pay(payment) => pay(host, roll, desk, payment, link, out, page),
        Serving::Idle => tell_desk(host, &Entry::ServeIdle, out, page),
        Serving::Wait { addr } => tell_desk(host, &Entry::ServeWait { addr }, out, page),
        Serving::Odd { id } => tell_desk(host, &Entry::ServeOdd { id }, out, page),
        Serving::Served { amount } => tell_desk(host, &Entry::Served { amount }, out, page),
        Serving::Short(shortfall) => tell_desk(host, &short_entry(shortfall), out, page),
    }
}

/// Writes an entry of the desk.
fn tell_desk<K: Sink, D: Disk>(
    host: &mut Host<'_, D>,
    entry: &Entry,
    out: &mut K,
    page: &mut Page,
) -> Result<(), Served>
    requires whole { has_failed host.old ≡ false }
    ensures acts { (s : Step) (old new : change.Desk) → GivesAt old s entry.now → new ≡ desk_after s (entry.now ∷ []) old → Acts K.written K.puts K.faults
        (Both AreQuiet (FollowsDesk result old new)) (TellsStep s) result out.old out.new host.old host.new }
    ensures watch { page.new.watch ≡ page.old.watch }
{
    by_writing(write_entry(out, &mut page.line, entry))
}

/// A payment of the session is decided as one of the operator: the hopper is asked first what is
/// left, and it may be withheld.
fn pay<K: Sink, D: Disk, L: CountedLink>(
    host: &mut Host<'_, D>,
    roll: &mut Roll,
    desk: &mut Desk,
    payment: Payment,
    link: &mut L,
    out: &mut K,
    page: &mut Page,
) -> Result<(), Served>
    requires whole { has_failed host.old ≡ false }
    requires payable { IsCommand (pay_of payment) }
    requires waits { option_map (λ s. s.next) desk.old.session ≡ Some payment.id }
    ensures acts { (old : change.Desk) → Asks old desk.old payment → Acts K.written K.puts K.faults
        (Both (UsesLink L.gives L.sent L.failures (setup_of host.old).devices roll.old roll.new
        (watched link.old page.old) (watched link.new page.new))
        (FollowsDesk result old desk.new))
        (Finds roll.old.findings roll.new.findings (DecidesPay roll.old.findings payment))
        result out.old out.new host.old host.new }
{
    page.rests.wake(payment.addr);
    match ask_before(host, roll, &command_of(payment), link, out, page) {
        Ok(()) => give_or_withhold(host, roll.findings(), desk, payment, out, page),
        Err(how) => Err(how),
    }
}

/// The command of a payment.
fn command_of(payment: Payment) -> Command
    ensures { result ≡ pay_of payment }
{
    Command::Pay {
        addr: payment.addr,
        id: payment.id,
        count: payment.count,
    }
}

/// Gives the host a payment of the session, unless what was found withholds it. Where it isn't
/// taken, the session ends short.
fn give_or_withhold<K: Sink, D: Disk>(
    host: &mut Host<'_, D>,
    findings: &[Finding],
    desk: &mut Desk,
    payment: Payment,
    out: &mut K,
    page: &mut Page,
) -> Result<(), Served>
    requires whole { has_failed host.old ≡ false }
    requires payable { IsCommand (pay_of payment) }
    requires waits { option_map (λ s. s.next) desk.old.session ≡ Some payment.id }
    ensures acts { (old : change.Desk) → Asks old desk.old payment → Acts K.written K.puts K.faults
        (Both (IsDecision (Some payment.addr)) (FollowsDesk result old desk.new)) (DoesPay payment (withheld_by findings.now (pay_of payment))) result out.old out.new host.old host.new }
    ensures watch { page.new.watch ≡ page.old.watch }
{
    match withheld_by(findings, &command_of(payment)) {
        None => give(host, desk, payment, out, page),
        Some(why) => withhold(host, desk, payment, why, out, page),
    }
}

/// Gives the host a payment of the session.
fn give<K: Sink, D: Disk>(
    host: &mut Host<'_, D>,
    desk: &mut Desk,
    payment: Payment,
    out: &mut K,
    page: &mut Page,
) -> Result<(), Served>
    requires whole { has_failed host.old ≡ false }
    requires payable { IsCommand (pay_of payment) }
    requires waits { option_map (λ s. s.next) desk.old.session ≡ Some payment.id }
    ensures acts { (old : change.Desk) → Asks old desk.old payment → Acts K.written K.puts K.faults
        (Both (IsDecision (Some payment.addr)) (FollowsDesk result old desk.new)) (DoesPay payment None)
        result out.old out.new host.old host.new }
    ensures watch { page.new.watch ≡ page.old.watch }
{
    page.report.clear();
    match ask_host(host, payment) {
        Ok(()) => {
            desk.taken(payment);
            report_taken(payment, &mut page.report);
            by_writing(page.write_report(out))
        }
        Err(why) => {
            let shortfall = desk.refused();
            report_refused(payment, why, shortfall, &mut page.report);
            by_writing(page.write_report(out))
        }
    }
}

/// Reports that the host took a payment.
fn report_taken(payment: Payment, report: &mut ArrayVec<Entry, 8>)
    requires { report.old.items ≡ [] }
    ensures { report.new.items ≡ entry_of.Taken (pay_of payment) ∷ [] }
{
    report.push(Entry::Taken(command_of(payment)));
}

/// Reports that the host refused a payment, and that the session ends short.
fn report_refused(
    payment: Payment,
    why: CommandNo,
    shortfall: Shortfall,
    report: &mut ArrayVec<Entry, 8>,
)
    requires { report.old.items ≡ [] }
    ensures { report.new.items ≡ entry_of.No (pay_of payment) why
        ∷ entry_of.Short shortfall.paid shortfall.rest ∷ [] }
{
    report.push(Entry::No {
        command: command_of(payment),
        why,
    });
    report.push(short_entry(shortfall));
}

/// Whether the host takes a payment of the session.
fn ask_host<D: Disk>(host: &mut Host<'_, D>, payment: Payment) -> Result<(), CommandNo>
    requires payable { IsCommand (pay_of payment) }
    ensures whole { has_failed host.new ≡ has_failed host.old }
    ensures setup { setup_of host.new ≡ setup_of host.old }
    ensures disk { disk_of host.new ≡ disk_of host.old }
    ensures lives { HostGoes host.old (live.command (pay_of payment) ∷ [])
        (as_told (command_entry (pay_of payment) (no_of result) ∷ [])) host.new }
{
    host.command(&command_of(payment))
}

/// Says that a payment of the session isn't given to the host, and that the session ends short.
fn withhold<K: Sink, D: Disk>(
    host: &mut Host<'_, D>,
    desk: &mut Desk,
    payment: Payment,
    why: Withheld,
    out: &mut K,
    page: &mut Page,
) -> Result<(), Served>
    requires whole { has_failed host.old ≡ false }
    requires payable { IsCommand (pay_of payment) }
    requires waits { option_map (λ s. s.next) desk.old.session ≡ Some payment.id }
    ensures acts { (old : change.Desk) → Asks old desk.old payment → Acts K.written K.puts K.faults
        (Both (IsDecision (Some payment.addr)) (FollowsDesk result old desk.new)) (DoesPay payment (Some why))
        result out.old out.new host.old host.new }
    ensures watch { page.new.watch ≡ page.old.watch }
{
    let shortfall = desk.refused();
    let notice = Notice::Withheld {
        command: command_of(payment),
        why,
    };
    by_writing(tell_then(out, &mut page.line, &notice, &short_entry(shortfall)))
}

/// Writes a notice, and then an entry.
fn tell_then<K: Sink>(
    out: &mut K,
    line: &mut TextLine,
    notice: &Notice,
    entry: &Entry,
) -> Result<(), Failed>
    ensures writes { (p : Payment) (why : Withheld) (paid rest : ℕ) → notice.now ≡ notice_of.Withheld (pay_of p) why
        → entry.now ≡ entry_of.Short paid rest → WritesTold K.written K.puts out.old
        (pays p (withheld_for why) ∷ falls_short p paid rest ∷ []) result out.new }
    ensures serves { Serves K.written K.faults out.old out.new (IsErr result) }
{
    match tell(out, line, notice) {
        Ok(()) => write_entry(out, line, entry),
        Err(failed) => Err(failed),
    }
}

/// The entry of a session that ends short.
fn short_entry(shortfall: Shortfall) -> Entry
    ensures { result ≡ entry_of.Short shortfall.paid shortfall.rest }
{
    Entry::Short {
        paid: shortfall.paid,
        rest: shortfall.rest,
    }
}
