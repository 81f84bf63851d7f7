//! What the input says is done, line by line, and each entry is written before the next line is
//! read.
ghost use Rattle.std.specs.Prelude.{◌≡◌, ◌≤◌, ◌∷◌, [], false, Ok, IfErr, IfOk};
ghost use Rattle.cct_edge.specs.Bytes.{Serves};
ghost use Rattle.cct_edge.specs.Faults.{Rose};
ghost use Rattle.cct_host.specs.Host.{disk_of, has_failed, setup_of};
ghost use Rattle.cct_model.specs.Exchange.{device_at, hopper_there};
ghost use Rattle.cct_model.specs.Script.{IsCommand};
ghost use Rattle.cct_model.specs.lines.entry.LineKind.TheVariants as kind;
ghost use Rattle.cct_script.specs.Endless.{held_of};
ghost use Rattle.cct_live_service.specs.declared.input.InputLine.TheVariants as input;
ghost use Rattle.cct_live_service.specs.Asked.{AsksAt, asked_before};
ghost use Rattle.cct_live_service.specs.AtDesk.{Both, FollowsDesk, FollowsTo, IsApart};
ghost use Rattle.cct_live_service.specs.Causes.{DiskServes, EndsBy, IsDiskFault, IsUnread};
ghost use Rattle.cct_live_service.specs.Causes.{IsUnwritten};
ghost use Rattle.cct_live_service.specs.Doing.{Decides, Does, DoesLine, DoesLines, Finds};
ghost use Rattle.cct_live_service.specs.Doing.{IsAttempt, MakesAttempts, Tells, is_known};
ghost use Rattle.cct_live_service.specs.Hears.{HearsMore};
ghost use Rattle.cct_live_service.specs.Known.{KnownAfter, MissedFrom, Rested, TaskAfter};
ghost use Rattle.cct_live_service.specs.Linked.{AreQuiet, Exchanges, UsesLink, watched};
ghost use Rattle.cct_live_service.specs.Parts.{Acts, Plays};
ghost use Rattle.cct_live_service.specs.Refused.{next_unread, refusals, unnamed, unread};
ghost use Rattle.cct_live_service.specs.Said.{ComesNext, IsOfInput, IsSayable, stopped_by};
ghost use Rattle.cct_live_service.specs.Said.{unless_end};
ghost use Rattle.cct_live_service.specs.Told.{refused};

use crate::asking::ask_before;
use crate::attempts::{Until, attempt, attempts};
use crate::beside::Beside;
use crate::commands::{answer_or_withhold, balance, order, status};
use crate::fields::write_number;
use crate::input::{InputLine, read_input_line};
use crate::knowing::state;
use crate::outside::Outside;
use crate::page::Page;
use crate::poll::poll;
use crate::served::{Served, by_writing};
use crate::session::{begin_session, count_stock, serve_session};
use cct_disk::Disk;
use cct_edge::{Sink, Source};
use cct_host::Host;
use cct_host_change::Desk;
use cct_live_port::CountedLink;
use cct_live_survey::Roll;
use cct_model::{Command, Entry, LineKind, Setup};
use cct_script::{EndlessLines, LinesNo, LiveLine, NextLine};
use cct_text::{TextLine, write_entry};

/// Does what each line says, up to `end` or the end of the input. A line that says nothing is
/// reported, and changes nothing.
pub(crate) fn play<S: Source, K: Sink, D: Disk + Drop, L: CountedLink, O: Beside<D>>(
    host: &mut Host<'_, D>,
    roll: &mut Roll,
    desk: &mut Desk,
    input: &mut S,
    out: &mut K,
    link: &mut L,
    outside: &mut O,
    page: &mut Page,
) -> Served
    requires whole { has_failed host.old ≡ false }
    ensures whole { IsOfInput result → has_failed host.new ≡ false }
    ensures setup { setup_of host.new ≡ setup_of host.old }
    ensures plays { Plays K.written K.puts
        (Both (UsesLink L.gives L.sent L.failures (setup_of host.old).devices roll.old roll.new
        (watched link.old page.old) (watched link.new page.new))
        (FollowsTo result desk.old desk.new))
        (DoesLines (KnownAfter host.old desk.old)
        (MissedFrom host.old (Rose (O.misses outside.old) (O.misses outside.new))) (setup_of host.old) roll.old.findings)
        (λ lines. HearsMore O.heard outside.old outside.new (refusals (setup_of host.old).devices lines))
        (S.left input.old) result out.old out.new host.old host.new }
    ensures input { Serves S.left S.faults input.old input.new (IsUnread result) }
    ensures sink { Serves K.written K.faults out.old out.new (IsUnwritten result) }
    ensures disk { DiskServes D.size D.honest D.seen D.cuts D.faults (disk_of host.old) (disk_of host.new)
        (IsDiskFault result) }
    ensures later { O.misses outside.old ≤ O.misses outside.new }
{
    let mut lines = EndlessLines::new();
    for number in 1..u32::MAX {
        let line = match next_line(&mut lines, number, input, outside) {
            Ok(line) => line,
            Err(how) => return how,
        };
        match take_line(host, roll, desk, number, &line, out, link, outside, page) {
            Ok(()) => {}
            Err(how) => return how,
        }
    }
    Served::Refused {
        number: u32::MAX,
        kind: LineKind::Lines,
    }
}

/// What the next line of an input says, or why it says nothing; or how the input ends. The line has
/// this number. The program around the service hears of it where it says nothing.
fn next_line<S: Source, O: Outside>(
    lines: &mut EndlessLines,
    number: u32,
    input: &mut S,
    outside: &mut O,
) -> Result<Result<InputLine, LineKind>, Served>
    ensures comes { ComesNext number result (held_of lines.old) (S.left input.old)
        (held_of lines.new) (S.left input.new) }
    ensures sayable { IfOk result IsSayable }
    ensures ends { IfErr result IsOfInput }
    ensures serves { Serves S.left S.faults input.old input.new (EndsBy IsUnread result) }
    ensures later { O.misses outside.old ≤ O.misses outside.new }
    ensures heard { HearsMore O.heard outside.old outside.new (next_unread number result) }
{
    match lines.line(input) {
        Ok(NextLine::Text(line)) => {
            let said = read_input_line(line);
            tell_refusal(said, number, line, outside);
            unless_end(said)
        }
        Ok(NextLine::Long) => {
            outside.refused(number, LineKind::Long, b"");
            Ok(Err(LineKind::Long))
        }
        Ok(NextLine::Cut) => {
            outside.refused(number, LineKind::Cut, b"");
            Ok(Err(LineKind::Cut))
        }
        Ok(NextLine::End) => Err(Served::Done),
        Err(why) => Err(stopped(number, why)),
    }
}

/// The program around the service hears of a line that says nothing.
fn tell_refusal<O: Outside>(
    said: Result<InputLine, LineKind>,
    number: u32,
    line: &[u8],
    outside: &mut O,
)
    ensures later { O.misses outside.old ≤ O.misses outside.new }
    ensures heard { HearsMore O.heard outside.old outside.new (unread number said) }
{
    match said {
        Ok(_) => {}
        Err(kind) => outside.refused(number, kind, line),
    }
}

/// What a line says, unless it ends the service.
fn unless_end(said: Result<InputLine, LineKind>) -> Result<Result<InputLine, LineKind>, Served>
    ensures { result ≡ unless_end said }
{
    match said {
        Ok(InputLine::Host(LiveLine::End)) => Err(Served::Done),
        said => Ok(said),
    }
}

/// How the service ends where no line is read any more, the next of which has this number.
fn stopped(number: u32, why: LinesNo) -> Served
    ensures { result ≡ stopped_by number why }
{
    match why {
        LinesNo::Read => Served::Unread,
        _ => Served::Refused {
            number,
            kind: LineKind::Long,
        },
    }
}

/// Does what the line of this number says, or says that it says nothing.
fn take_line<K: Sink, D: Disk + Drop, L: CountedLink, O: Beside<D>>(
    host: &mut Host<'_, D>,
    roll: &mut Roll,
    desk: &mut Desk,
    number: u32,
    line: &Result<InputLine, LineKind>,
    out: &mut K,
    link: &mut L,
    outside: &mut O,
    page: &mut Page,
) -> Result<(), Served>
    requires whole { has_failed host.old ≡ false }
    requires sayable { IsSayable line.now }
    ensures acts { Acts K.written K.puts K.faults
        (Both (UsesLink L.gives L.sent L.failures (setup_of host.old).devices roll.old roll.new
        (watched link.old page.old) (watched link.new page.new))
        (FollowsDesk result desk.old desk.new))
        (Finds roll.old.findings roll.new.findings (DoesLine (Rested host.old desk.old) (TaskAfter host.old desk.old)
        (MissedFrom host.old (Rose (O.misses outside.old) (O.misses outside.new))) (setup_of host.old).devices roll.old.findings number line.now))
        result out.old out.new host.old host.new }
    ensures later { O.misses outside.old ≤ O.misses outside.new }
    ensures heard { HearsMore O.heard outside.old outside.new (unnamed (setup_of host.old).devices number line.now) }
{
    match line {
        Ok(InputLine::Host(said)) => {
            if is_known(host.setup(), said) {
                obey(host, roll, desk, said, out, link, outside, page)
            } else {
                refuse_unknown(host, number, said, out, outside, page)
            }
        }
        Ok(InputLine::State) => state(host, outside, out, page),
        Err(kind) => refuse(host, number, *kind, out, page),
    }
}

/// Whether the device is there that a line names: a stock is that of a hopper.
fn is_known(setup: &Setup, said: &LiveLine) -> bool
    ensures { result ≡ is_known setup.now.devices said.now }
{
    match said {
        LiveLine::Stock { addr, .. } => is_hopper(setup, *addr),
        _ => true,
    }
}

/// Whether a hopper is at an address.
fn is_hopper(setup: &Setup, addr: u8) -> bool
    ensures { result ≡ hopper_there (device_at setup.now.devices addr) }
{
    match setup.device_at(addr) {
        Some(device) => device.body.is_hopper(),
        None => false,
    }
}

/// Says that a line names no device of its kind. The program around the service hears of it, too.
fn refuse_unknown<K: Sink, D: Disk, O: Outside>(
    host: &mut Host<'_, D>,
    number: u32,
    said: &LiveLine,
    out: &mut K,
    outside: &mut O,
    page: &mut Page,
) -> Result<(), Served>
    requires whole { has_failed host.old ≡ false }
    ensures acts { Acts K.written K.puts K.faults (Both AreQuiet IsApart) (Tells (refused number kind.Device))
        result out.old out.new host.old host.new }
    ensures watch { page.new.watch ≡ page.old.watch }
    ensures later { O.misses outside.old ≤ O.misses outside.new }
    ensures heard { HearsMore O.heard outside.old outside.new ((number, kind.Device) ∷ []) }
{
    write_stock(&mut page.line, said);
    outside.refused(number, LineKind::Device, page.line.as_slice());
    refuse(host, number, LineKind::Device, out, page)
}

/// Writes the line of a stock as the operator gave it.
fn write_stock(line: &mut TextLine, said: &LiveLine) {
    line.clear();
    if let LiveLine::Stock { addr, count } = said {
        line.push(b"stock");
        write_number(line, u32::from(*addr));
        write_number(line, *count);
    }
}

/// Says that a line says nothing.
fn refuse<K: Sink, D: Disk>(
    host: &mut Host<'_, D>,
    number: u32,
    kind: LineKind,
    out: &mut K,
    page: &mut Page,
) -> Result<(), Served>
    requires whole { has_failed host.old ≡ false }
    ensures acts { Acts K.written K.puts K.faults (Both AreQuiet IsApart) (Tells (refused number kind))
        result out.old out.new host.old host.new }
    ensures watch { page.new.watch ≡ page.old.watch }
{
    by_writing(write_entry(out, &mut page.line, &Entry::Line { number, kind }))
}

/// Does what one line says. A line `end` isn't given to it.
fn obey<K: Sink, D: Disk + Drop, L: CountedLink, O: Beside<D>>(
    host: &mut Host<'_, D>,
    roll: &mut Roll,
    desk: &mut Desk,
    said: &LiveLine,
    out: &mut K,
    link: &mut L,
    outside: &mut O,
    page: &mut Page,
) -> Result<(), Served>
    requires whole { has_failed host.old ≡ false }
    requires sayable { IsSayable (Ok (input.Host said.now)) }
    ensures acts { Acts K.written K.puts K.faults
        (Both (UsesLink L.gives L.sent L.failures (setup_of host.old).devices roll.old roll.new
        (watched link.old page.old) (watched link.new page.new))
        (FollowsDesk result desk.old desk.new))
        (Finds roll.old.findings roll.new.findings (Does (Rested host.old desk.old) (TaskAfter host.old desk.old)
        (MissedFrom host.old (Rose (O.misses outside.old) (O.misses outside.new))) (setup_of host.old).devices roll.old.findings said.now))
        result out.old out.new host.old host.new }
    ensures later { O.misses outside.old ≤ O.misses outside.new }
    ensures heard { HearsMore O.heard outside.old outside.new [] }
{
    match said {
        LiveLine::Command(command) => decide(host, roll, command, out, link, page),
        LiveLine::Poll => poll(host, roll, desk, link, out, page),
        LiveLine::Next { addr } => next(host, *addr, desk, link, out, page),
        LiveLine::Do { addr } => do_job(host, *addr, desk, link, out, page),
        LiveLine::Balance => balance(host, out, page),
        LiveLine::Status => status(host, out, page),
        LiveLine::Order { id } => order(host, *id, outside, out, page),
        LiveLine::Stock { addr, count } => count_stock(host, desk, *addr, *count, out, page),
        LiveLine::Change { first, amount } => begin_session(host, desk, *first, *amount, out, page),
        LiveLine::Serve => serve_session(host, roll, desk, link, out, page),
        LiveLine::End => Ok(()),
    }
}

/// Gives the host a command, or withholds it, after the device that it is for was asked what is
/// left. From now on a poll asks that device at once.
fn decide<K: Sink, D: Disk, L: CountedLink>(
    host: &mut Host<'_, D>,
    roll: &mut Roll,
    command: &Command,
    out: &mut K,
    link: &mut L,
    page: &mut Page,
) -> Result<(), Served>
    requires whole { has_failed host.old ≡ false }
    requires told { IsCommand command.now }
    ensures acts { Acts K.written K.puts K.faults
        (Both (UsesLink L.gives L.sent L.failures (setup_of host.old).devices roll.old roll.new
        (watched link.old page.old) (watched link.new page.new))
        IsApart)
        (Finds roll.old.findings roll.new.findings (Decides roll.old.findings command.now))
        result out.old out.new host.old host.new }
    ensures asks { AsksAt L.gives (setup_of host.old).devices (asked_before command.now) roll.old
        link.old roll.new link.new }
{
    page.rests.wake(command.address());
    match ask_before(host, roll, command, link, out, page) {
        Ok(()) => answer_or_withhold(host, roll.findings(), command, out, page),
        Err(how) => Err(how),
    }
}

/// The job at an address makes one attempt. From now on a poll asks that device at once.
fn next<K: Sink, D: Disk, L: CountedLink>(
    host: &mut Host<'_, D>,
    addr: u8,
    desk: &mut Desk,
    link: &mut L,
    out: &mut K,
    page: &mut Page,
) -> Result<(), Served>
    requires whole { has_failed host.old ≡ false }
    ensures acts { Acts K.written K.puts K.faults (Both (Exchanges L.gives L.sent L.failures (setup_of host.old).devices
        (watched link.old page.old) (watched link.new page.new))
        (FollowsDesk result desk.old desk.new))
        (IsAttempt addr) result out.old out.new host.old host.new }
{
    page.rests.wake(addr);
    attempt(host, addr, desk, link, out, page)
}

/// The job at an address makes attempts until it has ended.
fn do_job<K: Sink, D: Disk, L: CountedLink>(
    host: &mut Host<'_, D>,
    addr: u8,
    desk: &mut Desk,
    link: &mut L,
    out: &mut K,
    page: &mut Page,
) -> Result<(), Served>
    requires whole { has_failed host.old ≡ false }
    ensures acts { Acts K.written K.puts K.faults (Both (Exchanges L.gives L.sent L.failures (setup_of host.old).devices
        (watched link.old page.old) (watched link.new page.new))
        (FollowsDesk result desk.old desk.new))
        (MakesAttempts Until.Ended addr) result out.old out.new host.old host.new }
{
    page.rests.wake(addr);
    attempts(host, addr, Until::Ended, desk, link, out, page)
}
