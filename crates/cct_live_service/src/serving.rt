//! The main call: all that a host does on a real line, over the disk of its journal.
ghost use Rattle.std.specs.Prelude.{◌≡◌, ◌≢◌, ◌⊎◌, false};
ghost use Rattle.cct_disk.specs.declared.file.TheConstants as files;
ghost use Rattle.cct_edge.specs.Bytes.{Serves};
ghost use Rattle.cct_edge.specs.Faults.{Rose};
ghost use Rattle.cct_host.specs.Host.{disk_of, has_failed, setup_of};
ghost use Rattle.cct_model.specs.Setup.{IsSoundSetup};
ghost use Rattle.cct_live_service.specs.AtDesk.{Both, FollowsTo};
ghost use Rattle.cct_live_service.specs.Causes.{DiskServes, IsDiskFault, IsUnread, IsUnwritten};
ghost use Rattle.cct_live_service.specs.Causes.{SuitsDisk};
ghost use Rattle.cct_live_service.specs.Doing.{IsDone, PlaysLines, ServesLines, ends_by};
ghost use Rattle.cct_live_service.specs.Found.{Begun, was_found};
ghost use Rattle.cct_live_service.specs.Hears.{HearsMore};
ghost use Rattle.cct_live_service.specs.Known.{KnownAfter, MissedFrom};
ghost use Rattle.cct_live_service.specs.Lived.{Closed, LivedOrNot};
ghost use Rattle.cct_live_service.specs.Linked.{UsesLink, watched};
ghost use Rattle.cct_live_service.specs.Opening.{HasBegun, opening_of};
ghost use Rattle.cct_live_service.specs.Parts.{Plays};
ghost use Rattle.cct_live_service.specs.Refused.{refusals};
ghost use Rattle.cct_live_service.specs.Said.{IsOfInput};

use crate::beside::Beside;
use crate::opening::open_host;
use crate::page::Page;
use crate::play::play;
use crate::served::{Served, close};
use crate::standing::tell_found;
use crate::stopping::{AtEnd, stop_at_end};
use cct_disk::Disk;
use cct_edge::{Sink, Source};
use cct_host::Host;
use cct_host_change::Desk;
use cct_live_port::CountedLink;
use cct_live_survey::Roll;
use cct_model::Setup;

/// Opens the journal of a disk, or makes it where the disk is blank, starts a host over it, and
/// does what each line of the input says, up to `end` or the end of the input. The disk is given
/// back, with how it ended; the last line, where there is one, is written.
///
/// `roll` has what was found of the devices so far, and what is still to be asked: a payment at a
/// hopper that gave another serial number than the setup names isn't given to the host, and neither
/// is a start whose mask has a place that gave another coin. What is left is asked in polls, and
/// before such a command is decided. `page` may be used for one service after another.
pub fn serve<S: Source, K: Sink, D: Disk + Drop, L: CountedLink, O: Beside<D>>(
    setup: &Setup,
    roll: &mut Roll,
    desk: &mut Desk,
    ends: AtEnd,
    input: &mut S,
    out: &mut K,
    disk: D,
    link: &mut L,
    outside: &mut O,
    page: &mut Page,
) -> (Served, D)
    requires sound { IsSoundSetup setup.now }
    // What was done and written is what the lines of the input said, and it is the life of a host
    // over the records that the disk had, whatever is heard; and how it ended. First it was
    // reported what the disk had: a journal was made only where no byte but 0 was, and else the
    // numbers are those of the records that were found. What went over the link are the exchanges
    // that were reported, and the questions of the roll, and nothing else. The program around it
    // heard of the lines that are refused, of each once, in their order, and of no other one.
    ensures lived { Closed K.written K.puts L.gives L.sent L.failures D.size D.honest D.seen D.may_leave D.moment
        D.left_since D.cuts disk result.1 setup.now roll.old roll.new desk.old desk.new (O.misses outside.old)
        (O.misses outside.new) (HearsMore O.heard outside.old outside.new) ends (S.left input.old) result.0 out.old
        out.new (watched link.old page.old) (watched link.new page.new) }

    // Each end has its cause; the input's own are in the clause above.
    ensures read_cause { result.0 ≡ Served.Unread → Rose (S.faults input.old) (S.faults input.new) }
    ensures write_cause { result.0 ≡ Served.Unwritten → Rose (K.faults out.old) (K.faults out.new) }
    ensures disk_cause { result.0 ≡ Served.Disk → Rose (D.faults disk) (D.faults result.1) }
    // A disk that no host is started over, and what it then is. It was only read.
    ensures refused { SuitsDisk D.size D.honest D.seen D.may_leave D.moment D.left_since D.cuts disk result.1 setup.now
        result.0 }
    // One of another length is reported as such, or that couldn't be written.
    ensures size { D.size disk ≢ files.MADE_LEN
        → (result.0 ≡ Served.OtherSize (D.size disk)) ⊎ (result.0 ≡ Served.Unwritten) }

    // Input, output and disk show their bytes afterwards where they did before; no count falls, and
    // no power is cut.
    ensures input_goes_on { Serves S.left S.faults input.old input.new ⊥ }
    ensures sink_goes_on { Serves K.written K.faults out.old out.new ⊥ }
    ensures disk_goes_on { DiskServes D.size D.honest D.seen D.cuts D.faults disk result.1 ⊥ }
{
    let (how, disk) = live(
        setup, roll, desk, ends, input, out, disk, link, outside, page,
    );
    (close(how, out, &mut page.line), disk)
}

/// All of it but the last line.
fn live<S: Source, K: Sink, D: Disk + Drop, L: CountedLink, O: Beside<D>>(
    setup: &Setup,
    roll: &mut Roll,
    desk: &mut Desk,
    ends: AtEnd,
    input: &mut S,
    out: &mut K,
    disk: D,
    link: &mut L,
    outside: &mut O,
    page: &mut Page,
) -> (Served, D)
    requires sound { IsSoundSetup setup.now }
    ensures lived { LivedOrNot K.written K.puts L.gives L.sent L.failures D.size D.honest D.seen D.may_leave D.moment
        D.left_since D.cuts disk result.1 setup.now roll.old roll.new desk.old desk.new (O.misses outside.old)
        (O.misses outside.new) (HearsMore O.heard outside.old outside.new) ends (S.left input.old) result.0 out.old
        out.new (watched link.old page.old) (watched link.new page.new) }
    ensures suits { SuitsDisk D.size D.honest D.seen D.may_leave D.moment D.left_since D.cuts disk result.1 setup.now
        result.0 }
    ensures size { D.size disk ≢ files.MADE_LEN → result.0 ≡ Served.OtherSize (D.size disk) }
    ensures input { Serves S.left S.faults input.old input.new (IsUnread result.0) }
    ensures sink { Serves K.written K.faults out.old out.new (IsUnwritten result.0) }
    ensures disk { DiskServes D.size D.honest D.seen D.cuts D.faults disk result.1
        (IsDiskFault result.0) }
{
    let (host, was_there) = match open_host(setup, disk) {
        Ok(opened) => opened,
        Err(ended) => return ended,
    };
    let mut host = host;
    let how = live_on(
        &mut host, was_there, roll, desk, ends, input, out, link, outside, page,
    );
    (how, host.into_disk())
}

/// Says what was found, does what each line says, and stops the acceptors that run, where it is
/// wanted.
fn live_on<S: Source, K: Sink, D: Disk + Drop, L: CountedLink, O: Beside<D>>(
    host: &mut Host<'_, D>,
    was_there: bool,
    roll: &mut Roll,
    desk: &mut Desk,
    ends: AtEnd,
    input: &mut S,
    out: &mut K,
    link: &mut L,
    outside: &mut O,
    page: &mut Page,
) -> Served
    requires whole { has_failed host.old ≡ false }
    ensures setup { setup_of host.new ≡ setup_of host.old }
    ensures plays { (begun : Begun) → HasBegun host.old begun → was_there ≡ was_found begun → Plays K.written K.puts
        (Both (UsesLink L.gives L.sent L.failures (setup_of host.old).devices roll.old roll.new
        (watched link.old page.old) (watched link.new page.new))
        (FollowsTo result desk.old desk.new))
        (ServesLines (IsDone result) (KnownAfter host.old desk.old)
        (MissedFrom host.old (Rose (O.misses outside.old) (O.misses outside.new))) (setup_of host.old) (opening_of (setup_of host.old) begun) roll.old.findings (ends_by result ends))
        (λ lines. HearsMore O.heard outside.old outside.new (refusals (setup_of host.old).devices lines))
        (S.left input.old) result out.old out.new host.old host.new }
    ensures input { Serves S.left S.faults input.old input.new (IsUnread result) }
    ensures sink { Serves K.written K.faults out.old out.new (IsUnwritten result) }
    ensures disk { DiskServes D.size D.honest D.seen D.cuts D.faults (disk_of host.old) (disk_of host.new)
        (IsDiskFault result) }
{
    match open_and_play(host, was_there, roll, desk, input, out, link, outside, page) {
        Served::Done => match stop_at_end(host, ends, desk, link, out, page) {
            Ok(()) => Served::Done,
            Err(how) => how,
        },
        how => how,
    }
}

/// Says what was found, and does what each line says.
fn open_and_play<S: Source, K: Sink, D: Disk + Drop, L: CountedLink, O: Beside<D>>(
    host: &mut Host<'_, D>,
    was_there: bool,
    roll: &mut Roll,
    desk: &mut Desk,
    input: &mut S,
    out: &mut K,
    link: &mut L,
    outside: &mut O,
    page: &mut Page,
) -> Served
    requires whole { has_failed host.old ≡ false }
    ensures whole { IsOfInput result → has_failed host.new ≡ false }
    ensures setup { setup_of host.new ≡ setup_of host.old }
    ensures plays { (begun : Begun) → HasBegun host.old begun → was_there ≡ was_found begun → Plays K.written K.puts
        (Both (UsesLink L.gives L.sent L.failures (setup_of host.old).devices roll.old roll.new
        (watched link.old page.old) (watched link.new page.new))
        (FollowsTo result desk.old desk.new))
        (PlaysLines (KnownAfter host.old desk.old)
        (MissedFrom host.old (Rose (O.misses outside.old) (O.misses outside.new))) (setup_of host.old) (opening_of (setup_of host.old) begun) roll.old.findings)
        (λ lines. HearsMore O.heard outside.old outside.new (refusals (setup_of host.old).devices lines))
        (S.left input.old) result out.old out.new host.old host.new }
    ensures input { Serves S.left S.faults input.old input.new (IsUnread result) }
    ensures sink { Serves K.written K.faults out.old out.new (IsUnwritten result) }
    ensures disk { DiskServes D.size D.honest D.seen D.cuts D.faults (disk_of host.old) (disk_of host.new)
        (IsDiskFault result) }
{
    match tell_found(host, was_there, out, &mut page.line) {
        Ok(()) => play(host, roll, desk, input, out, link, outside, page),
        Err(_) => Served::Unwritten,
    }
}
