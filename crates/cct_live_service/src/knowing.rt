//! What the journal knows now, read beside the host that goes on with it.
ghost use Rattle.std.specs.Prelude.{◌≡◌, ◌≢◌, ◌≤◌, [], ℕ, List, Some, IsErr, false};
ghost use Rattle.cct_edge.specs.Bytes.{Serves};
ghost use Rattle.cct_edge.specs.Faults.{Caused, Rose};
ghost use Rattle.cct_host.specs.Host.{disk_of, has_failed};
ghost use Rattle.cct_live_service.specs.AtDesk.{Both, IsApart};
ghost use Rattle.cct_live_service.specs.Doing.{IsStating};
ghost use Rattle.cct_live_service.specs.Hears.{HearsMore};
ghost use Rattle.cct_live_service.specs.Known.{MissedFrom};
ghost use Rattle.cct_live_service.specs.Linked.{AreQuiet};
ghost use Rattle.cct_live_service.specs.Parts.{Acts};
ghost use Rattle.cct_live_service.specs.Reported.{IsRecorded, LooksUp};
ghost use Rattle.cct_live_service.specs.Stated.{IsUnread, TellsKnown};

use crate::beside::Beside;
use crate::notice::{Notice, tell};
use crate::page::Page;
use crate::served::{Served, by_writing};
use cct_bench_state::{StateEnd, tell_state};
use cct_disk::Disk;
use cct_edge::{Failed, Sink};
use cct_host::Host;
use cct_journal::OpenNo;
use cct_live_order::{OrderTold, order_on};
use cct_text::TextLine;

/// Says what the journal knows now, in the lines of a bench's `state`. The host doesn't go on
/// meanwhile; its disk is read beside it.
pub(crate) fn state<K: Sink, D: Disk + Drop, O: Beside<D>>(
    host: &mut Host<'_, D>,
    outside: &mut O,
    out: &mut K,
    page: &mut Page,
) -> Result<(), Served>
    requires whole { has_failed host.old ≡ false }
    ensures acts { Acts K.written K.puts K.faults (Both AreQuiet IsApart)
        (IsStating (MissedFrom host.old (Rose (O.misses outside.old) (O.misses outside.new))))
        result out.old out.new host.old host.new }
    ensures watch { page.new.watch ≡ page.old.watch }
    ensures later { O.misses outside.old ≤ O.misses outside.new }
    ensures heard { HearsMore O.heard outside.old outside.new [] }
{
    by_writing(tell_known(host, outside, out, &mut page.line))
}

/// Says what the journal knows by a disk that gives the bytes of the host's, or that it couldn't be
/// read.
fn tell_known<K: Sink, D: Disk + Drop, O: Beside<D>>(
    host: &Host<'_, D>,
    outside: &mut O,
    out: &mut K,
    line: &mut TextLine,
) -> Result<(), Failed>
    ensures tells { TellsKnown K.written K.puts host.now (Rose (O.misses outside.old) (O.misses outside.new)) out.old result
        out.new }
    ensures serves { Serves K.written K.faults out.old out.new (IsErr result) }
    ensures later { O.misses outside.old ≤ O.misses outside.new }
    ensures heard { HearsMore O.heard outside.old outside.new [] }
{
    match outside.beside(host.disk()) {
        Some(disk) => tell_disk(host, disk, outside, out, line),
        None => tell_unread(out, line),
    }
}

/// Says what the journal on a disk knows, which gives the bytes of the host's; or that it can't be
/// read.
fn tell_disk<K: Sink, D: Disk + Drop, O: Beside<D>>(
    host: &Host<'_, D>,
    disk: D,
    outside: &mut O,
    out: &mut K,
    line: &mut TextLine,
) -> Result<(), Failed>
    requires same { D.seen disk ≡ D.seen (disk_of host.now) }
    requires new { D.faults disk ≡ 0 }
    ensures tells { TellsKnown K.written K.puts host.now (Rose (O.misses outside.old) (O.misses outside.new)) out.old result
        out.new }
    ensures serves { Serves K.written K.faults out.old out.new (IsErr result) }
    ensures later { O.misses outside.old ≤ O.misses outside.new }
    ensures heard { HearsMore O.heard outside.old outside.new [] }
{
    let (how, disk) = tell_state(out, line, Some(host.setup()), disk);
    match how {
        StateEnd::Done => Ok(()),
        StateEnd::Unwritten => Err(Failed),
        StateEnd::Unread(why) => {
            count_miss(why, disk, outside);
            tell_unread(out, line)
        }
    }
}

/// Counts a miss, where a call of the disk failed by which the journal isn't read.
fn count_miss<D: Disk + Drop, O: Beside<D>>(why: OpenNo, disk: D, outside: &mut O)
    requires failed { why ≡ OpenNo.Disk → D.faults disk ≢ 0 }
    ensures missed { Caused (O.misses outside.old) (O.misses outside.new) (why ≡ OpenNo.Disk) }
    ensures heard { HearsMore O.heard outside.old outside.new [] }
{
    match why {
        OpenNo::Disk => outside.failed(disk),
        _ => {}
    }
}

/// Says that the journal couldn't be read.
fn tell_unread<K: Sink>(out: &mut K, line: &mut TextLine) -> Result<(), Failed>
    ensures tells { IsUnread K.written K.puts out.old result out.new }
    ensures serves { Serves K.written K.faults out.old out.new (IsErr result) }
{
    tell(out, line, &Notice::StateUnread)
}

/// What the records since the last turn of the journal say of an order, read by a disk that gives
/// the bytes of the host's.
pub(crate) fn recorded_order<D: Disk + Drop, O: Beside<D>>(
    host: &Host<'_, D>,
    id: u32,
    outside: &mut O,
) -> OrderTold
    ensures is { IsRecorded host.now id (Rose (O.misses outside.old) (O.misses outside.new)) result }
    ensures later { O.misses outside.old ≤ O.misses outside.new }
    ensures heard { HearsMore O.heard outside.old outside.new [] }
{
    match outside.beside(host.disk()) {
        Some(disk) => read_order(disk, id, outside),
        None => OrderTold::Unread,
    }
}

/// What the journal on a disk says of an order.
fn read_order<D: Disk + Drop, O: Beside<D>>(disk: D, id: u32, outside: &mut O) -> OrderTold
    requires new { D.faults disk ≡ 0 }
    ensures looks { (image : List ℕ) → D.seen disk ≡ Some image
        → LooksUp image id (Rose (O.misses outside.old) (O.misses outside.new)) result }
    ensures later { O.misses outside.old ≤ O.misses outside.new }
    ensures heard { HearsMore O.heard outside.old outside.new [] }
{
    let (told, disk) = order_on(disk, id);
    match told {
        Ok(told) => told,
        Err(why) => {
            count_miss(why, disk, outside);
            OrderTold::Unread
        }
    }
}
