//! A load: a script that a seed makes is played over a new journal, and summed up.
ghost use Rattle.std.specs.Prelude.{◌≡◌, ◌≢◌, ◌≤◌};
ghost use Rattle.cct_edge.specs.Bytes.{Serves};
ghost use Rattle.cct_edge.specs.Faults.{Rose};
ghost use Rattle.cct_journal.specs.Journal as journals;
ghost use Rattle.cct_disk.specs.Disk.{GoesOn};
ghost use Rattle.cct_text.specs.Writing.{Broke, Wrote};
ghost use Rattle.cct_world.specs.Serving.{DiskServes};
ghost use Rattle.cct_bench.specs.Disks.{IsNewJournal, IsReady, disks};
ghost use Rattle.cct_bench.specs.Load.{LoadPlayed, Loaded, load_ending};
ghost use Rattle.cct_bench.specs.Run.{status_of};

use crate::ending::{Ending, finish_run};
use crate::outcome::Status;
use crate::play::opened;
use cct_bench_load::{Load, LoadEnd, MOST_ROUNDS, play_load};
use cct_disk::Disk;
use cct_edge::Sink;
use cct_gen::load_setup;
use cct_journal::Journal;
use cct_model::{Devices, Setup};
use cct_text::TextLine;
use cct_world::World;
use std::alloc::Global;

/// Plays a load over a disk, which it gives back, and writes the last line where its status has
/// one. The line of the load is written before its first step, and its sums after the last one.
// In a frame of its own it takes no room where a script is played.
#[inline(never)]
pub fn run_load<K: Sink, D: Disk>(alloc: Global, load: Load, out: &mut K, disk: D) -> (Status, D)
    requires rounds { load.rounds ≤ MOST_ROUNDS }
    // what was played and written, and what is left on the disk
    ensures loaded { Loaded load.seed load.rounds result.0 (Wrote K.written K.puts out.old out.new)
        (Broke K.written K.puts out.old out.new) (disks D.size D.honest D.seen D.may_leave D.cuts D.cut_to disk result.1)
        (Rose (D.faults disk) (D.faults result.1)) }

    // the statuses that need words or memory
    ensures memory { result.0 ≡ Status.OutOfMemory → out.new ≡ out.old }
    ensures read { result.0 ≢ Status.ReadFault }
    ensures words { result.0 ≢ Status.WordsRefused }

    // the sink and the disk
    ensures sink { Serves K.written K.faults out.old out.new (result.0 ≡ Status.WriteFault) }
    ensures disk { DiskServes D.size D.honest D.seen D.cuts D.faults disk result.1 (result.0 ≡ Status.DiskFault)
        (result.0 ≡ Status.JournalLost) }
{
    let mut line = TextLine::new();
    let (how, disk) = play_over(alloc, load, out, &mut line, disk);
    (finish_run(&how, out, &mut line), disk)
}

/// Creates the journal on a blank disk, and plays a load over it.
fn play_over<K: Sink, D: Disk>(
    alloc: Global,
    load: Load,
    out: &mut K,
    line: &mut TextLine,
    disk: D,
) -> (Ending, D)
    requires rounds { load.rounds ≤ MOST_ROUNDS }
    ensures played { LoadPlayed load.seed load.rounds result.0 (Wrote K.written K.puts out.old out.new)
        (Broke K.written K.puts out.old out.new)
        (disks D.size D.honest D.seen D.may_leave D.cuts D.cut_to disk result.1) }
    ensures memory { result.0 ≡ Ending.NoMemory → out.new ≡ out.old }
    ensures sink { Serves K.written K.faults out.old out.new (result.0 ≡ Ending.Unwritten) }
    ensures disk { DiskServes D.size D.honest D.seen D.cuts D.faults disk result.1
        (status_of result.0 ≡ Status.DiskFault) (status_of result.0 ≡ Status.JournalLost) }
{
    match opened(disk) {
        Ok(journal) => play_journal(alloc, load, out, line, journal),
        Err(ended) => ended,
    }
}

/// Builds the machine of a load over a journal without records, and plays it.
fn play_journal<K: Sink, D: Disk>(
    alloc: Global,
    load: Load,
    out: &mut K,
    line: &mut TextLine,
    journal: Journal<D>,
) -> (Ending, D)
    requires rounds { load.rounds ≤ MOST_ROUNDS }
    requires made { IsNewJournal journal }
    ensures played { (given : D) → IsReady (D.size given) (D.seen given)
        → GoesOn D.size D.honest D.seen D.cuts given (journals.disk_of journal)
        → LoadPlayed load.seed load.rounds result.0 (Wrote K.written K.puts out.old out.new)
        (Broke K.written K.puts out.old out.new) (disks D.size D.honest D.seen D.may_leave D.cuts D.cut_to given result.1) }
    ensures memory { result.0 ≡ Ending.NoMemory → out.new ≡ out.old }
    ensures sink { Serves K.written K.faults out.old out.new (result.0 ≡ Ending.Unwritten) }
    ensures disk { DiskServes D.size D.honest D.seen D.cuts D.faults (journals.disk_of journal) result.1
        (status_of result.0 ≡ Status.DiskFault) (status_of result.0 ≡ Status.JournalLost) }
{
    let mut setup = Setup {
        devices: Devices::new(),
    };
    load_setup(&mut setup);
    match World::build(alloc, &setup, journal) {
        Ok(world) => {
            let (how, disk) = play_load(load, world, out, line);
            (load_ending(how), disk)
        }
        Err((disk, _)) => (Ending::NoMemory, disk),
    }
}

/// How a load ends, by how the playing of it did.
fn load_ending(how: LoadEnd) -> Ending
    ensures { result ≡ load_ending how }
{
    match how {
        LoadEnd::Done => Ending::Done,
        LoadEnd::Unwritten => Ending::Unwritten,
        LoadEnd::Unplayed(why) => Ending::Unplayed(why),
    }
}
