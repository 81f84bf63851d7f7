//! A load is played, line by line, and what its transcript sums up to is written.
ghost use Rattle.std.specs.Prelude.{◌≡◌, ◌≢◌, ◌≤◌, ◌+◌, ◌*◌, List, [], ◌∷◌, ◌++◌, IfErr, IfOk};
ghost use Rattle.std.specs.Prelude.{IsErr, MatchResult};
ghost use Rattle.cct_edge.specs.Bytes.{Serves};
ghost use Rattle.cct_model.specs.lines.command.Step.{Step};
ghost use Rattle.cct_model.specs.lines.entry.Entry.{Entry};
ghost use Rattle.cct_model.specs.lines.entry.Entry.TheVariants.{Balance};
ghost use Rattle.cct_model.specs.Change.{clear_desk};
ghost use Rattle.cct_text.specs.Writing.{Broke, Writes, Wrote};
ghost use Rattle.cct_world.specs.Serving.{DiskServes};
ghost use Rattle.cct_world.specs.World.{StandsFor, desk_of, disk_of, setup_of};
ghost use Rattle.cct_gen.specs.Load.{load_setup};
ghost use Rattle.cct_bench_load.specs.Sums.{SumsUp, sums_of};
ghost use Rattle.cct_bench_load.specs.Played.{Became, LosesJournal, PlayedLines, PlaysLoad};
ghost use Rattle.cct_bench_load.specs.Played.{StoppedWithin, end_of, first_line};

use crate::sums::LoadSums;
use arrayvec::ArrayVec;
use cct_disk::Disk;
use cct_edge::{Failed, Sink};
use cct_gen::nth_line;
use cct_model::{Entry, Totals};
use cct_text::{TextLine, write_entries, write_entry};
use cct_world::{World, WorldNo};

/// How many lines a load has before its first round.
const FIRST_LINES: u32 = 6;

/// How many lines a round has.
const ROUND_LINES: u32 = 20;

/// The most rounds of a load.
pub const MOST_ROUNDS: u32 = 10_000;

/// Which load is played: the seed that its lines are drawn from, and its rounds, 10,000 at most.
#[derive(Clone, Copy, PartialEq, Eq)]
pub struct Load {
    pub seed: u64,
    pub rounds: u32,
}

/// How the playing of a load came to its end.
#[derive(Clone, Copy, PartialEq, Eq)]
pub enum LoadEnd {
    /// All steps were played, and all was written.
    Done,
    /// Writing failed: in the first line, before any step was played, or in those after the last
    /// step.
    Unwritten,
    /// A step wasn't played. Just the first line was written.
    Unplayed(WorldNo),
}

/// The entries of the last step, and what all steps sum up to.
#[derive(Drop)]
struct LoadDesk {
    report: ArrayVec<Entry, 8>,
    sums: LoadSums,
}

impl LoadDesk {
    /// Plays the lines of a load on a world on which nothing has happened; or gives the disk back,
    /// and says why a step wasn't played.
    fn play_lines<'s, D: Disk>(
        &mut self,
        load: Load,
        world: World<'s, D>,
    ) -> Result<World<'s, D>, (D, WorldNo)>
        requires rounds { load.rounds ≤ MOST_ROUNDS }
        requires setup { setup_of world ≡ load_setup }
        requires fresh { StandsFor world [] }
        requires desk { desk_of world ≡ clear_desk load_setup }
        requires sums { SumsUp self.old.sums [] [] }
        ensures played { IfOk result (λ next. (setup_of next ≡ load_setup)
            × PlayedLines world.entry load.seed (6 + 20 * load.rounds) (desk_of next)
            (Became world.entry next self.new.sums load.seed (6 + 20 * load.rounds))) }
        ensures stopped { IfErr result (λ e. StoppedWithin world.entry load.seed
            (6 + 20 * load.rounds) e.0 e.1) }
        ensures disk { MatchResult result
            (λ next. DiskServes D.size D.honest D.seen D.cuts D.faults (disk_of world.entry) (disk_of next) ⊥ ⊥)
            (λ e. DiskServes D.size D.honest D.seen D.cuts D.faults (disk_of world.entry) e.0 (e.1 ≡ WorldNo.Disk)
            (e.1 ≢ WorldNo.Disk)) }
    {
        let mut world = world;
        for line in 0..FIRST_LINES + ROUND_LINES * load.rounds {
            let step = nth_line(load.seed, line);
            world = match world.step(&step, &mut self.report) {
                Ok(world) => world,
                Err(stopped) => return Err(stopped),
            };
            self.sums.add_step(self.report.as_slice());
        }
        Ok(world)
    }
}

/// Plays a load on a world on which nothing has happened, and gives its disk back. The line of the
/// load is written before its first step, and after the last one those of the sums over the
/// transcript and that of what the operator has; no entry of a step is. Each line is written by one
/// put. The line buffer is used for it, whatever it holds.
pub fn play_load<K: Sink, D: Disk>(
    load: Load,
    world: World<'_, D>,
    out: &mut K,
    line: &mut TextLine,
) -> (LoadEnd, D)
    requires rounds { load.rounds ≤ MOST_ROUNDS }
    requires setup { setup_of world ≡ load_setup }
    requires fresh { StandsFor world [] }
    requires desk { desk_of world ≡ clear_desk load_setup }
    // what was played and written, and what the disk keeps
    ensures played { PlaysLoad world.entry load result.0 result.1 (Wrote K.written K.puts out.old out.new)
        (Broke K.written K.puts out.old out.new) }

    // Sink and disk go on, and each end but that of a load that is done has its cause.
    ensures sink { Serves K.written K.faults out.old out.new (result.0 ≡ LoadEnd.Unwritten) }
    ensures disk { DiskServes D.size D.honest D.seen D.cuts D.faults (disk_of world.entry) result.1
        (result.0 ≡ LoadEnd.Unplayed WorldNo.Disk) (LosesJournal result.0) }
{
    match write_first(load, out, line) {
        Ok(()) => {}
        Err(Failed) => return (LoadEnd::Unwritten, world.into_disk()),
    }
    let mut desk = LoadDesk {
        report: ArrayVec::new(),
        sums: LoadSums::new(),
    };
    let world = match desk.play_lines(load, world) {
        Ok(world) => world,
        Err((disk, why)) => return (LoadEnd::Unplayed(why), disk),
    };
    let written = write_sums(&desk.sums, world.totals(), out, line);
    (end_of(written), world.into_disk())
}

/// How a load ends whose steps were all played, by whether the lines after them were written.
fn end_of(written: Result<(), Failed>) -> LoadEnd
    ensures { result ≡ end_of written }
{
    match written {
        Ok(()) => LoadEnd::Done,
        Err(Failed) => LoadEnd::Unwritten,
    }
}

/// Writes the line of a load.
fn write_first<K: Sink>(load: Load, out: &mut K, line: &mut TextLine) -> Result<(), Failed>
    ensures writes { Writes K.written K.puts out.old (first_line load ∷ []) result out.new }
    ensures sink { Serves K.written K.faults out.old out.new (IsErr result) }
{
    let first = Entry::Load {
        seed: load.seed,
        rounds: load.rounds,
    };
    write_entry(out, line, &first)
}

/// Writes the lines of the sums, and after them that of what the operator has.
fn write_sums<K: Sink>(
    sums: &LoadSums,
    totals: Totals,
    out: &mut K,
    line: &mut TextLine,
) -> Result<(), Failed>
    ensures writes { (played : List Step) (past : List Entry) → SumsUp sums.now played past
        → Writes K.written K.puts out.old (sums_of played past ++ Balance totals ∷ []) result out.new }
    ensures sink { Serves K.written K.faults out.old out.new (IsErr result) }
{
    let mut told = sums.told();
    told.push(Entry::Balance(totals));
    write_entries(out, line, told.as_slice())
}
