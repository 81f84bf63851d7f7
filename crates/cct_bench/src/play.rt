//! A run: the script is read a line at a time, and each step is played and its entries are written
//! before the next line is read.
ghost use Rattle.std.specs.Prelude.{◌≡◌, ◌≢◌, ◌⊎◌, ℕ, ◌+◌, ◌≤◌, List, Option, Result, Ok, Err};
ghost use Rattle.std.specs.Prelude.{IfOk, IfErr, MatchResult, OnOk};
ghost use Rattle.cct_edge.specs.Bytes.{Serves};
ghost use Rattle.cct_edge.specs.declared.fault.Failed.{Failed};
ghost use Rattle.cct_edge.specs.Faults.{Caused, Rose};
ghost use Rattle.cct_model.specs.lines.entry.Entry.{Entry};
ghost use Rattle.cct_model.specs.terms.device.Setup.{Setup};
ghost use Rattle.cct_model.specs.Change.{Desk};
ghost use Rattle.cct_model.specs.Script.{no_devices, at_steps};
ghost use Rattle.cct_script.specs.Giving.{none_given, standing_of};
ghost use Rattle.cct_disk.specs.Disk.{IsTrusted};
ghost use Rattle.cct_journal.specs.Journal as journals;
ghost use Rattle.cct_disk.specs.Disk.{GoesOn, Outlasts};
ghost use Rattle.cct_host.specs.declared.refusal.CrashNo.{CrashNo};
ghost use Rattle.cct_host.specs.declared.refusal.CrashNo.TheVariants as crash_no;
ghost use Rattle.cct_world.specs.Holds.{WorldHolds};
ghost use Rattle.cct_world.specs.Step.{CutsIn, LastsIn};
ghost use Rattle.cct_world.specs.World.{Breaks, StandsFor, desk_of, disk_of, setup_of, used_of};
ghost use Rattle.cct_script.specs.Scripts.{WithMoreTaken, IsNext};
ghost use Rattle.cct_bench.specs.Lines.{EndsAt};
ghost use Rattle.cct_bench.specs.Disks.{Books, IsNewJournal, IsReady, disks};
ghost use Rattle.cct_world.specs.Relying.{IsReliable};
ghost use Rattle.cct_world.specs.Serving.{DiskServes};
ghost use Rattle.cct_bench.specs.Going.{Going};
ghost use Rattle.cct_bench.specs.SetupLines.{TookSetup};
ghost use Rattle.cct_script.specs.Source.{OfBytes};
ghost use Rattle.cct_text.specs.Writing.{Writes, Wrote, Broke};
ghost use Rattle.cct_bench.specs.Playing.{CanPlay, PlaysOn};
ghost use Rattle.cct_bench.specs.Run.{IsOfScript, IsUnopened, OverCut, Played, Ran, status_of};

use crate::ending::{Ending, ending_at, finish_run};
use crate::opening::read_setup;
use crate::outcome::Status;
use crate::steps::{StepRooms, is_end, read_step};
use arrayvec::ArrayVec;
use cct_disk::{Disk, MADE_LEN};
use cct_edge::{Failed, Sink, Source};
use cct_journal::Journal;
use cct_model::{Devices, Entry, Setup, Step};
use cct_script::{Lines, behind_end};
use cct_text::{TextLine, write_entries};
use cct_world::World;
use std::alloc::Global;

/// How many bytes the disk of a journal has: those of a file that is made for it.
pub const JOURNAL_BYTES: u64 = MADE_LEN;

/// A new journal on a blank disk that has the length of one; or says how the run ends, and gives
/// the disk back.
pub fn opened<D: Disk>(disk: D) -> Result<Journal<D>, (Ending, D)>
    ensures ready { OnOk result (IsReady (D.size disk) (D.seen disk)) }
    ensures made { IfOk result IsNewJournal }
    ensures refused { IfErr result (λ e. IsUnopened (D.size disk) (D.seen disk) e.0) }
    ensures goes_on { MatchResult result
        (λ journal. GoesOn D.size D.honest D.seen D.cuts disk (journals.disk_of journal))
        (λ e. GoesOn D.size D.honest D.seen D.cuts disk e.1) }
    ensures cause { MatchResult result (λ journal. D.faults disk ≤ D.faults (journals.disk_of journal))
        (λ e. Caused (D.faults disk) (D.faults e.1) (status_of e.0 ≡ Status.DiskFault)) }
{
    let len = disk.len();
    if len != JOURNAL_BYTES {
        return Err((Ending::OtherSize { len }, disk));
    }
    match Journal::create(disk) {
        Ok(journal) => Ok(journal),
        Err((disk, why)) => Err((Ending::Uncreated(why), disk)),
    }
}

/// Plays a step and writes its entries: the buffers of both.
#[derive(Drop)]
struct StepPlayer {
    /// The entries of the last `next` that put no record. Most of these are exchanges, and an entry
    /// that stands in the place of one of its kind is only filled.
    attempt: ArrayVec<Entry, 8>,
    /// The entries of the last `next` that put a record.
    put: ArrayVec<Entry, 8>,
    /// The entries of the last command.
    command: ArrayVec<Entry, 8>,
    /// The entries of the last step that was neither.
    report: ArrayVec<Entry, 8>,
    line: TextLine,
}

impl StepPlayer {
    /// Plays a step, and writes its entries; or says how the run ends, and gives the disk back.
    fn play<'s, K: Sink, D: Disk>(
        &mut self,
        step: &Step,
        world: World<'s, D>,
        out: &mut K,
    ) -> Result<World<'s, D>, (Ending, D)>
        requires can { CanPlay (setup_of world) step.now }
        requires size { D.size (disk_of world) ≡ JOURNAL_BYTES }
        ensures plays { IfOk result (λ next. PlaysOn (IsTrusted D.honest D.seen (disk_of world.entry))
            (StandsFor world.entry) (StandsFor next) (setup_of world.entry) (desk_of world.entry) (desk_of next) step.now
            (CutsIn step.now D.size D.honest D.seen D.cuts D.cut_to (disk_of world.entry) (disk_of next))
            (used_of world.entry) (used_of next) (D.seen (disk_of next))
            (λ report. Writes K.written K.puts out.old report (Ok tt) out.new)) }
        ensures setup { IfOk result (λ next. setup_of next ≡ setup_of world.entry) }

        // how the run ends
        ensures ended { IfErr result (λ e. ((e.0 ≡ Ending.Unwritten) × (failed : Failed) × (many : ℕ)
            × (next : Desk) × PlaysOn (IsTrusted D.honest D.seen (disk_of world.entry)) (StandsFor world.entry)
            (Books (setup_of world.entry) D.honest D.seen D.may_leave e.1) (setup_of world.entry) (desk_of world.entry)
            next step.now
            (CutsIn step.now D.size D.honest D.seen D.cuts D.cut_to (disk_of world.entry) e.1) (used_of world.entry)
            many (D.seen e.1) (λ report. Writes K.written K.puts out.old report (Err failed) out.new))
            ⊎ ((why : CrashNo) × (e.0 ≡ Ending.Unplayed why) × Breaks world.entry e.1 why step.now
            × (why ≢ crash_no.Disk
            → CutsIn step.now D.size D.honest D.seen D.cuts D.cut_to (disk_of world.entry) e.1)
            × (out.new ≡ out.old))) }
        ensures memory { IfErr result (λ e. e.0 ≢ Ending.NoMemory) }
        ensures unread { IfErr result (λ e. e.0 ≢ Ending.Unread) }
        ensures lost_cause { IfErr result (λ e. status_of e.0 ≡ Status.JournalLost
            → Rose (D.cuts (disk_of world.entry)) (D.cuts e.1)) }

        // the sink and the disk
        ensures sink { Serves K.written K.faults out.old out.new
            (MatchResult result (λ _. ⊥) (λ e. e.0 ≡ Ending.Unwritten)) }
        ensures lasts { MatchResult result
            (λ next. LastsIn step.now D.size D.honest D.seen D.cuts (disk_of world.entry) (disk_of next))
            (λ e. LastsIn step.now D.size D.honest D.seen D.cuts (disk_of world.entry) e.1) }
        ensures disk_cause { MatchResult result
            (λ next. D.faults (disk_of world.entry) ≤ D.faults (disk_of next))
            (λ e. Caused (D.faults (disk_of world.entry)) (D.faults e.1) (status_of e.0 ≡ Status.DiskFault)) }
    {
        match step {
            Step::Next { addr } if world.puts(*addr) => {
                play_step(step, world, &mut self.put, &mut self.line, out)
            }
            Step::Next { .. } => play_step(step, world, &mut self.attempt, &mut self.line, out),
            Step::Command(_) => play_step(step, world, &mut self.command, &mut self.line, out),
            _ => play_step(step, world, &mut self.report, &mut self.line, out),
        }
    }
}

/// Plays a step, whose entries go into the report, and writes them by way of the line; or says how
/// the run ends, and gives the disk back.
#[inline(always)]
fn play_step<'s, K: Sink, D: Disk>(
    step: &Step,
    world: World<'s, D>,
    report: &mut ArrayVec<Entry, 8>,
    line: &mut TextLine,
    out: &mut K,
) -> Result<World<'s, D>, (Ending, D)>
    requires can { CanPlay (setup_of world) step.now }
    requires size { D.size (disk_of world) ≡ JOURNAL_BYTES }
    ensures plays { IfOk result (λ next. PlaysOn (IsTrusted D.honest D.seen (disk_of world.entry))
        (StandsFor world.entry) (StandsFor next) (setup_of world.entry) (desk_of world.entry) (desk_of next) step.now
        (CutsIn step.now D.size D.honest D.seen D.cuts D.cut_to (disk_of world.entry) (disk_of next))
        (used_of world.entry) (used_of next) (D.seen (disk_of next))
        (λ report. Writes K.written K.puts out.old report (Ok tt) out.new)) }
    ensures setup { IfOk result (λ next. setup_of next ≡ setup_of world.entry) }

    // how the run ends
    ensures ended { IfErr result (λ e. ((e.0 ≡ Ending.Unwritten) × (failed : Failed) × (many : ℕ)
        × (next : Desk) × PlaysOn (IsTrusted D.honest D.seen (disk_of world.entry)) (StandsFor world.entry)
        (Books (setup_of world.entry) D.honest D.seen D.may_leave e.1) (setup_of world.entry) (desk_of world.entry)
        next step.now
        (CutsIn step.now D.size D.honest D.seen D.cuts D.cut_to (disk_of world.entry) e.1) (used_of world.entry)
        many (D.seen e.1) (λ report. Writes K.written K.puts out.old report (Err failed) out.new))
        ⊎ ((why : CrashNo) × (e.0 ≡ Ending.Unplayed why) × Breaks world.entry e.1 why step.now
        × (why ≢ crash_no.Disk
        → CutsIn step.now D.size D.honest D.seen D.cuts D.cut_to (disk_of world.entry) e.1)
        × (out.new ≡ out.old))) }
    ensures memory { IfErr result (λ e. e.0 ≢ Ending.NoMemory) }
    ensures unread { IfErr result (λ e. e.0 ≢ Ending.Unread) }
    ensures lost_cause { IfErr result (λ e. status_of e.0 ≡ Status.JournalLost
        → Rose (D.cuts (disk_of world.entry)) (D.cuts e.1)) }

    // the sink and the disk
    ensures sink { Serves K.written K.faults out.old out.new
        (MatchResult result (λ _. ⊥) (λ e. e.0 ≡ Ending.Unwritten)) }
    ensures lasts { MatchResult result
        (λ next. LastsIn step.now D.size D.honest D.seen D.cuts (disk_of world.entry) (disk_of next))
        (λ e. LastsIn step.now D.size D.honest D.seen D.cuts (disk_of world.entry) e.1) }
    ensures disk_cause { MatchResult result
        (λ next. D.faults (disk_of world.entry) ≤ D.faults (disk_of next))
        (λ e. Caused (D.faults (disk_of world.entry)) (D.faults e.1) (status_of e.0 ≡ Status.DiskFault)) }
{
    let world = match world.step(step, report) {
        Ok(world) => world,
        Err((disk, why)) => return Err((Ending::Unplayed(why), disk)),
    };
    match write_entries(out, line, report.as_slice()) {
        Ok(()) => Ok(world),
        Err(Failed) => Err((Ending::Unwritten, world.into_disk())),
    }
}

/// The buffers of a run that each of its lines uses.
#[derive(Drop)]
struct ScriptDesk {
    lines: Lines,
    steps: StepRooms,
    player: StepPlayer,
}

impl ScriptDesk {
    /// Plays the steps of a script, from the line of this number on, each before the next is read.
    fn play_steps<S: Source, K: Sink, D: Disk>(
        &mut self,
        world: World<'_, D>,
        first: u32,
        script: &mut S,
        out: &mut K,
    ) -> (Ending, D)
        requires next { IsNext first (standing_of self.old.lines) }
        requires size { D.size (disk_of world) ≡ JOURNAL_BYTES }
        ensures played { (left0 : Option (List ℕ)) (given : D) → IsReady (D.size given) (D.seen given)
            → Outlasts D.size D.honest D.seen D.cuts given (disk_of world.entry)
            → Going (IsReliable (IsTrusted D.honest D.seen given)) (λ any. desk_of world.entry) left0 (S.left script.old)
            (standing_of self.old.lines).held first (at_steps (setup_of world.entry)) (WorldHolds given world.entry)
            (Wrote K.written K.puts out.old out.old)
            → OfBytes left0 (λ bytes. Played (IsReliable (IsTrusted D.honest D.seen given)) bytes result.0 (S.left script.new)
            (Wrote K.written K.puts out.old out.new) (Broke K.written K.puts out.old out.new)
            (OverCut (disks D.size D.honest D.seen D.may_leave D.cuts D.cut_to given result.1))) }
        ensures memory { result.0 ≢ Ending.NoMemory }
        ensures source { Serves S.left S.faults script.old script.new (result.0 ≡ Ending.Unread) }
        ensures sink { Serves K.written K.faults out.old out.new (result.0 ≡ Ending.Unwritten) }
        ensures disk { DiskServes D.size D.honest D.seen D.cuts D.faults (disk_of world.entry) result.1
            (status_of result.0 ≡ Status.DiskFault) (status_of result.0 ≡ Status.JournalLost) }
    {
        let mut world = world;
        let mut number = first;
        loop {
            let room = match read_step(&mut self.lines, &world, number, script, &mut self.steps) {
                Ok(room) => room,
                Err(why) => return (ending_at(number, why), world.into_disk()),
            };
            let step = self.steps.step(room);
            if is_end(step) {
                return (self.finish(number + 1, script), world.into_disk());
            }
            match self.player.play(step, world, out) {
                Ok(next) => world = next,
                Err(ended) => return ended,
            }
            number += 1;
        }
    }

    /// Ends the steps of a script after its line `end`: the next line has this number.
    fn finish<S: Source>(&mut self, number: u32, script: &mut S) -> Ending
        ensures ended { (setup : Setup) → WithMoreTaken (standing_of self.old.lines).held (S.left script.old)
            (S.left script.new) (EndsAt number setup result (S.left script.new)) }
        ensures of_script { IsOfScript result }
        ensures source { Serves S.left S.faults script.old script.new (result ≡ Ending.Unread) }
    {
        match behind_end(self.lines.line(script)) {
            Ok(()) => Ending::Done,
            Err(why) => ending_at(number, why),
        }
    }
}

/// All that a run has but its machine: the setup of its script, and its buffers.
#[derive(Drop)]
pub struct Bench {
    setup: Setup,
    desk: ScriptDesk,
}

impl Bench {
    /// No device, and empty buffers.
    pub fn new() -> Self
        ensures lines { standing_of result.desk.lines ≡ none_given }
        ensures setup { result.setup ≡ no_devices }
    {
        Bench {
            setup: Setup {
                devices: Devices::new(),
            },
            desk: ScriptDesk {
                lines: Lines::new(),
                steps: StepRooms::new(),
                player: StepPlayer {
                    attempt: ArrayVec::new(),
                    put: ArrayVec::new(),
                    command: ArrayVec::new(),
                    report: ArrayVec::new(),
                    line: TextLine::new(),
                },
            },
        }
    }

    /// Reads the setup of a script, builds its machine over a journal without records, and plays
    /// its steps.
    fn play_script<S: Source, K: Sink, D: Disk>(
        &mut self,
        alloc: Global,
        script: &mut S,
        out: &mut K,
        journal: Journal<D>,
    ) -> (Ending, D)
        requires lines { standing_of self.old.desk.lines ≡ none_given }
        requires setup { self.old.setup ≡ no_devices }
        requires made { IsNewJournal journal }
        ensures played { (given : D) → IsReady (D.size given) (D.seen given)
            → GoesOn D.size D.honest D.seen D.cuts given (journals.disk_of journal)
            → OfBytes (S.left script.old) (λ bytes. Played (IsReliable (IsTrusted D.honest D.seen given)) bytes result.0
            (S.left script.new) (Wrote K.written K.puts out.old out.new) (Broke K.written K.puts out.old out.new)
            (OverCut (disks D.size D.honest D.seen D.may_leave D.cuts D.cut_to given result.1))) }
        ensures memory { result.0 ≡ Ending.NoMemory →
            (out.new ≡ out.old) × TookSetup S.takes S.left script.old script.new }
        ensures source { Serves S.left S.faults script.old script.new (result.0 ≡ Ending.Unread) }
        ensures sink { Serves K.written K.faults out.old out.new (result.0 ≡ Ending.Unwritten) }
        ensures disk { DiskServes D.size D.honest D.seen D.cuts D.faults (journals.disk_of journal) result.1
            (status_of result.0 ≡ Status.DiskFault) (status_of result.0 ≡ Status.JournalLost) }
    {
        let first = match read_setup(&mut self.desk.lines, &mut self.setup, script) {
            Ok(first) => first,
            Err(how) => return (how, journal.into_disk()),
        };
        match World::build(alloc, &self.setup, journal) {
            Ok(world) => self.desk.play_steps(world, first, script, out),
            Err((disk, _)) => (Ending::NoMemory, disk),
        }
    }

    /// Creates the journal on a blank disk, and plays a script over it.
    fn play_over<S: Source, K: Sink, D: Disk>(
        &mut self,
        alloc: Global,
        script: &mut S,
        out: &mut K,
        disk: D,
    ) -> (Ending, D)
        requires lines { standing_of self.old.desk.lines ≡ none_given }
        requires setup { self.old.setup ≡ no_devices }
        ensures played { OfBytes (S.left script.old) (λ bytes. Played (IsReliable (IsTrusted D.honest D.seen disk)) bytes
            result.0 (S.left script.new) (Wrote K.written K.puts out.old out.new)
            (Broke K.written K.puts out.old out.new)
            (OverCut (disks D.size D.honest D.seen D.may_leave D.cuts D.cut_to disk result.1))) }
        ensures memory { result.0 ≡ Ending.NoMemory →
            (out.new ≡ out.old) × TookSetup S.takes S.left script.old script.new }
        ensures source { Serves S.left S.faults script.old script.new (result.0 ≡ Ending.Unread) }
        ensures sink { Serves K.written K.faults out.old out.new (result.0 ≡ Ending.Unwritten) }
        ensures disk { DiskServes D.size D.honest D.seen D.cuts D.faults disk result.1
            (status_of result.0 ≡ Status.DiskFault) (status_of result.0 ≡ Status.JournalLost) }
    {
        match opened(disk) {
            Ok(journal) => self.play_script(alloc, script, out, journal),
            Err(ended) => ended,
        }
    }

    /// Plays a script over a disk, which it gives back, and writes the last line of the run where
    /// its status has one.
    pub fn run<S: Source, K: Sink, D: Disk>(
        &mut self,
        alloc: Global,
        script: &mut S,
        out: &mut K,
        disk: D,
    ) -> (Status, D)
        requires lines { standing_of self.old.desk.lines ≡ none_given }
        requires setup { self.old.setup ≡ no_devices }
        ensures ran { OfBytes (S.left script.old) (λ bytes. Ran bytes result.0 (S.left script.new)
            (Wrote K.written K.puts out.old out.new) (Broke K.written K.puts out.old out.new)
            (disks D.size D.honest D.seen D.may_leave D.cuts D.cut_to disk result.1)
            (Rose (S.faults script.old) (S.faults script.new)) (Rose (D.faults disk) (D.faults result.1))) }
        ensures memory { result.0 ≡ Status.OutOfMemory →
            (out.new ≡ out.old) × TookSetup S.takes S.left script.old script.new }
        ensures other { result.0 ≢ Status.WordsRefused }
        ensures source { Serves S.left S.faults script.old script.new (result.0 ≡ Status.ReadFault) }
        ensures sink { Serves K.written K.faults out.old out.new (result.0 ≡ Status.WriteFault) }
        ensures disk { DiskServes D.size D.honest D.seen D.cuts D.faults disk result.1
            (result.0 ≡ Status.DiskFault) (result.0 ≡ Status.JournalLost) }
    {
        let (how, disk) = self.play_over(alloc, script, out, disk);
        (finish_run(&how, out, &mut self.desk.player.line), disk)
    }
}
