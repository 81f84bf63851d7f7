//! The world of a script: the host, the bus with its devices, and the operator's desk.
ghost use Rattle.std.specs.Prelude.{◌≡◌, [], IfErr, IfOk, IsTrue, MatchResult, false, is_some};
ghost use Rattle.cct_model.specs.Change.{clear_desk};
ghost use Rattle.cct_model.specs.Legal.{due_at, is_played};
ghost use Rattle.cct_model.specs.Script.{IsInRange, is_known};
ghost use Rattle.cct_model.specs.Setup.{IsSoundSetup};
ghost use Rattle.std.specs.Prelude.{List};
ghost use Rattle.cct_model.specs.lines.entry.Entry.{Entry};
ghost use Rattle.cct_model.specs.Money.{totals};
ghost use Rattle.cct_disk.specs.Disk.{IsTrusted};
ghost use Rattle.cct_journal.specs.Journal as journals;
ghost use Rattle.cct_host.specs.OnDisk.{KeepsRecords};
ghost use Rattle.cct_world.specs.Machine as machines;

use crate::WorldNo;
use crate::machine::Machine;
use arrayvec::ArrayVec;
use cct_bus::Bus;
use cct_disk::Disk;
use cct_host::Host;
use cct_host_change::Desk;
use cct_journal::Journal;
use cct_model::{Entry, Setup, Step, Totals};
use std::alloc::{AllocError, AllocFailed, Global};

/// The machine that a script plays on: the devices on their wire, the host over its journal, and
/// the operator's desk. Its contracts describe it by the transcript of all that happened on it,
/// newest entry first, and by the operator's session and trays.
#[derive(Drop)]
pub struct World<'s, D: Disk> {
    machine: Box<Machine<'s, D>>,
    ghost whole: { machines.has_failed machine.value ≡ false },
}

impl<'s, D: Disk> World<'s, D> {
    ghost use Rattle.cct_world.specs.World.{StandsFor, StepPlayed, StepUnplayed, desk_of, disk_of};
    ghost use Rattle.cct_world.specs.World.{setup_of};

    /// A machine with the devices of a setup, on which nothing has happened, over a journal without
    /// records. This takes all memory that the machine ever has.
    ///
    /// Fails only where there is no memory for it, and gives the disk back.
    pub fn build(
        alloc: Global,
        setup: &'s Setup,
        journal: Journal<D>,
    ) -> Result<World<'s, D>, (D, AllocError)>
        requires sound { IsSoundSetup setup.now }
        requires unused { journals.used_of journal ≡ 0 }
        requires whole { journals.has_failed journal ≡ false }
        ensures setup { IfOk result (λ world. setup_of world ≡ setup.now) }
        ensures disk { MatchResult result (λ world. disk_of world ≡ journals.disk_of journal)
            (λ e. e.0 ≡ journals.disk_of journal) }
        ensures fresh { IfOk result (λ world. (IsTrusted D.honest D.seen (journals.disk_of journal)
            → KeepsRecords setup.now D.honest D.seen D.may_leave (journals.disk_of journal) (journals.place_of journal) [])
            → StandsFor world []) }
        ensures desk { IfOk result (λ world. desk_of world ≡ clear_desk setup.now) }
    {
        let bus = match Bus::new(alloc, setup) {
            Ok(bus) => bus,
            Err(error) => return Err((journal.into_disk(), error)),
        };
        let desk = match Desk::new(alloc, setup) {
            Ok(desk) => desk,
            Err(error) => return Err((journal.into_disk(), error)),
        };
        let host = match Host::start(setup, journal) {
            Ok(host) => host,
            Err(_) => unreachable!(),
        };
        match Box::new(alloc, Machine { host, bus, desk }) {
            Ok(machine) => Ok(World { machine }),
            Err(AllocFailed { value }) => Err((value.into_disk(), AllocError)),
        }
    }

    /// Whether the setup has the device that a step names, and of the kind that the step needs.
    // Inlined: where a step is known to be a `next`, nothing is looked at.
    #[inline(always)]
    pub fn knows(&self, step: &Step) -> bool
        ensures { result ≡ is_known (setup_of self.now) step.now }
    {
        self.machine.knows(step)
    }

    /// Whether the job at an address is about to put a record.
    pub fn puts(&self, addr: u8) -> bool
        ensures { (past : List Entry) → StandsFor self.now past → result
            ≡ is_some (due_at (setup_of self.now) past addr) }
    {
        self.machine.puts(addr)
    }

    /// Plays one step; the report is replaced by the entries of the step.
    ///
    /// Fails only if a call of the disk failed, in a `next` whose job had a record to put or in a
    /// power cut, or if a power cut left another journal than was there. Then the report is empty,
    /// the world is gone, and the disk is given back: whether the record is there is open.
    // Inlined: its frame has room for several wide entries, and to lay it out at each step costs
    // more than a step needs.
    #[inline(always)]
    pub fn step(
        self,
        step: &Step,
        report: &mut ArrayVec<Entry, 8>,
    ) -> Result<World<'s, D>, (D, WorldNo)>
        requires known { IsTrue (is_known (setup_of self) step.now) }
        requires in_range { IsInRange step.now }
        requires played { IsTrue (is_played step.now) }
        ensures played { IfOk result (λ world. StepPlayed self.entry world step.now
            report.new.items) }
        ensures unplayed { IfErr result (λ e. StepUnplayed self.entry e.0 e.1 step.now
            report.new.items) }
    {
        let World { mut machine } = self;
        match machine.step(step, report) {
            Ok(()) => Ok(World { machine }),
            Err(why) => Err((Box::into_inner(machine).into_disk(), why)),
        }
    }

    /// What is available, reserved, paid and sold, in units of value.
    pub fn totals(&self) -> Totals
        ensures { (past : List Entry) → StandsFor self.now past → result
            ≡ totals (setup_of self.now) past }
    {
        self.machine.totals()
    }

    /// The disk.
    pub fn into_disk(self) -> D
        ensures { result ≡ disk_of self.entry }
    {
        let World { machine } = self;
        Box::into_inner(machine).into_disk()
    }
}
