//! All trials at all devices.
ghost use Rattle.std.specs.Prelude.{◌≡◌, ◌↔◌, ◌&&◌, IfOk, Ok, true, false};
ghost use Rattle.std.specs.List.{Contains};
ghost use Rattle.cct_model_wire.specs.declared.device.Setup.{Setup};
ghost use Rattle.cct_probe_plan.specs.Closing.{is_for};
ghost use Rattle.cct_probe_plan.specs.Tries.{is_at_device, is_of_line};
ghost use Rattle.cct_probe_plan.specs.declared.plan.Trial.{Trial};
ghost use Rattle.cct_probe_run.specs.Doing.{AllDone, AllTried, Came, EachTried, IsHere};
ghost use Rattle.cct_probe_run.specs.Doing.{LineTried, NextTried, TryCame, has_heard};
ghost use Rattle.cct_probe_run.specs.Leaving.{EndsLeft};
ghost use Rattle.cct_probe_run.specs.Plays.{Plays, PlaysOn};
ghost use Rattle.cct_probe_run.specs.declared.bench.Bench.{Bench};

use crate::bench::{Bench, Plan, Stop};
use crate::findings::{Findings, Standing, Why};
use crate::leaving::{close, leave};
use crate::person::{Clock, Person};
use crate::summary::{tell_coins, tell_device, tell_promises};
use crate::trying::try_out;
use cct_edge::{Sink, Source};
use cct_live_port::Line;
use cct_model_lines::DeviceSetup;
use cct_probe_plan::{Common, Ending, Memory, Part, Premise, Trial};

const ALONE: Premise = Premise::Common(Common::Alone);

const ONCE: Premise = Premise::Common(Common::Once);

const PROMPT: Premise = Premise::Common(Common::Prompt);

/// How all trials ended.
#[derive(Clone, Copy, PartialEq, Eq)]
pub enum Ended {
    /// No premise was shown broken.
    Kept,
    /// Some was.
    Broken,
    /// No device answered.
    NothingHeard,
}

/// Does the trials of the plan at each device of the setup, one after the other, then those of the
/// line; and reports which promises hold. However that ends, each device is left at last as it may
/// stay.
pub fn run<L: Line, K: Sink, S: Source, C: Clock>(
    bench: &mut Bench<L, K>,
    plan: Plan<'_>,
    person: &mut Person<S>,
    clock: &mut C,
) -> Result<Ended, Stop>
    ensures plays { (first : Bench L K) →
        Plays L.reads L.writes K.puts plan.entry.setup.now plan.entry.trials.now first bench.old →
        Plays L.reads L.writes K.puts plan.entry.setup.now plan.entry.trials.now first bench.new }
    // At last each device is sent what the plan has for its end, also where the port fails, and
    // nothing else to anybody.
    ensures leaves { EndsLeft L.reads L.writes K.puts plan.entry.setup.now plan.entry.trials.now
        bench.old bench.new }
    // Each trial of the plan was done at each device that it is for: all its rounds and steps were
    // asked, and each answer is right; or a premise was reported as broken; or this is why it
    // wasn't.
    ensures tries { IfOk result (λ ended. AllDone L.reads L.writes K.puts plan.entry.setup.now
        plan.entry.trials.now (has_heard ended) bench.old bench.new) }
    // Whether a premise was reported as broken.
    ensures kept { result ≡ Ok Ended.Kept → bench.new.broken.any ≡ false }
    ensures broken { result ≡ Ok Ended.Broken → bench.new.broken.any ≡ true }
{
    let tried = try_all(bench, plan, person, clock);
    let left = leave(bench, plan);
    let is_heard = tried?;
    left?;
    Ok(ending_of(is_heard, bench.broken.any))
}

/// How trials ended, by whether some device answered and some premise was reported as broken.
fn ending_of(is_heard: bool, is_broken: bool) -> Ended
    ensures broken { result ≡ Ended.Broken ↔ ((is_heard ≡ true) × (is_broken ≡ true)) }
    ensures kept { result ≡ Ended.Kept ↔ ((is_heard ≡ true) × (is_broken ≡ false)) }
    ensures heard { has_heard result ≡ is_heard }
{
    if !is_heard {
        Ended::NothingHeard
    } else if is_broken {
        Ended::Broken
    } else {
        Ended::Kept
    }
}

/// Does all trials, and says which promises hold. It answers whether some device answered.
fn try_all<L: Line, K: Sink, S: Source, C: Clock>(
    bench: &mut Bench<L, K>,
    plan: Plan<'_>,
    person: &mut Person<S>,
    clock: &mut C,
) -> Result<bool, Stop>
    ensures plays { PlaysOn L.reads L.writes K.puts plan.entry.setup.now plan.entry.trials.now
        bench.old bench.new }
    ensures tries { IfOk result (λ heard. AllDone L.reads L.writes K.puts plan.entry.setup.now
        plan.entry.trials.now heard bench.old bench.new) }
{
    let mut findings = Findings::new();
    let is_heard = try_devices(bench, plan, person, clock, &mut findings)?;
    match plan.setup.devices.as_slice().first() {
        Some(device) if is_heard => {
            run_line(bench, plan, person, clock, &mut findings, device)?;
            tell_promises(bench, &findings)?;
            Ok(true)
        }
        Some(_) => Ok(false),
        None => Ok(false),
    }
}

/// Does the trials of each device, one after the other. It answers whether some device answered.
fn try_devices<L: Line, K: Sink, S: Source, C: Clock>(
    bench: &mut Bench<L, K>,
    plan: Plan<'_>,
    person: &mut Person<S>,
    clock: &mut C,
    findings: &mut Findings,
) -> Result<bool, Stop>
    ensures plays { PlaysOn L.reads L.writes K.puts plan.entry.setup.now plan.entry.trials.now
        bench.old bench.new }
    ensures tried { IfOk result (λ _. EachTried L.reads L.writes K.puts plan.entry.setup.now
        plan.entry.trials.now plan.entry.setup.now.devices bench.old bench.new) }
{
    let mut is_heard = false;
    for device in plan.setup.devices.as_slice() {
        let answers = run_device(bench, plan, person, clock, findings, device)?;
        is_heard = is_heard || answers;
    }
    Ok(is_heard)
}

/// What is known of whether a device answers.
#[derive(Clone, Copy)]
pub(crate) enum Presence {
    /// No trial of it was begun.
    Unknown,
    /// It answers.
    Here,
    /// It answered its first trial, and fell silent since.
    Gone,
    /// It didn't answer its first trial.
    Absent,
}

/// Does the trials of a device. It answers whether the device answered.
fn run_device<L: Line, K: Sink, S: Source, C: Clock>(
    bench: &mut Bench<L, K>,
    plan: Plan<'_>,
    person: &mut Person<S>,
    clock: &mut C,
    findings: &mut Findings,
    device: &DeviceSetup,
) -> Result<bool, Stop>
    requires there { Contains plan.setup.now.devices device.now }
    ensures plays { PlaysOn L.reads L.writes K.puts plan.entry.setup.now plan.entry.trials.now
        bench.old bench.new }
    ensures tried { IfOk result (λ _. AllTried L.reads L.writes K.puts plan.entry.setup.now
        plan.entry.trials.now device.now plan.entry.trials.now bench.old bench.new) }
{
    let mut memory = Memory::new();
    let mut presence = Presence::Unknown;
    for trial in plan.trials {
        presence = try_next(
            bench,
            plan,
            person,
            clock,
            findings,
            &mut memory,
            device,
            trial,
            presence,
        )?;
    }
    note_always(findings, device.addr, is_here(presence))?;
    tell_device(bench, findings, device.addr)?;
    tell_coins(bench, device, &memory)?;
    Ok(was_here(presence))
}

/// Does the next trial at a device, if it is for that and that answers.
fn try_next<L: Line, K: Sink, S: Source, C: Clock>(
    bench: &mut Bench<L, K>,
    plan: Plan<'_>,
    person: &mut Person<S>,
    clock: &mut C,
    findings: &mut Findings,
    memory: &mut Memory,
    device: &DeviceSetup,
    trial: &Trial,
    presence: Presence,
) -> Result<Presence, Stop>
    requires of_plan { Contains plan.trials.now trial.now }
    requires there { Contains plan.setup.now.devices device.now }
    ensures plays { PlaysOn L.reads L.writes K.puts plan.entry.setup.now plan.entry.trials.now
        bench.old bench.new }
    ensures tried { (first : Bench L K) →
        Plays L.reads L.writes K.puts plan.entry.setup.now plan.entry.trials.now first bench.old →
        IsHere L.reads L.writes K.puts plan.entry.setup.now plan.entry.trials.now device.now
        presence first bench.old → IfOk result (NextTried L.reads L.writes K.puts
        plan.entry.setup.now plan.entry.trials.now device.now trial.now first bench.new) }
{
    if !is_of_device(trial, device) {
        return Ok(presence);
    }
    match presence {
        Presence::Absent => {
            note_absent(findings, device, trial)?;
            Ok(Presence::Absent)
        }
        Presence::Gone => {
            note_absent(findings, device, trial)?;
            Ok(Presence::Gone)
        }
        Presence::Here => {
            if try_and_close(bench, plan, person, clock, findings, memory, device, trial)? {
                Ok(Presence::Here)
            } else {
                Ok(Presence::Gone)
            }
        }
        Presence::Unknown => {
            if try_and_close(bench, plan, person, clock, findings, memory, device, trial)? {
                Ok(Presence::Here)
            } else {
                Ok(Presence::Absent)
            }
        }
    }
}

/// Notes that a trial isn't done, since the device doesn't answer.
fn note_absent(findings: &mut Findings, device: &DeviceSetup, trial: &Trial) -> Result<(), Stop> {
    findings.note(device.addr, trial.premise, Standing::Untried(Why::Absent))
}

/// Whether a device answers, as far as is known.
fn is_here(presence: Presence) -> bool {
    match presence {
        Presence::Unknown | Presence::Here => true,
        Presence::Gone | Presence::Absent => false,
    }
}

/// Whether it ever answered, as far as is known.
fn was_here(presence: Presence) -> bool {
    match presence {
        Presence::Unknown | Presence::Here | Presence::Gone => true,
        Presence::Absent => false,
    }
}

/// Does a trial at a device, and leaves that as it may stay for a while. It answers whether the
/// device answered either.
fn try_and_close<L: Line, K: Sink, S: Source, C: Clock>(
    bench: &mut Bench<L, K>,
    plan: Plan<'_>,
    person: &mut Person<S>,
    clock: &mut C,
    findings: &mut Findings,
    memory: &mut Memory,
    device: &DeviceSetup,
    trial: &Trial,
) -> Result<bool, Stop>
    requires of_plan { Contains plan.trials.now trial.now }
    requires there { Contains plan.setup.now.devices device.now }
    ensures plays { PlaysOn L.reads L.writes K.puts plan.entry.setup.now plan.entry.trials.now
        bench.old bench.new }
    ensures came { IfOk result (TryCame L.reads L.writes K.puts plan.entry.setup.now
        plan.entry.trials.now device.now trial.now bench.old bench.new) }
{
    let answered = try_out(
        bench,
        plan,
        person,
        clock,
        findings,
        memory,
        device,
        device.addr,
        trial,
    )?;
    take_gap(memory, findings, device.addr, trial.premise);
    close(bench, plan, device, Ending::Trial, memory.gap)?;
    Ok(answered || bench.is_answered())
}

/// Takes the gap before messages over from what was found, once it was tried whether a second device
/// answers.
fn take_gap(memory: &mut Memory, findings: &Findings, addr: u8, tried: Premise) {
    if tried == ALONE {
        memory.gap = gap_after(findings, addr);
    }
}

/// How many silent reads stand before each message to a device from now on: one where a reply may
/// come late or twice.
fn gap_after(findings: &Findings, addr: u8) -> u16 {
    if findings.is_broken(addr, ALONE)
        || findings.is_broken(addr, ONCE)
        || findings.is_broken(addr, PROMPT)
    {
        1
    } else {
        0
    }
}

/// Notes the premises for which there is no trial, since each exchange may show them broken.
fn note_always(findings: &mut Findings, addr: u8, is_there: bool) -> Result<(), Stop> {
    let standing = if is_there {
        Standing::Kept
    } else {
        Standing::Untried(Why::Absent)
    };
    findings.note(addr, PROMPT, standing)?;
    findings.note(addr, Premise::Common(Common::Form), standing)
}

/// Whether a trial is one of a device, and for this one.
fn is_of_device(trial: &Trial, device: &DeviceSetup) -> bool
    ensures { result ≡ (is_at_device trial.now.part && is_for trial.now.who device.now.body) }
{
    is_at_device(trial.part) && trial.who.has(&device.body)
}

/// Whether a trial is done at each device that it is for.
fn is_at_device(part: Part) -> bool
    ensures { result ≡ is_at_device part }
{
    match part {
        Part::Device => true,
        Part::Timed => true,
        Part::Line => false,
        Part::Closing => false,
        Part::Leaving => false,
    }
}

/// Whether it is done once, for the line.
fn is_of_line(part: Part) -> bool
    ensures { result ≡ is_of_line part }
{
    match part {
        Part::Device => false,
        Part::Timed => false,
        Part::Line => true,
        Part::Closing => false,
        Part::Leaving => false,
    }
}

/// Does the trials of the line.
fn run_line<L: Line, K: Sink, S: Source, C: Clock>(
    bench: &mut Bench<L, K>,
    plan: Plan<'_>,
    person: &mut Person<S>,
    clock: &mut C,
    findings: &mut Findings,
    device: &DeviceSetup,
) -> Result<(), Stop>
    requires there { Contains plan.setup.now.devices device.now }
    ensures plays { PlaysOn L.reads L.writes K.puts plan.entry.setup.now plan.entry.trials.now
        bench.old bench.new }
    ensures tried { IfOk result (λ _. LineTried L.reads L.writes K.puts plan.entry.setup.now
        plan.entry.trials.now device.now plan.entry.trials.now bench.old bench.new) }
{
    let mut memory = Memory::new();
    for trial in plan.trials {
        try_on_line(
            bench,
            plan,
            person,
            clock,
            findings,
            &mut memory,
            device,
            trial,
        )?;
    }
    tell_device(bench, findings, 0)
}

/// Does a trial, if it is of the line.
fn try_on_line<L: Line, K: Sink, S: Source, C: Clock>(
    bench: &mut Bench<L, K>,
    plan: Plan<'_>,
    person: &mut Person<S>,
    clock: &mut C,
    findings: &mut Findings,
    memory: &mut Memory,
    device: &DeviceSetup,
    trial: &Trial,
) -> Result<(), Stop>
    requires of_plan { Contains plan.trials.now trial.now }
    requires there { Contains plan.setup.now.devices device.now }
    ensures plays { PlaysOn L.reads L.writes K.puts plan.entry.setup.now plan.entry.trials.now
        bench.old bench.new }
    ensures tried { IfOk result (λ _. is_of_line trial.now.part ≡ true → Came L.reads L.writes
        K.puts plan.entry.setup.now plan.entry.trials.now device.now trial.now bench.old bench.new) }
{
    if is_of_line(trial.part) {
        try_out(
            bench, plan, person, clock, findings, memory, device, 0, trial,
        )?;
    }
    Ok(())
}
