//! One step of a trial.
ghost use Rattle.std.specs.Prelude.{◌≡◌, List, IfOk};
ghost use Rattle.std.specs.List.{Contains};
ghost use Rattle.cct_model_wire.specs.declared.device.Setup.{Setup};
ghost use Rattle.cct_probe_plan.specs.declared.plan.Ask.TheVariants as ask;
ghost use Rattle.cct_probe_plan.specs.Saying.{IsSaid};
ghost use Rattle.cct_probe_plan.specs.declared.plan.Say.{Say};
ghost use Rattle.cct_probe_plan.specs.declared.plan.Say.TheVariants as say;
ghost use Rattle.cct_probe_plan.specs.declared.plan.Step.TheVariants as step_of;
ghost use Rattle.cct_probe_plan.specs.declared.plan.Trial.{Trial};
ghost use Rattle.cct_probe_plan.specs.declared.memory.Memory.{Memory};
ghost use Rattle.cct_model_wire.specs.Exchange.{after_echo};
ghost use Rattle.cct_probe_run.specs.Doing.{StepCame, has_paid, is_paid};
ghost use Rattle.cct_probe_run.specs.Leaving.{Sent};
ghost use Rattle.cct_probe_run.specs.Plays.{IsOfPlan, IsStep, PlaysOn};
ghost use Rattle.cct_probe_run.specs.Showing.{IsOrLate, NamesIf, ShowsIf};
ghost use Rattle.cct_probe_run.specs.declared.bench.Bench.{Bench};

use crate::bench::{Bench, Exchanged, Plan, Stop};
use crate::findings::Why;
use crate::person::Person;
use crate::telling::prompt_of;
use cct_edge::{Sink, Source};
use cct_live_port::Line;
use cct_probe_plan::{
    Act, Ask, Common, Memory, Premise, Say, Shown, Step, Turn, Want, counter_before, judge,
    tried_place,
};
use cct_wire::bare_after_echo;

/// How often a hopper's status is asked at most until it has no coin left to pay.
const MOST_WAITS: u32 = 60;

/// How often an acceptor's events are asked at most until so many more came.
const MOST_SETTLES: u32 = 1000;

/// How often in a row they may be the same until then.
const MOST_SAME: u32 = 50;

/// The header of a hopper's status.
const STATUS: u8 = 166;

/// What came of a step.
#[derive(Clone, Copy, PartialEq, Eq)]
pub(crate) enum Done {
    /// The trial goes on.
    On,
    /// The last exchange shows a premise broken.
    Broken(Premise),
    /// The trial can't go on.
    Untried(Why),
}

/// Does one step at a device.
pub(crate) fn act<L: Line, K: Sink, S: Source>(
    bench: &mut Bench<L, K>,
    plan: Plan<'_>,
    person: &mut Person<S>,
    turn: Turn<'_>,
    memory: &mut Memory,
    step: Step,
) -> Result<Done, Stop>
    requires of_plan { IsStep plan.trials.now step }
    requires there { Contains plan.setup.now.devices turn.device.now }
    ensures plays { PlaysOn L.reads L.writes K.puts plan.entry.setup.now plan.entry.trials.now
        bench.old bench.new }
    ensures shows { (trials : List Trial) → IsStep trials step →
        IfOk result (ShowsIf plan.entry.setup.now trials turn.entry.premise bench.new.sent.items) }
    ensures came { IfOk result (StepCame L.reads L.writes K.puts plan.entry.setup.now
        plan.entry.trials.now turn.entry.device.now turn.entry.round turn.entry.premise step
        memory.old memory.new bench.old bench.new) }
{
    match step {
        Step::Asks { say, want } => ask(bench, plan, turn, memory, say, want),
        Step::Waits => wait(bench, plan, turn),
        Step::Person(act) => prompt(bench, person, turn, act),
        Step::Settles { more } => settle(bench, plan, turn, memory, more),
    }
}

/// Makes one exchange, and says what it shows.
fn ask<L: Line, K: Sink>(
    bench: &mut Bench<L, K>,
    plan: Plan<'_>,
    turn: Turn<'_>,
    memory: &mut Memory,
    say: Say,
    want: Want,
) -> Result<Done, Stop>
    requires of_plan { IsOfPlan plan.trials.now say }
    requires there { Contains plan.setup.now.devices turn.device.now }
    ensures plays { PlaysOn L.reads L.writes K.puts plan.entry.setup.now plan.entry.trials.now
        bench.old bench.new }
    ensures shows { (trials : List Trial) → IsOfPlan trials say →
        IfOk result (ShowsIf plan.entry.setup.now trials turn.entry.premise bench.new.sent.items) }
    ensures came { IfOk result (StepCame L.reads L.writes K.puts plan.entry.setup.now
        plan.entry.trials.now turn.entry.device.now turn.entry.round turn.entry.premise
        (step_of.Asks say want) memory.old memory.new bench.old bench.new) }
{
    match bench.exchange(plan, say, turn) {
        Exchanged::Heard => judged(bench, plan, turn, memory, want),
        Exchanged::NoCoins => Ok(Done::Untried(Why::Coins)),
        Exchanged::Fault => Err(Stop::PortFault),
    }
}

/// Says what the last exchange shows.
fn judged<L: Line, K: Sink>(
    bench: &mut Bench<L, K>,
    plan: Plan<'_>,
    turn: Turn<'_>,
    memory: &mut Memory,
    want: Want,
) -> Result<Done, Stop>
    requires there { Contains plan.setup.now.devices turn.device.now }
    ensures plays { PlaysOn L.reads L.writes K.puts plan.entry.setup.now plan.entry.trials.now
        bench.old bench.new }
    ensures shows { (trials : List Trial) (say : Say) → IsOfPlan trials say →
        IsSaid say plan.entry.setup.now turn.entry.device.now turn.entry.round bench.old.sent.items →
        IfOk result (ShowsIf plan.entry.setup.now trials turn.entry.premise bench.new.sent.items) }
    ensures came { (say : Say) (first : Bench L K) → Sent L.reads L.writes K.puts
        plan.entry.setup.now turn.entry.device.now turn.entry.round say first bench.old →
        IfOk result (StepCame L.reads L.writes K.puts plan.entry.setup.now plan.entry.trials.now
        turn.entry.device.now turn.entry.round turn.entry.premise (step_of.Asks say want) memory.old
        memory.new first bench.new) }
{
    match judge(want, turn, memory, bench.sent(), bench.heard()) {
        Shown::Right => {
            bench.tell_wire(turn.told)?;
            Ok(Done::On)
        }
        Shown::Silence(premise) => {
            bench.tell_wire(turn.told)?;
            listen(bench, plan, turn, Done::Broken(premise))
        }
        Shown::Untold => {
            bench.tell_wire(turn.told)?;
            listen(bench, plan, turn, Done::Untried(Why::Silent))
        }
        Shown::Refused => {
            bench.tell_wire(turn.told)?;
            Ok(Done::Untried(Why::Silent))
        }
        Shown::Broken(premise) => Ok(Done::Broken(premise)),
    }
}

/// Listens once more where no answer came: whether it comes late. If it doesn't, this is what came
/// of the step.
fn listen<L: Line, K: Sink>(
    bench: &mut Bench<L, K>,
    plan: Plan<'_>,
    turn: Turn<'_>,
    silent: Done,
) -> Result<Done, Stop>
    requires there { Contains plan.setup.now.devices turn.device.now }
    requires names { NamesIf turn.premise silent }
    ensures plays { PlaysOn L.reads L.writes K.puts plan.entry.setup.now plan.entry.trials.now
        bench.old bench.new }
    ensures shows { (trials : List Trial) →
        IfOk result (ShowsIf plan.entry.setup.now trials turn.entry.premise bench.new.sent.items) }
    ensures came { IfOk result (IsOrLate silent) }
{
    match bench.exchange(plan, Say::Nothing { at_once: true }, turn) {
        Exchanged::Heard if bench.heard().is_empty() => Ok(silent),
        Exchanged::Heard => Ok(Done::Broken(Premise::Common(Common::Prompt))),
        Exchanged::NoCoins => Ok(Done::Untried(Why::Coins)),
        Exchanged::Fault => Err(Stop::PortFault),
    }
}

/// Asks a hopper for its status until it has no coin left to pay.
fn wait<L: Line, K: Sink>(
    bench: &mut Bench<L, K>,
    plan: Plan<'_>,
    turn: Turn<'_>,
) -> Result<Done, Stop>
    requires of_plan { IsOfPlan plan.trials.now (say.Ask (ask.Plain 166)) }
    requires there { Contains plan.setup.now.devices turn.device.now }
    ensures plays { PlaysOn L.reads L.writes K.puts plan.entry.setup.now plan.entry.trials.now
        bench.old bench.new }
    ensures shows { (trials : List Trial) →
        IfOk result (ShowsIf plan.entry.setup.now trials turn.entry.premise bench.new.sent.items) }
    ensures came { (kept : Memory) → IfOk result (StepCame L.reads L.writes K.puts
        plan.entry.setup.now plan.entry.trials.now turn.entry.device.now turn.entry.round
        turn.entry.premise step_of.Waits kept kept bench.old bench.new) }
{
    let say = Say::Ask(Ask::Plain { header: STATUS });
    let slow = turn.slow();
    for _asked in 0..MOST_WAITS {
        match bench.exchange(plan, say, slow) {
            Exchanged::Heard => {}
            Exchanged::NoCoins => return Ok(Done::Untried(Why::Coins)),
            Exchanged::Fault => return Err(Stop::PortFault),
        }
        let is_silent = !bench.is_answered();
        let is_paid = has_paid(bench);
        bench.tell_wire(turn.told)?;
        if is_silent {
            return listen(
                bench,
                plan,
                turn,
                Done::Broken(Premise::Common(Common::Answers)),
            );
        }
        if is_paid {
            return Ok(Done::On);
        }
    }
    Ok(Done::Untried(Why::Silent))
}

/// Whether the last exchange is a status with no coin left to pay.
fn has_paid<L: Line, K: Sink>(bench: &Bench<L, K>) -> bool
    ensures { result ≡ has_paid (after_echo bench.now.sent.items bench.now.heard.items) }
{
    match bare_after_echo(bench.sent(), bench.heard()) {
        Ok(rest) => is_paid(rest),
        Err(_) => false,
    }
}

/// Whether bytes are a status with no coin left to pay: its second data byte is 0.
fn is_paid(rest: &[u8]) -> bool
    ensures { result ≡ is_paid rest.now }
{
    match rest {
        [_, many, _, header, _, left, ..] => *many == 4 && *header == 0 && *left == 0,
        _ => false,
    }
}

/// Asks an acceptor for its events until so many more came than were kept, or none comes for a while:
/// what a person put in may still be on its way.
fn settle<L: Line, K: Sink>(
    bench: &mut Bench<L, K>,
    plan: Plan<'_>,
    turn: Turn<'_>,
    memory: &Memory,
    more: u16,
) -> Result<Done, Stop>
    requires of_plan { IsOfPlan plan.trials.now (say.Ask ask.Credits) }
    requires there { Contains plan.setup.now.devices turn.device.now }
    ensures plays { PlaysOn L.reads L.writes K.puts plan.entry.setup.now plan.entry.trials.now
        bench.old bench.new }
    ensures shows { (trials : List Trial) →
        IfOk result (ShowsIf plan.entry.setup.now trials turn.entry.premise bench.new.sent.items) }
    ensures came { (kept : Memory) → IfOk result (StepCame L.reads L.writes K.puts
        plan.entry.setup.now plan.entry.trials.now turn.entry.device.now turn.entry.round
        turn.entry.premise (step_of.Settles more) kept kept bench.old bench.new) }
{
    let slow = turn.slow();
    let mut last = None;
    let mut same: u32 = 0;
    for _ in 0..MOST_SETTLES {
        match bench.exchange(plan, Say::Ask(Ask::Credits), slow) {
            Exchanged::Heard => {}
            Exchanged::NoCoins => return Ok(Done::Untried(Why::Coins)),
            Exchanged::Fault => return Err(Stop::PortFault),
        }
        bench.tell_wire(turn.told)?;
        let told = counter_before(more, turn, memory, bench.sent(), bench.heard());
        same = if told == last {
            same.saturating_add(1)
        } else {
            0
        };
        if told.is_none() || same >= MOST_SAME {
            return Ok(Done::On);
        }
        last = told;
    }
    Ok(Done::On)
}

/// Asks a person to do something.
fn prompt<L: Line, K: Sink, S: Source>(
    bench: &mut Bench<L, K>,
    person: &mut Person<S>,
    turn: Turn<'_>,
    act: Act,
) -> Result<Done, Stop>
    ensures plays { (setup : Setup) (trials : List Trial) →
        PlaysOn L.reads L.writes K.puts setup trials bench.old bench.new }
    ensures shows { (setup : Setup) (trials : List Trial) →
        IfOk result (ShowsIf setup trials turn.entry.premise bench.new.sent.items) }
    ensures came { (setup : Setup) (trials : List Trial) (kept : Memory) → IfOk result
        (StepCame L.reads L.writes K.puts setup trials turn.entry.device.now turn.entry.round
        turn.entry.premise (step_of.Person act) kept kept bench.old bench.new) }
{
    let body = &turn.device.body;
    bench.tell(&prompt_of(act, turn.told, body.is_bill(), tried_place(body)))?;
    if person.has_done() {
        Ok(Done::On)
    } else {
        Ok(Done::Untried(Why::Skipped))
    }
}
