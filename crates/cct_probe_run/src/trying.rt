//! One trial at one device.
ghost use Rattle.std.specs.Prelude.{◌≡◌, [], ◌∷◌, ⊤, List, MatchOption, IfOk, true};
ghost use Rattle.std.specs.List.{Contains};
ghost use Rattle.cct_model_wire.specs.declared.device.Setup.{Setup};
ghost use Rattle.cct_probe_plan.specs.declared.plan.Trial.{Trial};
ghost use Rattle.cct_probe_plan.specs.declared.premise.Common.TheVariants as common;
ghost use Rattle.cct_probe_plan.specs.declared.premise.Premise.TheVariants as premise_of;
ghost use Rattle.cct_probe_run.specs.Doing.{Concludes, IsLacking, RoundCame, RoundsCame, TryCame};
ghost use Rattle.cct_probe_run.specs.Plays.{PlaysOn};
ghost use Rattle.cct_probe_run.specs.Showing.{ShowsIf};
ghost use Rattle.cct_probe_run.specs.declared.bench.Bench.{Bench};

use crate::acting::{Done, act};
use crate::bench::{Bench, Plan, Stop};
use crate::findings::{Findings, Standing, Why};
use crate::person::{Clock, Person};
use crate::telling::{line_of, numbers_of};
use cct_edge::{Sink, Source};
use cct_live_port::Line;
use cct_model_lines::DeviceSetup;
use cct_probe_plan::{Common, Memory, Need, Part, Premise, Trial, Turn};

/// How long the silent read before a message takes, in milliseconds.
const SILENT_MILLIS: u64 = 100;

/// How long answers took.
#[derive(Clone, Copy)]
struct Spans {
    longest: u64,
    sum: u64,
    many: u64,
}

/// Why a trial isn't begun, if it isn't.
fn lacks<L: Line, K: Sink>(bench: &Bench<L, K>, need: Need) -> Option<Why>
    ensures { MatchOption result ⊤ (IsLacking bench.now.leave bench.now.asked need) }
{
    match need {
        Need::Nothing => None,
        Need::Hands if bench.leave.hands => None,
        Need::Hands => Some(Why::Hands),
        Need::Long if !bench.leave.long => Some(Why::Long),
        Need::Long if !bench.leave.hands => Some(Why::Hands),
        Need::Long => None,
        Need::Coins(coins) if bench.may_order(coins) => None,
        Need::Coins(_) => Some(Why::Coins),
    }
}

/// Does a trial at a device, says what it shows, and notes it. It answers whether the device
/// answered.
pub(crate) fn try_out<L: Line, K: Sink, S: Source, C: Clock>(
    bench: &mut Bench<L, K>,
    plan: Plan<'_>,
    person: &mut Person<S>,
    clock: &mut C,
    findings: &mut Findings,
    memory: &mut Memory,
    device: &DeviceSetup,
    told: u8,
    trial: &Trial,
) -> Result<bool, Stop>
    requires of_plan { Contains plan.trials.now trial.now }
    requires there { Contains plan.setup.now.devices device.now }
    ensures plays { PlaysOn L.reads L.writes K.puts plan.entry.setup.now plan.entry.trials.now
        bench.old bench.new }
    ensures came { IfOk result (TryCame L.reads L.writes K.puts plan.entry.setup.now
        plan.entry.trials.now device.now trial.now bench.old bench.new) }
{
    if let Some(why) = lacks(bench, trial.need) {
        findings.note(told, trial.premise, Standing::Untried(why))?;
        return Ok(true);
    }
    tell_begin(bench, told, trial)?;
    let done = go(bench, plan, person, clock, memory, device, told, trial)?;
    conclude(bench, plan, findings, told, trial, done)
}

/// Says that a trial begins.
fn tell_begin<L: Line, K: Sink>(
    bench: &mut Bench<L, K>,
    told: u8,
    trial: &Trial,
) -> Result<(), Stop>
    ensures plays { (setup : Setup) (trials : List Trial) →
        PlaysOn L.reads L.writes K.puts setup trials bench.old bench.new }
{
    bench.tell(&line_of(b"trial", told, &[trial.name]))?;
    if let Need::Coins(coins) = trial.need {
        bench.tell(&numbers_of(b"pays", told, &[u64::from(coins)]))?;
    }
    Ok(())
}

/// Does the rounds of a trial, up to the step that ends it.
fn go<L: Line, K: Sink, S: Source, C: Clock>(
    bench: &mut Bench<L, K>,
    plan: Plan<'_>,
    person: &mut Person<S>,
    clock: &mut C,
    memory: &mut Memory,
    device: &DeviceSetup,
    told: u8,
    trial: &Trial,
) -> Result<Done, Stop>
    requires of_plan { Contains plan.trials.now trial.now }
    requires there { Contains plan.setup.now.devices device.now }
    ensures plays { PlaysOn L.reads L.writes K.puts plan.entry.setup.now plan.entry.trials.now
        bench.old bench.new }
    ensures shows { IfOk result (ShowsIf plan.entry.setup.now (trial.now ∷ []) trial.now.premise
        bench.new.sent.items) }
    ensures came { IfOk result (RoundsCame L.reads L.writes K.puts plan.entry.setup.now
        plan.entry.trials.now device.now trial.now memory.old memory.new bench.old bench.new) }
{
    let mut spans = Spans {
        longest: 0,
        sum: 0,
        many: 0,
    };
    for round in 0..trial.rounds {
        let turn = Turn {
            device,
            told,
            round,
            premise: trial.premise,
            gap: memory.gap,
        };
        let begun = clock.millis();
        match go_round(bench, plan, person, turn, memory, trial)? {
            Done::On => {}
            Done::Broken(premise) => return Ok(Done::Broken(premise)),
            Done::Untried(why) => return Ok(Done::Untried(why)),
        }
        take_span(
            &mut spans,
            clock
                .millis()
                .saturating_sub(begun)
                .saturating_sub(SILENT_MILLIS * u64::from(memory.gap)),
        );
    }
    if trial.part == Part::Timed {
        tell_spans(bench, told, spans)?;
    }
    Ok(Done::On)
}

/// One span more.
fn take_span(spans: &mut Spans, span: u64) {
    spans.longest = spans.longest.max(span);
    spans.sum = spans.sum.saturating_add(span);
    spans.many = spans.many.saturating_add(1);
}

/// Writes the longest span and the mean one.
fn tell_spans<L: Line, K: Sink>(bench: &mut Bench<L, K>, told: u8, spans: Spans) -> Result<(), Stop>
    ensures plays { (setup : Setup) (trials : List Trial) →
        PlaysOn L.reads L.writes K.puts setup trials bench.old bench.new }
{
    let mean = if spans.many == 0 {
        0
    } else {
        spans.sum / spans.many
    };
    bench.tell(&numbers_of(b"time", told, &[spans.longest, mean]))
}

/// Does one round of a trial, up to the step that ends it.
fn go_round<L: Line, K: Sink, S: Source>(
    bench: &mut Bench<L, K>,
    plan: Plan<'_>,
    person: &mut Person<S>,
    turn: Turn<'_>,
    memory: &mut Memory,
    trial: &Trial,
) -> Result<Done, Stop>
    requires of_plan { Contains plan.trials.now trial.now }
    requires there { Contains plan.setup.now.devices turn.device.now }
    ensures plays { PlaysOn L.reads L.writes K.puts plan.entry.setup.now plan.entry.trials.now
        bench.old bench.new }
    ensures shows { IfOk result (ShowsIf plan.entry.setup.now (trial.now ∷ []) turn.entry.premise
        bench.new.sent.items) }
    ensures came { IfOk result (RoundCame L.reads L.writes K.puts plan.entry.setup.now
        plan.entry.trials.now turn.entry.device.now turn.entry.round turn.entry.premise
        trial.now.steps.now memory.old memory.new bench.old bench.new) }
{
    for step in trial.steps {
        match act(bench, plan, person, turn, memory, *step)? {
            Done::On => {}
            Done::Broken(premise) => return Ok(Done::Broken(premise)),
            Done::Untried(why) => return Ok(Done::Untried(why)),
        }
    }
    Ok(Done::On)
}

/// Reports and notes what came of a trial.
fn conclude<L: Line, K: Sink>(
    bench: &mut Bench<L, K>,
    plan: Plan<'_>,
    findings: &mut Findings,
    told: u8,
    trial: &Trial,
    done: Done,
) -> Result<bool, Stop>
    requires of_plan { Contains plan.trials.now trial.now }
    requires shows { ShowsIf plan.setup.now (trial.now ∷ []) trial.now.premise bench.old.sent.items
        done }
    ensures plays { PlaysOn L.reads L.writes K.puts plan.entry.setup.now plan.entry.trials.now
        bench.old bench.new }
    ensures concludes { IfOk result (Concludes L.reads L.writes K.puts plan.entry.setup.now
        plan.entry.trials.now done bench.old bench.new) }
{
    match done {
        Done::On => {
            findings.note(told, trial.premise, Standing::Kept)?;
            Ok(true)
        }
        Done::Untried(why) => {
            findings.note(told, trial.premise, Standing::Untried(why))?;
            Ok(true)
        }
        Done::Broken(premise) => {
            bench.tell_broken(told, premise, trial)?;
            note_broken(findings, told, premise, trial.premise)?;
            Ok(!is_answers(premise))
        }
    }
}

/// Notes that a premise is broken, and that the one that was tried is untried if it is another.
fn note_broken(
    findings: &mut Findings,
    told: u8,
    broken: Premise,
    tried: Premise,
) -> Result<(), Stop> {
    findings.note(told, broken, Standing::Broken)?;
    if broken != tried {
        findings.note(told, tried, Standing::Untried(Why::Silent))?;
    }
    Ok(())
}

/// Whether a premise is that each question is answered.
fn is_answers(premise: Premise) -> bool
    ensures { result ≡ true → premise ≡ premise_of.Common common.Answers }
{
    match premise {
        Premise::Common(Common::Answers) => true,
        Premise::Common(_) => false,
        Premise::Line(_) => false,
        Premise::Taker(_) => false,
        Premise::Hopper(_) => false,
    }
}
