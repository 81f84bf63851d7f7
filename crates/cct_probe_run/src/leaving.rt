//! Devices are left as they may stay: for a while after each trial, and on each way out.
ghost use Rattle.std.specs.Prelude.{◌≡◌, ◌&&◌, [], ◌∷◌};
ghost use Rattle.std.specs.List.{Contains};
ghost use Rattle.cct_model_wire.specs.declared.device.DeviceSetup.{DeviceSetup};
ghost use Rattle.cct_probe_plan.specs.Closing.{all_said, closes, closing, is_for, said_in};
ghost use Rattle.cct_probe_plan.specs.declared.plan.Step.{Step};
ghost use Rattle.cct_probe_plan.specs.declared.plan.Trial.{Trial};
ghost use Rattle.cct_probe_run.specs.Leaving.{Leaves, OrderNone, Rests, Sends};
ghost use Rattle.cct_probe_run.specs.Plays.{IsNoOrder, IsOfPlan, IsStep, PlaysOn};
ghost use Rattle.cct_probe_run.specs.declared.bench.Bench.{Bench};

use crate::bench::{Bench, Exchanged, Plan, Stop};
use cct_edge::Sink;
use cct_live_port::Line;
use cct_model_lines::DeviceSetup;
use cct_probe_plan::{Ending, Say, Step, Trial, Turn};

/// Leaves each device as it may stay, whatever it answers.
pub(crate) fn leave<L: Line, K: Sink>(bench: &mut Bench<L, K>, plan: Plan<'_>) -> Result<(), Stop>
    ensures plays { PlaysOn L.reads L.writes K.puts plan.entry.setup.now plan.entry.trials.now
        bench.old bench.new }
    ensures leaves { Leaves L.reads L.writes K.puts plan.entry.setup.now plan.entry.trials.now
        plan.entry.setup.now.devices bench.old bench.new }
{
    leave_each(bench, plan, plan.setup.devices.as_slice())
}

/// Leaves each of these devices.
fn leave_each<L: Line, K: Sink>(
    bench: &mut Bench<L, K>,
    plan: Plan<'_>,
    devices: &[DeviceSetup],
) -> Result<(), Stop>
    requires there { (device : DeviceSetup) → Contains devices.now device →
        Contains plan.setup.now.devices device }
    ensures plays { PlaysOn L.reads L.writes K.puts plan.entry.setup.now plan.entry.trials.now
        bench.old bench.new }
    ensures leaves { Leaves L.reads L.writes K.puts plan.entry.setup.now plan.entry.trials.now
        devices.now bench.old bench.new }
{
    match devices {
        [] => Ok(()),
        [device, devices @ ..] => {
            let left = close(bench, plan, device, Ending::Run, 1);
            let others = leave_each(bench, plan, devices);
            first_stop(left, others)
        }
    }
}

/// The first of two stops.
fn first_stop(first: Result<(), Stop>, second: Result<(), Stop>) -> Result<(), Stop> {
    match first {
        Ok(()) => second,
        Err(stop) => Err(stop),
    }
}

/// Does what the plan has for the end of a trial, or of all, whatever comes.
pub(crate) fn close<L: Line, K: Sink>(
    bench: &mut Bench<L, K>,
    plan: Plan<'_>,
    device: &DeviceSetup,
    ending: Ending,
    gap: u16,
) -> Result<(), Stop>
    requires there { Contains plan.setup.now.devices device.now }
    ensures plays { PlaysOn L.reads L.writes K.puts plan.entry.setup.now plan.entry.trials.now
        bench.old bench.new }
    ensures sends { OrderNone (closing ending device.now.body plan.entry.trials.now) →
        Sends L.reads L.writes K.puts plan.entry.setup.now device.now 0
        (closing ending device.now.body plan.entry.trials.now) bench.old bench.new }
{
    close_all(bench, plan, device, ending, gap, plan.trials)
}

/// Does what these trials have for it.
#[tactic(auto, using(crate::proofs::Sending::none_closes))]
fn close_all<L: Line, K: Sink>(
    bench: &mut Bench<L, K>,
    plan: Plan<'_>,
    device: &DeviceSetup,
    ending: Ending,
    gap: u16,
    trials: &[Trial],
) -> Result<(), Stop>
    requires of_plan { (trial : Trial) → Contains trials.now trial →
        Contains plan.trials.now trial }
    requires there { Contains plan.setup.now.devices device.now }
    ensures plays { PlaysOn L.reads L.writes K.puts plan.entry.setup.now plan.entry.trials.now
        bench.old bench.new }
    ensures sends { OrderNone (closing ending device.now.body trials.now) →
        Sends L.reads L.writes K.puts plan.entry.setup.now device.now 0
        (closing ending device.now.body trials.now) bench.old bench.new }
{
    match trials {
        [] => Ok(()),
        [trial, trials @ ..] => {
            if is_closing(trial, ending, device) {
                let closed = close_by(bench, plan, device, gap, trial);
                let others = close_all(bench, plan, device, ending, gap, trials);
                first_stop(closed, others)
            } else {
                close_all(bench, plan, device, ending, gap, trials)
            }
        }
    }
}

/// Whether a trial is done at a device where this ends.
fn is_closing(trial: &Trial, ending: Ending, device: &DeviceSetup) -> bool
    ensures { result ≡ (closes ending trial.now.part && is_for trial.now.who device.now.body) }
{
    trial.part.closes(ending) && trial.who.has(&device.body)
}

/// Makes the exchanges of a trial, whatever comes.
fn close_by<L: Line, K: Sink>(
    bench: &mut Bench<L, K>,
    plan: Plan<'_>,
    device: &DeviceSetup,
    gap: u16,
    trial: &Trial,
) -> Result<(), Stop>
    requires of_plan { Contains plan.trials.now trial.now }
    requires there { Contains plan.setup.now.devices device.now }
    ensures plays { PlaysOn L.reads L.writes K.puts plan.entry.setup.now plan.entry.trials.now
        bench.old bench.new }
    ensures sends { OrderNone (all_said trial.now.steps.now) →
        Sends L.reads L.writes K.puts plan.entry.setup.now device.now 0 (all_said trial.now.steps.now)
        bench.old bench.new }
{
    let turn = Turn {
        device,
        told: device.addr,
        round: 0,
        premise: trial.premise,
        gap,
    };
    close_steps(bench, plan, turn, trial.steps)
}

/// Makes the exchanges of these steps, whatever comes.
fn close_steps<L: Line, K: Sink>(
    bench: &mut Bench<L, K>,
    plan: Plan<'_>,
    turn: Turn<'_>,
    steps: &[Step],
) -> Result<(), Stop>
    requires of_plan { (this : Step) → Contains steps.now this → IsStep plan.trials.now this }
    requires there { Contains plan.setup.now.devices turn.device.now }
    ensures plays { PlaysOn L.reads L.writes K.puts plan.entry.setup.now plan.entry.trials.now
        bench.old bench.new }
    ensures sends { OrderNone (all_said steps.now) →
        Sends L.reads L.writes K.puts plan.entry.setup.now turn.entry.device.now turn.entry.round
        (all_said steps.now) bench.old bench.new }
{
    match steps {
        [] => Ok(()),
        [step, steps @ ..] => {
            let closed = close_step(bench, plan, turn, *step);
            let others = close_steps(bench, plan, turn, steps);
            first_stop(closed, others)
        }
    }
}

/// Makes the exchange of a step, if it has one.
fn close_step<L: Line, K: Sink>(
    bench: &mut Bench<L, K>,
    plan: Plan<'_>,
    turn: Turn<'_>,
    step: Step,
) -> Result<(), Stop>
    requires of_plan { IsStep plan.trials.now step }
    requires there { Contains plan.setup.now.devices turn.device.now }
    ensures plays { PlaysOn L.reads L.writes K.puts plan.entry.setup.now plan.entry.trials.now
        bench.old bench.new }
    ensures sends { OrderNone (said_in step) →
        Sends L.reads L.writes K.puts plan.entry.setup.now turn.entry.device.now turn.entry.round
        (said_in step) bench.old bench.new }
{
    match step {
        Step::Asks { say, .. } => close_once(bench, plan, turn, say),
        Step::Waits => Ok(()),
        Step::Person(_) => Ok(()),
        Step::Settles { .. } => Ok(()),
    }
}

/// Makes one exchange, whatever comes. Where nothing comes it listens once more, so that a late
/// reply isn't heard in the next.
fn close_once<L: Line, K: Sink>(
    bench: &mut Bench<L, K>,
    plan: Plan<'_>,
    turn: Turn<'_>,
    say: Say,
) -> Result<(), Stop>
    requires of_plan { IsOfPlan plan.trials.now say }
    requires there { Contains plan.setup.now.devices turn.device.now }
    ensures plays { PlaysOn L.reads L.writes K.puts plan.entry.setup.now plan.entry.trials.now
        bench.old bench.new }
    ensures sends { IsNoOrder say → Sends L.reads L.writes K.puts plan.entry.setup.now
        turn.entry.device.now turn.entry.round (say ∷ []) bench.old bench.new }
{
    if bench.exchange(plan, say, turn) == Exchanged::Fault {
        return Err(Stop::PortFault);
    }
    tell_closed(bench, plan, turn)
}

/// Writes the last exchange, and listens once more where nothing came.
fn tell_closed<L: Line, K: Sink>(
    bench: &mut Bench<L, K>,
    plan: Plan<'_>,
    turn: Turn<'_>,
) -> Result<(), Stop>
    requires there { Contains plan.setup.now.devices turn.device.now }
    ensures rests { (first : Bench L K) →
        Rests L.reads L.writes K.puts plan.entry.setup.now first bench.old →
        Rests L.reads L.writes K.puts plan.entry.setup.now first bench.new }
{
    let put = bench.tell_wire(turn.told);
    if bench.is_answered() {
        return put;
    }
    let listening = Plan {
        setup: plan.setup,
        trials: &[],
    };
    if bench.exchange(listening, Say::Nothing { at_once: true }, turn) == Exchanged::Fault {
        return Err(Stop::PortFault);
    }
    put
}
