//! The job that a command begins.
ghost use Rattle.std.specs.Prelude.{◌≡◌, ◌<◌, ◌^◌, ℕ, List, [], Some, None, IsTrue, is_some, true};
ghost use Rattle.std.specs.Prelude.{false};
ghost use Rattle.std.specs.Option.{option_map};
ghost use Rattle.cct_model.specs.lines.command.Command.{Command};
ghost use Rattle.cct_model.specs.terms.device.DeviceSetup.{DeviceSetup};
ghost use Rattle.cct_model.specs.declared.judging.OpenOrder.{OpenOrder};
ghost use Rattle.cct_model.specs.Exchange.{device_at};
ghost use Rattle.cct_model.specs.Job.{address_of};
ghost use Rattle.cct_model.specs.Rows.{rows_of, rows_of_sale};
ghost use Rattle.cct_jobs.specs.declared.target.Target.{Target};
ghost use Rattle.cct_jobs.specs.Ahead.{ahead, stage_ahead, table_of};
ghost use Rattle.cct_jobs.specs.Jobs.{IsRunning, Knows, MayBegin, PutsFit, Stands, Suits};
ghost use Rattle.cct_jobs.specs.Jobs.{accepts_of, end_of_job, first_need, is_of_device, need_of};
ghost use Rattle.cct_jobs.specs.Jobs.{runs};
ghost use Rattle.cct_jobs.specs.Sales.{StandsSale};
ghost use Rattle.cct_jobs.specs.Scans.{StandsScan};

use crate::asks::first_try;
use crate::counted::Counted;
use crate::job::Job;
use crate::owed::Owed;
use crate::payout::{Closing, Payout};
use crate::stage::{ReadBy, Recorded, Stage};
use crate::target::target_at;
use cct_epoch::EpochState;
use cct_model::{Command, OpenOrder, Request, Setup};

impl Job {
    /// The job that a command begins at its address, beside the epoch of the acceptor and the open
    /// order of the hopper there. Only a round and a stop look at the epoch, which has to run for
    /// them, and only a settlement at the order, which it closes.
    pub fn begin(
        command: &Command,
        setup: &Setup,
        epoch: &EpochState,
        order: Option<&OpenOrder>,
    ) -> Job
        requires may_begin { MayBegin command.now setup.now.devices epoch.now
            (option_map (λ o. o.now) order) }
        requires life { (o : OpenOrder) → option_map (λ o. o.now) order ≡ Some o → o.life < 2 ^ 24 }
        requires counts { accepts_of epoch.now < 2 ^ 24 }

        // the lines that it represents, none yet: A round and a stop begin with what is recorded of
        // the epoch, and a settlement with the open order, which it never lets a hopper dispense
        // again.
        ensures device { (d : DeviceSetup) → device_at setup.now.devices (address_of command.now) ≡ Some d
            → d.serial < 2 ^ 24 → is_of_device command.now ≡ true
            → Stands d result command.now [] epoch.now (option_map (λ o. o.now) order.entry) }
        ensures scan { command.now ≡ Command.Scan → StandsScan result [] }
        // A sale asks nothing: it puts its record, under its own id and price, and is done then.
        ensures sale { (id price : ℕ) → command.now ≡ Command.Vend id price →
            StandsSale result command.now [] }

        // what it needs first
        ensures needs { need_of result ≡ first_need command.now }
        ensures runs { end_of_job result ≡ None }
        ensures fits { PutsFit result }

        // the rows that it has ahead
        ensures rows { (d : DeviceSetup) → device_at setup.now.devices (address_of command.now) ≡ Some d
            → is_of_device command.now ≡ true → ahead result ≡ rows_of d command.now }
        ensures other_rows { is_of_device command.now ≡ false → ahead result
            ≡ rows_of_sale command.now }
    {
        match *command {
            Command::Scan => Job::ScanCallsSimple { failed: 0 },
            Command::Vend { id, price } => Job::SalePuts { id, price },
            _ => first_try(
                target_at(setup, command.address()),
                first_stage(command, epoch, order),
            ),
        }
    }
}

/// The first row of the job that a command to a device begins, and what the job knows there.
#[tactic(auto, using(crate::proofs::Begins::first_question, crate::proofs::Begins::first_ahead))]
fn first_stage(command: &Command, epoch: &EpochState, order: Option<&OpenOrder>) -> Stage
    requires of_device { is_of_device command.now ≡ true }
    requires may_begin { (devices : List DeviceSetup)
        × MayBegin command.now devices epoch.now (option_map (λ o. o.now) order) }
    requires life { (o : OpenOrder) → option_map (λ o. o.now) order ≡ Some o → o.life < 2 ^ 24 }
    requires counts { accepts_of epoch.now < 2 ^ 24 }
    ensures rows { (device : Target) → stage_ahead device result ≡ table_of device command.now }
    ensures suits { (device : Target) → device.serial < 2 ^ 24 → Suits result device }
    ensures knows { Knows result [] epoch.now (option_map (λ o. o.now) order.entry) }
{
    match *command {
        Command::Start { mask, .. } => Stage::StartResets { mask },
        Command::Round { .. } => Stage::CountsBefore {
            read_by: ReadBy::Round,
            recorded: recorded_in(epoch),
        },
        Command::Stop { .. } => Stage::StopInhibits {
            recorded: recorded_in(epoch),
        },
        Command::Ident { .. } => Stage::IdentAsks {
            question: Request::MakerId,
        },
        Command::Path { place, path, .. } => Stage::PathSets { place, path },
        Command::Route { way, .. } => Stage::Routes { way },
        Command::Pay { id, count, .. } => Stage::Pays {
            row: Payout::Enables {
                id,
                count,
                halted: false,
            },
        },
        Command::Settle { .. } => Stage::Pays {
            row: Payout::Waits {
                closing: Closing::Settlement,
                owed: owed_in(order),
            },
        },
        _ => unreachable!(),
    }
}

/// What is recorded of an epoch, which has to run.
fn recorded_in(epoch: &EpochState) -> Recorded
    requires runs { IsRunning epoch.now }
    requires counts { accepts_of epoch.now < 2 ^ 24 }
    ensures { epoch.now ≡ runs result }
{
    match *epoch {
        EpochState::Running {
            mask,
            counter,
            accepts,
        } => Recorded {
            mask,
            counter,
            counted: Counted { accepts },
        },
        EpochState::Idle => unreachable!(),
    }
}

/// The open order, whose life count is one that a hopper gave.
fn owed_in(order: Option<&OpenOrder>) -> Owed
    requires there { IsTrue (is_some (option_map (λ o. o.now) order)) }
    requires life { (o : OpenOrder) → option_map (λ o. o.now) order ≡ Some o → o.life < 2 ^ 24 }
    ensures { option_map (λ o. o.now) order.entry ≡ Some result.order }
{
    match order {
        Some(order) => Owed { order: *order },
        None => unreachable!(),
    }
}
