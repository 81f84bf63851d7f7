//! What a job hears from the device that it asked: the wanted reply, or a failed try.
ghost use Rattle.std.specs.Prelude.{◌≡◌, ℕ, Some, None, false, true};
ghost use Rattle.cct_model.specs.Reply.{reply_shown};
ghost use Rattle.cct_model.specs.Request.{form_of};
ghost use Rattle.cct_msg.specs.Forms.{form_shown};
ghost use Rattle.cct_jobs.specs.declared.stage.Stage.TheVariants.{Pays};
ghost use Rattle.cct_model.specs.Rows.{sent_once};
ghost use Rattle.cct_jobs.specs.Ahead.{ahead, payout_ahead, stage_ahead};
ghost use Rattle.cct_jobs.specs.Jobs.{FitsAccepts, FitsLife, asks_device, asks_on, request_of};
ghost use Rattle.cct_jobs.specs.Onward.{HearsDevice, HearsPolled, KeepsTo, LeadsTo};

use crate::job::Job;
use crate::payout::Payout;
use crate::stage::Stage;
use crate::target::{Target, after_failed};
use crate::{ident, path, payment, reading, start};
use cct_model::{End, Reply};

/// A job that comes to a stage.
pub(crate) fn first_try(device: Target, stage: Stage) -> Job
    ensures { result ≡ Job.Asks device stage 0 }
{
    Job::Asks {
        device,
        stage,
        failed: 0,
    }
}

/// The job heard what followed the request of its stage, and goes on.
pub(crate) fn heard(job: &mut Job, sent: &[u8], heard: &[u8])
    requires asks { asks_device job.old ≡ true }
    ensures device { HearsDevice job.old sent.now heard.now job.new }
    ensures scan { HearsPolled job.old sent.now heard.now job.new }
    ensures keeps { KeepsTo (ahead job.old) job.new }
{
    match job {
        Job::Asks {
            device,
            stage,
            failed,
        } => match device.reply(stage.wanted(device.family), sent, heard) {
            Some(reply) => {
                if asks_on(device, stage, &reply) {
                    *failed = 0;
                } else {
                    let (device, stage) = (*device, *stage);
                    answered(job, device, stage, &reply);
                }
            }
            None => {
                let (device, stage, failed) = (*device, *stage, *failed);
                *job = unanswered(device, stage, failed);
            }
        },
        _ => unreachable!(),
    }
}

/// A stage that another question follows got the wanted reply, and the job comes to that one where
/// it stands. The answer is whether the stage is one of these.
fn asks_on(device: &Target, stage: &mut Stage, reply: &Reply<'_>) -> bool
    requires wanted { form_shown (reply_shown reply.now)
        ≡ form_of (request_of device.now.family stage.old) }
    requires accepts { FitsAccepts (reply_shown reply.now) }
    ensures which { result ≡ asks_on stage.old }
    ensures stays { result ≡ false → stage.new ≡ stage.old }
    ensures device { result ≡ true → (failed : ℕ)
        → LeadsTo device.now stage.old failed (Some (reply_shown reply.now)) (Job.Asks device.now stage.new 0) }
    ensures keeps { result ≡ true → KeepsTo (stage_ahead device.now stage.old)
        (Job.Asks device.now stage.new 0) }
{
    match stage {
        Stage::Pays { row } => payment::pays_on(row, reply),
        _ => reading::reads_on(device, stage, reply),
    }
}

/// The job after a failed try of its stage, which is tried three times in succession at most. The
/// mask of a start, the way of a held bill and a dispense are never sent again.
fn unanswered(device: Target, stage: Stage, failed: u8) -> Job
    ensures device { LeadsTo device stage failed None result }
    ensures keeps { KeepsTo (stage_ahead device stage) result }
{
    match stage {
        Stage::StartSets { .. } => Job::Done(End::StartUnsure),
        Stage::Routes { .. } => Job::Done(End::RouteUnsure),
        Stage::Pays { row } => payout_unanswered(device, row, failed),
        _ => tried_again(device, stage, failed),
    }
}

/// The payment or the settlement after a failed try of its row. A payment whose dispense was sent
/// goes on after it.
fn payout_unanswered(device: Target, row: Payout, failed: u8) -> Job
    ensures device { LeadsTo device (Pays row) failed None result }
    ensures keeps { KeepsTo (payout_ahead device row) result }
{
    match row {
        Payout::Dispenses { owed, halted, .. } => payment::dispensed(device, owed, halted),
        _ => tried_again(device, Stage::Pays { row }, failed),
    }
}

/// The job after a failed try of a stage that is tried again: after the third in succession it
/// ends.
fn tried_again(device: Target, stage: Stage, failed: u8) -> Job
    requires { sent_once (stage_ahead device stage) ≡ false }
    ensures device { LeadsTo device stage failed None result }
    ensures keeps { KeepsTo (stage_ahead device stage) result }
{
    match after_failed(failed) {
        Some(failed) => Job::Asks {
            device,
            stage,
            failed,
        },
        None => Job::Done(End::NoAnswer),
    }
}

/// The stage of the job got the wanted reply, and the job goes on: each kind of job has its own
/// way.
#[tactic(auto, using(crate::proofs::Keeping::none_keep))]
fn answered(job: &mut Job, device: Target, stage: Stage, reply: &Reply<'_>)
    requires other { asks_on stage ≡ false }
    requires wanted { form_shown (reply_shown reply.now)
        ≡ form_of (request_of device.family stage) }
    requires life { FitsLife (reply_shown reply.now) }
    requires accepts { FitsAccepts (reply_shown reply.now) }
    ensures device { (failed : ℕ) → LeadsTo device stage failed (Some (reply_shown reply.now))
        job.new }
    ensures keeps { KeepsTo (stage_ahead device stage) job.new }
{
    match stage {
        Stage::StartResets { .. } => start::answered(job, device, stage, reply),
        Stage::StartReads { .. } => start::answered(job, device, stage, reply),
        Stage::StartCounts { .. } => start::answered(job, device, stage, reply),
        Stage::StartSets { .. } => start::answered(job, device, stage, reply),
        Stage::StopInhibits { .. } => reading::answered(job, device, stage, reply),
        Stage::CountsAfter { .. } => reading::answered(job, device, stage, reply),
        Stage::IdentAsks { question } => ident::told(job, device, question),
        Stage::PathSets { .. } => path::answered(job, device, stage, reply),
        Stage::PathReads { .. } => path::answered(job, device, stage, reply),
        Stage::Routes { .. } => *job = Job::Done(End::Routed),
        Stage::Pays { row } => payment::answered(job, device, row, reply),
        _ => unreachable!(),
    }
}
