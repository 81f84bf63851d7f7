//! The start of an epoch: the acceptor is reset, its credits and then its accept counter are read,
//! the epoch is put, and the inhibit mask is set once (ccTalk Generic Specification 4, parts 2 and
//! 3, headers 1, 225, 229 and 231, and 159 at a bill acceptor).
ghost use Rattle.std.specs.Prelude.{◌≡◌, ℕ, Some};
ghost use Rattle.cct_model.specs.Reply as shown;
ghost use Rattle.cct_model.specs.Reply.{reply_shown};
ghost use Rattle.cct_model.specs.Request.{form_of};
ghost use Rattle.cct_msg.specs.Forms.{form_shown};
ghost use Rattle.cct_jobs.specs.declared.stage.Stage.TheVariants.{StartCounts, StartReads};
ghost use Rattle.cct_jobs.specs.Ahead.{stage_ahead};
ghost use Rattle.cct_jobs.specs.Jobs.{FitsAccepts, IsOfStart, request_of};
ghost use Rattle.cct_jobs.specs.Onward.{KeepsTo, LeadsTo};

use crate::asks::first_try;
use crate::counted::Counted;
use crate::credits::credits_in;
use crate::job::Job;
use crate::reading::count_in;
use crate::stage::Stage;
use crate::target::Target;
use cct_model::{Credits, End, Reply};

/// The stage of the start got the wanted reply, and the start goes on.
pub(crate) fn answered(job: &mut Job, device: Target, stage: Stage, reply: &Reply<'_>)
    requires row { IsOfStart stage }
    requires wanted { form_shown (reply_shown reply.now)
        ≡ form_of (request_of device.family stage) }
    requires accepts { FitsAccepts (reply_shown reply.now) }
    ensures device { (failed : ℕ) → LeadsTo device stage failed (Some (reply_shown reply.now))
        job.new }
    ensures keeps { KeepsTo (stage_ahead device stage) job.new }
{
    match stage {
        Stage::StartResets { mask } => *job = first_try(device, Stage::StartReads { mask }),
        Stage::StartReads { mask } => *job = after_reset(device, mask, &credits_in(reply)),
        Stage::StartCounts { mask } => *job = begins(device, mask, count_in(reply)),
        Stage::StartSets { .. } => *job = Job::Done(End::Started),
        _ => unreachable!(),
    }
}

/// The start after it read these credits: the event counter of an acceptor that was just reset is
/// 0.
#[tactic(auto, using(crate::proofs::Epochs::start_counts, crate::proofs::Epochs::start_unquiet))]
fn after_reset(device: Target, mask: u16, credits: &Credits) -> Job
    ensures device { (failed : ℕ) → LeadsTo device (StartReads mask) failed
        (Some (shown.credits credits.now)) result }
    ensures keeps { KeepsTo (stage_ahead device (StartReads mask)) result }
{
    if credits.counter == 0 {
        first_try(device, Stage::StartCounts { mask })
    } else {
        Job::Done(End::Unquiet {
            counter: credits.counter,
        })
    }
}

/// The start after it read the accept counter: its epoch is to be put.
fn begins(device: Target, mask: u16, counted: Counted) -> Job
    ensures device { (failed : ℕ) → LeadsTo device (StartCounts mask) failed
        (Some (shown.accepts counted.accepts)) result }
    ensures keeps { KeepsTo (stage_ahead device (StartCounts mask)) result }
{
    Job::StartPuts {
        device,
        mask,
        counted,
    }
}
