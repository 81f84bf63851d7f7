//! The round, and the stop of an epoch: an acceptor's accept counter is read, then its credits, its
//! inhibit mask, and its accept counter again; what they mean is put, unless a coin or a bill was
//! accepted in between. A stop inhibits all before, and puts the epoch's end after (ccTalk Generic
//! Specification 4, parts 2 and 3, headers 225, 228, 229 and 230, and 159 at a bill acceptor).
ghost use Rattle.std.specs.Prelude.{◌≡◌, ℕ, Some, false, true};
ghost use Rattle.cct_model.specs.terms.request.ReplyForm.TheVariants as form;
ghost use Rattle.cct_model.specs.Reply as shown;
ghost use Rattle.cct_model.specs.Reply.{reply_shown};
ghost use Rattle.cct_model.specs.Request.{form_of};
ghost use Rattle.cct_msg.specs.Forms.{form_shown};
ghost use Rattle.cct_jobs.specs.declared.stage.Stage.TheVariants.{CountsAfter, CountsBefore};
ghost use Rattle.cct_jobs.specs.Ahead.{stage_ahead, reading_ahead};
ghost use Rattle.cct_jobs.specs.Jobs.{FitsAccepts, IsOfReading, reads_on, request_of, round_after};
ghost use Rattle.cct_jobs.specs.Jobs.{stop_after};
ghost use Rattle.cct_jobs.specs.Onward.{KeepsTo, LeadsTo};

use crate::asks::first_try;
use crate::counted::Counted;
use crate::credits::{credits_in, noted};
use crate::job::Job;
use crate::stage::{ReadBy, Recorded, Stage};
use crate::target::Target;
use cct_epoch::{Judged, judge};
use cct_model::{Credits, End, Reply};

/// The round or the stop got the wanted reply to a row that another question follows, and comes to
/// that one where it stands. The answer is whether its row is one of these.
pub(crate) fn reads_on(device: &Target, stage: &mut Stage, reply: &Reply<'_>) -> bool
    requires wanted { form_shown (reply_shown reply.now)
        ≡ form_of (request_of device.now.family stage.old) }
    requires accepts { FitsAccepts (reply_shown reply.now) }
    ensures which { result ≡ reads_on stage.old }
    ensures stays { result ≡ false → stage.new ≡ stage.old }
    ensures device { result ≡ true → (failed : ℕ)
        → LeadsTo device.now stage.old failed (Some (reply_shown reply.now)) (Job.Asks device.now stage.new 0) }
    ensures keeps { result ≡ true → KeepsTo (stage_ahead device.now stage.old)
        (Job.Asks device.now stage.new 0) }
{
    match stage {
        Stage::CountsBefore { read_by, recorded } => {
            let (read_by, recorded) = (*read_by, *recorded);
            let before = count_in(reply);
            *stage = Stage::Reads {
                read_by,
                recorded,
                before,
            };
            true
        }
        Stage::Reads {
            read_by,
            recorded,
            before,
        } => {
            let (read_by, recorded, before) = (*read_by, *recorded, *before);
            let credits = noted(device.family, credits_in(reply));
            *stage = Stage::Looks {
                read_by,
                recorded,
                before,
                credits,
            };
            true
        }
        Stage::Looks {
            read_by,
            recorded,
            before,
            credits,
        } => {
            let (read_by, recorded, before, credits) = (*read_by, *recorded, *before, *credits);
            let mask_seen = mask_in(reply);
            *stage = Stage::CountsAfter {
                read_by,
                recorded,
                before,
                credits,
                mask_seen,
            };
            true
        }
        _ => false,
    }
}

/// The stage of the round or the stop got the wanted reply, and the job goes on to a row that is
/// none of these.
pub(crate) fn answered(job: &mut Job, device: Target, stage: Stage, reply: &Reply<'_>)
    requires row { IsOfReading stage }
    requires last { reads_on stage ≡ false }
    requires wanted { form_shown (reply_shown reply.now)
        ≡ form_of (request_of device.family stage) }
    requires accepts { FitsAccepts (reply_shown reply.now) }
    ensures device { (failed : ℕ) → LeadsTo device stage failed (Some (reply_shown reply.now))
        job.new }
    ensures keeps { KeepsTo (stage_ahead device stage) job.new }
{
    match stage {
        Stage::StopInhibits { recorded } => *job = counts(device, ReadBy::Stop, recorded),
        Stage::CountsAfter {
            read_by,
            recorded,
            before,
            credits,
            mask_seen,
        } => {
            let now = count_in(reply);
            judged(
                job, device, read_by, recorded, before, &credits, mask_seen, now,
            );
        }
        _ => unreachable!(),
    }
}

/// The round or the stop at its first accept counter.
pub(crate) fn counts(device: Target, read_by: ReadBy, recorded: Recorded) -> Job
    ensures { result ≡ Job.Asks device (CountsBefore read_by recorded) 0 }
{
    first_try(device, Stage::CountsBefore { read_by, recorded })
}

/// The inhibit mask that the reply to the question for it is.
fn mask_in(reply: &Reply<'_>) -> u16
    requires { form_shown (reply_shown reply.now) ≡ Some form.Mask }
    ensures { reply_shown reply.now ≡ shown.mask result }
{
    match reply {
        Reply::Mask { mask } => *mask,
        _ => unreachable!(),
    }
}

/// What the reply to the question for the accept counter counted.
pub(crate) fn count_in(reply: &Reply<'_>) -> Counted
    requires wanted { form_shown (reply_shown reply.now) ≡ Some form.Accepts }
    requires accepts { FitsAccepts (reply_shown reply.now) }
    ensures { reply_shown reply.now ≡ shown.accepts result.accepts }
{
    match reply {
        Reply::Accepts { count } => Counted { accepts: *count },
        _ => unreachable!(),
    }
}

/// The round or the stop read these credits and this mask between these accept counters, and goes
/// on.
fn judged(
    job: &mut Job,
    device: Target,
    read_by: ReadBy,
    recorded: Recorded,
    before: Counted,
    credits: &Credits,
    mask_seen: u16,
    now: Counted,
)
    ensures device { (failed : ℕ)
        → LeadsTo device (CountsAfter read_by recorded before credits.now mask_seen) failed (Some (shown.accepts now.accepts))
        job.new }
    ensures keeps { KeepsTo (reading_ahead device read_by) job.new }
{
    let meaning = judge(
        device.addr,
        recorded.mask,
        recorded.counter,
        recorded.counted.accepts,
        credits,
        mask_seen,
        before.accepts,
        now.accepts,
    );
    match read_by {
        ReadBy::Round => round_judged(job, meaning),
        ReadBy::Stop => stop_judged(job, device, meaning),
    }
}

/// The round judged its reading, and goes on.
fn round_judged(job: &mut Job, meaning: Judged)
    ensures { job.new ≡ round_after meaning }
{
    match meaning {
        Judged::Nothing => *job = Job::Done(End::Clean),
        Judged::Moved => *job = moved(),
        Judged::Reading(entry) => {
            let end = End::Posted;
            *job = Job::RoundPuts { entry, end };
        }
        Judged::Broken(entry) => {
            let end = End::Broke;
            *job = Job::RoundPuts { entry, end };
        }
    }
}

/// The stop judged its reading, and goes on.
fn stop_judged(job: &mut Job, device: Target, meaning: Judged)
    ensures { job.new ≡ stop_after device meaning }
{
    match meaning {
        Judged::Nothing => *job = Job::StopEnds { device },
        Judged::Moved => *job = moved(),
        Judged::Reading(entry) => {
            let end = None;
            *job = Job::StopPuts { device, entry, end };
        }
        Judged::Broken(entry) => {
            let end = Some(End::Broke);
            *job = Job::StopPuts { device, entry, end };
        }
    }
}

/// The round or the stop after a coin was accepted while it read its acceptor: the reading has to
/// be made again.
fn moved() -> Job
    ensures { result ≡ Job.Done End.Moved }
{
    Job::Done(End::Moved)
}
