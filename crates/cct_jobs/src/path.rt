//! The setting of a sorter path: it is set, and then read back (ccTalk Generic Specification 4,
//! part 2, headers 210, 209, 189 and 188).
ghost use Rattle.std.specs.Prelude.{◌≡◌, ℕ, Some};
ghost use Rattle.cct_model.specs.Request.{form_of};
ghost use Rattle.cct_jobs.specs.Ahead.{stage_ahead};
ghost use Rattle.cct_jobs.specs.Jobs.{IsOfPath, request_of};
ghost use Rattle.cct_model.specs.Job.{path_read, path_set};
ghost use Rattle.cct_model.specs.Reply as shown;
ghost use Rattle.cct_model.specs.Reply.{reply_shown};
ghost use Rattle.cct_model.specs.terms.request.ReplyForm.TheVariants as form;
ghost use Rattle.cct_msg.specs.Forms.{form_shown};
ghost use Rattle.cct_jobs.specs.Onward.{KeepsTo, LeadsTo};

use crate::asks::first_try;
use crate::job::Job;
use crate::stage::Stage;
use crate::target::Target;
use cct_model::{End, Reply, Request};

/// The place that represents the default path.
const DEFAULT: u8 = 0;

/// The stage of the setting of a path got the wanted reply, and the setting goes on.
pub(crate) fn answered(job: &mut Job, device: Target, stage: Stage, reply: &Reply<'_>)
    requires row { IsOfPath stage }
    requires wanted { form_shown (reply_shown reply.now)
        ≡ form_of (request_of device.family stage) }
    ensures device { (failed : ℕ) → LeadsTo device stage failed (Some (reply_shown reply.now))
        job.new }
    ensures keeps { KeepsTo (stage_ahead device stage) job.new }
{
    match stage {
        Stage::PathSets { place, path } => {
            *job = first_try(device, Stage::PathReads { place, path });
        }
        Stage::PathReads { place, .. } => {
            *job = Job::Done(End::PathSet {
                place,
                path: path_in(reply),
            });
        }
        _ => unreachable!(),
    }
}

/// The request that sets a sorter path.
pub(crate) fn setting(place: u8, path: u8) -> Request
    ensures { result ≡ path_set place path }
{
    if place == DEFAULT {
        Request::SetDefault { path }
    } else {
        Request::SetPath { place, path }
    }
}

/// The request that reads it back.
pub(crate) fn reading(place: u8) -> Request
    ensures { result ≡ path_read place }
{
    if place == DEFAULT {
        Request::GetDefault
    } else {
        Request::GetPath { place }
    }
}

/// The sorter path that the reply to the question for it is.
fn path_in(reply: &Reply<'_>) -> u8
    requires { form_shown (reply_shown reply.now) ≡ Some form.Path }
    ensures { reply_shown reply.now ≡ shown.path result }
{
    match reply {
        Reply::Path { path } => *path,
        _ => unreachable!(),
    }
}
