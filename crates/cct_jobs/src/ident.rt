//! The identification: a device is asked for all that it says of itself, one thing after the other
//! (ccTalk Generic Specification 4, parts 2 and 3).
ghost use Rattle.std.specs.Prelude.{[], Option, ◌≡◌, ℕ, Some};
ghost use Rattle.cct_model.specs.Reply.{Reply};
ghost use Rattle.cct_jobs.specs.declared.stage.Stage.TheVariants.{IdentAsks};
ghost use Rattle.cct_jobs.specs.Jobs.{acceptor_question_after, first_own_question};
ghost use Rattle.cct_jobs.specs.Jobs.{own_question_after, question_after};
ghost use Rattle.cct_jobs.specs.Onward.{KeepsTo, LeadsTo};

use crate::asks::first_try;
use crate::job::Job;
use crate::stage::Stage;
use crate::target::Target;
use cct_model::{COIN_PLACES, End, Family, Request};

/// This question of the identification was answered, and the identification goes on.
pub(crate) fn told(job: &mut Job, device: Target, question: Request)
    ensures device { (failed : ℕ) (y : Reply) →
        LeadsTo device (IdentAsks question) failed (Some y) job.new }
    ensures keeps { KeepsTo [] job.new }
{
    match question_after(question, device.family) {
        Some(question) => *job = first_try(device, Stage::IdentAsks { question }),
        None => *job = Job::Done(End::Told),
    }
}

/// What is asked after a question: of every device its texts, its serial number and the release of
/// the standard, and then what other families don't say.
fn question_after(question: Request, family: Family) -> Option<Request>
    ensures { result ≡ question_after family question }
{
    match question {
        Request::MakerId => Some(Request::Category),
        Request::Category => Some(Request::ProductCode),
        Request::ProductCode => Some(Request::SerialNumber),
        Request::SerialNumber => Some(Request::SoftwareRevision),
        Request::SoftwareRevision => Some(Request::BuildCode),
        Request::BuildCode => Some(Request::CommsRevision),
        Request::CommsRevision => Some(first_own_question(family)),
        _ => own_question_after(question, family),
    }
}

/// What is asked after a question that only some families are asked: of an acceptor its master
/// inhibit, its default sorter path, its accept count and the identification of each coin, of a
/// hopper its test register, and of a bill acceptor its master inhibit and its accept count.
fn own_question_after(question: Request, family: Family) -> Option<Request>
    ensures { result ≡ own_question_after family question }
{
    match family {
        Family::Acceptor => acceptor_question_after(question),
        Family::Hopper => None,
        Family::Bill => match question {
            Request::GetMaster => Some(Request::AcceptCount),
            _ => None,
        },
    }
}

/// What is asked of an acceptor after a question that only some families are asked.
fn acceptor_question_after(question: Request) -> Option<Request>
    ensures { result ≡ acceptor_question_after question }
{
    match question {
        Request::GetMaster => Some(Request::GetDefault),
        Request::GetDefault => Some(Request::AcceptCount),
        Request::AcceptCount => Some(Request::CoinId { place: 1 }),
        Request::CoinId { place } if (place as usize) < COIN_PLACES => Some(Request::CoinId {
            place: place + 1,
        }),
        _ => None,
    }
}

/// What is asked first of a device of a family that other families don't say.
fn first_own_question(family: Family) -> Request
    ensures { result ≡ first_own_question family }
{
    match family {
        Family::Acceptor => Request::GetMaster,
        Family::Hopper => Request::TestHopper,
        Family::Bill => Request::GetMaster,
    }
}
