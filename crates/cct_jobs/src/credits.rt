//! The credits of an acceptor: how a device of each family is asked for them, and how they are
//! judged (ccTalk Generic Specification 4, parts 2 and 3, headers 229 and 159).
ghost use Rattle.std.specs.Prelude.{◌≡◌, Some};
ghost use Rattle.cct_model.specs.terms.request.ReplyForm.TheVariants as form;
ghost use Rattle.cct_model.specs.Job.{credits_request, settled, settled_events};
ghost use Rattle.cct_model.specs.Reply as shown;
ghost use Rattle.cct_model.specs.Reply.{reply_shown};
ghost use Rattle.cct_msg.specs.Forms.{form_shown};
ghost use Rattle.cct_jobs.specs.Ahead.{body_of};
ghost use Rattle.cct_jobs.specs.Jobs.{noted_credits};

use cct_model::{Credits, Family, Pair, Reply, Request};

/// The event of a bill acceptor that holds a bill.
const HELD: u8 = 1;

/// The event of a bill that wasn't accepted.
const RETURNED: Pair = Pair { a: 0, b: 1 };

/// The request that reads the event counter and the last events of a device of a family.
pub(crate) fn credits_request(family: Family) -> Request
    ensures { result ≡ credits_request (body_of family) }
{
    match family {
        Family::Acceptor => Request::ReadCredits,
        Family::Hopper => Request::ReadCredits,
        Family::Bill => Request::ReadBills,
    }
}

/// The credits that the reply to that request is.
pub(crate) fn credits_in(reply: &Reply<'_>) -> Credits
    requires { form_shown (reply_shown reply.now) ≡ Some form.Credits }
    ensures { reply_shown reply.now ≡ shown.credits result }
{
    match reply {
        Reply::Credits(credits) => *credits,
        _ => unreachable!(),
    }
}

/// The credits that a device of a family reported, as they are judged.
pub(crate) fn noted(family: Family, credits: Credits) -> Credits
    ensures { result ≡ noted_credits family credits }
{
    match family {
        Family::Acceptor => credits,
        Family::Hopper => credits,
        Family::Bill => Credits {
            counter: credits.counter,
            pairs: credits.pairs.map(settled),
        },
    }
}

/// An event of a bill acceptor as it is judged: a bill that is held isn't accepted yet, so it
/// counts as one that was given back.
fn settled(pair: Pair) -> Pair
    ensures { result ≡ settled pair }
{
    if pair.b == HELD { RETURNED } else { pair }
}
