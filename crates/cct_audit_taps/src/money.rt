//! The money that an acceptor takes in, and how what a bill acceptor reports is credited (ccTalk
//! Generic Specification 4, part 3, header 159).
ghost use Rattle.std.specs.Prelude.{◌≡◌};
ghost use Rattle.cct_model.specs.Job.{settled, settled_events};

use cct_model::{Credits, Pair};

/// The money that an acceptor takes in.
#[derive(Clone, Copy, PartialEq, Eq)]
pub enum Money {
    /// Coins, by place and sorter path. Header 229 reads them.
    Coins,
    /// Bills, by place; one that is stacked has path 0, and one that is held is none yet. Header
    /// 159 reads them.
    Bills,
}

/// The event of a bill acceptor that holds a bill.
const HELD: u8 = 1;

/// The event of a bill that wasn't accepted.
const RETURNED: Pair = Pair { a: 0, b: 1 };

/// What a bill acceptor reported, as it is credited.
pub(crate) fn settled_credits(credits: Credits) -> Credits
    ensures { result ≡ settled_events credits }
{
    Credits {
        counter: credits.counter,
        pairs: credits.pairs.map(settled),
    }
}

/// An event of a bill acceptor as it is credited: a bill that is held counts as one that is given
/// back.
fn settled(pair: Pair) -> Pair
    ensures { result ≡ settled pair }
{
    if pair.b == HELD { RETURNED } else { pair }
}
