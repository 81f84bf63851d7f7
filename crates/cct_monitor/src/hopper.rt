//! What is kept of a watched hopper: its last life count (ccTalk Generic Specification 4, part 3,
//! header 168).
ghost use Rattle.std.specs.Prelude.{◌≡◌, []};
ghost use Rattle.cct_monitor.specs.Lives.{fell_by};

use arrayvec::ArrayVec;
use cct_audit_taps::{Said, fallen_between};

/// The last life count of a hopper.
#[derive(Clone, Copy, PartialEq, Eq)]
pub struct LastLife {
    /// The number of the tap that showed it.
    pub number: u32,
    /// The count that it showed, below 2 ^ 24.
    pub count: u32,
}

/// Reports how many coins fell since the last life count, where a tap of a number shows one.
pub(crate) fn fell(
    addr: u8,
    number: u32,
    count: Option<u32>,
    last: Option<LastLife>,
    report: &mut ArrayVec<Said, 4>,
)
    requires { report.old.items ≡ [] }
    ensures { report.new.items ≡ fell_by addr number count last }
{
    if let (Some(now), Some(life)) = (count, last) {
        report.push(Said::Fell {
            addr,
            first: life.number,
            last: number,
            count: fallen_between(life.count, now),
        });
    }
}
