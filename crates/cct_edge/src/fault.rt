// The one error of a source and of a sink, and how it is counted.
ghost use Rattle.std.specs.Prelude.{◌≡◌, ◌≤◌};
ghost use Rattle.cct_edge.specs.Faults.{next_count};

use thiserror::Error;

/// The world outside failed in this call. A failure isn't final: the next call may succeed.
#[derive(Debug, Drop, Error)]
#[error("the source or the sink failed")]
pub struct Failed;

// Counts one more fault, and gives the error that shows it.
pub(crate) fn count_fault(faults: &mut u64) -> Failed
    ensures counted { faults.new ≡ next_count faults.old }
    ensures later { faults.old ≤ faults.new }
{
    *faults = faults.saturating_add(1);
    Failed
}
