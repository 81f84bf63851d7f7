//! An audit onto a page.
ghost use Rattle.std.specs.Prelude.{◌≡◌};
ghost use Rattle.cct_bench.specs.Status.{code_of};
ghost use Rattle.cct_edge_slices.specs.Slices.{PageStays, given_bytes, page_room, written_count};
ghost use Rattle.cct_edge_slices.specs.Slices.{written_on};
ghost use Rattle.cct_web.specs.Audits.{Audits};

use cct_bench::{Status, audit_capture};
use cct_edge_slices::{Given, Page};

/// Audits a capture onto a page on which nothing is written.
pub(crate) fn audit_onto(source: &mut Given<'_>, page: &mut Page<'_>) -> Status
    requires { written_count page.old ≡ 0 }
    ensures audited { Audits (given_bytes source.old) (code_of result) (page_room page.old)
        (written_on page.new) }
    ensures stays { PageStays page.old page.new }
{
    let (status, _) = audit_capture(source, page);
    status
}
