//! A capture is audited.
ghost use Rattle.std.specs.Prelude.{◌≡◌, ◌≤◌, drop, length, take};
ghost use Rattle.cct_bench.specs.Status.{code_of};
ghost use Rattle.cct_web.specs.Audits.{Audits};

use crate::onto::audit_onto;
use cct_bench::Status;
use cct_edge_slices::{Given, Page};

/// Audits a capture, and writes at the front of `page` what an audit says, with the last line where
/// one is refused. Answers the exit status of `cct_main audit`, and in `wrote` how many bytes were
/// written: after them the page is as it was.
#[unsafe(no_mangle)]
pub extern "C" fn cct_audit(capture: &[u8], page: &mut [u8], wrote: &mut u64) -> u32
    ensures audited { Audits capture.now result (length page.old) (take wrote.new page.new) }
    ensures within { wrote.new ≤ length page.new }
    ensures rest { drop wrote.new page.new ≡ drop wrote.new page.old }
{
    let (status, used) = audit_bytes(capture, page);
    *wrote = used as u64;
    u32::from(status.code())
}

/// Audits a capture, and writes what that says at the front of `page`: how it ended, and how many
/// bytes were written.
fn audit_bytes(capture: &[u8], page: &mut [u8]) -> (Status, usize)
    ensures audited { Audits capture.now (code_of result.0) (length page.old)
        (take result.1 page.new) }
    ensures within { result.1 ≤ length page.new }
    ensures rest { drop result.1 page.new ≡ drop result.1 page.old }
{
    let mut source = Given::new(capture);
    let mut sink = Page::new(page);
    let status = audit_onto(&mut source, &mut sink);
    (status, sink.used())
}
