//! An audit of a capture, with its last line.
ghost use Rattle.std.specs.Prelude.{◌≡◌, ◌≢◌, None, Some};
ghost use Rattle.cct_edge.specs.Bytes.{Serves};
ghost use Rattle.cct_edge.specs.Faults.{Rose};
ghost use Rattle.cct_script.specs.Source.{OfBytes};
ghost use Rattle.cct_audit.specs.Writing.{BrokeLines, WroteLines};
ghost use Rattle.cct_bench.specs.Audit.{AuditRan, IsOfAudit};

use crate::ending::close;
use crate::outcome::Status;
use cct_audit::{AuditEnd, audit};
use cct_edge::{Sink, Source};
use cct_model::Entry;
use cct_monitor::Monitor;
use cct_script::ScriptStop;
use cct_text::TextLine;

/// Audits a capture, as `bench` does for the word `audit`. Beside the status it gives the monitor,
/// which says how many taps were for each watched device.
pub fn audit_capture<S: Source, K: Sink>(script: &mut S, out: &mut K) -> (Status, Monitor)
    ensures audited { OfBytes (S.left script.old) (λ bytes. AuditRan bytes result.0 (Some result.1) (S.left script.new)
        (Rose (S.faults script.old) (S.faults script.new))
        (WroteLines K.written K.puts out.old out.new) (BrokeLines K.written K.puts out.old out.new)) }

    // the statuses that never come
    ensures memory { result.0 ≢ Status.OutOfMemory }
    ensures other { IsOfAudit result.0 }

    // source and sink
    ensures source { Serves S.left S.faults script.old script.new (result.0 ≡ Status.ReadFault) }
    ensures sink { Serves K.written K.faults out.old out.new (result.0 ≡ Status.WriteFault) }
{
    let mut line = TextLine::new();
    let mut monitor = Monitor::new();
    match audit(script, out, &mut line, &mut monitor) {
        AuditEnd::Done => (Status::Done, monitor),
        AuditEnd::Unwritten => (Status::WriteFault, monitor),
        AuditEnd::Stopped {
            number,
            why: ScriptStop::Refused(kind),
        } => (
            close(
                out,
                &mut line,
                &Entry::Line { number, kind },
                Status::ScriptRefused,
            ),
            monitor,
        ),
        AuditEnd::Stopped {
            number: _,
            why: ScriptStop::Unread,
        } => (
            close(out, &mut line, &Entry::ReadFault, Status::ReadFault),
            monitor,
        ),
    }
}

/// Audits a capture, and writes the last line where a line of it is refused or reading it failed.
// In a frame of its own it takes no room where a script is played.
#[inline(never)]
pub(crate) fn run_audit<S: Source, K: Sink>(script: &mut S, out: &mut K) -> Status
    ensures audited { OfBytes (S.left script.old) (λ bytes. AuditRan bytes result None (S.left script.new)
        (Rose (S.faults script.old) (S.faults script.new))
        (WroteLines K.written K.puts out.old out.new) (BrokeLines K.written K.puts out.old out.new)) }
    ensures memory { result ≢ Status.OutOfMemory }
    ensures other { IsOfAudit result }
    ensures source { Serves S.left S.faults script.old script.new (result ≡ Status.ReadFault) }
    ensures sink { Serves K.written K.faults out.old out.new (result ≡ Status.WriteFault) }
{
    let (status, _) = audit_capture(script, out);
    status
}
