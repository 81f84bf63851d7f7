//! A capture is read from its first line to its end.
ghost use Rattle.std.specs.Prelude.{◌≡◌, ◌+◌, ◌≤◌, ℕ, [], List, IfOk, IsErrAnd, Option};
ghost use Rattle.std.specs.Result.{IfErr};
ghost use Rattle.cct_edge.specs.Bytes.{Serves};
ghost use Rattle.cct_script.specs.Giving.{none_given, standing_of};
ghost use Rattle.cct_script.specs.Scripts.{IsNext};
ghost use Rattle.cct_script.specs.Source.{OfBytes};
ghost use Rattle.cct_monitor.specs.Monitor.{StandsFor, tap_count};
ghost use Rattle.cct_monitor.specs.Watches.{Came};
ghost use Rattle.cct_audit.specs.Audit.{Audited, IsUnread};
ghost use Rattle.cct_audit.specs.Capture.{over, tapping};
ghost use Rattle.cct_audit.specs.Going.{Going};
ghost use Rattle.cct_audit.specs.Reading.{Watches};
ghost use Rattle.cct_audit.specs.Telling.{told};
ghost use Rattle.cct_audit.specs.Writing.{BrokeLines, NeverBroke, NoLine, WroteLines};

use crate::reading::{Opened, Tapped, read_tap, read_watch};
use crate::writing::write_all;
use arrayvec::ArrayVec;
use cct_edge::{Failed, Sink, Source};
use cct_monitor::Monitor;
use cct_script::{Lines, ScriptStop, behind_end};
use cct_text::TextLine;

/// How an audit of a capture came to its end.
#[derive(Clone, Copy, Debug, PartialEq, Eq)]
pub enum AuditEnd {
    /// At the capture's end.
    Done,
    /// At a line of this number, from 1: it is refused, or reading it failed.
    Stopped { number: u32, why: ScriptStop },
    /// At a fault in writing.
    Unwritten,
}

/// Reads the lines of a capture up to `begin`, and gives the number of the line after it; or says
/// how the audit ends.
fn read_watches<S: Source>(
    lines: &mut Lines,
    monitor: &mut Monitor,
    script: &mut S,
) -> Result<u32, AuditEnd>
    requires lines { standing_of lines.old ≡ none_given }
    requires monitor { Watches monitor.old [] }
    ensures opened { IfOk result (λ number. (past : List Came) × StandsFor monitor.new past × (told past ≡ [])
        × Going (S.left script.old) (S.left script.new) (standing_of lines.new).held number tapping past) }
    ensures next { IfOk result (λ number. IsNext number (standing_of lines.new)) }
    ensures taps { tap_count monitor.new ≡ tap_count monitor.old }
    ensures ended { IfErr result (λ how. OfBytes (S.left script.old) (λ bytes.
        Audited bytes how monitor.new (S.left script.new) NoLine NeverBroke)) }
    ensures source { Serves S.left S.faults script.old script.new (IsErrAnd result IsUnread) }
{
    let mut number = 1;
    loop {
        match read_watch(lines, monitor, number, script) {
            Ok(Opened::Watched) => number += 1,
            Ok(Opened::Begun) => return Ok(number + 1),
            Err(why) => return Err(AuditEnd::Stopped { number, why }),
        }
    }
}

/// Ends a capture after its line `end`, where the next line would have this number: nothing may
/// follow, and what the monitor then says is written.
fn finish<S: Source, K: Sink>(
    lines: &mut Lines,
    monitor: &mut Monitor,
    number: u32,
    script: &mut S,
    out: &mut K,
    line: &mut TextLine,
) -> AuditEnd
    ensures audited { (left0 : Option (List ℕ)) (past : List Came)
        → Going left0 (S.left script.old) (standing_of lines.old).held number over past → StandsFor monitor.old past
        → (before : K) → WroteLines K.written K.puts before out.old (told past)
        → OfBytes left0 (λ bytes. Audited bytes result monitor.new (S.left script.new)
        (WroteLines K.written K.puts before out.new) (BrokeLines K.written K.puts before out.new)) }
    ensures source { Serves S.left S.faults script.old script.new (IsUnread result) }
    ensures sink { Serves K.written K.faults out.old out.new (result ≡ AuditEnd.Unwritten) }
{
    match behind_end(lines.line(script)) {
        Ok(()) => {}
        Err(why) => return AuditEnd::Stopped { number, why },
    }
    let mut last = ArrayVec::new();
    monitor.finish(&mut last);
    match write_all(out, line, last.as_slice()) {
        Ok(()) => AuditEnd::Done,
        Err(Failed) => AuditEnd::Unwritten,
    }
}

/// Reads the taps of a capture, from the line of this number on, and writes what each makes said
/// before the next line is read.
fn play_taps<S: Source, K: Sink>(
    lines: &mut Lines,
    monitor: &mut Monitor,
    first: u32,
    script: &mut S,
    out: &mut K,
    line: &mut TextLine,
) -> AuditEnd
    requires next { IsNext first (standing_of lines.old) }
    requires few { tap_count monitor.old ≡ 0 }
    ensures audited { (left0 : Option (List ℕ)) (past : List Came)
        → Going left0 (S.left script.old) (standing_of lines.old).held first tapping past → StandsFor monitor.old past
        → told past ≡ [] → OfBytes left0 (λ bytes. Audited bytes result monitor.new (S.left script.new)
        (WroteLines K.written K.puts out.old out.new) (BrokeLines K.written K.puts out.old out.new)) }
    ensures source { Serves S.left S.faults script.old script.new (IsUnread result) }
    ensures sink { Serves K.written K.faults out.old out.new (result ≡ AuditEnd.Unwritten) }
{
    let mut report = ArrayVec::new();
    let mut number = first;
    loop {
        match read_tap(lines, monitor, number, script, &mut report) {
            Ok(Tapped::Tapped) => {}
            Ok(Tapped::Ended) => return finish(lines, monitor, number + 1, script, out, line),
            Err(why) => return AuditEnd::Stopped { number, why },
        }
        match write_all(out, line, report.as_slice()) {
            Ok(()) => {}
            Err(Failed) => return AuditEnd::Unwritten,
        }
        number += 1;
    }
}

/// Audits a capture: reads it to its end, a line at a time, and writes what a monitor of its
/// devices says, at each tap before the next line is read, and at the end. A line that is refused,
/// a fault in reading and a fault in writing end it at once, and then what is said at the end isn't
/// written. It takes no memory. The monitor is a new one; afterwards it says how many taps were for
/// each device.
pub fn audit<S: Source, K: Sink>(
    script: &mut S,
    out: &mut K,
    line: &mut TextLine,
    monitor: &mut Monitor,
) -> AuditEnd
    requires new { Watches monitor.old [] }
    requires few { tap_count monitor.old ≡ 0 }
    ensures audited { OfBytes (S.left script.old) (λ bytes. Audited bytes result monitor.new (S.left script.new)
        (WroteLines K.written K.puts out.old out.new) (BrokeLines K.written K.puts out.old out.new)) }
    ensures source { Serves S.left S.faults script.old script.new (IsUnread result) }
    ensures sink { Serves K.written K.faults out.old out.new (result ≡ AuditEnd.Unwritten) }
{
    let mut lines = Lines::new();
    match read_watches(&mut lines, monitor, script) {
        Ok(first) => play_taps(&mut lines, monitor, first, script, out, line),
        Err(ended) => ended,
    }
}
