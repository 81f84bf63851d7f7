//! The lines of a capture, and what they do to the monitor.
ghost use Rattle.std.specs.Prelude.{◌≡◌, ◌+◌, ◌-◌, ◌^◌, ◌<◌, List, Err, Ok, IfOk, MatchResult};
ghost use Rattle.std.specs.Prelude.{OnErr, OnOk};
ghost use Rattle.std.specs.Result.{IfErr};
ghost use Rattle.cct_edge.specs.Bytes.{Serves};
ghost use Rattle.cct_script.specs.Giving.{standing_of};
ghost use Rattle.cct_script.specs.Scripts.{GoesOnIn, IsNext, StopsIn, WithMoreTaken};
ghost use Rattle.cct_monitor.specs.Monitor.{StandsFor, tap_count};
ghost use Rattle.cct_monitor.specs.Watches.{Came};
ghost use Rattle.cct_audit.specs.Capture.{capture_form, of_capture, refuses, tapping, watch_read};
ghost use Rattle.cct_audit.specs.Capture.{watching};
ghost use Rattle.cct_audit.specs.Reading.{TakesTap, TakesWatch, Watches};
ghost use Rattle.cct_audit.specs.declared.opening.WatchLine.TheVariants as opens_by;

use crate::opening::{WatchLine, read_watch_line};
use arrayvec::ArrayVec;
use cct_edge::Source;
use cct_model::{CheckKind, LineKind};
use cct_monitor::{Family, Monitor, Said, WATCHED};
use cct_script::{CaptureLine, Lines, ScriptStop, before_end, read_capture_line};

/// What a line before `begin` does.
#[derive(Clone, Copy)]
pub(crate) enum Opened {
    /// A device more is watched.
    Watched,
    /// The taps begin.
    Begun,
}

/// What a line after `begin` does.
#[derive(Clone, Copy)]
pub(crate) enum Tapped {
    /// It is a tap.
    Tapped,
    /// It ends the capture.
    Ended,
}

/// Watches a device more, where there is room and its address is new.
fn watch(
    monitor: &mut Monitor,
    addr: u8,
    kind: CheckKind,
    family: Family,
) -> Result<Opened, LineKind>
    ensures watches { (past : List Came) → Watches monitor.old past → MatchResult result
        (λ opened. TakesWatch past opened monitor.new (λ read. watch_read past (Ok (opens_by.Watch addr kind family)) ≡ read))
        (λ why. watch_read past (Ok (opens_by.Watch addr kind family)) ≡ refuses why) }
    ensures taps { tap_count monitor.new ≡ tap_count monitor.old }
    ensures same { OnErr result (monitor.new ≡ monitor.old) }
{
    if monitor.is_watched(addr) || monitor.watched() >= WATCHED {
        return Err(LineKind::Device);
    }
    monitor.watch(addr, kind, family);
    Ok(Opened::Watched)
}

/// Takes one whole line before `begin`.
#[tactic(auto, unfolding(crate::specs::Capture::capture_form))]
fn take_watch(monitor: &mut Monitor, line: &[u8]) -> Result<Opened, LineKind>
    ensures reads { (past : List Came) → Watches monitor.old past → MatchResult result
        (λ opened. TakesWatch past opened monitor.new (λ read. capture_form (watching past) line.now ≡ read))
        (λ why. capture_form (watching past) line.now ≡ refuses why) }
    ensures taps { tap_count monitor.new ≡ tap_count monitor.old }
    ensures same { OnErr result (monitor.new ≡ monitor.old) }
{
    match read_watch_line(line) {
        Ok(WatchLine::Watch { addr, kind, family }) => watch(monitor, addr, kind, family),
        Ok(WatchLine::Begin) => Ok(Opened::Begun),
        Err(why) => Err(why),
    }
}

/// Takes one whole line after `begin`. What a tap makes said takes the place of what the report
/// holds.
#[tactic(auto, unfolding(crate::specs::Capture::capture_form))]
fn take_tap(
    monitor: &mut Monitor,
    line: &[u8],
    report: &mut ArrayVec<Said, 4>,
) -> Result<Tapped, LineKind>
    requires { tap_count monitor.old < 2 ^ 32 - 1 }
    ensures reads { (past : List Came) → StandsFor monitor.old past → IfOk result
        (λ tapped. TakesTap past tapped monitor.new report.new.items (λ read. capture_form tapping line.now ≡ read)) }
    ensures refused { IfErr result (λ why. capture_form tapping line.now ≡ refuses why) }
    ensures taps { tap_count monitor.new < tap_count monitor.old + 2 }
    ensures same { OnErr result (monitor.new ≡ monitor.old) }
{
    match read_capture_line(true, line) {
        Ok(CaptureLine::Tap { sent, heard }) => {
            monitor.tap(sent.as_slice(), heard.as_slice(), report);
            Ok(Tapped::Tapped)
        }
        Ok(CaptureLine::End) => Ok(Tapped::Ended),
        Ok(_) => Err(LineKind::Word),
        Err(why) => Err(why),
    }
}

/// Reads the next line before `begin`, which has this number.
pub(crate) fn read_watch<S: Source>(
    lines: &mut Lines,
    monitor: &mut Monitor,
    number: u32,
    script: &mut S,
) -> Result<Opened, ScriptStop>
    requires { IsNext number (standing_of lines.old) }
    ensures reads { (past : List Came) → Watches monitor.old past → IfOk result (λ opened.
        TakesWatch past opened monitor.new (λ read. WithMoreTaken (standing_of lines.old).held (S.left script.old)
        (S.left script.new) (λ held. GoesOnIn of_capture number (watching past) held read (standing_of lines.new).held))) }
    ensures next { OnOk result (IsNext (number + 1) (standing_of lines.new)) }
    ensures stops { (past : List Came) → Watches monitor.old past → IfErr result (λ why.
        WithMoreTaken (standing_of lines.old).held (S.left script.old) (S.left script.new)
        (StopsIn of_capture number (watching past) why (S.left script.new))) }
    ensures taps { tap_count monitor.new ≡ tap_count monitor.old }
    ensures same { OnErr result (monitor.new ≡ monitor.old) }
    ensures source { Serves S.left S.faults script.old script.new (result ≡ Err ScriptStop.Unread) }
{
    let line = before_end(lines.line(script))?;
    match take_watch(monitor, line) {
        Ok(opened) => Ok(opened),
        Err(kind) => Err(ScriptStop::Refused(kind)),
    }
}

/// Reads the next line after `begin`, which has this number. What a tap makes said takes the place
/// of what the report holds.
pub(crate) fn read_tap<S: Source>(
    lines: &mut Lines,
    monitor: &mut Monitor,
    number: u32,
    script: &mut S,
    report: &mut ArrayVec<Said, 4>,
) -> Result<Tapped, ScriptStop>
    requires next { IsNext number (standing_of lines.old) }
    requires few { tap_count monitor.old < 2 ^ 32 - 1 }
    ensures reads { (past : List Came) → StandsFor monitor.old past → IfOk result (λ tapped.
        TakesTap past tapped monitor.new report.new.items (λ read. WithMoreTaken (standing_of lines.old).held
        (S.left script.old) (S.left script.new)
        (λ held. GoesOnIn of_capture number tapping held read (standing_of lines.new).held))) }
    ensures next { OnOk result (IsNext (number + 1) (standing_of lines.new)) }
    ensures stops { IfErr result (λ why. WithMoreTaken (standing_of lines.old).held (S.left script.old) (S.left script.new)
        (StopsIn of_capture number tapping why (S.left script.new))) }
    ensures taps { tap_count monitor.new < tap_count monitor.old + 2 }
    ensures same { OnErr result (monitor.new ≡ monitor.old) }
    ensures source { Serves S.left S.faults script.old script.new (result ≡ Err ScriptStop.Unread) }
{
    let line = before_end(lines.line(script))?;
    match take_tap(monitor, line, report) {
        Ok(tapped) => Ok(tapped),
        Err(kind) => Err(ScriptStop::Refused(kind)),
    }
}
