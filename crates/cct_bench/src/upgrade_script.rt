//! The script of an upgrade is read: its setup, the line `end`, and nothing after it.
ghost use Rattle.std.specs.Prelude.{◌≡◌, ℕ, ◌+◌, None, Err, OnOk, MatchResult};
ghost use Rattle.std.specs.Result.{IfErr};
ghost use Rattle.cct_edge.specs.Bytes.{Serves};
ghost use Rattle.cct_model.specs.terms.device.Setup.{Setup};
ghost use Rattle.cct_model.specs.Script.{at_end, at_steps, no_devices, opens, refuses};
ghost use Rattle.cct_script.specs.Giving.{none_given, standing_of};
ghost use Rattle.cct_model.specs.Setup.{IsSoundSetup};
ghost use Rattle.cct_script.specs.Scripts.{GoesOnIn, IsClosedIn, IsNext, StopsIn, WithMoreTaken};
ghost use Rattle.cct_bench.specs.Run.{IsOfScript};
ghost use Rattle.cct_script.specs.Source.{OfBytes};
ghost use Rattle.cct_bench.specs.UpgradeScript.{WasRead, WasStopped, behind_word, of_upgrade};
ghost use Rattle.cct_bench.specs.UpgradeScript.{upgrade_form};

use crate::ending::{Ending, ending_at};
use crate::opening::read_setup;
use cct_edge::Source;
use cct_model::{LineKind, Setup};
use cct_script::{Lines, ScriptStop, before_end, behind_end};

const END: &[u8] = b"end";

/// Takes one whole line that may be `end` alone: another word is refused as `Word`, and `end` in
/// another form as `Form`.
fn take_end_line(line: &[u8]) -> Result<(), LineKind>
    ensures { (setup : Setup) → MatchResult result
        (λ _. upgrade_form (at_steps setup) line.now ≡ opens (at_end setup))
        (λ why. upgrade_form (at_steps setup) line.now ≡ refuses why) }
{
    match line.strip_prefix(END) {
        Some(rest) => take_rest(rest),
        None => Err(LineKind::Word),
    }
}

/// Takes what is in a line after the letters of `end`: nothing may, and what isn't parted from them
/// makes another word.
fn take_rest(rest: &[u8]) -> Result<(), LineKind>
    ensures { result ≡ behind_word rest.now }
{
    match rest {
        [] => Ok(()),
        [b' ', ..] => Err(LineKind::Form),
        _ => Err(LineKind::Word),
    }
}

/// Reads the line `end` of an upgrade's script, where the line has this number.
fn read_end<S: Source>(lines: &mut Lines, number: u32, script: &mut S) -> Result<(), ScriptStop>
    requires { IsNext number (standing_of lines.old) }
    ensures reads { OnOk result ((setup : Setup) → WithMoreTaken (standing_of lines.old).held (S.left script.old)
        (S.left script.new) (λ held. GoesOnIn of_upgrade number (at_steps setup) held (opens (at_end setup))
        (standing_of lines.new).held)) }
    ensures next { OnOk result (IsNext (number + 1) (standing_of lines.new)) }
    ensures stops { IfErr result (λ why. (setup : Setup) → WithMoreTaken (standing_of lines.old).held (S.left script.old)
        (S.left script.new) (StopsIn of_upgrade number (at_steps setup) why (S.left script.new))) }
    ensures source { Serves S.left S.faults script.old script.new (result ≡ Err ScriptStop.Unread) }
{
    let line = before_end(lines.line(script))?;
    match take_end_line(line) {
        Ok(()) => Ok(()),
        Err(kind) => Err(ScriptStop::Refused(kind)),
    }
}

/// Reads what is after the line `end` of an upgrade's script, which may be nothing.
fn read_nothing<S: Source>(lines: &mut Lines, script: &mut S) -> Result<(), ScriptStop>
    ensures closes { OnOk result ((number : ℕ) (setup : Setup) → WithMoreTaken (standing_of lines.old).held
        (S.left script.old) (S.left script.new) (IsClosedIn of_upgrade number (at_end setup) None (S.left script.new))) }
    ensures stops { IfErr result (λ why. (number : ℕ) (setup : Setup) → WithMoreTaken (standing_of lines.old).held
        (S.left script.old) (S.left script.new) (StopsIn of_upgrade number (at_end setup) why (S.left script.new))) }
    ensures source { Serves S.left S.faults script.old script.new (result ≡ Err ScriptStop.Unread) }
{
    behind_end(lines.line(script))
}

/// Reads the script of an upgrade up to its end, with its setup; or says how the upgrade ends.
pub fn read_upgrade<S: Source>(
    lines: &mut Lines,
    setup: &mut Setup,
    script: &mut S,
) -> Result<(), Ending>
    requires lines { standing_of lines.old ≡ none_given }
    requires setup { setup.old ≡ no_devices }
    ensures read { OnOk result (OfBytes (S.left script.old)
        (λ bytes. WasRead bytes (S.left script.new) setup.new)) }
    ensures sound { OnOk result (IsSoundSetup setup.new) }
    ensures stopped { IfErr result (λ how.
        OfBytes (S.left script.old) (λ bytes. WasStopped bytes (S.left script.new) how)) }
    ensures of_script { IfErr result IsOfScript }
    ensures source { Serves S.left S.faults script.old script.new (result ≡ Err Ending.Unread) }
{
    let number = read_setup(lines, setup, script)?;
    match read_end(lines, number, script) {
        Ok(()) => {}
        Err(why) => return Err(ending_at(number, why)),
    }
    match read_nothing(lines, script) {
        Ok(()) => Ok(()),
        Err(why) => Err(ending_at(number + 1, why)),
    }
}
