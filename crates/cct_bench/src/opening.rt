//! The setup of a script, line by line.
ghost use Rattle.std.specs.Prelude.{◌≡◌, ◌+◌, Err, Ok, IfOk, MatchResult};
ghost use Rattle.std.specs.Result.{IfErr};
ghost use Rattle.cct_edge.specs.Bytes.{Serves};
ghost use Rattle.cct_model.specs.Change.{clear_desk};
ghost use Rattle.cct_model.specs.Script.{at_setup, at_steps, no_devices, opens, refuses, read_form};
ghost use Rattle.cct_script.specs.Giving.{none_given, standing_of};
ghost use Rattle.cct_script.specs.Scripts.{IsNext, WithMoreTaken};
ghost use Rattle.cct_bench.specs.Lines.{ScriptGoesOn, StopsAt};
ghost use Rattle.cct_bench.specs.SetupLines.{OpensLine, SetupStops, TookOpening};
ghost use Rattle.cct_bench.specs.Setup.{stage_of, opened_by};
ghost use Rattle.cct_text.specs.Writing.{IsNothing, NeverBroke};
ghost use Rattle.cct_bench.specs.Disks.{Always};
ghost use Rattle.cct_bench.specs.Going.{Going, IsUnbegun};
ghost use Rattle.cct_script.specs.Source.{OfBytes};
ghost use Rattle.cct_bench.specs.Run.{BeforeSteps, IsOfScript, Played};

use crate::ending::{Ending, ending_at};
use cct_edge::Source;
use cct_model::{LineKind, Setup, SetupLine};
use cct_script::{Lines, ScriptStop, add, before_end, read_setup_line};

/// What a setup line does to the setup.
#[derive(Clone, Copy)]
enum Opened {
    /// It adds to it.
    Added,
    /// The setup is done, and the steps begin.
    Begun,
}

fn opened_by(line: &SetupLine) -> Opened
    ensures { result ≡ opened_by line.now }
{
    match line {
        SetupLine::Begin => Opened::Begun,
        _ => Opened::Added,
    }
}

/// Takes one whole setup line into the setup.
fn take_setup_line(setup: &mut Setup, line: &[u8]) -> Result<Opened, LineKind>
    ensures reads { MatchResult result
        (λ opened. read_form (at_setup setup.old) line.now ≡ opens (stage_of opened setup.new))
        (λ why. read_form (at_setup setup.old) line.now ≡ refuses why) }
{
    let said = read_setup_line(line)?;
    add(setup, &said)?;
    Ok(opened_by(&said))
}

/// Reads the next setup line of a script into the setup.
fn read_opening<S: Source>(
    lines: &mut Lines,
    setup: &mut Setup,
    number: u32,
    script: &mut S,
) -> Result<Opened, ScriptStop>
    requires { IsNext number (standing_of lines.old) }
    ensures reads { IfOk result (λ opened. WithMoreTaken (standing_of lines.old).held (S.left script.old) (S.left script.new)
        (λ held. ScriptGoesOn number (at_setup setup.old) held (opens (stage_of opened setup.new))
        (standing_of lines.new).held)) }
    ensures line { IfOk result (λ opened.
        OpensLine S.takes S.left number (at_setup setup.old) (stage_of opened setup.new)
        (standing_of lines.old).held (standing_of lines.new).held script.old script.new) }
    ensures next { IfOk result (λ opened. IsNext (number + 1) (standing_of lines.new)) }
    ensures stops { IfErr result (λ why. WithMoreTaken (standing_of lines.old).held (S.left script.old) (S.left script.new)
        (StopsAt number (at_setup setup.old) why (S.left script.new))) }
    ensures source { Serves S.left S.faults script.old script.new (result ≡ Err ScriptStop.Unread) }
{
    let line = before_end(lines.line(script))?;
    match take_setup_line(setup, line) {
        Ok(opened) => Ok(opened),
        Err(kind) => Err(ScriptStop::Refused(kind)),
    }
}

/// Reads the setup of a script, and gives the number of the line after it; or says how the run
/// ends.
pub fn read_setup<S: Source>(
    lines: &mut Lines,
    setup: &mut Setup,
    script: &mut S,
) -> Result<u32, Ending>
    requires lines { standing_of lines.old ≡ none_given }
    requires setup { setup.old ≡ no_devices }
    ensures opened { IfOk result (λ number.
        Going Always clear_desk (S.left script.old) (S.left script.new) (standing_of lines.new).held number (at_steps setup.new)
        IsUnbegun IsNothing) }
    ensures took { IfOk result (λ number.
        TookOpening S.takes S.left script.old script.new (standing_of lines.new).held number (at_steps setup.new)) }
    ensures next { IfOk result (λ number. IsNext number (standing_of lines.new)) }
    ensures ended { IfErr result (λ how.
        OfBytes (S.left script.old) (λ bytes.
        Played Always bytes how (S.left script.new) IsNothing NeverBroke BeforeSteps)) }
    ensures stopped { IfErr result (λ how. SetupStops (S.left script.old) (S.left script.new) how) }
    ensures of_script { IfErr result IsOfScript }
    ensures source { Serves S.left S.faults script.old script.new (result ≡ Err Ending.Unread) }
{
    let mut number = 1;
    loop {
        match read_opening(lines, setup, number, script) {
            Ok(Opened::Added) => number += 1,
            Ok(Opened::Begun) => return Ok(number + 1),
            Err(why) => return Err(ending_at(number, why)),
        }
    }
}
