//! The next line of a script that is proofread.
ghost use Rattle.std.specs.Prelude.{◌≡◌, ◌+◌, Err, IfOk};
ghost use Rattle.std.specs.Result.{IfErr};
ghost use Rattle.cct_edge.specs.Bytes.{Serves};
ghost use Rattle.cct_script.specs.Giving.{standing_of};
ghost use Rattle.cct_script.specs.Scripts.{GoesOnIn, IsNext, StopsIn, WithMoreTaken};
ghost use Rattle.cct_script_check.specs.Parts.{Keeps, mark_as, stage_of};
ghost use Rattle.cct_script_check.specs.Proof.{of_proof};

use crate::taking::{Looked, Part, take_line};
use cct_edge::Source;
use cct_model_lines::{Setup, Step};
use cct_script::{Lines, ScriptStop, before_end};

/// Reads the next line of a script that hasn't ended, and takes it into the setup; or says why the
/// script is read no further.
pub(crate) fn look_on<S: Source>(
    lines: &mut Lines,
    part: Part,
    setup: &mut Setup,
    step: &mut Step,
    number: u32,
    script: &mut S,
) -> Result<Looked, ScriptStop>
    requires { IsNext number (standing_of lines.old) }
    ensures reads { IfOk result (λ looked. WithMoreTaken (standing_of lines.old).held (S.left script.old) (S.left script.new)
        (λ held. GoesOnIn of_proof number (stage_of part setup.old) held (mark_as looked setup.new)
        (standing_of lines.new).held)) }
    ensures keeps { IfOk result (λ looked. Keeps looked setup.old setup.new) }
    ensures next { IfOk result (λ looked. IsNext (number + 1) (standing_of lines.new)) }
    ensures stops { IfErr result (λ why. WithMoreTaken (standing_of lines.old).held (S.left script.old) (S.left script.new)
        (StopsIn of_proof number (stage_of part setup.old) why (S.left script.new))) }
    ensures source { Serves S.left S.faults script.old script.new (result ≡ Err ScriptStop.Unread) }
{
    let line = before_end(lines.line(script))?;
    Ok(take_line(part, setup, line, step))
}
