//! What one whole line is to a script that is proofread.
ghost use Rattle.std.specs.Prelude.{◌≡◌};
ghost use Rattle.cct_model_lines.specs.Script.{at_setup, at_steps};
ghost use Rattle.cct_script_check.specs.Parts.{Takes, looked_behind, part_after, stage_of};
ghost use Rattle.cct_script_check.specs.Proof.{mark_form};

use crate::knowing::knows;
use cct_model_lines::{LineKind, Setup, SetupLine, Step};
use cct_script::{add, read_setup_line, read_step_into};

/// Which lines stand next in a script that hasn't ended.
#[derive(Clone, Copy)]
pub(crate) enum Part {
    /// Those of its setup.
    Setup,
    /// Its steps.
    Steps,
}

/// What a line was found to be.
#[derive(Clone, Copy)]
pub(crate) enum Looked {
    /// A line of the script, after which such lines stand.
    Goes(Part),
    /// The line `end`.
    Ends,
    /// Refused.
    Refused(LineKind),
}

/// Takes a whole line of a script that hasn't ended. Where it is refused, the setup stays as it is.
pub(crate) fn take_line(part: Part, setup: &mut Setup, line: &[u8], step: &mut Step) -> Looked
    ensures { Takes (mark_form (stage_of part setup.old) line.now) setup.old setup.new result }
{
    match part {
        Part::Setup => take_setup_line(setup, line),
        Part::Steps => take_step_line(setup, line, step),
    }
}

/// Takes a whole line of the setup.
#[tactic(auto, using(crate::proofs::Marks::setup_refused, crate::proofs::Marks::setup_adds, crate::proofs::Marks::setup_adds_not))]
fn take_setup_line(setup: &mut Setup, line: &[u8]) -> Looked
    ensures { Takes (mark_form (at_setup setup.old) line.now) setup.old setup.new result }
{
    let said = match read_setup_line(line) {
        Ok(said) => said,
        Err(why) => return Looked::Refused(why),
    };
    match add(setup, &said) {
        Ok(()) => Looked::Goes(part_after(&said)),
        Err(why) => Looked::Refused(why),
    }
}

/// Which lines stand after a line of the setup.
fn part_after(said: &SetupLine) -> Part
    ensures { result ≡ part_after said.now }
{
    match said {
        SetupLine::Begin => Part::Steps,
        _ => Part::Setup,
    }
}

/// Takes a whole line of a step.
#[tactic(auto, using(crate::proofs::Marks::step_refused, crate::proofs::Marks::step_unknown, crate::proofs::Marks::step_goes))]
fn take_step_line(setup: &Setup, line: &[u8], step: &mut Step) -> Looked
    ensures { Takes (mark_form (at_steps setup.now) line.now) setup.now setup.now result }
{
    match read_step_into(line, step) {
        Ok(()) => {}
        Err(why) => return Looked::Refused(why),
    }
    if !knows(setup, step) {
        return Looked::Refused(LineKind::Device);
    }
    looked_behind(step)
}

/// What the line of a step is that is taken.
fn looked_behind(step: &Step) -> Looked
    ensures { result ≡ looked_behind step.now }
{
    match step {
        Step::End => Looked::Ends,
        _ => Looked::Goes(Part::Steps),
    }
}
