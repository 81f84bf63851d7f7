//! A setup that is read from a file, with what is wrong with it.
ghost use Rattle.std.specs.Prelude.{IfOk};
ghost use Rattle.cct_model_lines.specs.Setup.{IsSoundSetup};

use crate::advice::setup_advice;
use crate::kept::KeptSource;
use cct_edge::Source;
use cct_model_lines::Setup;
use cct_script::{SetupNo, read_setup};

/// Reads a setup for this program, and says on standard error what is wrong with its refused line,
/// if it has one.
pub fn read_advised_setup<S: Source + Drop>(
    rt: &impl Eprint,
    program: &str,
    source: S,
) -> Result<Setup, SetupNo>
    ensures sound { IfOk result IsSoundSetup }
{
    let mut source = KeptSource::new(source);
    match read_setup(&mut source) {
        Ok(setup) => Ok(setup),
        Err(why) => {
            if let SetupNo::Line { number, kind } = why
                && let Some(advice) = setup_advice(source.window(), number, kind)
            {
                let _ = eprintln!(rt; "{program}: setup {advice}");
            }
            Err(why)
        }
    }
}
