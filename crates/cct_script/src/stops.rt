//! What the answers of the reader of lines are to a script of any kind: its next line, its end, or
//! why it is read no further.
ghost use Rattle.std.specs.Prelude.{◌≡◌};
ghost use Rattle.cct_script.specs.Giving.{line_given};
ghost use Rattle.cct_script.specs.Scripts.{before_end, behind_end, read_of};

use crate::lines::{Line, LinesNo};
use cct_model_lines::LineKind;

/// Why a script is read no further.
#[derive(Clone, Copy, Debug, PartialEq, Eq)]
pub enum ScriptStop {
    /// Reading failed.
    Unread,
    /// The line is refused.
    Refused(LineKind),
}

/// The next line of a script that hasn't ended, by what the reader of lines answers.
pub fn before_end(answer: Result<Line<'_>, LinesNo>) -> Result<&[u8], ScriptStop>
    ensures { read_of result ≡ before_end (line_given answer.entry) }
{
    match answer {
        Ok(Line::Text(line)) => Ok(line),
        Ok(Line::End) => Err(ScriptStop::Refused(LineKind::Cut)),
        Err(LinesNo::Cut) => Err(ScriptStop::Refused(LineKind::Cut)),
        Err(LinesNo::Long) => Err(ScriptStop::Refused(LineKind::Long)),
        Err(LinesNo::TooMany) => Err(ScriptStop::Refused(LineKind::Lines)),
        Err(LinesNo::Read) => Err(ScriptStop::Unread),
    }
}

/// Whether nothing follows the line `end`, by what the reader of lines answers.
pub fn behind_end(answer: Result<Line<'_>, LinesNo>) -> Result<(), ScriptStop>
    ensures { result ≡ behind_end (line_given answer.entry) }
{
    match answer {
        Ok(Line::End) => Ok(()),
        Err(LinesNo::Read) => Err(ScriptStop::Unread),
        _ => Err(ScriptStop::Refused(LineKind::Trailing)),
    }
}
