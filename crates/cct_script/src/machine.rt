//! The setup of a machine, from the setup lines of a text.
ghost use Rattle.std.specs.Prelude.{◌≡◌, Err, IfOk};
ghost use Rattle.cct_edge.specs.Bytes.{Serves};
ghost use Rattle.cct_model_lines.specs.Setup.{IsSoundSetup};

use crate::adding::add;
use crate::lines::{Line, Lines, LinesNo};
use crate::setup::read_setup_line;
use cct_edge::Source;
use cct_model_lines::{Devices, LineKind, MOST_LINES, Setup, SetupLine};
use thiserror::Error;

/// Why a text gives no setup.
#[derive(Clone, Copy, Debug, Drop, Error, PartialEq, Eq)]
pub enum SetupNo {
    /// The source failed.
    #[error("the setup can't be read")]
    Read,
    /// The line of this number, counted from 1, is refused: it says nothing, adds nothing that can
    /// be, is too long, is cut off by the end of the text, or comes after 1,048,576 others.
    #[error("line {number} of the setup is refused: {kind}")]
    Line { number: u32, kind: LineKind },
}

/// Reads the setup that a text says by its setup lines (`docs/SCRIPT.md`): those up to `begin`, or
/// all where none is `begin`. Of what follows `begin` nothing is looked at. A text without a line
/// is a setup without a device.
pub fn read_setup<S: Source>(source: &mut S) -> Result<Setup, SetupNo>
    ensures sound { IfOk result IsSoundSetup }
    // `Read` comes only where the source failed.
    ensures serves { Serves S.left S.faults source.old source.new (result ≡ Err SetupNo.Read) }
{
    let mut lines = Lines::new();
    let mut setup = Setup {
        devices: Devices::new(),
    };
    for number in 1..=MOST_LINES + 1 {
        let line = match lines.line(source) {
            Ok(Line::Text(line)) => line,
            Ok(Line::End) => break,
            Err(why) => return Err(stopped_at(number, why)),
        };
        match take_line(&mut setup, line) {
            Ok(true) => {}
            Ok(false) => break,
            Err(kind) => return Err(SetupNo::Line { number, kind }),
        }
    }
    Ok(setup)
}

/// Takes a line into the setup, and says whether another may follow.
fn take_line(setup: &mut Setup, line: &[u8]) -> Result<bool, LineKind>
    ensures { IsSoundSetup setup.old → IsSoundSetup setup.new }
{
    let said = read_setup_line(line)?;
    add(setup, &said)?;
    Ok(match said {
        SetupLine::Begin => false,
        _ => true,
    })
}

/// Why a text isn't read further at the line of this number.
fn stopped_at(number: u32, why: LinesNo) -> SetupNo
    ensures { result ≡ SetupNo.Read → why ≡ LinesNo.Read }
{
    let kind = match why {
        LinesNo::Read => return SetupNo::Read,
        LinesNo::Long => LineKind::Long,
        LinesNo::Cut => LineKind::Cut,
        LinesNo::TooMany => LineKind::Lines,
    };
    SetupNo::Line { number, kind }
}
