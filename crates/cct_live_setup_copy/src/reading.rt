//! A setup that was written is read back.
ghost use Rattle.std.specs.Prelude.{◌≡◌, Err, IfOk, IfSome, IsErrOf};
ghost use Rattle.cct_edge.specs.Bytes.{Serves};
ghost use Rattle.cct_model_lines.specs.Setup.{IsSoundSetup};

use cct_edge::Source;
use cct_model_lines::{Devices, LineKind, MOST_LINES, Setup, SetupLine};
use cct_script::{Line, Lines, LinesNo, SetupNo, add, read_setup_line};

/// Reads a setup that was written whole: setup lines, of which `begin` is the last one and ends the
/// text; `None` where the text is empty. Any other text is refused, by its first line that isn't
/// so, so a front of a setup is never taken for one.
pub fn read_copy<S: Source>(source: &mut S) -> Result<Option<Setup>, SetupNo>
    ensures sound { IfOk result (λ found. IfSome found IsSoundSetup) }
    // `Read` comes only where the source failed.
    ensures serves { Serves S.left S.faults source.old source.new (result ≡ Err SetupNo.Read) }
{
    let mut lines = Lines::new();
    let mut setup = Setup {
        devices: Devices::new(),
    };
    for number in 1..=MOST_LINES {
        let line = match lines.line(source) {
            Ok(Line::Text(line)) => line,
            Ok(Line::End) => return ended_at(number),
            Err(why) => return Err(stopped_at(number, why)),
        };
        match take_line(&mut setup, line) {
            Ok(true) => {}
            Ok(false) => return ends_with(setup, number, lines.line(source)),
            Err(kind) => return Err(SetupNo::Line { number, kind }),
        }
    }
    Err(torn_at(MOST_LINES))
}

/// Takes a line into the setup, and says whether another may follow.
fn take_line(setup: &mut Setup, line: &[u8]) -> Result<bool, LineKind>
    ensures { IsSoundSetup setup.old → IsSoundSetup setup.new }
{
    let said = read_setup_line(line)?;
    add(setup, &said)?;
    Ok(match said {
        SetupLine::Begin => false,
        _ => true,
    })
}

/// The setup that was read up to the line `begin`, which has this number, if nothing follows it.
fn ends_with(
    setup: Setup,
    number: u32,
    answer: Result<Line<'_>, LinesNo>,
) -> Result<Option<Setup>, SetupNo>
    ensures sound { IsSoundSetup setup → IfOk result (λ found. IfSome found IsSoundSetup) }
    ensures read { result ≡ Err SetupNo.Read → IsErrOf answer.entry LinesNo.Read }
{
    match answer {
        Ok(Line::End) => Ok(Some(setup)),
        Err(LinesNo::Read) => Err(SetupNo::Read),
        _ => Err(SetupNo::Line {
            number,
            kind: LineKind::Trailing,
        }),
    }
}

/// A text that ends before the line of this number, and no `begin` came: it is no setup, unless it
/// is empty.
fn ended_at(number: u32) -> Result<Option<Setup>, SetupNo>
    ensures sound { IfOk result (λ found. IfSome found IsSoundSetup) }
    ensures read { result ≡ Err SetupNo.Read → ⊥ }
{
    if number == 1 {
        return Ok(None);
    }
    Err(torn_at(number))
}

/// The text ends before the line of this number, and no `begin` came.
fn torn_at(number: u32) -> SetupNo
    ensures { result ≡ SetupNo.Read → ⊥ }
{
    SetupNo::Line {
        number,
        kind: LineKind::Cut,
    }
}

/// Why a text isn't read further at the line of this number.
fn stopped_at(number: u32, why: LinesNo) -> SetupNo
    ensures { result ≡ SetupNo.Read → why ≡ LinesNo.Read }
{
    let kind = match why {
        LinesNo::Read => return SetupNo::Read,
        LinesNo::Long => LineKind::Long,
        LinesNo::Cut => LineKind::Cut,
        LinesNo::TooMany => LineKind::Lines,
    };
    SetupNo::Line { number, kind }
}
