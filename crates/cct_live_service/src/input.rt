//! The lines of the input: what is said to the host, and what is asked of its journal
//! (`docs/LIVE.md`).
ghost use Rattle.std.specs.Prelude.{◌≡◌, IfOk};
ghost use Rattle.cct_live_service.specs.Input.{IsToldInput, begins_with_state, input_line};

use cct_model::LineKind;
use cct_script::{LiveLine, read_live_line};

/// The line that asks what the journal knows.
const STATE: &[u8] = b"state";

/// What a line of the input says.
#[derive(Clone, Copy, PartialEq, Eq)]
pub enum InputLine {
    /// What it says to the host.
    Host(LiveLine),
    /// `state`: what the journal knows now is reported.
    State,
}

/// What a line of the input says, without its line feed: `state`, or a line of the host. `Form`
/// where something is after the word `state`; else why it is no line of the host.
pub(crate) fn read_input_line(line: &[u8]) -> Result<InputLine, LineKind>
    ensures reads { result ≡ input_line line.now }
    ensures told { IfOk result IsToldInput }
{
    if line == STATE {
        return Ok(InputLine::State);
    }
    if begins_with_state(line) {
        return Err(LineKind::Form);
    }
    match read_live_line(line) {
        Ok(said) => Ok(InputLine::Host(said)),
        Err(kind) => Err(kind),
    }
}

/// Whether a line begins with the word `state` and a space.
fn begins_with_state(line: &[u8]) -> bool
    ensures { result ≡ begins_with_state line.now }
{
    match line {
        [b's', b't', b'a', b't', b'e', b' ', ..] => true,
        _ => false,
    }
}
