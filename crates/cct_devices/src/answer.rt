//! The devices hear the line, and answer.
ghost use Rattle.std.specs.Prelude.{◌≡◌, ◌≤◌, ℕ, List, [], ◌∷◌, ◌++◌, IfOk, Ok, OnOk, false, true};
ghost use Rattle.cct_model.specs.lines.entry.Entry.{Entry};
ghost use Rattle.cct_live_port.specs.Answer.{is_complete};
ghost use Rattle.cct_devices.specs.Machine.{HasActed, StandsFor, answered_to, setup_of};
ghost use Rattle.cct_devices.specs.Line.{Says};

use crate::events::Events;
use crate::machine::Machine;
use crate::status::Stop;
use arrayvec::ArrayVec;
use cct_edge::{Failed, Source};
use cct_live_port::Line;

/// How many bytes are heard in one call at most.
const ROOM: usize = 256;

/// After so many silences one after another, in which no event is left, the line is at its end.
pub(crate) const MOST_SILENCES: u32 = 600;

/// The devices hear the line, and answer each message once it is whole. At each silence the next
/// event happens to its device. At the end of the line, nothing is left to do.
pub(crate) fn answer<S: Source, L: Line>(
    machine: &mut Machine<'_>,
    events: &mut Events<S>,
    line: &mut L,
    echoes: bool,
) -> Result<(), Stop> {
    let mut room = [0; ROOM];
    let mut silences: u32 = 0;
    for _ in 0..u64::MAX {
        let count = read(line, &mut room)?;
        if count > 0 {
            silences = 0;
            take(machine, line, &room[..count], echoes)?;
            continue;
        }
        machine.gap();
        if !events.befall_next(machine)? {
            silences = silences.saturating_add(1);
        }
        if silences >= MOST_SILENCES {
            break;
        }
    }
    Ok(())
}

/// Hears the next bytes of the line: how many they are, 0 at a silence.
fn read<L: Line>(line: &mut L, room: &mut [u8; ROOM]) -> Result<usize, Stop>
    ensures { IfOk result (λ count. count ≤ ROOM) }
{
    line.read(room).map_err(|_| Stop::Read)
}

/// The devices hear bytes, which are written back first where the line echoes.
fn take<L: Line>(
    machine: &mut Machine<'_>,
    line: &mut L,
    piece: &[u8],
    echoes: bool,
) -> Result<(), Stop> {
    if echoes {
        say(line, piece)?;
    }
    for byte in piece {
        hear(machine, line, *byte)?;
    }
    Ok(())
}

/// The devices hear one byte more. What they answer, once the message is whole, is said at once.
fn hear<L: Line>(machine: &mut Machine<'_>, line: &mut L, byte: u8) -> Result<(), Stop>
    ensures setup { setup_of machine.new ≡ setup_of machine.old }
    ensures more { OnOk result ((past : List Entry) (bytes : List ℕ) → StandsFor machine.old past bytes
        → is_complete (bytes ++ byte ∷ []) ≡ false
        → (line.new ≡ line.old) × StandsFor machine.new past (bytes ++ byte ∷ [])) }
    ensures whole { OnOk result ((past : List Entry) (bytes : List ℕ) → StandsFor machine.old past bytes
        → is_complete (bytes ++ byte ∷ []) ≡ true
        → Says L.writes line.old (answered_to (setup_of machine.old) past (bytes ++ byte ∷ [])) line.new
        × HasActed (setup_of machine.old) past (bytes ++ byte ∷ []) machine.new) }
{
    let mut said = ArrayVec::new();
    machine.hear(byte, &mut said);
    if said.is_empty() {
        return Ok(());
    }
    say(line, said.as_slice())
}

/// Says bytes on the line.
fn say<L: Line>(line: &mut L, bytes: &[u8]) -> Result<(), Stop>
    ensures { OnOk result (L.writes line.old bytes.now (Ok tt) line.new) }
{
    match line.write(bytes) {
        Ok(()) => Ok(()),
        Err(Failed) => Err(Stop::Write),
    }
}
