//! The step lines of a script.
ghost use Rattle.std.specs.Prelude.{◌≡◌, ◌+◌, false, Err, IfOk, OnOk, MatchResult};
ghost use Rattle.std.specs.Result.{IfErr};
ghost use Rattle.cct_edge.specs.Bytes.{Serves};
ghost use Rattle.cct_model.specs.Script.{at_steps, refuses, read_form};
ghost use Rattle.cct_script.specs.Giving.{standing_of};
ghost use Rattle.cct_world.specs.World.{setup_of};
ghost use Rattle.cct_script.specs.Scripts.{IsNext, WithMoreTaken};
ghost use Rattle.cct_bench.specs.Lines.{ScriptGoesOn, StopsAt};
ghost use Rattle.cct_bench.specs.Playing.{is_end, read_as, CanPlay};
ghost use Rattle.cct_bench.specs.Rooms.{step_in};

use cct_disk::Disk;
use cct_edge::Source;
use cct_model::{LineKind, Step};
use cct_script::{Lines, ScriptStop, before_end, read_step_into};
use cct_world::World;

/// Rooms for a step, one of which holds the step that was read last. A step is wide: in the place
/// of one of its kind only what it holds is set.
#[derive(Drop)]
pub struct StepRooms {
    /// Mostly for a `next`.
    attempt: Step,
    /// Mostly for a `round` or a `pay`.
    command: Step,
    /// Mostly for what happens to a device.
    other: Step,
}

/// One of the rooms for a step.
#[derive(Clone, Copy)]
pub enum Room {
    Attempt,
    Command,
    Other,
}

impl StepRooms {
    ghost use Rattle.cct_bench.specs.Rooms.{step_in};

    /// The step `end` in each.
    pub fn new() -> Self {
        StepRooms {
            attempt: Step::End,
            command: Step::End,
            other: Step::End,
        }
    }

    /// The step that stands in a room.
    #[inline(always)]
    pub fn step(&self, room: Room) -> &Step
        ensures { result.now ≡ step_in self.now room }
    {
        match room {
            Room::Attempt => &self.attempt,
            Room::Command => &self.command,
            Room::Other => &self.other,
        }
    }
}

/// Whether a step is `end`.
pub fn is_end(step: &Step) -> bool
    ensures { result ≡ is_end step.now }
{
    matches!(step, Step::End)
}

/// Reads what one whole step line says into the room for a step.
#[inline(always)]
fn take_step_line<D: Disk>(
    world: &World<'_, D>,
    line: &[u8],
    step: &mut Step,
) -> Result<(), LineKind>
    ensures reads { MatchResult result
        (λ _. read_form (at_steps (setup_of world.now)) line.now ≡ read_as (setup_of world.now) step.new)
        (λ why. read_form (at_steps (setup_of world.now)) line.now ≡ refuses why) }
    ensures can { OnOk result (is_end step.new ≡ false → CanPlay (setup_of world.now) step.new) }
{
    match read_step_into(line, step) {
        Ok(()) => {}
        Err(why) => return Err(why),
    }
    if !world.knows(step) {
        return Err(LineKind::Device);
    }
    Ok(())
}

/// Reads what one whole step line says into one of the rooms for a step, by its first letter, and
/// says into which.
#[inline(always)]
fn take_line_into<D: Disk>(
    world: &World<'_, D>,
    line: &[u8],
    rooms: &mut StepRooms,
) -> Result<Room, LineKind>
    ensures reads { MatchResult result
        (λ room. read_form (at_steps (setup_of world.now)) line.now
        ≡ read_as (setup_of world.now) (step_in rooms.new room))
        (λ why. read_form (at_steps (setup_of world.now)) line.now ≡ refuses why) }
    ensures can { IfOk result (λ room. is_end (step_in rooms.new room) ≡ false
        → CanPlay (setup_of world.now) (step_in rooms.new room)) }
{
    match line {
        [b'n', ..] => {
            take_step_line(world, line, &mut rooms.attempt)?;
            Ok(Room::Attempt)
        }
        [b'p' | b'r', ..] => {
            take_step_line(world, line, &mut rooms.command)?;
            Ok(Room::Command)
        }
        _ => {
            take_step_line(world, line, &mut rooms.other)?;
            Ok(Room::Other)
        }
    }
}

/// Reads the next step line of a script into one of the rooms for a step, and says into which.
pub fn read_step<S: Source, D: Disk>(
    lines: &mut Lines,
    world: &World<'_, D>,
    number: u32,
    script: &mut S,
    rooms: &mut StepRooms,
) -> Result<Room, ScriptStop>
    requires { IsNext number (standing_of lines.old) }
    ensures reads { IfOk result (λ room. WithMoreTaken (standing_of lines.old).held (S.left script.old) (S.left script.new)
        (λ held. ScriptGoesOn number (at_steps (setup_of world.now)) held
        (read_as (setup_of world.now) (step_in rooms.new room)) (standing_of lines.new).held)) }
    ensures can { IfOk result (λ room. is_end (step_in rooms.new room) ≡ false
        → CanPlay (setup_of world.now) (step_in rooms.new room)) }
    ensures next { OnOk result (IsNext (number + 1) (standing_of lines.new)) }
    ensures stops { IfErr result (λ why. WithMoreTaken (standing_of lines.old).held (S.left script.old) (S.left script.new)
        (StopsAt number (at_steps (setup_of world.now)) why (S.left script.new))) }
    ensures source { Serves S.left S.faults script.old script.new (result ≡ Err ScriptStop.Unread) }
{
    let line = before_end(lines.line(script))?;
    match take_line_into(world, line, rooms) {
        Ok(room) => Ok(room),
        Err(kind) => Err(ScriptStop::Refused(kind)),
    }
}
