//! What happens to the devices, line by line.
ghost use Rattle.std.specs.Prelude.{IfOk, IfSome};
ghost use Rattle.cct_model.specs.Family.{IsPlaced};
ghost use Rattle.cct_model.specs.Script.{IsInRange};

use crate::machine::Machine;
use crate::status::{Refused, Stop, Text};
use cct_edge::Source;
use cct_model::{Happening, LineKind, Step};
use cct_script::{Line, Lines, LinesNo, read_step_line};

/// Something that happens to the device at an address.
#[derive(Clone, Copy)]
pub(crate) struct Event {
    pub(crate) addr: u8,
    pub(crate) what: Happening,
}

/// The events of a text that weren't read yet.
#[derive(Drop)]
pub(crate) struct Events<S> {
    source: S,
    lines: Lines,
    /// How many lines were read.
    number: u32,
}

impl<S: Source> Events<S> {
    /// All events of a text.
    pub(crate) fn new(source: S) -> Events<S> {
        Events {
            source,
            lines: Lines::new(),
            number: 0,
        }
    }

    /// Lets the next event happen to its device: true then, and false where there is none left.
    pub(crate) fn befall_next(&mut self, machine: &mut Machine<'_>) -> Result<bool, Stop> {
        let number = self.number.saturating_add(1);
        let line = match next_line(number, self.lines.line(&mut self.source))? {
            None => return Ok(false),
            Some(line) => line,
        };
        self.number = number;
        match read_event(line) {
            Ok(event) if machine.befall(event.addr, event.what) => Ok(true),
            Ok(_) => Err(refused(number, LineKind::Device)),
            Err(kind) => Err(refused(number, kind)),
        }
    }
}

/// The next line of the events, or none at their end, by what the reader of lines answers.
fn next_line(number: u32, answer: Result<Line<'_>, LinesNo>) -> Result<Option<&[u8]>, Stop> {
    let kind = match answer {
        Ok(Line::Text(line)) => return Ok(Some(line)),
        Ok(Line::End) => return Ok(None),
        Err(LinesNo::Read) => return Err(Stop::Read),
        Err(LinesNo::Long) => LineKind::Long,
        Err(LinesNo::Cut) => LineKind::Cut,
        Err(LinesNo::TooMany) => LineKind::Lines,
    };
    Err(refused(number, kind))
}

/// An events line is refused.
fn refused(number: u32, kind: LineKind) -> Stop {
    Stop::Line(Text::Events, Refused { number, kind })
}

/// What an events line says: `coin`, `alien`, `bill`, `fall`, `jam` or `reset`. No other word is
/// one of an events line.
fn read_event(line: &[u8]) -> Result<Event, LineKind>
    ensures { IfOk result (λ event. IsPlaced event.what) }
{
    let (addr, what) = match read_step_line(line)? {
        Step::Coin { addr, place } => (addr, Happening::Coin { place }),
        Step::Alien { addr } => (addr, Happening::Alien),
        Step::Bill { addr, place } => (addr, Happening::Bill { place }),
        Step::Fall { addr } => (addr, Happening::Fall),
        Step::Jam { addr } => (addr, Happening::Jam),
        Step::Reset { addr } => (addr, Happening::Reset),
        _ => return Err(LineKind::Word),
    };
    Ok(Event { addr, what })
}
