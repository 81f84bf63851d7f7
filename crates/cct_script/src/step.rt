//! The step lines of a script (`docs/SCRIPT.md`).
ghost use Rattle.std.specs.Prelude.{◌≡◌, ◌∷◌, Ok, Err, IfOk, MatchResult, OnOk};
ghost use Rattle.std.specs.List.{slice_split};
ghost use Rattle.cct_model_lines.specs.Grammar.{is_space, step_line};
ghost use Rattle.cct_model_lines.specs.Script.{IsInRange};
ghost use Rattle.cct_model_lines.specs.declared.command.Step.TheVariants as steps;
ghost use Rattle.cct_script.specs.Fields.{fields_after};
ghost use Rattle.cct_script.specs.Steps.{ReadsInto, desk_step, device_step, epoch_step, next_step};
ghost use Rattle.cct_script.specs.Steps.{order_step, other_step};

use crate::fields::first_field;
use crate::step_fields::{
    addr, bill_into, change_into, coin_into, crash_into, fault_into, nothing, path_into, pay_into,
    route_into, set_command, start_into, stock_into, vend_into,
};
use cct_model_lines::{Command, LineKind, Step};

const NEXT: &[u8] = b"next";

const COIN: &[u8] = b"coin";

const ALIEN: &[u8] = b"alien";

const BILL: &[u8] = b"bill";

const FALL: &[u8] = b"fall";

const JAM: &[u8] = b"jam";

const RESET: &[u8] = b"reset";

const FAULT: &[u8] = b"fault";

const START: &[u8] = b"start";

const ROUND: &[u8] = b"round";

const STOP: &[u8] = b"stop";

const SETTLE: &[u8] = b"settle";

const HALT: &[u8] = b"halt";

const IDENT: &[u8] = b"ident";

const PAY: &[u8] = b"pay";

const SCAN: &[u8] = b"scan";

const PATH: &[u8] = b"path";

const ROUTE: &[u8] = b"route";

const VEND: &[u8] = b"vend";

const CRASH: &[u8] = b"crash";

const BALANCE: &[u8] = b"balance";

const STOCK: &[u8] = b"stock";

const CHANGE: &[u8] = b"change";

const SERVE: &[u8] = b"serve";

const END: &[u8] = b"end";

/// Puts into `step` what the word of a step line says that is `next`: the next attempt of a job; or
/// another word. Most lines have this one, so it is looked for first.
#[tactic(auto, unfolding(crate::specs::Steps::next_step))]
#[inline(always)]
fn next_step(word: &[u8], rest: Option<&[u8]>, step: &mut Step) -> Result<(), LineKind>
    ensures { ReadsInto result step.new (next_step word.now (fields_after rest.entry)) }
{
    match word {
        [b'n', b'e', b'x', b't'] => {
            set_next(addr(rest)?, step);
            Ok(())
        }
        _ => device_step(word, rest, step),
    }
}

/// Puts into `step` what the word of a step line says that is `coin`, `alien`, `bill`, `fall`,
/// `jam` or `reset`: what happens to a device; or another word. In a function of its own it takes
/// nothing where a line is a `next`.
#[tactic(auto, unfolding(crate::specs::Steps::device_step))]
#[inline(never)]
fn device_step(word: &[u8], rest: Option<&[u8]>, step: &mut Step) -> Result<(), LineKind>
    ensures { ReadsInto result step.new (device_step word.now (fields_after rest.entry)) }
{
    match word {
        _ if word == COIN => coin_into(rest, step).ok_or(LineKind::Form)?,
        _ if word == ALIEN => *step = Step::Alien { addr: addr(rest)? },
        _ if word == BILL => bill_into(rest, step).ok_or(LineKind::Form)?,
        _ if word == FALL => set_fall(addr(rest)?, step),
        _ if word == JAM => *step = Step::Jam { addr: addr(rest)? },
        _ if word == RESET => *step = Step::Reset { addr: addr(rest)? },
        _ => return epoch_step(word, rest, step),
    }
    Ok(())
}

/// Puts into `step` what the word of a step line says that is `fault`, `start`, `round` or `stop`:
/// what is wrong on the wire, or a command of an epoch; or another word.
#[tactic(auto, unfolding(crate::specs::Steps::epoch_step))]
fn epoch_step(word: &[u8], rest: Option<&[u8]>, step: &mut Step) -> Result<(), LineKind>
    ensures { ReadsInto result step.new (epoch_step word.now (fields_after rest.entry)) }
{
    match word {
        _ if word == FAULT => fault_into(rest, step).ok_or(LineKind::Form)?,
        _ if word == START => start_into(rest, step).ok_or(LineKind::Form)?,
        _ if word == ROUND => set_command(Command::Round { addr: addr(rest)? }, step),
        _ if word == STOP => set_command(Command::Stop { addr: addr(rest)? }, step),
        _ => return order_step(word, rest, step),
    }
    Ok(())
}

/// Makes a step a `next`. A step is wide: where a `next` stands already, only its address is set.
fn set_next(addr: u8, step: &mut Step)
    ensures { step.new ≡ steps.Next addr }
{
    match step {
        Step::Next { addr: at } => *at = addr,
        _ => *step = Step::Next { addr },
    }
}

/// Makes a step the fall of a coin. Where one stands already, only its address is set.
fn set_fall(addr: u8, step: &mut Step)
    ensures { step.new ≡ steps.Fall addr }
{
    match step {
        Step::Fall { addr: at } => *at = addr,
        _ => *step = Step::Fall { addr },
    }
}

/// Puts into `step` what the word of a step line says that is `settle`, `halt`, `ident`, `pay` or
/// `scan`: a command to a hopper, or one that asks of devices; or another word.
#[tactic(auto, unfolding(crate::specs::Steps::order_step))]
fn order_step(word: &[u8], rest: Option<&[u8]>, step: &mut Step) -> Result<(), LineKind>
    ensures { ReadsInto result step.new (order_step word.now (fields_after rest.entry)) }
{
    match word {
        _ if word == SETTLE => set_command(Command::Settle { addr: addr(rest)? }, step),
        _ if word == HALT => set_command(Command::Halt { addr: addr(rest)? }, step),
        _ if word == IDENT => set_command(Command::Ident { addr: addr(rest)? }, step),
        _ if word == PAY => pay_into(rest, step).ok_or(LineKind::Form)?,
        _ if word == SCAN => {
            nothing(rest)?;
            set_command(Command::Scan, step);
        }
        _ => return other_step(word, rest, step),
    }
    Ok(())
}

/// Puts into `step` what the word of a step line says that is `path`, `route`, `vend` or `crash`:
/// another command, or a power cut; or another word.
#[tactic(auto, unfolding(crate::specs::Steps::other_step))]
fn other_step(word: &[u8], rest: Option<&[u8]>, step: &mut Step) -> Result<(), LineKind>
    ensures { ReadsInto result step.new (other_step word.now (fields_after rest.entry)) }
{
    match word {
        _ if word == PATH => path_into(rest, step).ok_or(LineKind::Form)?,
        _ if word == ROUTE => route_into(rest, step).ok_or(LineKind::Form)?,
        _ if word == VEND => vend_into(rest, step).ok_or(LineKind::Form)?,
        _ if word == CRASH => crash_into(rest, step).ok_or(LineKind::Form)?,
        _ => return desk_step(word, rest, step),
    }
    Ok(())
}

/// Puts into `step` what the word of a step line says that is `balance`, `stock`, `change`, `serve`
/// or `end`: what the operator reads, says of a stock or wants of a session of change, or the end;
/// any other word is none.
#[tactic(auto, unfolding(crate::specs::Steps::desk_step))]
fn desk_step(word: &[u8], rest: Option<&[u8]>, step: &mut Step) -> Result<(), LineKind>
    ensures { ReadsInto result step.new (desk_step word.now (fields_after rest.entry)) }
{
    match word {
        _ if word == BALANCE => {
            nothing(rest)?;
            *step = Step::Balance;
        }
        _ if word == STOCK => stock_into(rest, step).ok_or(LineKind::Form)?,
        _ if word == CHANGE => change_into(rest, step).ok_or(LineKind::Form)?,
        _ if word == SERVE => {
            nothing(rest)?;
            *step = Step::Serve;
        }
        _ if word == END => {
            nothing(rest)?;
            *step = Step::End;
        }
        _ => return Err(LineKind::Word),
    }
    Ok(())
}

/// The first field of a step line, and what is after its space, if there is one. Most lines are a
/// `next`, whose five bytes are looked at all together.
fn first_word(line: &[u8]) -> (&[u8], Option<&[u8]>)
    ensures { slice_split is_space line.now ≡ result.0.now ∷ fields_after result.1 }
{
    match line {
        [b'n', b'e', b'x', b't', b' ', rest @ ..] => (NEXT, Some(rest)),
        _ => first_field(line),
    }
}

/// Reads what a step line says, without its line feed, into the room for a step. `Word` where the
/// first field is no word of a step line, else `Form` where the line isn't in a form of its word;
/// then anything may stand in the room.
#[inline(always)]
pub fn read_step_into(line: &[u8], step: &mut Step) -> Result<(), LineKind>
    ensures reads { MatchResult result
        (λ _. step_line line.now ≡ Ok step.new)
        (λ why. step_line line.now ≡ Err why) }
    ensures ranged { OnOk result (IsInRange step.new) }
{
    let (word, rest) = first_word(line);
    next_step(word, rest, step)
}

/// What a step line says, without its line feed. `Word` where the first field is no word of a step
/// line, else `Form` where the line isn't in a form of its word.
pub fn read_step_line(line: &[u8]) -> Result<Step, LineKind>
    ensures reads { MatchResult result
        (λ s. step_line line.now ≡ Ok s)
        (λ why. step_line line.now ≡ Err why) }
    ensures ranged { IfOk result IsInRange }
{
    let mut step = Step::End;
    read_step_into(line, &mut step)?;
    Ok(step)
}
