//! The lines of a host on a real line (`docs/LIVE.md`).
ghost use Rattle.std.specs.Prelude.{◌≡◌, IfOk};
ghost use Rattle.cct_script.specs.Fields.{fields_after};
ghost use Rattle.cct_script.specs.Live.{IsTold, live_line, do_form, order_form, live_word, of_step};
ghost use Rattle.cct_model_lines.specs.Grammar.{step_line};
ghost use Rattle.std.specs.Option.{ok_or};

use crate::fields::{alone, first_field, one};
use crate::numbers::{ranged_u8, ranged_u32};
use crate::step::read_step_line;
use cct_model_lines::{Command, LineKind, Step};

const DO: &[u8] = b"do";

const ORDER: &[u8] = b"order";

const POLL: &[u8] = b"poll";

const STATUS: &[u8] = b"status";

/// What a line says to a host on a real line.
#[derive(Clone, Copy, PartialEq, Eq)]
pub enum LiveLine {
    /// `start`, `pay` and the other commands of a script.
    Command(Command),
    /// `next A`: the job at the address makes one attempt.
    Next { addr: u8 },
    /// `do A`: the job at the address makes attempts until it ends.
    Do { addr: u8 },
    /// `poll`: each acceptor whose epoch runs is read out, and each other job makes one attempt.
    Poll,
    /// `balance`: what the operator has is reported.
    Balance,
    /// `status`: how each device stands is reported.
    Status,
    /// `order ID`: what is known of the order with this number is reported.
    Order { id: u32 },
    /// `stock A COUNT`: the operator counted the coins of a hopper.
    Stock { addr: u8, count: u32 },
    /// `change FIRST AMOUNT`: a session of change is to begin.
    Change { first: u32, amount: u32 },
    /// `serve`: the session of change goes on.
    Serve,
    /// `end`: the host is to end.
    End,
}

/// What a line says to a host on a real line, without its line feed: a command, `next`, `balance`,
/// `stock`, `change`, `serve` or `end` as in a script, or `do A`, `poll`, `status` or `order ID`.
/// `Word` where the first field is no word of these, a bench's `coin` or `crash` among them; else
/// `Form` where the line isn't in a form of its word.
#[tactic(auto, unfolding(crate::specs::Live::live_line))]
pub fn read_live_line(line: &[u8]) -> Result<LiveLine, LineKind>
    ensures reads { result ≡ live_line line.now }
    ensures told { IfOk result IsTold }
{
    let (word, rest) = first_field(line);
    match word {
        _ if word == DO => read_do(rest),
        _ if word == POLL => alone(LiveLine::Poll, rest).ok_or(LineKind::Form),
        _ if word == STATUS => alone(LiveLine::Status, rest).ok_or(LineKind::Form),
        _ if word == ORDER => read_order(rest),
        _ => read_step(line),
    }
}

/// What is after `do`: an address alone.
#[tactic(auto, using(crate::proofs::Forms::no_do))]
fn read_do(rest: Option<&[u8]>) -> Result<LiveLine, LineKind>
    ensures reads { result ≡ ok_or (do_form (fields_after rest.entry)) LineKind.Form }
    ensures told { IfOk result IsTold }
{
    let addr = match one(rest) {
        Some(field) => ranged_u8(0, 255, field).ok_or(LineKind::Form)?,
        None => return Err(LineKind::Form),
    };
    Ok(LiveLine::Do { addr })
}

/// What is after `order`: the number of an order alone, 1 to 4294967295, as `pay` has it.
#[tactic(auto, using(crate::proofs::Forms::no_order))]
fn read_order(rest: Option<&[u8]>) -> Result<LiveLine, LineKind>
    ensures reads { result ≡ ok_or (order_form (fields_after rest.entry)) LineKind.Form }
    ensures told { IfOk result IsTold }
{
    let id = match one(rest) {
        Some(field) => ranged_u32(1, u32::MAX, field).ok_or(LineKind::Form)?,
        None => return Err(LineKind::Form),
    };
    Ok(LiveLine::Order { id })
}

/// What a step line of a script says to a host on a real line. The words of a bench are none here.
fn read_step(line: &[u8]) -> Result<LiveLine, LineKind>
    ensures reads { result ≡ of_step (step_line line.now) }
    ensures told { IfOk result IsTold }
{
    match read_step_line(line)? {
        Step::Command(command) => Ok(LiveLine::Command(command)),
        Step::Next { addr } => Ok(LiveLine::Next { addr }),
        Step::Balance => Ok(LiveLine::Balance),
        Step::Stock { addr, count } => Ok(LiveLine::Stock { addr, count }),
        Step::Change { first, amount } => Ok(LiveLine::Change { first, amount }),
        Step::Serve => Ok(LiveLine::Serve),
        Step::End => Ok(LiveLine::End),
        _ => Err(LineKind::Word),
    }
}
