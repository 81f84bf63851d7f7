//! The fields of notices.
ghost use Rattle.std.specs.Prelude.{◌≡◌, ◌≤◌, ◌+◌, ◌++◌, codes, length};
ghost use Rattle.cct_text.specs.Adding.{Adds};
ghost use Rattle.cct_live_service.specs.Notice.{command_fields, epoch_field, job_field, job_word};
ghost use Rattle.cct_live_service.specs.Notice.{mask_after, number_field, open_order_field};
ghost use Rattle.cct_live_service.specs.Notice.{order_fields, withheld_fields, why_field};

use cct_live_order::OrderTold;
use cct_live_survey::Withheld;
use cct_model::{Command, EpochState, MOST_TEXT, OpenOrder};
use cct_text::TextLine;

/// Writes a number as the next field.
pub(crate) fn write_number(line: &mut TextLine, number: u32)
    requires { length line.old + 21 ≤ MOST_TEXT }
    ensures { Adds line.old line.new (number_field number) 21 }
{
    line.push(b" ");
    line.push_number(u64::from(number));
}

/// Writes the word of the command whose job it is as the next field.
pub(crate) fn write_job(line: &mut TextLine, job: &Option<Command>)
    requires { length line.old + 7 ≤ MOST_TEXT }
    ensures { Adds line.old line.new (job_field job.now) 7 }
{
    line.push(b" ");
    line.push(job_word(job));
}

/// The word of the command whose job it is.
fn job_word(job: &Option<Command>) -> &'static [u8]
    ensures word { result.now ≡ job_word job.now }
    ensures len { length result.now ≤ 6 }
{
    match job {
        None => b"-",
        Some(command) => command.word(),
    }
}

/// Writes an inhibit mask as the next field.
fn write_mask(line: &mut TextLine, mask: u16)
    requires { length line.old + 5 ≤ MOST_TEXT }
    ensures { Adds line.old line.new (mask_after mask) 5 }
{
    line.push(b" ");
    line.push_hex(&mask.to_be_bytes());
}

/// Writes the inhibit mask of an epoch that runs as the next field.
pub(crate) fn write_epoch(line: &mut TextLine, epoch: EpochState)
    requires { length line.old + 5 ≤ MOST_TEXT }
    ensures { Adds line.old line.new (epoch_field epoch) 5 }
{
    match epoch {
        EpochState::Idle => line.push(b" -"),
        EpochState::Running { mask, .. } => write_mask(line, mask),
    }
}

/// Writes the id of an open order as the next field.
pub(crate) fn write_open_order(line: &mut TextLine, order: Option<OpenOrder>)
    requires { length line.old + 21 ≤ MOST_TEXT }
    ensures { Adds line.old line.new (open_order_field order) 21 }
{
    match order {
        None => line.push(b" -"),
        Some(order) => write_number(line, order.id),
    }
}

/// Writes what is known of an order as the next fields.
pub(crate) fn write_order_told(line: &mut TextLine, told: &OrderTold)
    requires { length line.old + 50 ≤ MOST_TEXT }
    ensures { Adds line.old line.new (order_fields told.now) 50 }
{
    match told {
        OrderTold::Open { addr, count } => {
            line.push(b" open");
            write_number(line, u32::from(*addr));
            write_number(line, u32::from(*count));
        }
        OrderTold::Closed { paid, unpaid } => {
            line.push(b" closed");
            write_number(line, u32::from(*paid));
            write_number(line, u32::from(*unpaid));
        }
        OrderTold::Odd { paid } => {
            line.push(b" odd");
            write_number(line, *paid);
        }
        OrderTold::Unknown => line.push(b" unknown"),
        OrderTold::Unread => line.push(b" unread"),
    }
}

/// Writes a command that is withheld, and why, as the next fields.
pub(crate) fn write_withheld(line: &mut TextLine, command: &Command, why: &Withheld)
    requires { length line.old + 90 ≤ MOST_TEXT }
    ensures { Adds line.old line.new (withheld_fields command.now why.now) 90 }
{
    write_command(line, command);
    line.push(why_text(why));
}

/// Writes a command that may be withheld as the next fields.
fn write_command(line: &mut TextLine, command: &Command)
    requires { length line.old + 70 ≤ MOST_TEXT }
    ensures { Adds line.old line.new (command_fields command.now) 70 }
{
    match *command {
        Command::Pay { addr, id, count } => {
            line.push(b" pay");
            write_number(line, u32::from(addr));
            write_number(line, id);
            write_number(line, u32::from(count));
        }
        Command::Start { addr, mask } => write_start(line, addr, mask),
        _ => {}
    }
}

/// Writes the start of an acceptor as the next fields.
fn write_start(line: &mut TextLine, addr: u8, mask: u16)
    requires { length line.old + 40 ≤ MOST_TEXT }
    ensures { Adds line.old line.new (codes " start" ++ number_field addr ++ mask_after mask) 40 }
{
    line.push(b" start");
    write_number(line, u32::from(addr));
    write_mask(line, mask);
}

/// Why a command is withheld, as the last field.
fn why_text(why: &Withheld) -> &'static [u8]
    ensures word { result.now ≡ why_field why.now }
    ensures len { length result.now ≤ 12 }
{
    match why {
        Withheld::OtherSerial => b" otherserial",
        Withheld::OtherCoin => b" othercoin",
    }
}
