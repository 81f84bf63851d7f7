//! The command that was refused, and why.

use crate::fields::{amount, fields_of, number, one_byte, one_number, step_in};
use cct_model_lines::{Command, CommandNo, Step};

const NO_DEVICE: &[u8] = b"nodevice";

const WRONG_KIND: &[u8] = b"wrongkind";

const BUSY: &[u8] = b"busy";

const EPOCH_RUNS: &[u8] = b"epochruns";

const NO_EPOCH: &[u8] = b"noepoch";

const NO_ORDER: &[u8] = b"noorder";

const NO_PAYOUT: &[u8] = b"nopayout";

const NO_VALUE: &[u8] = b"novalue";

const ORDER_OPEN: &[u8] = b"orderopen";

const OLD_ID: &[u8] = b"oldid";

const SHORT: &[u8] = b"short";

const JOURNAL_FULL: &[u8] = b"journalfull";

/// The command and the reason that a text spells, as they stand after `no`: the reason is the first
/// text after a space that is one.
pub(crate) fn refusal_in(text: &[u8]) -> Option<(Command, CommandNo)> {
    for (at, letter) in text.iter().enumerate() {
        if *letter == b' '
            && let Some(why) = reason_in(&text[at + 1..])
        {
            return Some((command_in(&text[..at])?, why));
        }
    }
    None
}

/// The command that its line in a script spells.
fn command_in(line: &[u8]) -> Option<Command> {
    match step_in(line)? {
        Step::Command(command) => Some(command),
        _ => None,
    }
}

/// The reason for which a command is refused that a text spells.
fn reason_in(text: &[u8]) -> Option<CommandNo> {
    match bare_reason_in(text) {
        Some(why) => Some(why),
        None => {
            let fields = fields_of(text)?;
            let (word, rest) = fields.as_slice().split_first()?;
            numbered_reason_in(*word, rest)
        }
    }
}

/// The reason that a word alone spells.
fn bare_reason_in(text: &[u8]) -> Option<CommandNo> {
    match text {
        _ if text == NO_DEVICE => Some(CommandNo::NoDevice),
        _ if text == WRONG_KIND => Some(CommandNo::WrongKind),
        _ if text == BUSY => Some(CommandNo::Busy),
        _ if text == EPOCH_RUNS => Some(CommandNo::EpochRuns),
        _ if text == NO_EPOCH => Some(CommandNo::NoEpoch),
        _ if text == NO_ORDER => Some(CommandNo::NoOrder),
        _ if text == NO_PAYOUT => Some(CommandNo::NoPayout),
        _ => None,
    }
}

/// The reason that a word and the numbers after it spell.
fn numbered_reason_in(word: &[u8], rest: &[&[u8]]) -> Option<CommandNo> {
    match word {
        _ if word == NO_VALUE => value_in(rest),
        _ if word == ORDER_OPEN => open_in(rest),
        _ if word == OLD_ID => old_in(rest),
        _ if word == SHORT => short_in(rest),
        _ if word == JOURNAL_FULL => full_in(rest),
        _ => None,
    }
}

/// The field `PLACE` of the reason that a coin has no value.
fn value_in(rest: &[&[u8]]) -> Option<CommandNo> {
    Some(CommandNo::NoValue {
        place: one_byte(rest)?,
    })
}

/// The field `ORDER` of the reason that an order is open.
fn open_in(rest: &[&[u8]]) -> Option<CommandNo> {
    Some(CommandNo::OrderOpen {
        id: one_number(rest)?,
    })
}

/// The field `LAST` of the reason that an id is old.
fn old_in(rest: &[&[u8]]) -> Option<CommandNo> {
    Some(CommandNo::OldId {
        last: one_number(rest)?,
    })
}

/// The field `HAVE` of the reason that there is too little.
fn short_in(rest: &[&[u8]]) -> Option<CommandNo> {
    match rest {
        [have] => Some(CommandNo::Short {
            have: amount(have)?,
        }),
        _ => None,
    }
}

/// The fields `USED HELD NEED` of the reason that the journal is full.
fn full_in(rest: &[&[u8]]) -> Option<CommandNo> {
    let [used, held, need] = rest else {
        return None;
    };
    Some(CommandNo::JournalFull {
        used: number(used)?,
        held: number(held)?,
        need: number(need)?,
    })
}
