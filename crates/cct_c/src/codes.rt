//! What a call answers, and the codes of checks, forms and families. `litchihull.h` has the same
//! numbers, and says when each comes; 1 is the header's own.
ghost use Rattle.std.specs.Prelude.{◌≡◌, ◌≢◌, slice_get};
ghost use Rattle.cct_c.specs.Codes.{fault_code, forms, kind_of, reason_code};

use cct_frame::FrameFault;
use cct_model_wire::{CheckKind, ReplyForm};
use cct_msg::NotWanted;

/// The call did what it says.
pub const OK: u32 = 0;

/// The code names no check: 0 is the simple one, and 1 the CRC.
pub const BAD_CHECK: u32 = 2;

/// More than 255 data bytes, or more bytes since a gap than a message can have.
pub const TOO_LONG: u32 = 3;

/// The room is too small for what goes there.
pub const NO_ROOM: u32 = 4;

/// No request has this header and as many data bytes.
pub const NO_REQUEST: u32 = 5;

/// Fewer bytes than the shortest message has.
pub const SHORT: u32 = 6;

/// The number of data bytes that the second byte gives isn't that of the piece.
pub const BAD_LENGTH: u32 = 7;

/// The check isn't that of the bytes.
pub const DAMAGED: u32 = 8;

/// What was heard doesn't begin with the echo of what was sent.
pub const BAD_ECHO: u32 = 9;

/// No byte came.
pub const SILENCE: u32 = 10;

/// The device refuses.
pub const NAK: u32 = 11;

/// The device can't act on the request now.
pub const BUSY: u32 = 12;

/// A whole message that isn't the wanted reply.
pub const OTHER: u32 = 13;

/// The bytes since the gap are no message yet.
pub const MORE: u32 = 14;

/// The code names no form of a reply.
pub const BAD_FORM: u32 = 15;

/// The code names no family.
pub const BAD_FAMILY: u32 = 16;

/// The address is below 2.
pub const BAD_ADDRESS: u32 = 17;

/// The serial number is 2^24 or more.
pub const BAD_SERIAL: u32 = 18;

/// The accept counter or the life count is 2^24 or more.
pub const BAD_COUNT: u32 = 19;

/// A text isn't 1 to 24 printing characters.
pub const BAD_TEXT: u32 = 20;

/// An identification isn't six printing characters.
pub const BAD_ID: u32 = 21;

/// There is no memory.
pub const NO_MEMORY: u32 = 22;

/// The place isn't 1 to 16.
pub const BAD_PLACE: u32 = 23;

/// The device is of a family that knows no such thing.
pub const WRONG_FAMILY: u32 = 24;

/// The coin or the bill was given back, or the hopper wasn't paying.
pub const NOTHING: u32 = 25;

/// The handle is of something else than what is wanted.
pub const BAD_HANDLE: u32 = 26;

/// The text says no setup.
pub const BAD_SETUP: u32 = 27;

/// The part has fewer than 2,368 bytes.
pub const SMALL_PART: u32 = 28;

/// The part isn't blank, and has no journal.
pub const BAD_PART: u32 = 29;

/// A record of the journal can't be read or doesn't follow.
pub const BAD_RECORD: u32 = 30;

/// The line says no command.
pub const BAD_COMMAND: u32 = 31;

/// This isn't due now.
pub const NOT_NOW: u32 = 32;

/// The forms of replies by their codes.
const FORMS: [ReplyForm; 14] = [
    ReplyForm::Ack,
    ReplyForm::Credits,
    ReplyForm::Mask,
    ReplyForm::Master,
    ReplyForm::Path,
    ReplyForm::CoinId,
    ReplyForm::Status,
    ReplyForm::Life,
    ReplyForm::Remaining,
    ReplyForm::Register,
    ReplyForm::Text,
    ReplyForm::Serial,
    ReplyForm::Revision,
    ReplyForm::Accepts,
];

/// The check that a code names.
pub(crate) fn kind_of(code: u8) -> Option<CheckKind>
    ensures { result ≡ kind_of code }
{
    match code {
        0 => Some(CheckKind::Simple),
        1 => Some(CheckKind::Crc),
        _ => None,
    }
}

/// The form of a reply that a code names.
pub(crate) fn form_of(code: u8) -> Option<ReplyForm>
    ensures { result ≡ slice_get forms code }
{
    FORMS.get(usize::from(code)).copied()
}

/// What a call answers to a piece with a fault.
pub(crate) fn fault_code(fault: FrameFault) -> u32
    ensures code { result ≡ fault_code fault }
    ensures refused { result ≢ OK }
{
    match fault {
        FrameFault::Short { .. } => SHORT,
        FrameFault::Length { .. } => BAD_LENGTH,
        FrameFault::Check { .. } => DAMAGED,
        FrameFault::CrcCheck { .. } => DAMAGED,
    }
}

/// What a call answers to a message that isn't the wanted reply.
pub(crate) fn reason_code(why: NotWanted) -> u32
    ensures code { result ≡ reason_code why }
    ensures refused { result ≢ OK }
{
    match why {
        NotWanted::Nak => NAK,
        NotWanted::Busy => BUSY,
        NotWanted::Other => OTHER,
    }
}
