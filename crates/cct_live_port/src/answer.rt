// Whether what was heard is the whole reply to what was sent.
ghost use Rattle.std.specs.Prelude.{◌≡◌, ◌+◌};
ghost use Rattle.cct_live_port.specs.Answer.{answered_by, answered_under, is_complete, is_reply};
ghost use Rattle.cct_live_port.specs.Answer.{is_to_all};
ghost use Rattle.cct_frame.specs.Frame.{message_of};

use cct_frame::{FrameView, read};
use cct_model_wire::{BROADCAST, CheckKind, HOST};
use cct_wire::{Heard, hear};

/// Whether what follows the echo is a message of whom the bytes were sent to, and both are messages
/// under this check.
// Inlined: where the check is a constant, no byte is read by a test of it.
#[inline(always)]
pub fn is_answered(kind: CheckKind, sent: &[u8], heard: &[u8]) -> bool
    ensures { result ≡ answered_under kind sent.now heard.now }
{
    match read(kind, sent) {
        Ok(asked) => match hear(kind, sent, heard) {
            Heard::Message(reply) => is_reply(&asked, &reply),
            Heard::EchoBad { at: _ } => false,
            Heard::Silence => false,
            Heard::Broken(_) => false,
        },
        Err(_) => false,
    }
}

/// Whether what follows the echo is a message of whom the bytes were sent to, under the check that
/// is known, or under either where none is.
pub(crate) fn is_answered_by(known: Option<CheckKind>, sent: &[u8], heard: &[u8]) -> bool
    ensures { result ≡ answered_by known sent.now heard.now }
{
    match known {
        Some(CheckKind::Simple) => is_answered(CheckKind::Simple, sent, heard),
        Some(CheckKind::Crc) => is_answered(CheckKind::Crc, sent, heard),
        None => {
            is_answered(CheckKind::Simple, sent, heard) || is_answered(CheckKind::Crc, sent, heard)
        }
    }
}

/// Whether a message to the host comes from whom another one was for, as far as it says.
fn is_reply(asked: &FrameView<'_>, reply: &FrameView<'_>) -> bool
    ensures { result ≡ is_reply (message_of asked.now) (message_of reply.now) }
{
    let is_from = match reply.from {
        Some(source) => source == asked.to,
        None => true,
    };
    asked.to != BROADCAST && reply.to == HOST && is_from
}

/// Whether so many bytes came after the echo as the message that they begin has, by the length that
/// it gives.
pub(crate) fn is_complete(rest: &[u8]) -> bool
    ensures { result ≡ is_complete rest.now }
{
    rest.len() >= 5 && rest.len() - 5 >= usize::from(rest[1])
}

/// Whether bytes are for all devices. What these answer are bare bytes, so only silence ends them.
pub(crate) fn is_to_all(sent: &[u8]) -> bool
    ensures { result ≡ is_to_all sent.now }
{
    match sent {
        [] => false,
        [first, ..] => *first == BROADCAST,
    }
}
