//! What the host makes of what it heard.
ghost use Rattle.std.specs.Prelude.{◌≡◌, ◌↔◌, ◌+◌, [], Some, None, length};
ghost use Rattle.cct_model_wire.specs.Exchange.{after_echo};
ghost use Rattle.cct_frame.specs.declared.reading.FrameFault.{FrameFault};
ghost use Rattle.cct_wire.specs.Echo.{echo_place};
ghost use Rattle.cct_wire.specs.Heard.{BodyLiesAt, Tells, fault_after, message_after, message_in};

use crate::echo::{EchoBad, bare_after_echo};
use cct_frame::{FrameFault, FrameView, read};
use cct_model_wire::CheckKind;

/// What the host hears in one exchange.
#[derive(Clone, Copy, PartialEq, Eq)]
pub enum Heard<'a> {
    /// The echo is damaged: what was heard differs from what was sent first at the place `at`, or
    /// ends there.
    EchoBad { at: usize },
    /// No byte follows the echo.
    Silence,
    /// What follows the echo is no message.
    Broken(FrameFault),
    /// What follows the echo is one message. Its data stay where they are in the bytes heard.
    Message(FrameView<'a>),
}

/// Takes the echo of what was sent off what was heard, and reads what follows it under a check.
pub fn hear<'a>(kind: CheckKind, sent: &[u8], heard: &'a [u8]) -> Heard<'a>
    ensures tells { Tells kind sent.now heard.now result }

    ensures bad_echo { (result ≡ Heard.EchoBad (echo_place sent.now heard.now))
        ↔ (after_echo sent.now heard.now ≡ None) }
    ensures silence { (result ≡ Heard.Silence) ↔ (after_echo sent.now heard.now ≡ Some []) }
    ensures broken { (fault : FrameFault) → (result ≡ Heard.Broken fault)
        ↔ (fault_after kind sent.now heard.now ≡ Some fault) }
    ensures message { message_in result ≡ message_after kind sent.now heard.now }

    ensures in_place { BodyLiesAt
        (heard.entry.ref_ptr.0, heard.entry.ref_ptr.1 + length sent.now + 4) result }
{
    match bare_after_echo(sent, heard) {
        Err(EchoBad { at }) => Heard::EchoBad { at },
        Ok([]) => Heard::Silence,
        Ok(rest) => match read(kind, rest) {
            Err(fault) => Heard::Broken(fault),
            Ok(view) => Heard::Message(view),
        },
    }
}
