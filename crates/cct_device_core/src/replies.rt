//! The replies that every device gives (ccTalk Generic Specification 4, part 2), and how it gives
//! one.
ghost use Rattle.std.specs.Prelude.{◌≡◌, ◌<◌, ◌^◌, [], false, true, IfSome, MatchOption};
ghost use Rattle.std.specs.Option.{option_map, option_or};
ghost use Rattle.cct_model_wire.specs.Device.{common_reply};
ghost use Rattle.cct_model_wire.specs.Exchange.{bare_answer, reply_bytes};
ghost use Rattle.cct_model_wire.specs.Reply.{IsSayable, reply_shown};
ghost use Rattle.cct_model_wire.specs.Reply as shown;

use arrayvec::ArrayVec;
use cct_ident::{IdentText, Identity};
use cct_model_wire::{DeviceSetup, MOST_SENT, Reply, Request};
use cct_msg::encode_reply;

/// The release and the revision of the standard that every device follows.
const REVISION: Reply<'static> = Reply::Revision {
    release: 1,
    major: 4,
    minor: 0,
};

/// The reply of a device to a request that every device answers, or none where its kind alone may
/// know it. A reset is acknowledged here; what it clears is the device's.
#[tactic(auto, unfolding(cct_model_wire::specs::Device::common_reply))]
pub fn common_reply<'s>(setup: &'s DeviceSetup, request: Request) -> Option<Reply<'s>>
    requires serial { setup.now.serial < 2 ^ 24 }
    // A reset is acknowledged here, and its kind of device carries it out.
    ensures reply { option_map reply_shown result ≡ common_reply setup.now request }
    ensures sayable { IfSome result (λ y. IsSayable (reply_shown y)) }
{
    let identity = Identity::new(setup);
    match request {
        Request::SimplePoll => Some(Reply::Ack),
        Request::MakerId => Some(text(identity.text(IdentText::Maker))),
        Request::Category => Some(text(identity.text(IdentText::Category))),
        Request::ProductCode => Some(text(identity.text(IdentText::Product))),
        Request::SerialNumber => Some(Reply::Serial {
            serial: identity.serial(),
        }),
        Request::SoftwareRevision => Some(text(identity.text(IdentText::Software))),
        Request::BuildCode => Some(text(identity.text(IdentText::Build))),
        Request::CommsRevision => Some(REVISION),
        Request::ResetDevice => Some(Reply::Ack),
        _ => None,
    }
}

/// A text as a reply.
fn text(text: &[u8]) -> Reply<'_>
    ensures { reply_shown result ≡ shown.text text.now }
{
    Reply::Text { text }
}

/// Gives a device's reply to a request, or none, to the asker: true with its bytes in `out`, or
/// false with nothing there where there is none. An address poll alone is answered without a reply,
/// by the bare address.
#[inline(always)]
pub fn give(
    setup: &DeviceSetup,
    asker: u8,
    request: Request,
    reply: Option<Reply<'_>>,
    out: &mut ArrayVec<u8, MOST_SENT>,
) -> bool
    requires empty { out.old.items ≡ [] }
    requires sayable { IfSome reply (λ y. IsSayable (reply_shown y)) }
    ensures { let said = option_map (reply_bytes setup.now asker) (option_map reply_shown reply.entry) in
        MatchOption (option_or said (bare_answer setup.now.addr request))
        ((result ≡ false) × (out.new.items ≡ [])) (λ bytes. (result ≡ true) × (out.new.items ≡ bytes)) }
{
    match (reply, request) {
        (Some(reply), _) => {
            encode_reply(setup.kind, asker, setup.addr, &reply, out);
            true
        }
        (None, Request::AddressPoll) => {
            out.push(setup.addr);
            true
        }
        _ => false,
    }
}
