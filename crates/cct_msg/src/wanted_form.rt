//! The form in which a request wants its reply.
ghost use Rattle.std.specs.Prelude.{◌≡◌};
ghost use Rattle.cct_model_wire.specs.Request.{form_of};

use cct_model_wire::{ReplyForm, Request};

/// The form of the reply that a request wants, where it wants one of header 0 in a message (ccTalk
/// Generic Specification 4, parts 2 and 3).
#[tactic(auto, unfolding(cct_model_wire::specs::Request::form_of))]
pub fn form_of(request: Request) -> Option<ReplyForm>
    ensures { result ≡ form_of request }
{
    match request {
        Request::SimplePoll
        | Request::ResetDevice
        | Request::SetMask { .. }
        | Request::SetMaster { .. }
        | Request::SetPath { .. }
        | Request::SetDefault { .. }
        | Request::RouteBill { .. }
        | Request::Enable { .. }
        | Request::Dispense { .. } => Some(ReplyForm::Ack),
        Request::MakerId
        | Request::Category
        | Request::ProductCode
        | Request::SoftwareRevision
        | Request::BuildCode => Some(ReplyForm::Text),
        Request::SerialNumber => Some(ReplyForm::Serial),
        Request::CommsRevision => Some(ReplyForm::Revision),
        Request::GetMask => Some(ReplyForm::Mask),
        Request::GetMaster => Some(ReplyForm::Master),
        Request::ReadCredits | Request::ReadBills => Some(ReplyForm::Credits),
        Request::GetPath { .. } | Request::GetDefault => Some(ReplyForm::Path),
        Request::CoinId { .. } => Some(ReplyForm::CoinId),
        Request::AcceptCount => Some(ReplyForm::Accepts),
        Request::GetStatus => Some(ReplyForm::Status),
        Request::GetLife => Some(ReplyForm::Life),
        Request::StopNow => Some(ReplyForm::Remaining),
        Request::TestHopper => Some(ReplyForm::Register),
        Request::AddressPoll | Request::CipherDispense | Request::PumpRng | Request::CipherKey =>
            None,
    }
}
