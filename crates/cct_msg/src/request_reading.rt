//! A message is read as the request that it asks.
ghost use Rattle.std.specs.Prelude.{◌≡◌, ◌∷◌, []};
ghost use Rattle.cct_model_wire.specs.Request.{request_of, requests_with, with_header};

use crate::header;
use crate::number::from_three;
use cct_frame::FrameView;
use cct_model_wire::Request;

/// The request that a message asks, whoever it is for and whoever sent it, or `None` where its
/// header, or the number of its data bytes, is that of no request (ccTalk Generic Specification 4,
/// parts 2 and 3).
#[tactic(auto, unfolding(cct_model_wire::specs::Request::request_of, cct_model_wire::specs::Request::requests_with))]
pub fn read_request(view: &FrameView<'_>) -> Option<Request>
    ensures { result ≡ request_of view.now.header view.now.body.now }
{
    match view.header {
        header::PUMP_RNG => Some(Request::PumpRng),
        header::CIPHER_KEY => Some(Request::CipherKey),
        header => match *view.body {
            [] => bare_request(header),
            [byte] => byte_request(header, byte),
            [first, second] => two_byte_request(header, first, second),
            [low, middle, high, count] => dispense(header, low, middle, high, count),
            [_, _, _, _, _, _, _, _, _] => cipher_dispense(header),
            _ => None,
        },
    }
}

/// The request with a header and no data bytes.
#[tactic(auto, unfolding(cct_model_wire::specs::Request::requests_with))]
fn bare_request(header: u8) -> Option<Request>
    ensures { result ≡ with_header header (requests_with []) }
{
    match header {
        header::SIMPLE_POLL => Some(Request::SimplePoll),
        header::ADDRESS_POLL => Some(Request::AddressPoll),
        header::MAKER_ID => Some(Request::MakerId),
        header::CATEGORY => Some(Request::Category),
        header::PRODUCT_CODE => Some(Request::ProductCode),
        header::SERIAL_NUMBER => Some(Request::SerialNumber),
        header::SOFTWARE_REVISION => Some(Request::SoftwareRevision),
        header::BUILD_CODE => Some(Request::BuildCode),
        header::COMMS_REVISION => Some(Request::CommsRevision),
        header::RESET_DEVICE => Some(Request::ResetDevice),
        header::GET_MASK => Some(Request::GetMask),
        header::GET_MASTER => Some(Request::GetMaster),
        header::READ_CREDITS => Some(Request::ReadCredits),
        header::GET_DEFAULT => Some(Request::GetDefault),
        header::ACCEPT_COUNT => Some(Request::AcceptCount),
        header::READ_BILLS => Some(Request::ReadBills),
        header::GET_STATUS => Some(Request::GetStatus),
        header::GET_LIFE => Some(Request::GetLife),
        header::STOP_NOW => Some(Request::StopNow),
        header::TEST_HOPPER => Some(Request::TestHopper),
        _ => None,
    }
}

/// The request with a header and one data byte.
#[tactic(auto, unfolding(cct_model_wire::specs::Request::requests_with))]
fn byte_request(header: u8, byte: u8) -> Option<Request>
    ensures { result ≡ with_header header (requests_with (byte ∷ [])) }
{
    match header {
        header::SET_MASTER => Some(Request::SetMaster { value: byte }),
        header::GET_PATH => Some(Request::GetPath { place: byte }),
        header::SET_DEFAULT => Some(Request::SetDefault { path: byte }),
        header::COIN_ID => Some(Request::CoinId { place: byte }),
        header::ROUTE_BILL => Some(Request::RouteBill { way: byte }),
        header::ENABLE => Some(Request::Enable { code: byte }),
        _ => None,
    }
}

/// The request with a header and two data bytes.
#[tactic(auto, unfolding(cct_model_wire::specs::Request::requests_with))]
fn two_byte_request(header: u8, first: u8, second: u8) -> Option<Request>
    ensures { result ≡ with_header header (requests_with (first ∷ second ∷ [])) }
{
    match header {
        header::SET_MASK => Some(Request::SetMask {
            mask: u16::from_le_bytes([first, second]),
        }),
        header::SET_PATH => Some(Request::SetPath {
            place: first,
            path: second,
        }),
        _ => None,
    }
}

/// The request with a header and four data bytes.
#[tactic(auto, unfolding(cct_model_wire::specs::Request::requests_with))]
fn dispense(header: u8, low: u8, middle: u8, high: u8, count: u8) -> Option<Request>
    ensures { result ≡ with_header header (requests_with (low ∷ middle ∷ high ∷ count ∷ [])) }
{
    match header {
        header::DISPENSE => Some(Request::Dispense {
            serial: from_three(low, middle, high),
            count,
        }),
        _ => None,
    }
}

/// The request with a header and nine data bytes.
fn cipher_dispense(header: u8) -> Option<Request>
    ensures { result ≡ with_header header (Request.CipherDispense ∷ []) }
{
    match header {
        header::DISPENSE => Some(Request::CipherDispense),
        _ => None,
    }
}
