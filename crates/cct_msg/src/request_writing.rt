//! A request is written as the message by which the host asks it.
ghost use Rattle.std.specs.Prelude.{◌≡◌};
ghost use Rattle.cct_model_wire.specs.Exchange.{ask};
ghost use Rattle.cct_model_wire.specs.Request.{data_of, header_of};

use crate::header;
use crate::number::three_bytes;
use arrayvec::ArrayVec;
use cct_frame::write;
use cct_model_wire::{CheckKind, HOST, MOST_SENT, Request};

/// Writes a request from the host, address 1, to the address `to` in the place of what `out` holds
/// (ccTalk Generic Specification 4, part 3, and part 2 for a coin acceptor's and a hopper's). Of
/// the serial number of a [`Request::Dispense`] the three low bytes are written, and a
/// [`Request::CipherDispense`] goes out with nine zeros.
#[tactic(auto, unfolding(cct_model_wire::specs::Exchange::ask))]
pub fn encode_request(kind: CheckKind, to: u8, request: &Request, out: &mut ArrayVec<u8, MOST_SENT>)
    ensures { out.new.items ≡ ask kind to request.now }
{
    let mut body: ArrayVec<u8, 9> = ArrayVec::new();
    put_body(request, &mut body);
    write(kind, to, HOST, header_of(request), body.as_slice(), out);
}

/// The header of a request.
fn header_of(request: &Request) -> u8
    ensures { result ≡ header_of request.now }
{
    match *request {
        Request::SimplePoll => header::SIMPLE_POLL,
        Request::AddressPoll => header::ADDRESS_POLL,
        Request::MakerId => header::MAKER_ID,
        Request::Category => header::CATEGORY,
        Request::ProductCode => header::PRODUCT_CODE,
        Request::SerialNumber => header::SERIAL_NUMBER,
        Request::SoftwareRevision => header::SOFTWARE_REVISION,
        Request::BuildCode => header::BUILD_CODE,
        Request::CommsRevision => header::COMMS_REVISION,
        Request::ResetDevice => header::RESET_DEVICE,
        Request::SetMask { .. } => header::SET_MASK,
        Request::GetMask => header::GET_MASK,
        Request::SetMaster { .. } => header::SET_MASTER,
        Request::GetMaster => header::GET_MASTER,
        Request::ReadCredits => header::READ_CREDITS,
        Request::SetPath { .. } => header::SET_PATH,
        Request::GetPath { .. } => header::GET_PATH,
        Request::SetDefault { .. } => header::SET_DEFAULT,
        Request::GetDefault => header::GET_DEFAULT,
        Request::CoinId { .. } => header::COIN_ID,
        Request::AcceptCount => header::ACCEPT_COUNT,
        Request::ReadBills => header::READ_BILLS,
        Request::RouteBill { .. } => header::ROUTE_BILL,
        Request::Enable { .. } => header::ENABLE,
        Request::Dispense { .. } | Request::CipherDispense => header::DISPENSE,
        Request::GetStatus => header::GET_STATUS,
        Request::GetLife => header::GET_LIFE,
        Request::StopNow => header::STOP_NOW,
        Request::TestHopper => header::TEST_HOPPER,
        Request::PumpRng => header::PUMP_RNG,
        Request::CipherKey => header::CIPHER_KEY,
    }
}

/// Puts the data bytes of a request in the place of what `body` holds.
#[tactic(auto, unfolding(cct_model_wire::specs::Request::data_of))]
fn put_body(request: &Request, body: &mut ArrayVec<u8, 9>)
    ensures { body.new.items ≡ data_of request.now }
{
    body.clear();
    match *request {
        Request::SetMask { mask } => body.try_extend_from_slice(&mask.to_le_bytes()).unwrap(),
        Request::SetMaster { value } => body.push(value),
        Request::SetPath { place, path } => {
            body.push(place);
            body.push(path);
        }
        Request::GetPath { place } => body.push(place),
        Request::SetDefault { path } => body.push(path),
        Request::CoinId { place } => body.push(place),
        Request::RouteBill { way } => body.push(way),
        Request::Enable { code } => body.push(code),
        Request::Dispense { serial, count } => {
            body.try_extend_from_slice(&three_bytes(serial)).unwrap();
            body.push(count);
        }
        Request::CipherDispense => body.try_extend_from_slice(&[0; 9]).unwrap(),
        _ => {}
    }
}
