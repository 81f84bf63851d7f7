//! What a request says after its name.

use crate::lists::{Count, Places};
use cct_model_lines::{ENABLE_CODE, RETURN_CODE, STACK_CODE};
use cct_msg::Request;
use std::fmt;

/// The values of a request, after a colon; nothing where it has none.
#[derive(Drop)]
pub(crate) struct Values<'r>(pub &'r Request);

impl fmt::Display for Values<'_> {
    fn fmt<W: fmt::Write>(&self, f: &mut fmt::Formatter<W>) -> fmt::Result {
        match *self.0 {
            Request::Enable { code: ENABLE_CODE } => f.write_str(": it may pay"),
            Request::Enable { .. } => f.write_str(": it may not pay"),
            Request::Dispense { serial, count } => {
                let coins = Count(u64::from(count), "coin");
                write!(f, ": {coins}, by the hopper with serial number {serial}")
            }
            Request::CipherDispense => f.write_str(", under a cipher"),
            _ => write_acceptor(self.0, f),
        }
    }
}

/// Writes the values of a request to an acceptor, of coins or of bills.
fn write_acceptor<W: fmt::Write>(request: &Request, f: &mut fmt::Formatter<W>) -> fmt::Result {
    match *request {
        Request::SetMask { mask } => {
            let places = Places(mask);
            write!(f, ": accept {places}")
        }
        Request::SetMaster { value } if value & 1 == 1 => f.write_str(": normal operation"),
        Request::SetMaster { .. } => f.write_str(": everything inhibited"),
        Request::RouteBill { way } => write_way(way, f),
        _ => write_place(request, f),
    }
}

/// The way by which a bill isn't sent, but held for longer (ccTalk Generic Specification 4, part 2,
/// header 154).
const HOLD_CODE: u8 = 255;

/// Writes where a bill is to go.
fn write_way<W: fmt::Write>(way: u8, f: &mut fmt::Formatter<W>) -> fmt::Result {
    match way {
        STACK_CODE => f.write_str(": into the stacker"),
        RETURN_CODE => f.write_str(": back out"),
        HOLD_CODE => f.write_str(": it is to be held for longer"),
        _ => write!(f, ": by way {way}"),
    }
}

/// Writes the coin place and the sorter path of a request that names them.
fn write_place<W: fmt::Write>(request: &Request, f: &mut fmt::Formatter<W>) -> fmt::Result {
    match *request {
        Request::SetPath { place, path } => write!(f, ": place {place} by path {path}"),
        Request::GetPath { place } | Request::CoinId { place } => write!(f, ": place {place}"),
        Request::SetDefault { path } => write!(f, ": path {path}"),
        _ => Ok(()),
    }
}
