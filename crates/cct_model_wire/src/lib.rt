//! What a wire and a device are: the plain types that every crate shares, and in `specs/` the
//! definitions that contracts cite of messages, requests, replies, what a device met, its settings,
//! and one exchange.
#![tactic(auto)]

mod coin;
mod device;
mod family;
mod request;
mod wire;

pub use coin::{COIN_PLACES, Coin, Coins, Credits, EVENTS, PATHS, Pair, has_place};
pub use device::{DEVICES, DeviceBody, DeviceSetup, Devices, Setup, Texts};
pub use family::{Family, Happening};
pub use request::{ENABLE_CODE, RETURN_CODE, Reply, ReplyForm, Request, STACK_CODE};
pub use wire::{
    BROADCAST, Bytes, CheckKind, HOST, MOST_HEARD, MOST_NAME, MOST_SENT, Name, Piece, Sent,
};
