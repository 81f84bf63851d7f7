//! The headers of messages (ccTalk Generic Specification 4, part 3, and part 2 for a coin
//! acceptor's and a hopper's). Of the replies, `NAK` refuses, `BUSY` is of a device that can't act
//! now, and `REPLY` is any other. `DISPENSE` has four data bytes, or nine under a cipher.

pub(crate) const REPLY: u8 = 0;

pub(crate) const RESET_DEVICE: u8 = 1;

pub(crate) const COMMS_REVISION: u8 = 4;

pub(crate) const NAK: u8 = 5;

pub(crate) const BUSY: u8 = 6;

pub(crate) const ROUTE_BILL: u8 = 154;

pub(crate) const READ_BILLS: u8 = 159;

pub(crate) const CIPHER_KEY: u8 = 160;

pub(crate) const PUMP_RNG: u8 = 161;

pub(crate) const TEST_HOPPER: u8 = 163;

pub(crate) const ENABLE: u8 = 164;

pub(crate) const GET_STATUS: u8 = 166;

pub(crate) const DISPENSE: u8 = 167;

pub(crate) const GET_LIFE: u8 = 168;

pub(crate) const STOP_NOW: u8 = 172;

pub(crate) const COIN_ID: u8 = 184;

pub(crate) const GET_DEFAULT: u8 = 188;

pub(crate) const SET_DEFAULT: u8 = 189;

pub(crate) const BUILD_CODE: u8 = 192;

pub(crate) const GET_PATH: u8 = 209;

pub(crate) const SET_PATH: u8 = 210;

pub(crate) const ACCEPT_COUNT: u8 = 225;

pub(crate) const GET_MASTER: u8 = 227;

pub(crate) const SET_MASTER: u8 = 228;

pub(crate) const READ_CREDITS: u8 = 229;

pub(crate) const GET_MASK: u8 = 230;

pub(crate) const SET_MASK: u8 = 231;

pub(crate) const SOFTWARE_REVISION: u8 = 241;

pub(crate) const SERIAL_NUMBER: u8 = 242;

pub(crate) const PRODUCT_CODE: u8 = 244;

pub(crate) const CATEGORY: u8 = 245;

pub(crate) const MAKER_ID: u8 = 246;

pub(crate) const ADDRESS_POLL: u8 = 253;

pub(crate) const SIMPLE_POLL: u8 = 254;
