//! What the host asks of a device, and what a device answers (ccTalk Generic Specification 4, parts
//! 2 and 3). A number of several bytes goes low byte first.

use crate::Credits;

/// The data byte with which header 164 enables a hopper; any other disables it
/// (ccTalk Generic Specification 4, part 3).
pub const ENABLE_CODE: u8 = 165;

/// The data byte with which header 154 gives a held bill back (ccTalk Generic Specification 4, part
/// 3).
pub const RETURN_CODE: u8 = 0;

/// The data byte with which header 154 sends a held bill to the stacker (ccTalk Generic
/// Specification 4, part 3).
pub const STACK_CODE: u8 = 1;

/// A request to a device. Where nothing is said, it has no data bytes.
#[derive(Clone, Copy, PartialEq, Eq)]
pub enum Request {
    /// Header 254: is the device there?
    SimplePoll,
    /// Header 253, to address 0: each device answers with its address, one bare byte without a
    /// check.
    AddressPoll,
    /// Header 246: the text of the maker.
    MakerId,
    /// Header 245: the text of the equipment category.
    Category,
    /// Header 244: the text of the product code.
    ProductCode,
    /// Header 242: the serial number.
    SerialNumber,
    /// Header 241: the text of the software revision.
    SoftwareRevision,
    /// Header 192: the text of the build code.
    BuildCode,
    /// Header 4: the release of this standard that the device follows.
    CommsRevision,
    /// Header 1: start again as after power-up.
    ResetDevice,
    /// Header 231, two data bytes: accept the places whose bit is 1. Bit 0 is place 1.
    SetMask { mask: u16 },
    /// Header 230: the inhibit mask.
    GetMask,
    /// Header 228, one data byte: normal operation where bit 0 is 1, else every coin or bill is
    /// inhibited.
    SetMaster { value: u8 },
    /// Header 227: whether operation is normal.
    GetMaster,
    /// Header 229: the event counter and the last five events.
    ReadCredits,
    /// Header 210, two data bytes: coins of this place fall by this sorter path.
    SetPath { place: u8, path: u8 },
    /// Header 209, one data byte: the sorter path of a coin place.
    GetPath { place: u8 },
    /// Header 189, one data byte: the sorter path of each coin place that has none of its own.
    SetDefault { path: u8 },
    /// Header 188: the default sorter path.
    GetDefault,
    /// Header 184, one data byte: the identification of the coin of a place.
    CoinId { place: u8 },
    /// Header 225: how many coins or bills were accepted.
    AcceptCount,
    /// Header 159: the event counter and the last five events of a bill acceptor.
    ReadBills,
    /// Header 154, one data byte: where the held bill goes, [`RETURN_CODE`] or [`STACK_CODE`].
    RouteBill { way: u8 },
    /// Header 164, one data byte: the hopper may pay where the byte is [`ENABLE_CODE`].
    Enable { code: u8 },
    /// Header 167, four data bytes: pay so many coins, meant for the hopper with this serial
    /// number, which is below 2^24.
    Dispense { serial: u32, count: u8 },
    /// Header 167 with nine data bytes, which are under a cipher.
    CipherDispense,
    /// Header 166: the state of the payout.
    GetStatus,
    /// Header 168: how many coins the hopper ever paid.
    GetLife,
    /// Header 172: stop the payout at once.
    StopNow,
    /// Header 163: the test register.
    TestHopper,
    /// Header 161, any data bytes: random numbers for a cipher.
    PumpRng,
    /// Header 160, any data bytes: the key of a cipher.
    CipherKey,
}

/// A device's answer. Where nothing is said, it has header 0.
#[derive(Clone, Copy, PartialEq, Eq)]
pub enum Reply<'a> {
    /// No data byte.
    Ack,
    /// Header 5, no data byte: the request was refused.
    Nak,
    /// Header 6, no data byte: the device can't act on the request now.
    Busy,
    /// Eleven data bytes: the event counter, then `a` and `b` of each event, newest first.
    Credits(Credits),
    /// Two data bytes: the inhibit mask.
    Mask {
        mask: u16,
    },
    /// One data byte: 1 for normal operation, 0 where every coin or bill is inhibited.
    Master {
        value: u8,
    },
    /// One data byte: a sorter path.
    Path {
        path: u8,
    },
    /// Six data bytes: the identification of a coin.
    CoinId {
        id: [u8; 6],
    },
    /// Four data bytes: the event counter of the hopper, and how many coins of its payout remain,
    /// were paid and stayed unpaid.
    Status {
        counter: u8,
        remaining: u8,
        paid: u8,
        unpaid: u8,
    },
    /// Three data bytes: how many coins the hopper ever paid, modulo 2^24.
    Life {
        count: u32,
    },
    /// One data byte: how many coins remained of the payout that was stopped.
    Remaining {
        count: u8,
    },
    /// One data byte: the test register.
    Register {
        bits: u8,
    },
    /// Up to 255 data bytes: a text.
    Text {
        text: &'a [u8],
    },
    /// Three data bytes: a serial number, below 2^24.
    Serial {
        serial: u32,
    },
    /// Three data bytes: the release, and the major and minor revision, of the standard.
    Revision {
        release: u8,
        major: u8,
        minor: u8,
    },
    /// Three data bytes: how many coins or bills were accepted, modulo 2^24.
    Accepts {
        count: u32,
    },
}

/// The form in which the host wants a reply: a kind of [`Reply`] with header 0.
#[derive(Clone, Copy, PartialEq, Eq)]
pub enum ReplyForm {
    Ack,
    Credits,
    Mask,
    Master,
    Path,
    CoinId,
    Status,
    Life,
    Remaining,
    Register,
    Text,
    Serial,
    Revision,
    Accepts,
}
