//! What a picture shows: a mark for each line of a transcript.

use crate::Label;
use cct_model_lines::Record;

/// What the device of a lane is, as far as a picture knows.
#[derive(Clone, Copy)]
pub enum LaneKind {
    Unknown,
    /// An acceptor of coins, or one of which it isn't known whether it takes coins or bills.
    Acceptor,
    Hopper,
    BillAcceptor,
    Changer,
}

/// How far what the host sent came.
#[derive(Clone, Copy, PartialEq, Eq)]
pub enum Reach {
    /// It was heard whole, as far as is known.
    Device,
    /// No device heard it whole, or its echo isn't whole, so that nothing shows whether one did.
    Lost,
}

/// What the host heard in an exchange, after what it sent.
#[derive(Clone, Copy, PartialEq, Eq)]
pub enum Heard {
    /// Its echo, and a reply that is none of the next three.
    Answered,
    /// Its echo, and NAK (ccTalk Generic Specification 4, header 5).
    Nak,
    /// Its echo, and BUSY (ccTalk Generic Specification 4, header 6).
    Busy,
    /// Its echo, and a message that isn't the wanted reply.
    Other,
    /// Nothing, before the next request: no echo is expected.
    NoReply,
    /// Its echo, and no byte after it.
    Silence,
    /// Its echo, and after it bytes that are no message.
    Damaged,
    /// Something else than its echo first, or nothing at all.
    DamagedEcho,
}

/// What happened in or at a device.
#[derive(Clone, Copy)]
pub enum Happening {
    /// An acceptor took a coin of this place, which fell by this sorter path.
    Accepted { place: u8, path: u8 },
    /// A bill acceptor holds a bill of this place.
    Held { place: u8 },
    /// An acceptor gave a coin or a bill of this place back.
    Inhibited { place: u8 },
    /// An object that is no coin fell into an acceptor.
    Alien,
    /// A coin fell out of a hopper.
    Fell,
    /// No coin fell, since the hopper had none left to pay.
    NoFall,
    /// A coin stuck in a hopper.
    Jammed,
    /// No coin stuck, since the hopper had none left to pay.
    NoJam,
    /// The device started again.
    Reset,
    /// A bill acceptor stacked the bill that it held.
    Stacked,
    /// A bill acceptor gave the bill back that it held.
    Returned,
    /// The operator counted so many coins in a hopper.
    Stock { count: u32 },
}

/// What a monitor says of a device between two taps.
#[derive(Clone, Copy)]
pub enum Verdict {
    /// It surely took these coins.
    Sure,
    /// It did so if it was reset only where the capture shows it.
    Quiet,
    /// Which coins it took isn't sure.
    Doubt,
    /// So many coins fell out of it.
    Fell,
}

/// Where the wire has a fault in the next exchange.
#[derive(Clone, Copy)]
pub enum FaultAt {
    /// Nowhere: a fault that was set is cleared.
    Nowhere,
    /// The devices hear something else than the host sends.
    Devices,
    /// The host hears its echo, and after it something else than the replies.
    Host,
    /// The host hears something else than its echo and the replies.
    Whole,
}

/// What the host sent: its header, name and values, and its bytes.
#[derive(Drop)]
pub struct Ask {
    pub words: Label,
    pub reach: Reach,
    pub bytes: Vec<u8>,
}

/// What the host heard: what it says, which may be nothing, and its bytes.
#[derive(Drop)]
pub struct Reply {
    pub heard: Heard,
    pub words: Label,
    pub bytes: Vec<u8>,
}

/// One row of a picture. The texts are those of the transcript (`docs/TRANSCRIPT.md`).
#[derive(Drop)]
pub enum Mark {
    /// An exchange with the device at the address, or with all for address 0, or one half of it.
    Exchange {
        addr: u8,
        kind: LaneKind,
        ask: Option<Ask>,
        reply: Option<Reply>,
    },
    /// Something happened in the device at the address.
    Happened {
        addr: u8,
        what: Happening,
    },
    /// The wire has a fault in the next exchange: the host or the devices hear these bytes, in
    /// hexadecimal.
    Fault {
        at: FaultAt,
        bytes: Label,
    },
    /// The host took a command, as `pay 3 41 4`.
    Taken(Label),
    /// The host refused a command, as `pay 3 41 4 short 30`.
    Refused(Label),
    /// The host put a record.
    Put(Record),
    /// A record was kept of a put that a power cut broke off.
    Kept(Record),
    /// A session of change began, as `change ok 7 130`.
    Began(Label),
    /// A session of change waits for its payment, as `serve wait 3`.
    Waits(Label),
    /// What a monitor says of a device between two taps, as `taps 1 to 3: 5/1`.
    Told {
        addr: u8,
        verdict: Verdict,
        first: u32,
        last: u32,
        words: Label,
    },
    /// A job or a session of change ended well, as `posted 2` or `served 70`.
    Ended(Label),
    /// A job or a session of change ended so that somebody is to look, as `broke 2` or
    /// `short 10 60` (`docs/OPERATING.md`).
    Alarm(Label),
    /// The exchange before it was forged, as `forged 2`.
    Forged(Label),
    /// The host lost its power, and started again over so many records.
    Crash {
        records: u32,
    },
    /// Any other line.
    Note(Label),
}

impl Mark {
    /// The device in whose lane a mark is drawn, if it is in one, and what that device is.
    pub(crate) fn device(&self) -> Option<(u8, LaneKind)> {
        match self {
            Mark::Exchange { addr: 0, .. } | Mark::Happened { addr: 0, .. } => None,
            Mark::Exchange { addr, kind, .. } => Some((*addr, *kind)),
            Mark::Happened { addr, what } => Some((*addr, what.kind())),
            Mark::Told { addr, verdict, .. } => Some((*addr, verdict.kind())),
            _ => None,
        }
    }
}

impl Happening {
    /// The kind of device in which this happens.
    fn kind(self) -> LaneKind {
        match self {
            Happening::Accepted { .. } | Happening::Inhibited { .. } | Happening::Alien => {
                LaneKind::Acceptor
            }
            Happening::Held { .. } => LaneKind::BillAcceptor,
            Happening::Stacked | Happening::Returned => LaneKind::BillAcceptor,
            Happening::Fell | Happening::NoFall | Happening::Jammed | Happening::NoJam => {
                LaneKind::Hopper
            }
            Happening::Stock { .. } => LaneKind::Hopper,
            Happening::Reset => LaneKind::Unknown,
        }
    }
}

impl Verdict {
    /// The kind of device of which this is said.
    fn kind(self) -> LaneKind {
        match self {
            Verdict::Sure | Verdict::Quiet | Verdict::Doubt => LaneKind::Acceptor,
            Verdict::Fell => LaneKind::Hopper,
        }
    }
}

impl LaneKind {
    /// The name of a device of this kind, before its address.
    pub fn name(self) -> &'static [u8] {
        match self {
            LaneKind::Unknown => b"device ",
            LaneKind::Acceptor => b"acceptor ",
            LaneKind::Hopper => b"hopper ",
            LaneKind::BillAcceptor => b"bill acceptor ",
            LaneKind::Changer => b"changer ",
        }
    }

    /// What a device of this kind is once it is known to be of another kind too. A bill acceptor is
    /// an acceptor, so it stays one.
    pub fn learn(&mut self, kind: LaneKind) {
        match (*self, kind) {
            (_, LaneKind::Unknown) | (LaneKind::BillAcceptor, LaneKind::Acceptor) => {}
            _ => *self = kind,
        }
    }
}

impl Mark {
    /// Whether a mark is of an exchange, and this one of one with the same bytes.
    pub(crate) fn is_same_exchange(&self, other: &Mark) -> bool {
        match (self, other) {
            (
                Mark::Exchange { ask, reply, .. },
                Mark::Exchange {
                    ask: other_ask,
                    reply: other_reply,
                    ..
                },
            ) => is_same_ask(ask, other_ask) && is_same_reply(reply, other_reply),
            _ => false,
        }
    }
}

/// Whether the same was sent, and it came as far.
fn is_same_ask(ask: &Option<Ask>, other: &Option<Ask>) -> bool {
    match (ask, other) {
        (None, None) => true,
        (Some(ask), Some(other)) => ask.reach == other.reach && ask.bytes == other.bytes,
        _ => false,
    }
}

/// Whether the same was heard.
fn is_same_reply(reply: &Option<Reply>, other: &Option<Reply>) -> bool {
    match (reply, other) {
        (None, None) => true,
        (Some(reply), Some(other)) => reply.heard == other.heard && reply.bytes == other.bytes,
        _ => false,
    }
}
