//! The entries of a transcript.
ghost use Rattle.std.specs.Prelude.{◌≡◌};

use crate::{Coin, Coins, Command, CommandNo, DeviceSet, Piece, Record, Sent, WireFault};
use thiserror::Error;

/// The most bytes of a line of a script, without its line feed.
pub const MOST_LINE: usize = 1200;

/// The most lines of a script.
pub const MOST_LINES: u32 = 1_048_576;

/// A line of a transcript, with its line feed, has fewer bytes.
pub const MOST_TEXT: usize = 3000;

/// The devices that answered a scan, by the check under which they did.
#[derive(Clone, Copy, PartialEq, Eq)]
pub struct Listed {
    pub simple: DeviceSet,
    pub crc: DeviceSet,
}

/// How a job ended.
#[derive(Clone, Copy, PartialEq, Eq)]
pub enum End {
    /// The epoch was recorded, and the acceptor took its inhibit mask.
    Started,
    /// The epoch was recorded, and it isn't known whether the acceptor took its inhibit mask.
    StartUnsure,
    /// The acceptor's event counter wasn't 0 after its reset; no epoch began.
    Unquiet { counter: u8 },
    /// No event came and no coin was accepted since the last record.
    Clean,
    /// A reading was put.
    Posted,
    /// A broken reading was put.
    Broke,
    /// A coin was accepted while the acceptor was being read, so nothing was put: it has to be read
    /// again.
    Moved,
    /// The epoch was ended.
    Stopped,
    /// The order was closed.
    Closed,
    /// The order was closed, and the life counts don't fit it.
    OddLife,
    /// Three tries of one row in succession got no wanted reply.
    NoAnswer,
    /// These devices answered.
    Listed(Listed),
    /// The device said all of itself.
    Told,
    /// The sorter path of a coin place, or with place 0 the default path, was set, and was read
    /// back.
    PathSet { place: u8, path: u8 },
    /// The bill acceptor stacked the bill that it held, or gave it back.
    Routed,
    /// It isn't known whether the bill acceptor did so; or it held none.
    RouteUnsure,
    /// The sale was recorded.
    Sold,
}

/// What the operator has, in units of value.
#[derive(Clone, Copy, Debug, PartialEq, Eq)]
pub struct Totals {
    pub available: u64,
    pub reserved: u64,
    pub paid: u64,
    pub sold: u64,
}

/// Why a line of a script is refused, by the first of these that holds.
#[derive(Clone, Copy, Debug, PartialEq, Eq, Error)]
pub enum LineKind {
    /// A byte is after the line `end`.
    #[error("a byte stands behind the end")]
    Trailing,
    /// A byte of a line past the limit of lines was read.
    #[error("there are too many lines")]
    Lines,
    /// The line is longer than a line may be.
    #[error("the line is too long")]
    Long,
    /// The input ends within the line.
    #[error("the input ends within the line")]
    Cut,
    /// The first field is no word of the grammar in its place.
    #[error("the first field is no word")]
    Word,
    /// The line is in no form of its word.
    #[error("the line is in no form of its word")]
    Form,
    /// It names a device that isn't there, or one that may not be added.
    #[error("no such device is there, or it may not be added")]
    Device,
    /// It says again what was said before.
    #[error("this was said before")]
    Again,
}

/// What a sum over a load's transcript counts.
#[derive(Clone, Copy, PartialEq, Eq)]
pub enum SumOf {
    /// Steps played.
    Steps,
    /// Coins accepted.
    Accepted,
    /// Coins posted.
    Posted,
    /// Coins lost.
    Lost,
    /// Coins that fell out of hoppers.
    Fell,
    /// Orders closed.
    Closed,
}

/// What a monitor says of the watched device at `addr`: `first` and `last` are the numbers of two
/// taps, from 1. All three are of a span: two readings of an acceptor's credits with none between
/// them, or two life counts of a hopper.
#[derive(Clone, Drop, PartialEq, Eq)]
pub enum Said {
    /// The acceptor accepted these coins between its two readings, oldest first: those among as
    /// many of the newest events as the two event counters show, at most five (ccTalk Generic
    /// Specification 4, part 2, header 229).
    Sure {
        addr: u8,
        first: u32,
        last: u32,
        coins: Coins,
    },
    /// Which coins the acceptor accepted between its two readings isn't sure: a reset or another
    /// inhibit mask may have come between them, or more events than the credit buffer keeps.
    Doubt {
        addr: u8,
        first: u32,
        last: u32,
    },
    /// So many coins fell out of the hopper between its two life counts, where fewer than 2^24 fell
    /// (ccTalk Generic Specification 4, part 3, header 168).
    Fell {
        addr: u8,
        first: u32,
        last: u32,
        count: u32,
    },
}

impl Default for Said {
    ghost use Rattle.cct_model_lines.specs.declared.entry.Said.TheVariants.{Doubt};

    ghost is_default = { λ said. said ≡ Doubt 0 0 0 };

    fn default() -> Self {
        Said::Doubt {
            addr: 0,
            first: 0,
            last: 0,
        }
    }
}

/// One entry of a transcript, which is one line of text (`docs/TRANSCRIPT.md`).
#[derive(Drop)]
pub enum Entry {
    /// An acceptor took a coin.
    Accepted {
        addr: u8,
        coin: Coin,
    },
    /// A bill acceptor holds a bill of this place.
    Held {
        addr: u8,
        place: u8,
    },
    /// An acceptor gave a coin of this place back, since it is inhibited; or a bill acceptor a
    /// bill, since it is inhibited or another bill is held.
    Inhibited {
        addr: u8,
        place: u8,
    },
    /// An object that is no coin fell into an acceptor.
    Alien {
        addr: u8,
    },
    /// A coin fell out of a hopper.
    Fell {
        addr: u8,
    },
    /// No coin fell, since the hopper doesn't pay.
    NoFall {
        addr: u8,
    },
    /// A hopper jammed.
    Jammed {
        addr: u8,
    },
    /// Nothing jammed, since the hopper doesn't pay.
    NoJam {
        addr: u8,
    },
    /// A device was reset.
    Reset {
        addr: u8,
    },
    /// The wire has this fault in the next exchange.
    Fault(WireFault),
    /// The host took a command.
    Taken(Command),
    /// The host refused a command.
    No {
        command: Command,
        why: CommandNo,
    },
    /// No job is at the address.
    Idle {
        addr: u8,
    },
    /// One exchange on the wire: what the host sent, and what it then heard, its own echo first.
    Wire {
        addr: u8,
        sent: Sent,
        heard: Piece,
    },
    /// The exchange that this step made was damaged in a way that the promises don't allow for:
    /// bytes that a fault put there are a message. It is the last entry of its step.
    Forged {
        addr: u8,
    },
    /// The host put a record.
    Put(Record),
    /// A record that the host was putting when it lost its power was kept.
    Kept(Record),
    /// The host lost its power and started again over so many records.
    Crash {
        records: u32,
    },
    /// The job at the address ended.
    Ended {
        addr: u8,
        end: End,
    },
    /// What the operator has.
    Balance(Totals),
    /// So many coins are in a hopper, as the operator says.
    Stock {
        addr: u8,
        count: u32,
    },
    /// A session of change began.
    ChangeOk {
        first: u32,
        amount: u32,
    },
    /// A session of change runs, so none began.
    ChangeNo,
    /// No session of change runs.
    ServeIdle,
    /// The session of change waits for its payment at this hopper.
    ServeWait {
        addr: u8,
    },
    /// The session of change ended, since the life counts of this order don't fit it.
    ServeOdd {
        id: u32,
    },
    /// The session of change ended: its whole amount was paid.
    Served {
        amount: u32,
    },
    /// The session of change ended with so much of its amount paid, and the rest not.
    Short {
        paid: u32,
        rest: u32,
    },
    /// What a monitor says of a watched device.
    Said(Said),
    /// A line of the script was refused; lines are numbered from 1.
    Line {
        number: u32,
        kind: LineKind,
    },
    /// The words of the command line aren't in the grammar.
    Words,
    /// The disk has so many bytes, and is to have another number.
    DiskSize {
        len: u64,
    },
    /// The disk isn't blank at this place.
    NotBlank {
        at: u64,
    },
    /// Reading the script failed.
    ReadFault,
    /// A call of the disk failed.
    DiskFault,
    /// The disk has no journal.
    JournalAlien,
    /// The record of this index can't be read, or doesn't follow those before it.
    JournalBad {
        index: u32,
    },
    /// So many records were found, and so many were put.
    JournalLost {
        found: u32,
        put: u32,
    },
    /// An old journal was brought forward, with so many records.
    Upgraded {
        records: u32,
    },
    /// A journal has the newest version already.
    UpgradeCurrent,
    /// An old journal has so many records that the new one finds no room beside them.
    UpgradeRoom {
        used: u32,
    },
    /// An epoch of this acceptor runs in an old journal.
    UpgradeEpoch {
        addr: u8,
    },
    /// A record of the journal.
    Listing {
        index: u32,
        entry: Record,
    },
    /// The sums of a journal.
    Total {
        posted: u64,
        lost: u64,
        paid: u64,
        unpaid: u64,
        sold: u64,
    },
    /// The load that is played.
    Load {
        seed: u64,
        rounds: u32,
    },
    /// A sum over a load's transcript.
    Sum {
        what: SumOf,
        amount: u64,
    },
}

impl Default for Entry {
    ghost use Rattle.cct_model_lines.specs.declared.entry.Entry.TheVariants.{Words};

    ghost is_default = { λ entry. entry ≡ Words };

    fn default() -> Self {
        Entry::Words
    }
}
