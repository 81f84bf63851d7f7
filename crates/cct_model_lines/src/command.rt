//! What the operator says, what happens to a machine, and the steps of a script.

ghost use Rattle.std.specs.Prelude.{◌≡◌};

use crate::Piece;
use std::alloc::AllocError;
use thiserror::Error;

/// The greatest amount of a session of change.
pub const GREATEST_AMOUNT: u32 = 10_000;

/// The greatest id of the first payment of a session of change.
pub const GREATEST_FIRST: u32 = 4_000_000_000;

/// A command of the operator to the host.
#[derive(Clone, Copy, PartialEq, Eq)]
pub enum Command {
    /// Let acceptor `addr`, of coins or of bills, accept the places whose bit in the inhibit mask
    /// is 1. Bit 0 is place 1.
    Start { addr: u8, mask: u16 },
    /// Read acceptor `addr`, and post what was accepted since the last reading.
    Round { addr: u8 },
    /// Inhibit every coin or bill of acceptor `addr`, and post what was accepted until then.
    Stop { addr: u8 },
    /// Pay `count` coins, 1 to 255, by hopper `addr`. The order has this id, which is not 0.
    Pay { addr: u8, id: u32, count: u8 },
    /// Close the open order of hopper `addr`.
    Settle { addr: u8 },
    /// Stop the payout of hopper `addr`.
    Halt { addr: u8 },
    /// List the devices on the wire.
    Scan,
    /// Ask device `addr` for all that it says of itself.
    Ident { addr: u8 },
    /// Let coins of a place, 1 to 16, of acceptor `addr` fall by a sorter path, 1 to 8; place 0
    /// sets the default path.
    Path { addr: u8, place: u8, path: u8 },
    /// Send the bill that bill acceptor `addr` holds to the stacker, with way 1, or give it back,
    /// with way 0.
    Route { addr: u8, way: u8 },
    /// Sell something at a price, 1 to 1,000,000,000. The sale has this id, which is not 0.
    Vend { id: u32, price: u32 },
}

/// Why a command is refused, by the first of these tests that holds. A refused command changes
/// nothing.
#[derive(Clone, Copy, Debug, PartialEq, Eq, Error)]
pub enum CommandNo {
    /// The setup has no device at the address.
    #[error("no device is at the address")]
    NoDevice,
    /// The device is of another kind.
    #[error("the device is of another kind")]
    WrongKind,
    /// A job is at the address.
    #[error("a job is at the address")]
    Busy,
    /// An epoch runs at the acceptor.
    #[error("an epoch runs")]
    EpochRuns,
    /// No epoch runs at the acceptor.
    #[error("no epoch runs")]
    NoEpoch,
    /// A place of the mask has no value; this is the least.
    #[error("place {place} has no value")]
    NoValue { place: u8 },
    /// An order is open at the hopper.
    #[error("order {id} is open")]
    OrderOpen { id: u32 },
    /// No order is open at the hopper.
    #[error("no order is open")]
    NoOrder,
    /// There is no payout that could be stopped.
    #[error("there is no payout to stop")]
    NoPayout,
    /// The id isn't above the last one.
    #[error("the id is not above {last}")]
    OldId { last: u32 },
    /// So much is available, and that is less than what is wanted.
    #[error("only {have} is available")]
    Short { have: u64 },
    /// The journal has `used` records; `held` more are held, for what running jobs may put and for
    /// each open order that no job is to close; and `need` more find no room.
    #[error("the journal has {used} records, {held} more are held, and {need} more find no room")]
    JournalFull { used: u32, held: u32, need: u32 },
}

/// What is wrong on the wire in the next exchange.
#[derive(Clone, Drop)]
pub enum WireFault {
    /// Nothing.
    Clear,
    /// The devices hear these bytes, at most 260, in the place of what the host sends.
    DevicesHear(Piece),
    /// The host hears these bytes, at most 260, after its echo in the place of the replies.
    HostHears(Piece),
    /// The host hears these bytes, and nothing else.
    WholeHeard(Piece),
}

impl WireFault {
    /// The same fault once more. It takes no memory, so it can't fail as `clone` could.
    pub fn copied(&self) -> WireFault
        ensures { result ≡ self.now }
    {
        let copy: Result<WireFault, AllocError> = self.clone();
        copy.unwrap()
    }
}

/// Where in a put of a record the host's power is cut: the job at this address has made so many, 0
/// to 4, of the four disk calls of its put.
#[derive(Clone, Copy, PartialEq, Eq)]
pub struct CrashAt {
    pub addr: u8,
    pub calls: u8,
}

/// One atomic step of a script.
#[derive(Drop)]
pub enum Step {
    /// A coin of this coin place, 1 to 16, falls into acceptor `addr`.
    Coin { addr: u8, place: u8 },
    /// An object that is no coin falls into acceptor `addr`.
    Alien { addr: u8 },
    /// A bill of this place, 1 to 16, is put into bill acceptor `addr`.
    Bill { addr: u8, place: u8 },
    /// A coin falls out of hopper `addr`, where it pays.
    Fall { addr: u8 },
    /// Hopper `addr` jams, where it pays.
    Jam { addr: u8 },
    /// Device `addr` is reset.
    Reset { addr: u8 },
    /// The wire has this fault in the next exchange.
    Fault(WireFault),
    /// The job at the address makes one attempt of one row: one exchange on the wire, or one record
    /// put.
    Next { addr: u8 },
    /// The operator gives the host a command.
    Command(Command),
    /// The host's power is cut and starts again; the bytes that were not synced then are reported
    /// by `choice`.
    Crash { at: Option<CrashAt>, choice: u64 },
    /// The operator reads the balance.
    Balance,
    /// The operator says that `count` coins are in hopper `addr`.
    Stock { addr: u8, count: u32 },
    /// The operator begins a session of change: `amount`, 1 to 10,000, is to be paid by the
    /// hoppers, and its first payment has the id `first`, 1 to 4,000,000,000.
    Change { first: u32, amount: u32 },
    /// The operator lets the session of change go on.
    Serve,
    /// The end of the script. It is no step of a run.
    End,
}
