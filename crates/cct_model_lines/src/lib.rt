//! What a line is: the steps and commands of a script, the records of the host's journal and the
//! entries of a transcript, and in `specs/` the grammar of a script, what a whole script says, the
//! text of a transcript, and what a record adds to a sum.
#![tactic(auto)]

mod carry;
mod command;
mod device_set;
mod entry;
mod record;
mod setup;
mod shape;

pub use carry::{Carry, CarryEpoch, CarryEpochs, CarryOrder, CarryOrders};
pub use cct_model_wire::{
    BROADCAST, Bytes, COIN_PLACES, CheckKind, Coin, Coins, Credits, DEVICES, DeviceBody,
    DeviceSetup, Devices, ENABLE_CODE, EVENTS, Family, HOST, Happening, MOST_HEARD, MOST_NAME,
    MOST_SENT, Name, PATHS, Pair, Piece, RETURN_CODE, Reply, ReplyForm, Request, STACK_CODE, Sent,
    Setup, Texts, has_place,
};
pub use command::{Command, CommandNo, CrashAt, GREATEST_AMOUNT, GREATEST_FIRST, Step, WireFault};
pub use device_set::DeviceSet;
pub use entry::{
    End, Entry, LineKind, Listed, MOST_LINE, MOST_LINES, MOST_TEXT, Said, SumOf, Totals,
};
pub use record::Record;
pub use setup::SetupLine;
pub use shape::Field;
