//! Jobs and transcripts: what a reading means, the lines of an address, the job and the epoch that
//! they show, what is a legal transcript, and what is claimed of one. All but the table of tests is
//! in `specs/`, over the definitions of what a wire, a device and a line are, which this crate
//! passes on with their plain types.
#![tactic(auto)]

mod change;
mod judging;
mod tests;

pub use cct_model_lines::{
    BROADCAST, Bytes, COIN_PLACES, Carry, CarryEpoch, CarryEpochs, CarryOrder, CarryOrders,
    CheckKind, Coin, Coins, Command, CommandNo, CrashAt, Credits, DEVICES, DeviceBody, DeviceSet,
    DeviceSetup, Devices, ENABLE_CODE, EVENTS, End, Entry, Family, Field, GREATEST_AMOUNT,
    GREATEST_FIRST, HOST, Happening, LineKind, Listed, MOST_HEARD, MOST_LINE, MOST_LINES,
    MOST_NAME, MOST_SENT, MOST_TEXT, Name, PATHS, Pair, Piece, RETURN_CODE, Record, Reply,
    ReplyForm, Request, STACK_CODE, Said, Sent, Setup, SetupLine, Step, SumOf, Texts, Totals,
    WireFault, has_place,
};
pub use change::{Due, Payment, Phase, Session, Tray};
pub use judging::{EpochState, Judged, OpenOrder};
pub use tests::{Test, need_of, room_tests, state_tests};
