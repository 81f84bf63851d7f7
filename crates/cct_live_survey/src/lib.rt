//! Who is on a line. The devices of a setup are asked who they are, and what isn't as the setup
//! says is found; by it commands are withheld. Nothing is asked but who a device is, which coins it
//! knows and what they are worth, so no device changes by it.
#![tactic(auto)]

mod calling;
mod category;
mod coins;
mod finding;
mod question;
mod roll;
mod room;
mod twins;
mod valuing;
mod withholding;

pub use category::{Category, MOST_CATEGORY};
pub use coins::NO_COIN;
pub use finding::{Finding, push_shown, write_finding};
pub use question::{TRIES, category_of, coin_id_of, is_there, poll_all, serial_of};
pub use roll::{Answered, MOST_FINDINGS, Roll};
pub use room::Room;
pub use twins::crc_twins;
pub use valuing::{MOST_VALUE_DATA, ValueRequest, value_of};
pub use withholding::{Withheld, withheld_by};
