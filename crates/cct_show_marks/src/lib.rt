//! What the lines and exchanges of a transcript or a log are in a picture, and in a page.
#![tactic(auto)]

mod exchange;
mod mark;
mod worth;

pub use exchange::{Wire, exchange_mark, heard_in, lane_of};
pub use mark::{kind_told, mark_of, place_of, quiet_said};
pub use worth::{PlaceWorth, worth_in_exchange, worth_in_line};
