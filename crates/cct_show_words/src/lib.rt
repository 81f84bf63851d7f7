//! What a line of a transcript says, and what an exchange on the wire says, in words for people
//! (`docs/SHOW.md`). The bytes of the wire are read by the proved readers of `cct_wire`,
//! `cct_frame` and `cct_msg` alone.
#![tactic(auto)]

mod answer;
mod asked;
mod change;
mod ends;
mod event;
mod exchange;
mod fault;
mod fields;
mod header;
mod line;
mod lists;
mod posting;
mod reading;
mod record;
mod refusal;
mod register;
mod reply;
mod request;
mod said;
mod short;
mod told;

pub use answer::Answer;
pub use asked::Asked;
pub use event::Taker;
pub use exchange::Exchange;
pub use header::{DeviceKind, kind_for, name_of};
pub use line::read_line;
pub use reading::Reading;
pub use short::{Short, ShortAsked};
pub use told::{Told, alarm_of};
