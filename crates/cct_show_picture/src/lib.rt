//! A sequence picture of a run, in SVG: a lane for the host and one for each device, and time
//! downwards.
#![tactic(auto)]

mod element;
mod layout;
mod look;
mod mark;
mod page;
mod picture;
mod place;
mod record;
mod row;
mod said;
mod shape;
mod sketch;
mod span;
mod words;
mod worth;

pub use cct_show_pen::{Label, MOST_LABEL};
pub use mark::{Ask, FaultAt, Happening, Heard, LaneKind, Mark, Reach, Reply, Verdict};
pub use picture::{MOST_ROWS, Picture};
pub use place::Place;
