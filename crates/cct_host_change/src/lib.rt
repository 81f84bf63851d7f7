//! The desk of the operator, where sessions of change run (`docs/SCRIPT.md`). A session pays an
//! amount by the hoppers, one payment after another. The desk says what a step of the operator
//! comes to; it learns what becomes of a payment from the entries of later steps alone.
#![tactic(auto)]

mod desk;
mod paying;
mod seeing;
mod trays;

pub use desk::{Desk, Serving, Shortfall};
