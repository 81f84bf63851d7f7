//! A script is proofread: it is read to its end, and each line of it that is refused is reported.
//! Nothing is played.
#![tactic(auto)]

mod knowing;
mod laws;
mod proofreading;
mod reading;
mod taking;

pub use laws::the_first_refusal_ends_a_run;
pub use proofreading::{ProofEnd, proofread};
