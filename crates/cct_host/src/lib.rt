//! The host: a job at each address, the epochs of its acceptors, and the open orders of its
//! hoppers, over any link; and its records in a journal, with what they are worth.
#![tactic(auto)]

mod advance;
mod desk;
mod desks;
mod exchange;
mod host;
mod legal_past;
mod old_replay;
mod orders;
mod reasons;
mod recorded;
mod refusal;
mod replay;
mod reserves;
mod restart;
mod state;
mod upgrading;

pub use desks::Desks;
pub use host::Host;
pub use legal_past::each_legal_past_suits_a_host;
pub use refusal::{CrashNo, StartNo, UpgradeNo};
pub use restart::Crashed;
pub use upgrading::upgrade;
