//! One step of the whole machine: the bus of devices, the host, and the desk of the operator.
#![tactic(auto)]

mod machine;
mod world;

/// Why a step wasn't played: a call of the disk failed, in a `next` whose job had a record to put
/// or in a power cut; or the disk that a power cut left has no journal, one that can't be gone on
/// with, or other records than were put.
pub use cct_host::CrashNo as WorldNo;
pub use world::World;
