//! A disk of a fixed length whose power may be cut between any two calls: the trait, a disk in
//! memory and a file.
#![tactic(auto)]

mod calls;
mod disk;
mod file;
mod memory;
mod settle;
mod torn;
mod traced;

pub use disk::Disk;
pub use file::{FileDisk, InUse, Lockable, MADE_LEN};
pub use memory::MemDisk;
pub use settle::Settle;
pub use torn::TornDisk;
