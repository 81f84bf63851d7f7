//! A source and a sink over slices, which show their bytes: for a program that hands its memory
//! over, and takes none.
#![tactic(auto)]

mod given;
mod page;

pub use given::Given;
pub use page::Page;
