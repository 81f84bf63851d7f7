//! The edge between a program and the world outside it: where bytes come from, and where they go.
#![tactic(auto)]

mod fault;
mod memory;
mod sink;
mod source;
mod standard;

pub use fault::Failed;
pub use memory::{MemSink, MemSource};
pub use sink::Sink;
pub use source::Source;
pub use standard::{StdSink, StdSource};
