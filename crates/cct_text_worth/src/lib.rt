//! What a coin or a bill is worth by its identification.
#![tactic(auto)]

mod worth;

pub use worth::{bill_value, value_told};
