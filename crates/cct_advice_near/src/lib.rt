//! The word that was meant, where one is spelt wrongly.
#![tactic(auto)]

mod near;

pub use near::{is_near, near_word};
