//! The inhibits and the sorter paths of a coin acceptor: which coins it accepts, and by which path
//! each of them falls.
#![tactic(auto)]

mod table;

pub use table::{CoinTable, PathRefused, is_place};
