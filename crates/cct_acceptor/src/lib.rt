//! A coin acceptor: what coins and requests make of it, and what it answers.
#![tactic(auto)]

mod acceptor;

pub use acceptor::{Acceptor, Inserted};
