//! The credit buffer of a coin acceptor: its event counter and its last five events.
#![tactic(auto)]

mod ring;

pub use ring::CreditRing;
