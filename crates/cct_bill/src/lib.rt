//! A bill acceptor with an escrow: what bills and requests make of it, and what it answers.
#![tactic(auto)]

mod bill;

pub use bill::BillAcceptor;
