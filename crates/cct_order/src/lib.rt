//! Orders of coins at a hopper: the ticket by which an order is dispensed once, and the record that
//! closes an order.
#![tactic(auto)]

mod closing;
mod ticket;

pub use cct_model::OpenOrder;
pub use closing::close;
pub use ticket::DispenseTicket;
