//! What a journal knows of an order, by the records since it last turned.
#![tactic(auto)]

mod looking;
mod told;

pub use looking::order_on;
pub use told::OrderTold;
