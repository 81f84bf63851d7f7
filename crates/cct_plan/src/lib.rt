//! The fewest coins: how many coins of each tray pay an amount. `Table::plan` shows it, and the
//! table then is the certificate that no plan has fewer coins: `Table::proves` reads it off.
#![tactic(auto)]

mod choosing;
mod filling;
mod laws;
mod table;
mod tray;

pub use cct_model::{GREATEST_AMOUNT, Tray};
pub use laws::one_plan_is_chosen;
pub use table::Table;
pub use tray::TRAYS;
