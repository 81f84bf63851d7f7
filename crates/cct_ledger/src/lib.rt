//! The operator's money, record by record: a ledger takes the records of a journal and says what is
//! available, reserved, paid and sold.
#![tactic(auto)]

mod laws;
mod ledger;
mod lookup;
mod resumed;

pub use laws::{
    a_ledger_begins_where_its_records_end, a_ledger_takes_what_follows,
    a_ledger_tells_what_the_operator_has,
};
pub use ledger::{Ledger, NotAllowed};
