//! The carry of records: what a host needs of all records before some of them, how it goes on by
//! one more, and how it stands to the whole list of records (`docs/JOURNAL.md`, "The carry").
#![tactic(auto)]

mod entries;
mod fits;
mod following;
mod going_on;
mod held;
mod laws;
mod tally;
mod told;
mod values;
mod worth;

pub use following::{available, owed};
pub use held::{epoch_held, order_held};
pub use laws::{
    a_carry_goes_on_by_more_records, a_carry_goes_on_by_one_record, a_carry_of_no_record_is_empty,
    a_carry_tells_what_its_records_tell, a_record_follows_a_carry_as_its_records,
    a_safe_carry_goes_on_safely, a_start_from_a_carry_is_one_from_its_records,
    the_carry_of_no_record_is_empty, the_carry_of_records_is_safe,
    the_orders_of_a_carry_are_those_of_the_devices,
};
pub use tally::Tally;
pub use told::{epoch_by, id_of};
pub use values::valueless;
pub use worth::{coins_of, coins_value};
