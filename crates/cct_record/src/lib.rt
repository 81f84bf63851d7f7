//! The records of the host's journal as bodies of 31 bytes, and a carry as some of them: one
//! spelling for each, both ways (`docs/JOURNAL.md`).
#![tactic(auto)]

mod carry;
mod carry_reading;
mod kind;
mod laws;
mod old;
mod reading;
mod writing;

pub use carry::encode_carry;
pub use carry_reading::read_carry;
pub use cct_model_lines::Record;
pub use laws::{
    a_body_spells_one_record, an_old_body_spells_one_record, bodies_spell_one_carry,
    old_bodies_spell_one_carry,
};
pub use old::{read_old, read_old_carry};
pub use reading::read;
pub use writing::encode;
