//! The lines that the programs write, field by field: which columns each has, and what it says in
//! words (`docs/SHOW.md`). A line becomes a row of CSV (RFC 4180), or an object of JSON (RFC 8259).
#![tactic(auto)]

mod cell;
mod column;
mod csv;
mod form;
mod json;
mod lines;
mod parts;
mod quoted;
mod row;
mod sentence;

pub use csv::{CsvHeading, CsvRow};
pub use json::JsonRow;
pub use row::{Line, Row, Rows};
pub use sentence::Sentence;
