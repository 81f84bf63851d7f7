//! What a document for people is written with: a pen, which escapes what it writes, and short
//! texts.
#![tactic(auto)]

mod label;
mod pen;

pub use label::{Label, MOST_LABEL};
pub use pen::Pen;
