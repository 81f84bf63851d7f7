//! The words of the command line, read as a command with seven subcommands.
#![tactic(auto)]

mod command;
mod said;
mod words;

pub use words::{Words, WordsNo, read_words};
