//! The words of the command line, as `clap` reads them.
#![tactic(auto)]

mod command;
mod found;
mod words;

pub use words::{WordFault, Words, read_words, usage_line};
