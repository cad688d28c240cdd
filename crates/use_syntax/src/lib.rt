//! The language: its grammar as one table, and the reading of models and commands by it.
#![tactic(auto)]

mod commands;
mod expressions;
mod fault;
mod first;
mod firsts;
mod law;
mod models;
mod parsed;
mod production;
mod read;
mod reader;
mod row;
mod rule;
mod rules;
mod statements;
mod table;
mod types;

pub use fault::SyntaxFault;
pub use first::place_of_first;
pub use law::{language_is_fit, readings_are_held, refusals_stand_at_tokens};
pub use parsed::{Parsed, TokenTree};
pub use read::{read_command, read_model};
pub use reader::Reader;
pub use rule::Rule;
pub use table::grammar;
