//! States in which the tests of the evaluator evaluate queries, each in a store of both kinds.
#![tactic(auto)]

mod moves;
mod states;

pub use states::{Both, at_entry, now};
