//! Models: from the nodes of a model's text to its program.
#![tactic(auto)]

mod attributes;
mod checked;
mod classes;
mod contexts;
mod contracts;
mod fault;
mod invariants;
mod operations;
mod program;
mod rules;
mod seen;
mod source;

pub use fault::ModelFault;
pub use program::check_model;
pub use rules::value_rule;
