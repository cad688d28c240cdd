//! Laws of the statements that are checked: what holds of them in the model.
#![tactic(auto)]

mod laws;

pub use laws::{body_statements_are_in_range, command_statements_are_in_range};
