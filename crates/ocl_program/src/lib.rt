//! The program of a model: its checked parts, and the contracts that each operation has.
#![tactic(auto)]

mod by_operation;
mod program;

pub use program::Program;
