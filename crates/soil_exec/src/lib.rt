//! Statements of SOIL, carried out whole or not at all.
#![tactic(auto)]

mod acts;
mod block;
mod called;
mod calls;
mod commands;
mod evaluators;
mod execution;
mod fault;
mod machine;
mod setting;
mod shell;
mod targets;
mod values;
mod walk;

pub use commands::{call_to_enter, value_to_give};
use evaluators::Evaluator;
pub use execution::{environment, execute};
pub use fault::ExecFault;
use machine::Machine;
use setting::Setting;
use shell::Shell;
use walk::Walk;
