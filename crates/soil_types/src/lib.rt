//! The statements of commands and of the bodies of operations, checked: which rule each form breaks, and
//! what it makes known to the statements behind it.
#![tactic(auto)]

mod blocks;
mod forms;
mod level;
mod objects;
mod storing;
mod targets;

pub use blocks::{body_statements, command_statements};
use level::Level;
pub use objects::{class_wanted, is_object};
