//! What statements see: the names that a command takes from the shell, variables with what may be done with
//! each, and the expressions and calls in statements.
#![tactic(auto)]

mod arguments;
mod calls;
mod expressions;
mod places;
mod setting;
mod shell;
mod variables;

pub use arguments::{values, written_arguments};
pub use calls::{Call, Callee, call_by, called, callee_in, operation_of_type, said};
pub use expressions::{Placed, expression_at, expression_if, type_of};
pub use places::first_leaf;
pub use setting::Setting;
pub use shell::ShellNames;
pub use variables::{Reach, Role, Variables};
