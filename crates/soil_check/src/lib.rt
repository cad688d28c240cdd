//! Commands, checked: names and types in each form of command. Models are checked by `check_model`.
#![tactic(auto)]

mod calls;
mod checked;
mod commands;
mod scope;
mod seen;
mod shell;
mod topics;

pub use checked::{Checked, Topic};
pub use commands::check_command;
pub use model_check::{ModelFault, check_model};
pub use ocl_rules::TypeFault;
pub use scope::{Bindings, NoScope, Scope, ShellName};
