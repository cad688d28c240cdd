//! The texts of values and types in a state of a model, and what `info` writes of both.
#![tactic(auto)]

mod class_info;
mod lines;
mod model_info;
mod names;
mod state_info;
mod types;
mod variable_info;

pub use class_info::append_class;
pub use model_info::append_model;
pub use names::{StateNames, append_value};
pub use state_info::append_state;
pub use types::append_type;
pub use variable_info::append_variables;
