//! What names stand for in expressions, and which rule a call by a name breaks.
#![tactic(auto)]

mod calls;
mod environment;
mod features;
mod given;
mod hidden;
mod laws;
mod literals;
mod names;
mod tests_of_values;

pub use calls::{call_rule, implicit_call};
pub use environment::{Environment, Scope, Variable};
pub use features::property;
pub use given::{Given, TypeArgument};
pub use hidden::{collected, hidden_element};
pub use laws::{
    calls_are_in_range, collected_values_are_in_range, declared_types_are_the_models,
    environments_keep_their_variables, hidden_elements_are_in_range, implicit_calls_are_in_range,
    literals_are_in_range, names_are_in_range, properties_are_in_range,
    qualified_literals_are_in_range, types_are_the_models, what_was_pushed_is_left,
};
pub use literals::{literal_type, only_literal_rule, qualified};
pub use names::{bare, declared_if, declared_type, finds_value, type_named, type_wanted};
pub use tests_of_values::{definedness, type_test};
