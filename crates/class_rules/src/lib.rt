//! The rules of a well-formed model that need inheritance, all rules in their order, and the classes
//! of declarations by number.
#![tactic(auto)]

mod agreeing;
mod ancestors;
mod by_class;
mod clash;
mod contracts;
mod cycles;
mod features;
mod groups;
mod heads;
mod hierarchy;
mod index;
mod laws;
mod numbering;
mod numbers;
mod overriding;
mod places;
mod queue;
mod ready;
mod rules;
mod sharing;
mod unbroken;

pub use by_class::ClassRule;
pub use clash::Clash;
pub use hierarchy::Hierarchy;
pub use laws::{ancestors_are_least, classes_are_numbered, cycles_go_round};
pub use rules::{RuleFault, judge};
