//! From the declarations of a model to the object model that they give.
#![tactic(auto)]

mod class_table;
mod construction;
mod features;
mod multiplicities;
mod type_names;

pub use construction::build;
