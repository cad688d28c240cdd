//! What values refer to: their objects, and values without an object.
#![tactic(auto)]

mod objects;
mod without;

pub use objects::{add_references, references, refers_to};
pub use without::without_object;
