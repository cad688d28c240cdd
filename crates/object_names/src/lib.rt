//! Names of objects: which texts are names, and names that are made of a class and a number.
#![tactic(auto)]

mod made;
mod words;

pub use made::made_name;
pub use words::is_name;
