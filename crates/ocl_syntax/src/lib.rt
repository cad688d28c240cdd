//! Expressions as they are written: one node for each written node, with its place.
#![tactic(auto)]

mod collected;
mod expression;
mod forms;
mod laws;
mod layer;
mod literal;
mod made;
mod passed;
mod places;
mod plain;
mod tokens;
mod tree;

pub use expression::written;
pub use laws::{
    places_are_those_of_tokens, places_in_texts_are_those_of_tokens, places_stand_in_expressions,
};
pub use tree::{Argument, Written, WrittenBinary, WrittenLiteral, WrittenPart, WrittenUnary};
