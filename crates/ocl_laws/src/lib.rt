//! Laws of typing: what holds of the type of every expression, or of the refusal of it.
#![tactic(auto)]

mod laws;

pub use laws::{
    refusals_in_texts_stand_at_tokens, refusals_stand_at_tokens, refusals_stand_in_expressions,
    types_are_in_range, types_read_the_present_state, typings_are_told_once,
};
