//! Tests of the types and refusals of expressions.
#![tactic(auto)]

#[cfg(test)]
mod rules;
#[cfg(test)]
mod types;
