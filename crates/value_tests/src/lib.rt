//! Tests of values and collections.
#![tactic(auto)]

#[cfg(test)]
mod collections;
#[cfg(test)]
mod values;
