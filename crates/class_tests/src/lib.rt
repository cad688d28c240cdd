//! Tests of declarations, of the rules of a well-formed model, and of object models.
#![tactic(auto)]

#[cfg(test)]
mod declared;
#[cfg(test)]
mod model;
#[cfg(test)]
mod rules;
#[cfg(test)]
mod texts;
