//! Tests of states and stores.
#![tactic(auto)]

#[cfg(test)]
mod states;
#[cfg(test)]
mod stores;
