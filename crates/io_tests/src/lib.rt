//! Tests of sources, sinks and shelves.
#![tactic(auto)]

#[cfg(test)]
mod io;
