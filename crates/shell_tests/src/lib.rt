//! Tests of sessions and runs.
#![tactic(auto)]

#[cfg(test)]
mod session;
#[cfg(test)]
mod sessions;
#[cfg(test)]
mod shell;
