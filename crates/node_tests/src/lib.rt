//! Tests of nodes, and of what is read from them.
#![tactic(auto)]

#[cfg(test)]
mod decls;
#[cfg(test)]
mod expressions;
#[cfg(test)]
mod nodes;
