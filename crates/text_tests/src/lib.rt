//! Tests of texts and of the grammar.
#![tactic(auto)]

#[cfg(test)]
mod grammar;
#[cfg(test)]
mod syntax;
#[cfg(test)]
mod text;
