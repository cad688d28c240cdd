//! Tests of checked models and their programs, over texts of models.
#![tactic(auto)]

#[cfg(test)]
mod programs;
