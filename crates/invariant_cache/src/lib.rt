//! Which invariants and which multiplicities hold in a state.
#![tactic(auto)]

mod cache;
mod judging;
mod report;
mod structure;

pub use cache::Cache;
pub use report::{Instance, Judged, Report, Verdict};
pub use structure::{Structure, Violation};
