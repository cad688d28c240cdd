//! What the tests of the evaluator evaluate queries in: a model with two of its states, and an environment.
#![tactic(auto)]

mod checked;
mod foreign;
mod queries;
mod row_fault;
mod scene;
mod turns;

pub use checked::{ALONE, AT_EXIT, How, PADDED, PADDED_AT_EXIT, Row, rows_hold};
pub use foreign::rows_hold_elsewhere;
pub use row_fault::RowFault;
pub use turns::{cells_of, end_of, in_turn, without_last};
