//! The texts of open calls and of contracts: which calls are open, and what contracts came to.
#![tactic(auto)]

mod contracts;
mod open_calls;

pub use contracts::{append_broken, append_posts, append_pres, are_met};
pub use open_calls::append_calls;
