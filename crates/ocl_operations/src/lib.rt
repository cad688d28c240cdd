//! What the operators, operations and iterators of expressions give, over values.
#![tactic(auto)]

mod iterators;
mod navigation;
mod operators;
mod ranges;
mod sources;
mod type_tests;

pub use iterators::{ends_walk, is_true, iterator_value, may_have, wants_start};
pub use navigation::navigated;
pub use operators::{binary, decided, plain, unary};
pub use ranges::{append_range, range_count};
pub use sources::as_source;
pub use type_tests::{plain_tested, tested};
