//! The shapes of calls and iterators as they are written, and what stands behind a dot or an arrow, where
//! its operands are typed.
#![tactic(auto)]

mod arrows;
mod elements;
mod extents;
mod members;
mod named;
mod shapes;

pub use arrows::{accumulated, iterated, malformed, operation_called};
pub use elements::{Elements, asks_elements, elements_of};
pub use extents::{class_asked, extent};
pub use members::{called, property};
pub use named::{named_by, type_found};
pub use shapes::{
    accumulates, accumulator_name, alone, are_plain, asked_name, body_of, expression_of, has_none,
    iterator_named, may_have_two, or_none, plain_name, start_of, variable_name, written_type,
};
