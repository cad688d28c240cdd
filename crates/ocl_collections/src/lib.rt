//! The collection library of OCL: Sets, OrderedSets, Bags and Sequences, canonical after every call.
#![tactic(auto)]

mod adding;
mod conversion;
mod depth;
mod flattening;
mod making;
mod membership;
mod op;
mod operations;
mod owned;
mod positions;
mod selection;
mod set_algebra;
mod sorting;
mod sums;

pub use flattening::flatten;
pub use making::make;
pub use op::CollOp;
pub use operations::apply;
pub use owned::apply_owned;
pub use selection::{copy_selected, select};
pub use sorting::sort_by_keys;
