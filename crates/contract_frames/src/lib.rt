//! The contracts of operations: what held before a call, and what holds after it, over the present
//! state and the one at entry.
#![tactic(auto)]

mod checks;
mod conditions;
mod environments;
mod fault;
mod moves;
mod truths;

pub use checks::{check_post, check_pre};
pub use environments::bound_before;
pub use fault::FrameFault;
pub use moves::{enter, leave};
pub use truths::{all_true, first_fault, is_true, judged};
