//! What there was when the calls of operations were entered that are still open: of each, the cells
//! that were altered since.
#![tactic(auto)]

mod frame;
mod frames;
mod looks;
mod old_world;
mod overlay;

pub use frame::{Call, Frame};
pub use frames::Frames;
pub use old_world::OldWorld;
pub use overlay::Overlay;
