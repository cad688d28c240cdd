//! Object diagrams: objects, links and variables, what can be seen of them, and how they change.
#![tactic(auto)]

mod cell;
mod cells;
mod change;
mod entries;
mod fitting;
mod laws;
mod layout;
mod looks;
mod objects;
mod plain;
mod plain_changes;
mod plain_looks;
mod proposals;
mod reader;
mod reader_world;
mod store_fault;
mod touch;
mod weights;
mod world;

pub use cell::{Cell, Look};
pub use cells::Cells;
pub use change::{Change, LinkChange, ObjectChange};
pub use laws::{
    changes_are_taken_back, changes_keep_states_valid, sets_have_what_they_are_given,
    touched_cells_are_altered,
};
pub use layout::{AssocLayout, ClassLayout, Layout};
pub use objects::{Object, Variable, object_of, set_slot};
pub use plain::PlainStore;
pub use proposals::{creation, linking};
pub use reader::StateReader;
pub use store_fault::StoreFault;
pub use touch::touched;
pub use world::World;

/// The association and the stamp of a link.
type LinkKey = (class_model::AssocNo, u32);
