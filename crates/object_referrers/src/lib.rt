//! Object diagrams that also know where their values refer to an object, so that an object can be
//! destroyed at the cost of its links and of the places that hold it.
#![tactic(auto)]

mod keys;
mod referrers;
mod store;
mod store_looks;

pub use store::ReferrerStore;

/// The association and the stamp of a link, and the objects that it joins.
pub type Link = (
    (class_model::AssocNo, u32),
    (ocl_values::ObjNo, ocl_values::ObjNo),
);

/// An object that a slot's value refers to, and the slot.
type SlotKey = (ocl_values::ObjNo, (ocl_values::ObjNo, class_model::AttrNo));

/// An object that a variable's value refers to, and the variable's name.
type VariableKey = (ocl_values::ObjNo, ocl_values::Text);
