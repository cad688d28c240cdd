//! Object diagrams with indexes: a change costs the logarithm of what there is, a look its result.
#![tactic(auto)]

mod ends;
mod entries;
mod extents;
mod link_table;
mod names;
mod number_map;
mod object_table;
mod page;
mod pair_map;
mod store;
mod store_changes;
mod store_looks;
mod text_map;

pub use store::Store;

/// The association and the stamp of a link.
type LinkKey = (class_model::AssocNo, u32);

/// An association and a pair that it links.
type PairKey = (class_model::AssocNo, (ocl_values::ObjNo, ocl_values::ObjNo));
