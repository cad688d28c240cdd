//! Object models: types, classes, attributes, operations and associations by number.
#![tactic(auto)]

mod by_name;
mod class_index;
mod class_model;
mod conformance;
mod inheritance;
mod laws;
mod lists;
mod literals;
mod multiplicity;
mod numbers;
mod object_model;
mod operations;
mod readings;
mod types;

pub use by_name::{ByName, add_first};
pub use class_decls::BodyKind;
pub use class_model::ClassModel;
pub use multiplicity::{Multiplicity, Span};
pub use numbers::{AssocNo, AttrNo, ClassNo, DerNo, End, OpNo};
pub use object_model::{
    Association, AssociationEnd, Attribute, Class, Enumeration, ObjectModel, Operation, Parameter,
};
pub use ocl_values::{EnumNo, Kind, LitNo};
pub use types::OclType;
