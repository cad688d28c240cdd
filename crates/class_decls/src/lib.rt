//! What a model declares, and the rules of a well-formed model that need no inheritance.
#![tactic(auto)]

mod decls;
mod different;
mod entry;
mod limits;
mod name_set;
mod names;
mod references;
mod repeats;

pub use decls::{
    AssocDecl, AttrDecl, BodyKind, ClassDecl, CondDecl, CondKind, Decls, EndDecl, EnumDecl,
    MultPart, Name, OpDecl, OpOf, ParamDecl, TypeDecl,
};
pub use entry::{Entry, Named, Space, add_texts};
pub use limits::{
    bad_multiplicity, too_many_assocs, too_many_classes, too_many_invariants, too_many_literals,
};
pub use name_set::NameSet;
pub use names::{
    head_in, name_declared_twice, op_text, operation_declared_twice, parent_named_twice,
};
pub use references::unknown_type;
