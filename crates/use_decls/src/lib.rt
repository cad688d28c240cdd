//! What a model declares, from the nodes of its tree, with the names filled in that it does not
//! write.
#![tactic(auto)]

mod assocs;
mod classes;
mod conds;
mod declarations;
mod declared;
mod lexed;
mod positions;
mod roles;
mod types;

pub use declarations::decls;
pub use declared::push_some;
pub use lexed::Lexed;
pub use roles::is_name_kind;
pub use types::{kind_at, type_decl, type_if};
