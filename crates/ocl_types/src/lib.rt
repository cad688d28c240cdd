//! The type of every expression as it is written, or the first rule that it breaks.
#![tactic(auto)]

mod arguments;
mod calls;
mod iterators;
mod layers;
mod node;
mod setting;
mod walk;

use node::Node;
use setting::Setting;
pub use walk::type_expr;
