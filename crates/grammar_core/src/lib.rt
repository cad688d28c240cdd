//! A parser over any table of productions, and the test that a table is fit for it.
#![tactic(auto)]

mod builder;
mod chains;
mod choices;
mod fault;
mod fitness;
mod grammar;
mod laws;
mod lookup;
mod machine;
mod marks;
mod node;
mod parser;
mod repeated;
mod table;
mod tree;

pub use fault::{GrammarFault, ParseFault};
pub use grammar::Grammar;
pub use laws::{
    certified_tables_are_fit, gives_once, holds_once, leaves_are_tokens, verdict_holds,
};
pub use node::Node;
pub use parser::{Parser, parse};
pub use table::{Branch, Prod, Rule, Table};
pub use tree::{NodeNo, Tree};
