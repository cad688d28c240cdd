//! Checked trees: expressions and statements that a model's rules allow, and the program of a model.
#![tactic(auto)]

mod copies;
mod expression;
mod kinds;
mod operators;
mod program;
mod statement;

pub use class_model::{AssocNo, AttrNo, ClassNo, DerNo, End, OclType, OpNo};
pub use expression::{Expr, Part};
pub use kinds::{collected_kind, sorted_kind};
pub use ocl_collections::CollOp;
pub use ocl_values::{IntOp, Kind, StrOp, Text, Value};
pub use operators::{BinaryOp, IterOp, PlainOp, TypeTest, UnaryOp, When};
pub use program::{Contract, ContractNo, Invariant, OpBody, ProgramParts};
pub use statement::{Act, Stmt, Target};
