use crate::{Expr, Stmt};
use class_model::{ClassModel, ClassNo, OpNo};
use ocl_values::Text;
use use_lists::Items;

/// The number of a contract: its place in the text.
pub type ContractNo = u32;

/// An invariant of a class (OCL 2.3.1, 7.3.3).
#[derive(Drop)]
pub struct Invariant {
    pub class: ClassNo,
    pub name: Text,
    /// Its instance is the only entry of the environment.
    pub expr: Expr,
}

/// A precondition or postcondition of an operation (OCL 2.3.1, 7.3.4).
#[derive(Drop)]
pub struct Contract {
    /// The declaration for which it is written.
    pub op: OpNo,
    pub name: Text,
    pub is_post: bool,
    /// The environment is the receiver, the arguments, and in a postcondition of an operation with a
    /// result that.
    pub expr: Expr,
}

/// What is carried out where an operation is called.
#[derive(Drop)]
pub enum OpBody {
    None,
    Query(Expr),
    Soil(Items<Stmt>),
}

/// A model and what is checked in it: the parts of a program.
#[derive(Drop)]
pub struct ProgramParts {
    pub model: ClassModel,
    /// In the order of the text.
    pub invariants: Items<Invariant>,
    /// In the order of the text.
    pub contracts: Items<Contract>,
    /// For each operation.
    pub bodies: Items<OpBody>,
    /// For each derived attribute.
    pub derived: Items<Expr>,
}
