use crate::{BinaryOp, IterOp, PlainOp, TypeTest, UnaryOp, When};
use class_model::{AssocNo, AttrNo, ClassNo, DerNo, End, OclType, OpNo};
use ocl_collections::CollOp;
use ocl_values::{Kind, Value};
use use_lists::{Boxed, Items};

/// A checked expression (OCL 2.3.1, clause 8): names are numbers, and what is not written but meant
/// stands in the tree.
#[cycle(tree)]
#[derive(Drop, PartialEq)]
pub enum Expr {
    Literal(Value),
    /// An entry of the environment, counted from the outermost.
    Local(u32),
    Unary(UnaryOp, Boxed<Expr>),
    Binary(BinaryOp, Boxed<Expr>, Boxed<Expr>),
    If(Boxed<Expr>, Boxed<Expr>, Boxed<Expr>),
    /// A value, and what is to be evaluated with it as the innermost entry of the environment.
    Let(Boxed<Expr>, Boxed<Expr>),
    /// A collection of its parts.
    Make(Kind, Items<Part>),
    /// An operation of a value: the source, then the arguments.
    Plain(PlainOp, Items<Expr>),
    /// An operation of a collection: the source, then the arguments.
    Coll(CollOp, Items<Expr>),
    /// An iterator: its source, how many variables it has, the start of `iterate`, and its body. In the
    /// body the variables stand first in the environment, then what is accumulated.
    Iter(IterOp, Boxed<Expr>, u32, Option<Boxed<Expr>>, Boxed<Expr>),
    /// A stored attribute of an object.
    Attr(Boxed<Expr>, AttrNo, When),
    /// A derived attribute of an object.
    Derived(Boxed<Expr>, DerNo, When),
    /// What is linked with an object at an end.
    Nav(Boxed<Expr>, AssocNo, End, When),
    /// The instances of a class.
    Extent(ClassNo, When),
    /// The value of an operation's query: the receiver, the operation, and the arguments.
    Query(Boxed<Expr>, OpNo, Items<Expr>),
    Test(TypeTest, Boxed<Expr>, OclType, When),
    /// `oclIsNew`.
    IsNew(Boxed<Expr>),
    /// A set of what is no collection: null is none, and a collection is itself.
    ToSet(Boxed<Expr>),
}

/// A part of a written collection.
#[cycle(tree)]
#[derive(Drop, PartialEq)]
pub enum Part {
    One(Expr),
    /// The whole numbers from the first to the last.
    Range(Expr, Expr),
}
