use crate::{WrittenBinary, WrittenLiteral, WrittenUnary};
use class_decls::{Name, TypeDecl};
use ocl_values::Kind;
use use_lists::Items;
use use_nodes::{NodeRef, Parts};
use use_text::Place;

/// What stands behind an expression and makes a larger one of both.
#[derive(Drop)]
pub enum Behind<'a> {
    /// An operator and the operand on its right.
    Operator(NodeRef<'a>, NodeRef<'a>),
    /// A dot or an arrow.
    Step(NodeRef<'a>),
}

/// What is read as one expression.
#[derive(Drop)]
pub enum Piece<'a> {
    /// A node.
    Node(NodeRef<'a>),
    /// A node, and what stands behind it from left to right.
    Row(NodeRef<'a>, Items<Behind<'a>>),
    /// Binds of a `let`, the place at which the first is written if it is not that of its name, and
    /// the body.
    Binds(Option<Place>, Parts<'a>, NodeRef<'a>),
}

/// An argument without the expressions in it; the flag says that there is a start.
#[derive(Drop)]
pub enum ArgumentHead {
    Item(Option<TypeDecl>, bool),
    Accumulator(Option<TypeDecl>, bool),
    Body,
}

/// A part of a collection literal without the expressions in it.
#[derive(Clone, Copy)]
pub enum PartHead {
    One,
    Range(Place),
}

/// A form of expression without the expressions in it.
#[derive(Drop)]
pub enum Head {
    /// A node that lacks a part; none in a tree that was read does.
    Lacking,
    /// The one expression that stands in it.
    Same,
    Literal(Place, WrittenLiteral),
    OnlyLiteral(Place, Name),
    Named(Name, Option<Name>, bool, Option<Items<ArgumentHead>>),
    Collection(Place, Kind, Items<PartHead>),
    If(Place),
    Let(Place, Name, Option<TypeDecl>),
    Unary(Place, WrittenUnary),
    Binary(Place, WrittenBinary),
    Dot(Name, bool, Option<Items<ArgumentHead>>),
    Arrow(Name, Option<Items<ArgumentHead>>),
    Group(Place),
}

/// A form and what is read as the expressions in it, from left to right.
#[derive(Drop)]
pub struct Layer<'a> {
    pub head: Head,
    pub inner: Items<Piece<'a>>,
}

/// Arguments without the expressions in them, and what is read as those.
#[derive(Drop)]
pub struct ArgumentLayer<'a> {
    pub heads: Option<Items<ArgumentHead>>,
    pub inner: Items<Piece<'a>>,
}
