use class_decls::{Name, TypeDecl};
use ocl_values::{Kind, Text};
use use_lists::{Boxed, Items};
use use_text::Place;

/// An operator before its operand.
#[derive(Clone, Copy, Debug, PartialEq, Eq)]
pub enum WrittenUnary {
    Not,
    Neg,
}

/// An operator between its operands.
#[derive(Clone, Copy, Debug, PartialEq, Eq)]
pub enum WrittenBinary {
    And,
    Or,
    Xor,
    Implies,
    Eq,
    Ne,
    Lt,
    Le,
    Gt,
    Ge,
    Add,
    Sub,
    Mul,
    Div,
    Mod,
}

/// What a literal says: a number, a String, `true`, `false`, `null`, `Undefined` (null) or `invalid`.
#[derive(Debug, Drop, PartialEq, Eq)]
pub enum WrittenLiteral {
    Null,
    Invalid,
    Bool(bool),
    Int(i128),
    Str(Text),
}

/// An expression as it is written (OCL 2.3.1, clause 9), its names not yet looked up.
#[cycle(written)]
#[derive(Debug, Drop)]
pub enum Written {
    /// A node deeper than expressions may nest, by its place; what stands in it is left out.
    TooDeep(Place),
    /// A literal, and its place.
    Literal(Place, WrittenLiteral),
    /// `#a`; the place is that of `#`.
    OnlyLiteral(Place, Name),
    /// A name, `E::a` or `op(args)`; the flag says that `@pre` follows.
    Named(Name, Option<Boxed<Name>>, bool, Option<Items<Argument>>),
    /// A collection literal: the place of its kind, the kind and the parts.
    Collection(Place, Kind, Items<WrittenPart>),
    /// The place of the word `if`, the condition and the two branches.
    If(Place, Boxed<Written>, Boxed<Written>, Boxed<Written>),
    /// One bind of a `let`: the place of the word `let` (of a later bind that of its name), the
    /// name, its type, its value, and what stands behind it: the next bind, or the body.
    Let(Place, Name, Option<Boxed<TypeDecl>>, Boxed<Written>, Boxed<Written>),
    /// The place of the operator, the operator and its operand.
    Unary(Place, WrittenUnary, Boxed<Written>),
    /// The place of the operator, the operator and its operands.
    Binary(Place, WrittenBinary, Boxed<Written>, Boxed<Written>),
    /// `source.name`, with `@pre`, with arguments; of `.div(..)` and `.mod(..)` the word is the name.
    Dot(Boxed<Written>, Name, bool, Option<Items<Argument>>),
    /// `source->name`, with arguments.
    Arrow(Boxed<Written>, Name, Option<Items<Argument>>),
    /// An expression in parentheses, and the place of the opening one.
    Group(Place, Boxed<Written>),
}

/// A part of a collection literal.
#[cycle(written)]
#[derive(Debug, Drop)]
pub enum WrittenPart {
    One(Written),
    /// The place of `..`, and the first and the last value.
    Range(Place, Written, Written),
}

/// What stands between the parentheses of a call, in the order of the text.
#[cycle(written)]
#[derive(Debug, Drop)]
pub enum Argument {
    /// `e`, `e : T` or `e : T = start`, before `;` and `|`.
    Item(Written, Option<TypeDecl>, Option<Boxed<Written>>),
    /// The same behind `;`.
    Accumulator(Written, Option<TypeDecl>, Option<Boxed<Written>>),
    /// What stands behind `|`.
    Body(Written),
}
