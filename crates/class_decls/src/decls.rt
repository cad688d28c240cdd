use crate::entry::Named;
use ocl_values::{Kind, Text};
use use_lists::Items;
use use_text::Place;

/// A name and where it is written. A name that was filled in stands at the word for which it was
/// made.
#[derive(Debug, Drop)]
pub struct Name {
    pub text: Text,
    pub place: Place,
}

/// A type as it is written: the kinds of its collections from the outside in, and the name in them.
#[derive(Debug, Drop)]
pub struct TypeDecl {
    pub kinds: Items<Kind>,
    pub name: Name,
}

/// An enumeration and its literals.
#[derive(Debug, Drop)]
pub struct EnumDecl {
    pub name: Name,
    pub literals: Items<Name>,
}

/// What a declaration of an operation gives as its body.
#[derive(Clone, Copy, Debug, PartialEq, Eq)]
pub enum BodyKind {
    /// No body.
    Bare,
    /// An expression.
    Query,
    /// A block of statements.
    Soil,
}

/// A parameter of an operation.
#[derive(Debug, Drop)]
pub struct ParamDecl {
    pub name: Name,
    pub of_type: TypeDecl,
}

/// The head of an operation, and what kind of body stands behind it.
#[derive(Debug, Drop)]
pub struct OpDecl {
    pub name: Name,
    pub params: Items<ParamDecl>,
    pub result_type: Option<TypeDecl>,
    pub body: BodyKind,
}

/// An attribute. A derived one has a body in place of a value of its own.
#[derive(Debug, Drop)]
pub struct AttrDecl {
    pub name: Name,
    pub of_type: TypeDecl,
    pub is_derived: bool,
}

/// A class, with what it declares itself.
#[derive(Debug, Drop)]
pub struct ClassDecl {
    pub name: Name,
    pub is_abstract: bool,
    pub parents: Items<Name>,
    pub attrs: Items<AttrDecl>,
    pub ops: Items<OpDecl>,
}

/// A part of a multiplicity: `5`, `0..1` or `2..*`. Where `*` stands there is no upper bound.
#[derive(Debug, Drop)]
pub struct MultPart {
    /// Its first token.
    pub place: Place,
    /// Its tokens as they are written, without white space.
    pub text: Text,
    pub low: i128,
    pub high: Option<i128>,
}

/// An end of an association.
#[derive(Debug, Drop)]
pub struct EndDecl {
    pub class: Name,
    pub parts: Items<MultPart>,
    pub role: Name,
    pub is_ordered: bool,
}

/// An association, an aggregation or a composition: the three mean the same.
#[derive(Debug, Drop)]
pub struct AssocDecl {
    pub name: Name,
    pub first: EndDecl,
    pub second: EndDecl,
}

/// The operation that a contract belongs to.
#[derive(Debug, Drop)]
pub enum OpOf {
    /// The operation behind whose head the contract stands, by its name.
    Here(Name),
    /// The operation that a context names, by the place from 0 of the context's head in
    /// `Decls::context_heads`: the contract sees the parameters and the result of that head.
    Named(usize),
}

/// What a condition is.
#[derive(Debug, Drop)]
pub enum CondKind {
    Inv,
    Pre(OpOf),
    Post(OpOf),
}

/// An invariant or a contract of an operation.
#[derive(Debug, Drop)]
pub struct CondDecl {
    pub kind: CondKind,
    pub class: Name,
    pub name: Name,
}

/// What a model declares, each list in the order of the text.
#[derive(Debug, Drop)]
pub struct Decls {
    pub name: Name,
    pub enums: Items<EnumDecl>,
    pub classes: Items<ClassDecl>,
    pub assocs: Items<AssocDecl>,
    /// Invariants and contracts, those inside classes included.
    pub conds: Items<CondDecl>,
    /// The heads that contexts name, one for each context that names an operation.
    pub context_heads: Items<OpDecl>,
}

impl Named for EnumDecl {
    ghost name_of = { λ d. d.name };

    fn name(&self) -> &Name {
        &self.name
    }
}

impl Named for ClassDecl {
    ghost name_of = { λ d. d.name };

    fn name(&self) -> &Name {
        &self.name
    }
}

impl Named for AssocDecl {
    ghost name_of = { λ d. d.name };

    fn name(&self) -> &Name {
        &self.name
    }
}

impl Named for ParamDecl {
    ghost name_of = { λ d. d.name };

    fn name(&self) -> &Name {
        &self.name
    }
}

impl Named for OpDecl {
    ghost name_of = { λ d. d.name };

    fn name(&self) -> &Name {
        &self.name
    }
}

impl Named for AttrDecl {
    ghost name_of = { λ d. d.name };

    fn name(&self) -> &Name {
        &self.name
    }
}
