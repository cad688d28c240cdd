use class_model::OclType;
use ocl_core::Expr;
use use_text::Place;

/// A checked expression and its type.
#[derive(Drop)]
pub struct Typed {
    pub expr: Expr,
    pub of_type: OclType,
}

/// A typed part of a collection literal.
#[derive(Drop)]
pub enum TypedPart {
    One(Typed),
    /// A range, at the place of its `..`.
    Range(Place, Typed, Typed),
}
