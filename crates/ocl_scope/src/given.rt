use class_model::OclType;
use ocl_rules::Typed;
use use_lists::Items;
use use_text::Place;

/// What stands as an argument of a test of types.
#[derive(Drop)]
pub enum TypeArgument {
    OfType(OclType),
    /// What is no type, by the place of its first token.
    NoType(Place),
}

/// The arguments of a call by a name, typed. The flag says that no `:`, `;` or `|` stands among them.
#[derive(Drop)]
pub enum Given {
    Values(Items<Typed>, bool),
    /// The arguments of a test of types.
    Types(Items<TypeArgument>, bool),
}
