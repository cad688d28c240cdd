use ocl_collections::CollOp;
use ocl_values::Kind;

/// A parameter of an operation of collections.
#[derive(Clone, Copy, Debug, PartialEq, Eq)]
pub enum Param {
    /// Any value.
    Element,
    Integer,
    /// A collection of any kind.
    Collection,
}

/// The collections that an operation is for.
#[derive(Clone, Copy, Debug, PartialEq, Eq)]
pub enum Sources {
    Every,
    /// Sequences and OrderedSets.
    Ordered,
    Sequences,
    OrderedSets,
    SetsAndBags,
    Sets,
    /// Those of Integers.
    OfIntegers,
}

/// What an operation of collections gives.
#[derive(Clone, Copy, Debug, PartialEq, Eq)]
pub enum Gives {
    Integer,
    Boolean,
    /// An element of the source.
    Element,
    /// A collection of the source's type.
    Same,
    /// One of the source's kind, to whose elements the last argument belongs too.
    Joined,
    /// One of this kind with the source's elements.
    Of(Kind),
    Union,
    Intersection,
    /// The symmetric difference.
    Difference,
    /// One of the source's kind, with the elements of inner collections.
    Flat,
}

/// The parameters of an operation of collections.
#[derive(Clone, Copy, Debug, PartialEq, Eq)]
pub enum Params {
    Nothing,
    Element,
    Collection,
    Place,
    PlaceAndElement,
    TwoPlaces,
}

/// An operation of collections (OCL 2.3.1, 11.7).
#[derive(Clone, Copy, Debug, PartialEq, Eq)]
pub struct CollectionOperation {
    pub op: CollOp,
    pub params: Params,
    pub sources: Sources,
    pub gives: Gives,
}

/// The operations of collections, by their names.
pub const COLLECTION_OPERATIONS: [(&str, CollectionOperation); 31] = [
    (
        "size",
        CollectionOperation {
            op: CollOp::Size,
            params: Params::Nothing,
            sources: Sources::Every,
            gives: Gives::Integer,
        },
    ),
    (
        "isEmpty",
        CollectionOperation {
            op: CollOp::IsEmpty,
            params: Params::Nothing,
            sources: Sources::Every,
            gives: Gives::Boolean,
        },
    ),
    (
        "notEmpty",
        CollectionOperation {
            op: CollOp::NotEmpty,
            params: Params::Nothing,
            sources: Sources::Every,
            gives: Gives::Boolean,
        },
    ),
    (
        "includes",
        CollectionOperation {
            op: CollOp::Includes,
            params: Params::Element,
            sources: Sources::Every,
            gives: Gives::Boolean,
        },
    ),
    (
        "excludes",
        CollectionOperation {
            op: CollOp::Excludes,
            params: Params::Element,
            sources: Sources::Every,
            gives: Gives::Boolean,
        },
    ),
    (
        "count",
        CollectionOperation {
            op: CollOp::Count,
            params: Params::Element,
            sources: Sources::Every,
            gives: Gives::Integer,
        },
    ),
    (
        "includesAll",
        CollectionOperation {
            op: CollOp::IncludesAll,
            params: Params::Collection,
            sources: Sources::Every,
            gives: Gives::Boolean,
        },
    ),
    (
        "excludesAll",
        CollectionOperation {
            op: CollOp::ExcludesAll,
            params: Params::Collection,
            sources: Sources::Every,
            gives: Gives::Boolean,
        },
    ),
    (
        "including",
        CollectionOperation {
            op: CollOp::Including,
            params: Params::Element,
            sources: Sources::Every,
            gives: Gives::Joined,
        },
    ),
    (
        "excluding",
        CollectionOperation {
            op: CollOp::Excluding,
            params: Params::Element,
            sources: Sources::Every,
            gives: Gives::Same,
        },
    ),
    (
        "union",
        CollectionOperation {
            op: CollOp::Union,
            params: Params::Collection,
            sources: Sources::Every,
            gives: Gives::Union,
        },
    ),
    (
        "intersection",
        CollectionOperation {
            op: CollOp::Intersection,
            params: Params::Collection,
            sources: Sources::SetsAndBags,
            gives: Gives::Intersection,
        },
    ),
    (
        "symmetricDifference",
        CollectionOperation {
            op: CollOp::SymmetricDifference,
            params: Params::Collection,
            sources: Sources::Sets,
            gives: Gives::Difference,
        },
    ),
    (
        "append",
        CollectionOperation {
            op: CollOp::Append,
            params: Params::Element,
            sources: Sources::Ordered,
            gives: Gives::Joined,
        },
    ),
    (
        "prepend",
        CollectionOperation {
            op: CollOp::Prepend,
            params: Params::Element,
            sources: Sources::Ordered,
            gives: Gives::Joined,
        },
    ),
    (
        "insertAt",
        CollectionOperation {
            op: CollOp::InsertAt,
            params: Params::PlaceAndElement,
            sources: Sources::Ordered,
            gives: Gives::Joined,
        },
    ),
    (
        "at",
        CollectionOperation {
            op: CollOp::At,
            params: Params::Place,
            sources: Sources::Ordered,
            gives: Gives::Element,
        },
    ),
    (
        "first",
        CollectionOperation {
            op: CollOp::First,
            params: Params::Nothing,
            sources: Sources::Ordered,
            gives: Gives::Element,
        },
    ),
    (
        "last",
        CollectionOperation {
            op: CollOp::Last,
            params: Params::Nothing,
            sources: Sources::Ordered,
            gives: Gives::Element,
        },
    ),
    (
        "indexOf",
        CollectionOperation {
            op: CollOp::IndexOf,
            params: Params::Element,
            sources: Sources::Ordered,
            gives: Gives::Integer,
        },
    ),
    (
        "subSequence",
        CollectionOperation {
            op: CollOp::SubSequence,
            params: Params::TwoPlaces,
            sources: Sources::Sequences,
            gives: Gives::Same,
        },
    ),
    (
        "subOrderedSet",
        CollectionOperation {
            op: CollOp::SubOrderedSet,
            params: Params::TwoPlaces,
            sources: Sources::OrderedSets,
            gives: Gives::Same,
        },
    ),
    (
        "reverse",
        CollectionOperation {
            op: CollOp::Reverse,
            params: Params::Nothing,
            sources: Sources::Ordered,
            gives: Gives::Same,
        },
    ),
    (
        "sum",
        CollectionOperation {
            op: CollOp::Sum,
            params: Params::Nothing,
            sources: Sources::OfIntegers,
            gives: Gives::Integer,
        },
    ),
    (
        "max",
        CollectionOperation {
            op: CollOp::Max,
            params: Params::Nothing,
            sources: Sources::OfIntegers,
            gives: Gives::Integer,
        },
    ),
    (
        "min",
        CollectionOperation {
            op: CollOp::Min,
            params: Params::Nothing,
            sources: Sources::OfIntegers,
            gives: Gives::Integer,
        },
    ),
    (
        "asSet",
        CollectionOperation {
            op: CollOp::AsSet,
            params: Params::Nothing,
            sources: Sources::Every,
            gives: Gives::Of(Kind::Set),
        },
    ),
    (
        "asBag",
        CollectionOperation {
            op: CollOp::AsBag,
            params: Params::Nothing,
            sources: Sources::Every,
            gives: Gives::Of(Kind::Bag),
        },
    ),
    (
        "asSequence",
        CollectionOperation {
            op: CollOp::AsSequence,
            params: Params::Nothing,
            sources: Sources::Every,
            gives: Gives::Of(Kind::Sequence),
        },
    ),
    (
        "asOrderedSet",
        CollectionOperation {
            op: CollOp::AsOrderedSet,
            params: Params::Nothing,
            sources: Sources::Every,
            gives: Gives::Of(Kind::OrderedSet),
        },
    ),
    (
        "flatten",
        CollectionOperation {
            op: CollOp::Flatten,
            params: Params::Nothing,
            sources: Sources::Every,
            gives: Gives::Flat,
        },
    ),
];
