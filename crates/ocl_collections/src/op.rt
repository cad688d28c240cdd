/// The operations of collections (OCL 2.3.1, 11.7), without the iterators.
#[derive(Clone, Copy, Debug, PartialEq, Eq)]
pub enum CollOp {
    Size,
    IsEmpty,
    NotEmpty,
    Includes,
    Excludes,
    /// How often a value is in the collection.
    Count,
    IncludesAll,
    ExcludesAll,
    Including,
    /// The collection without any occurrence of a value.
    Excluding,
    Union,
    /// What two collections share; of two Bags each value as often as the Bag that has fewer of it.
    Intersection,
    /// `-` of two Sets.
    Minus,
    SymmetricDifference,
    Append,
    Prepend,
    InsertAt,
    At,
    First,
    Last,
    /// The first place of a value, counted from 1.
    IndexOf,
    SubSequence,
    SubOrderedSet,
    Reverse,
    Sum,
    Max,
    Min,
    AsSet,
    AsBag,
    AsSequence,
    AsOrderedSet,
    /// The elements of inner collections, at any depth, in their place.
    Flatten,
}
