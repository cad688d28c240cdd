use ocl_values::{IntOp, StrOp};

/// Which state is read.
#[derive(Clone, Copy, Debug, PartialEq, Eq)]
pub enum When {
    Now,
    /// The state at the entry of an operation, in a postcondition (OCL 2.3.1, 7.6.2).
    Pre,
}

/// An operator of one operand.
#[derive(Clone, Copy, Debug, PartialEq, Eq)]
pub enum UnaryOp {
    Not,
    Neg,
}

/// An operator between two operands.
#[derive(Clone, Copy, Debug, PartialEq, Eq)]
pub enum BinaryOp {
    And,
    Or,
    Xor,
    Implies,
    Eq,
    Ne,
    Int(IntOp),
    Str(StrOp),
    /// `-` of two sets.
    Minus,
}

/// An operation of a value that is no collection.
#[derive(Clone, Copy, Debug, PartialEq, Eq)]
pub enum PlainOp {
    Int(IntOp),
    Str(StrOp),
    /// `toString` of an Integer or a Boolean.
    ToText,
    /// `oclIsUndefined`: of null and of invalid.
    IsUndefined,
    IsDefined,
    /// `oclIsInvalid`.
    IsInvalid,
}

/// An iterator (OCL 2.3.1, 11.9).
#[derive(Clone, Copy, Debug, PartialEq, Eq)]
pub enum IterOp {
    Select,
    Reject,
    Any,
    One,
    ForAll,
    Exists,
    IsUnique,
    CollectNested,
    Collect,
    SortedBy,
    Iterate,
}

/// A question about the type that a value has (OCL 2.3.1, 11.3.1).
#[derive(Clone, Copy, Debug, PartialEq, Eq)]
pub enum TypeTest {
    IsTypeOf,
    IsKindOf,
    AsType,
}
