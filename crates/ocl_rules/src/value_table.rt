use ocl_core::PlainOp;
use ocl_values::{IntOp, StrOp};

/// A type of values that are no collections, as the source or a parameter of an operation.
#[derive(Clone, Copy, Debug, PartialEq, Eq)]
pub enum PlainType {
    Bool,
    Int,
    Str,
}

/// What an operation of such values gives.
#[derive(Clone, Copy, Debug, PartialEq, Eq)]
pub enum ValueResult {
    Int,
    Str,
    /// A Sequence of Strings.
    Strings,
}

/// The parameters of an operation of such values.
#[derive(Clone, Copy, Debug, PartialEq, Eq)]
pub enum ValueParams {
    Nothing,
    Int,
    TwoInts,
    Str,
}

/// An operation of such values (OCL 2.3.1, 11.5).
#[derive(Clone, Copy, Debug, PartialEq, Eq)]
pub struct ValueOperation {
    pub source: PlainType,
    pub op: PlainOp,
    pub params: ValueParams,
    pub gives: ValueResult,
}

/// The operations of Integers, Booleans and Strings, by their names.
pub const VALUE_OPERATIONS: [(&str, ValueOperation); 18] = [
    (
        "abs",
        ValueOperation {
            source: PlainType::Int,
            op: PlainOp::Int(IntOp::Abs),
            params: ValueParams::Nothing,
            gives: ValueResult::Int,
        },
    ),
    (
        "max",
        ValueOperation {
            source: PlainType::Int,
            op: PlainOp::Int(IntOp::Max),
            params: ValueParams::Int,
            gives: ValueResult::Int,
        },
    ),
    (
        "min",
        ValueOperation {
            source: PlainType::Int,
            op: PlainOp::Int(IntOp::Min),
            params: ValueParams::Int,
            gives: ValueResult::Int,
        },
    ),
    (
        "div",
        ValueOperation {
            source: PlainType::Int,
            op: PlainOp::Int(IntOp::Div),
            params: ValueParams::Int,
            gives: ValueResult::Int,
        },
    ),
    (
        "mod",
        ValueOperation {
            source: PlainType::Int,
            op: PlainOp::Int(IntOp::Mod),
            params: ValueParams::Int,
            gives: ValueResult::Int,
        },
    ),
    (
        "toString",
        ValueOperation {
            source: PlainType::Int,
            op: PlainOp::ToText,
            params: ValueParams::Nothing,
            gives: ValueResult::Str,
        },
    ),
    (
        "toString",
        ValueOperation {
            source: PlainType::Bool,
            op: PlainOp::ToText,
            params: ValueParams::Nothing,
            gives: ValueResult::Str,
        },
    ),
    (
        "size",
        ValueOperation {
            source: PlainType::Str,
            op: PlainOp::Str(StrOp::Size),
            params: ValueParams::Nothing,
            gives: ValueResult::Int,
        },
    ),
    (
        "concat",
        ValueOperation {
            source: PlainType::Str,
            op: PlainOp::Str(StrOp::Concat),
            params: ValueParams::Str,
            gives: ValueResult::Str,
        },
    ),
    (
        "substring",
        ValueOperation {
            source: PlainType::Str,
            op: PlainOp::Str(StrOp::Substring),
            params: ValueParams::TwoInts,
            gives: ValueResult::Str,
        },
    ),
    (
        "at",
        ValueOperation {
            source: PlainType::Str,
            op: PlainOp::Str(StrOp::At),
            params: ValueParams::Int,
            gives: ValueResult::Str,
        },
    ),
    (
        "indexOf",
        ValueOperation {
            source: PlainType::Str,
            op: PlainOp::Str(StrOp::IndexOf),
            params: ValueParams::Str,
            gives: ValueResult::Int,
        },
    ),
    (
        "toUpperCase",
        ValueOperation {
            source: PlainType::Str,
            op: PlainOp::Str(StrOp::Upper),
            params: ValueParams::Nothing,
            gives: ValueResult::Str,
        },
    ),
    (
        "toUpper",
        ValueOperation {
            source: PlainType::Str,
            op: PlainOp::Str(StrOp::Upper),
            params: ValueParams::Nothing,
            gives: ValueResult::Str,
        },
    ),
    (
        "toLowerCase",
        ValueOperation {
            source: PlainType::Str,
            op: PlainOp::Str(StrOp::Lower),
            params: ValueParams::Nothing,
            gives: ValueResult::Str,
        },
    ),
    (
        "toLower",
        ValueOperation {
            source: PlainType::Str,
            op: PlainOp::Str(StrOp::Lower),
            params: ValueParams::Nothing,
            gives: ValueResult::Str,
        },
    ),
    (
        "characters",
        ValueOperation {
            source: PlainType::Str,
            op: PlainOp::Str(StrOp::Characters),
            params: ValueParams::Nothing,
            gives: ValueResult::Strings,
        },
    ),
    (
        "toInteger",
        ValueOperation {
            source: PlainType::Str,
            op: PlainOp::Str(StrOp::ToInteger),
            params: ValueParams::Nothing,
            gives: ValueResult::Int,
        },
    ),
];
