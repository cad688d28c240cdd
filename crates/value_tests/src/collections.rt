ghost use Rattle.std.specs.Prelude.{◌≡◌, All, IfOk};
ghost use Rattle.ocl_values.specs.Shape.{IsWellMade};

use ocl_collections::*;
use ocl_values::{EnumNo, Kind, LitNo, Names, ObjNo, Value, print};
use std::alloc::{AllocError, Global};
use std::test::Fail;

mod algebra;
mod membership;
mod moved;
mod places;

/// No object and no literal.
struct Nobody;

impl Names for Nobody {
    ghost use Rattle.std.specs.Prelude.{None};

    ghost object_name = { λ s o. None };

    ghost literal_name = { λ s e l. None };

    fn object(&self, _object: ObjNo) -> Option<&str> {
        None
    }

    fn literal(&self, _enumeration: EnumNo, _literal: LitNo) -> Option<(&str, &str)> {
        None
    }
}

/// An argument as the tables below write it, a collection by its elements in letters.
#[derive(Clone, Copy, Debug)]
enum Arg {
    Null,
    Invalid,
    Int(i128),
    Set(&'static str),
    OrderedSet(&'static str),
    Bag(&'static str),
    Sequence(&'static str),
}

// The collection of the integers that digits write.
fn integers(alloc: Global, kind: Kind, digits: &str) -> Result<Value, AllocError>
    ensures { IfOk result IsWellMade }
{
    let mut values = Vec::new(alloc);
    'each: for digit in digits.as_bytes() {
        values.push(Value::Int(i128::from(*digit) - 48))?;
    }
    make(alloc, kind, values)
}

// The value `Sequence{Bag{1,2},Bag{3}}`.
fn nested_bags(alloc: Global) -> Result<Value, AllocError>
    ensures { IfOk result IsWellMade }
{
    let mut bags = Vec::new(alloc);
    bags.push(integers(alloc, Kind::Bag, "21")?)?;
    bags.push(integers(alloc, Kind::Bag, "3")?)?;
    make(alloc, Kind::Sequence, bags)
}

// The value that a letter writes: a digit an integer, `m` the greatest one, `n` null, and `s`, `q`
// and `d` a collection.
fn element(alloc: Global, letter: u8) -> Result<Value, AllocError>
    ensures { IfOk result IsWellMade }
{
    match letter {
        b'n' => Ok(Value::Null),
        b'm' => Ok(Value::Int(i128::MAX)),
        b's' => integers(alloc, Kind::Set, "21"),
        b'q' => integers(alloc, Kind::Sequence, "21"),
        b'd' => nested_bags(alloc),
        _ => Ok(Value::Int(i128::from(letter) - 48)),
    }
}

fn elements(alloc: Global, letters: &str) -> Result<Vec<Value>, AllocError>
    ensures { IfOk result (λ v. All IsWellMade v.items) }
{
    let mut values = Vec::new(alloc);
    'each: for letter in letters.as_bytes() {
        values.push(element(alloc, *letter)?)?;
    }
    Ok(values)
}

fn collection(alloc: Global, kind: Kind, letters: &str) -> Result<Value, AllocError>
    ensures { IfOk result IsWellMade }
{
    make(alloc, kind, elements(alloc, letters)?)
}

fn argument(alloc: Global, arg: Arg) -> Result<Value, AllocError>
    ensures { IfOk result IsWellMade }
{
    match arg {
        Arg::Null => Ok(Value::Null),
        Arg::Invalid => Ok(Value::Invalid),
        Arg::Int(n) => Ok(Value::Int(n)),
        Arg::Set(letters) => collection(alloc, Kind::Set, letters),
        Arg::OrderedSet(letters) => collection(alloc, Kind::OrderedSet, letters),
        Arg::Bag(letters) => collection(alloc, Kind::Bag, letters),
        Arg::Sequence(letters) => collection(alloc, Kind::Sequence, letters),
    }
}

fn arguments(alloc: Global, args: &[Arg]) -> Result<Vec<Value>, AllocError>
    ensures { IfOk result (λ v. All IsWellMade v.items) }
{
    let mut values = Vec::new(alloc);
    'each: for arg in args {
        values.push(argument(alloc, *arg)?)?;
    }
    Ok(values)
}

fn shown(alloc: Global, value: &Value) -> Result<Vec<u8>, AllocError> {
    let mut out = Vec::new(alloc);
    print(alloc, value, &Nobody, &mut out)?;
    Ok(out)
}

// The text of what an operation gives.
fn applied(alloc: Global, op: CollOp, source: &Value, args: &[Arg]) -> Result<Vec<u8>, AllocError>
    requires { IsWellMade source.now }
{
    let args = arguments(alloc, args)?;
    shown(alloc, &apply(alloc, op, source, args.as_slice())?)
}

// The texts of what an operation gives of a source of each kind, between blanks. Where a kind has no
// such operation, that is invalid.
fn of_each_kind(
    alloc: Global,
    op: CollOp,
    letters: &str,
    args: &[Arg],
) -> Result<Vec<u8>, AllocError> {
    let mut all = applied(alloc, op, &collection(alloc, Kind::Set, letters)?, args)?;
    'each: for kind in [Kind::OrderedSet, Kind::Bag, Kind::Sequence] {
        all.push(b' ')?;
        let text = applied(alloc, op, &collection(alloc, kind, letters)?, args)?;
        all.extend_from_slice(text.as_slice())?;
    }
    Ok(all)
}

#[test]
fn sums(rt: HostRuntime) -> Result<(), Fail> {
    let alloc = rt.alloc();
    for (op, source, want) in [
        (CollOp::Sum, "3121", "6 6 7 7"),
        (CollOp::Sum, "", "0 0 0 0"),
        (CollOp::Sum, "1n", "invalid invalid invalid invalid"),
        (
            CollOp::Sum,
            "m",
            "170141183460469231731687303715884105727 170141183460469231731687303715884105727 \
                170141183460469231731687303715884105727 170141183460469231731687303715884105727",
        ),
        (CollOp::Sum, "m1", "invalid invalid invalid invalid"),
        (CollOp::Max, "3121", "3 3 3 3"),
        (CollOp::Max, "", "invalid invalid invalid invalid"),
        (CollOp::Max, "1n", "invalid invalid invalid invalid"),
        (CollOp::Min, "3121", "1 1 1 1"),
        (CollOp::Min, "", "invalid invalid invalid invalid"),
        (CollOp::Min, "n", "invalid invalid invalid invalid"),
    ] {
        let found = of_each_kind(alloc, op, source, &[])?;
        assert_eq!(rt; found.as_slice(), want.as_bytes());
    }
    Ok(())
}

#[test]
fn conversions(rt: HostRuntime) -> Result<(), Fail> {
    let alloc = rt.alloc();
    for (op, source, want) in [
        (
            CollOp::AsSet,
            "3121",
            "Set{1,2,3} Set{1,2,3} Set{1,2,3} Set{1,2,3}",
        ),
        (
            CollOp::AsBag,
            "3121",
            "Bag{1,2,3} Bag{1,2,3} Bag{1,1,2,3} Bag{1,1,2,3}",
        ),
        (
            CollOp::AsSequence,
            "3121",
            "Sequence{1,2,3} Sequence{3,1,2} Sequence{1,1,2,3} Sequence{3,1,2,1}",
        ),
        (
            CollOp::AsOrderedSet,
            "3121",
            "OrderedSet{1,2,3} OrderedSet{3,1,2} OrderedSet{1,2,3} OrderedSet{3,1,2}",
        ),
        (
            CollOp::Flatten,
            "3121",
            "Set{1,2,3} OrderedSet{3,1,2} Bag{1,1,2,3} Sequence{3,1,2,1}",
        ),
        (
            CollOp::Flatten,
            "sq",
            "Set{1,2} OrderedSet{1,2} Bag{1,1,2,2} Sequence{1,2,2,1}",
        ),
        (
            CollOp::Flatten,
            "dd",
            "Set{1,2,3} OrderedSet{1,2,3} Bag{1,1,2,2,3,3} Sequence{1,2,3,1,2,3}",
        ),
        (
            CollOp::Flatten,
            "7dn",
            "Set{null,1,2,3,7} OrderedSet{7,1,2,3,null} Bag{null,1,2,3,7} Sequence{7,1,2,3,null}",
        ),
    ] {
        let found = of_each_kind(alloc, op, source, &[])?;
        assert_eq!(rt; found.as_slice(), want.as_bytes());
    }
    Ok(())
}

#[test]
fn nulls_for_collections_and_places(rt: HostRuntime) -> Result<(), Fail> {
    let alloc = rt.alloc();
    for (op, source, arg, want) in [
        (
            CollOp::IncludesAll,
            "3121",
            Arg::Null,
            "invalid invalid invalid invalid",
        ),
        (
            CollOp::ExcludesAll,
            "3121",
            Arg::Null,
            "invalid invalid invalid invalid",
        ),
        (
            CollOp::Union,
            "3121",
            Arg::Null,
            "invalid invalid invalid invalid",
        ),
        (
            CollOp::Intersection,
            "3121",
            Arg::Null,
            "invalid invalid invalid invalid",
        ),
        (
            CollOp::Minus,
            "3121",
            Arg::Null,
            "invalid invalid invalid invalid",
        ),
        (
            CollOp::SymmetricDifference,
            "3121",
            Arg::Null,
            "invalid invalid invalid invalid",
        ),
        (
            CollOp::At,
            "3121",
            Arg::Null,
            "invalid invalid invalid invalid",
        ),
    ] {
        let found = of_each_kind(alloc, op, source, &[arg])?;
        assert_eq!(rt; found.as_slice(), want.as_bytes());
    }
    Ok(())
}

#[test]
fn nulls_for_integers(rt: HostRuntime) -> Result<(), Fail> {
    let alloc = rt.alloc();
    for (op, source, first, second, want) in [
        (
            CollOp::InsertAt,
            "3121",
            Arg::Null,
            Arg::Int(1),
            "invalid invalid invalid invalid",
        ),
        (
            CollOp::SubSequence,
            "3121",
            Arg::Null,
            Arg::Int(1),
            "invalid invalid invalid invalid",
        ),
        (
            CollOp::SubSequence,
            "3121",
            Arg::Int(1),
            Arg::Null,
            "invalid invalid invalid invalid",
        ),
        (
            CollOp::SubOrderedSet,
            "3121",
            Arg::Null,
            Arg::Int(1),
            "invalid invalid invalid invalid",
        ),
        (
            CollOp::SubOrderedSet,
            "3121",
            Arg::Int(1),
            Arg::Null,
            "invalid invalid invalid invalid",
        ),
    ] {
        let found = of_each_kind(alloc, op, source, &[first, second])?;
        assert_eq!(rt; found.as_slice(), want.as_bytes());
    }
    Ok(())
}

#[test]
fn invalid_arguments(rt: HostRuntime) -> Result<(), Fail> {
    let alloc = rt.alloc();
    for op in [
        CollOp::Includes,
        CollOp::Excludes,
        CollOp::Count,
        CollOp::IncludesAll,
        CollOp::ExcludesAll,
        CollOp::Including,
        CollOp::Excluding,
        CollOp::Union,
        CollOp::Append,
        CollOp::Prepend,
        CollOp::At,
        CollOp::IndexOf,
    ] {
        let source = collection(alloc, Kind::Sequence, "3121")?;
        let found = applied(alloc, op, &source, &[Arg::Invalid])?;
        assert_eq!(rt; found.as_slice(), "invalid".as_bytes());
    }
    Ok(())
}

#[test]
fn invalid_places(rt: HostRuntime) -> Result<(), Fail> {
    let alloc = rt.alloc();
    for op in [CollOp::InsertAt, CollOp::SubSequence] {
        let source = collection(alloc, Kind::Sequence, "3121")?;
        let first = applied(alloc, op, &source, &[Arg::Invalid, Arg::Int(1)])?;
        let second = applied(alloc, op, &source, &[Arg::Int(1), Arg::Invalid])?;
        assert_eq!(rt; first.as_slice(), "invalid".as_bytes());
        assert_eq!(rt; second.as_slice(), "invalid".as_bytes());
    }
    Ok(())
}

#[test]
fn sources_that_are_no_collection(rt: HostRuntime) -> Result<(), Fail> {
    let alloc = rt.alloc();
    for op in [
        CollOp::Size,
        CollOp::IsEmpty,
        CollOp::NotEmpty,
        CollOp::First,
        CollOp::Last,
        CollOp::Reverse,
        CollOp::Sum,
        CollOp::Max,
        CollOp::Min,
        CollOp::AsSet,
        CollOp::AsBag,
        CollOp::AsSequence,
        CollOp::AsOrderedSet,
        CollOp::Flatten,
    ] {
        let of_invalid = applied(alloc, op, &Value::Invalid, &[])?;
        let of_null = applied(alloc, op, &Value::Null, &[])?;
        assert_eq!(rt; of_invalid.as_slice(), "invalid".as_bytes());
        assert_eq!(rt; of_null.as_slice(), "invalid".as_bytes());
    }
    for (op, arg) in [
        (CollOp::Includes, Arg::Int(1)),
        (CollOp::Count, Arg::Int(1)),
        (CollOp::IncludesAll, Arg::Set("1")),
        (CollOp::Including, Arg::Int(1)),
        (CollOp::Excluding, Arg::Int(1)),
        (CollOp::Union, Arg::Set("1")),
        (CollOp::Intersection, Arg::Set("1")),
        (CollOp::Minus, Arg::Set("1")),
        (CollOp::SymmetricDifference, Arg::Set("1")),
        (CollOp::Append, Arg::Int(1)),
        (CollOp::At, Arg::Int(1)),
        (CollOp::IndexOf, Arg::Int(1)),
    ] {
        let found = applied(alloc, op, &Value::Invalid, &[arg])?;
        assert_eq!(rt; found.as_slice(), "invalid".as_bytes());
    }
    Ok(())
}

// The items in the order of their keys.
fn sorted(alloc: Global, pairs: &[(i128, i128)]) -> Result<Vec<u8>, AllocError> {
    let mut items = Vec::new(alloc);
    let mut keys = Vec::new(alloc);
    'each: for (item, key) in pairs {
        items.push(Value::Int(*item))?;
        keys.push(Value::Int(*key))?;
    }
    let list = sort_by_keys(alloc, items, keys)?;
    shown(alloc, &make(alloc, Kind::Sequence, list)?)
}

#[test]
fn items_of_one_key_stay_in_order(rt: HostRuntime) -> Result<(), Fail> {
    let alloc = rt.alloc();
    let found = sorted(alloc, &[(9, 2), (8, 1), (7, 2), (6, 1), (5, 1), (4, 2)])?;
    assert_eq!(rt; found.as_slice(), "Sequence{8,6,5,9,7,4}".as_bytes());
    Ok(())
}

// Null in `depth` Sets.
fn nested(alloc: Global, depth: u32) -> Result<Value, AllocError>
    ensures { IfOk result IsWellMade }
{
    let mut value = Value::Null;
    'wrap: for _ in 0..depth {
        let mut one = Vec::new(alloc);
        one.push(value)?;
        value = make(alloc, Kind::Set, one)?;
    }
    Ok(value)
}

// Whether a Set without elements takes null in `depth` Sets.
fn takes(alloc: Global, depth: u32) -> Result<bool, AllocError> {
    let mut args = Vec::new(alloc);
    args.push(nested(alloc, depth)?)?;
    let none = make(alloc, Kind::Set, Vec::new(alloc))?;
    let found = apply(alloc, CollOp::Including, &none, args.as_slice())?;
    Ok(!matches!(found, Value::Invalid))
}

#[test]
fn collections_nest_256_deep(rt: HostRuntime) -> Result<(), Fail> {
    let alloc = rt.alloc();
    for (depth, fits) in [(255, true), (256, true), (257, false)] {
        assert_eq!(rt; !matches!(nested(alloc, depth)?, Value::Invalid), fits);
        assert_eq!(rt; takes(alloc, depth - 1)?, fits);
    }
    Ok(())
}
