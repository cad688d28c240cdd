use super::{Arg, of_each_kind};
use ocl_collections::CollOp;
use std::test::Fail;

#[test]
fn first_and_last_places(rt: HostRuntime) -> Result<(), Fail> {
    let alloc = rt.alloc();
    for (op, source, want) in [
        (CollOp::First, "3121", "invalid 3 invalid 3"),
        (CollOp::Last, "3121", "invalid 2 invalid 1"),
        (CollOp::First, "", "invalid invalid invalid invalid"),
        (CollOp::Last, "", "invalid invalid invalid invalid"),
        (CollOp::First, "n1", "invalid null invalid null"),
        (
            CollOp::Reverse,
            "3121",
            "invalid OrderedSet{2,1,3} invalid Sequence{1,2,1,3}",
        ),
        (
            CollOp::Reverse,
            "",
            "invalid OrderedSet{} invalid Sequence{}",
        ),
    ] {
        let found = of_each_kind(alloc, op, source, &[])?;
        assert_eq!(rt; found.as_slice(), want.as_bytes());
    }
    Ok(())
}

#[test]
fn places(rt: HostRuntime) -> Result<(), Fail> {
    let alloc = rt.alloc();
    for (op, source, arg, want) in [
        (
            CollOp::At,
            "3121",
            Arg::Int(0),
            "invalid invalid invalid invalid",
        ),
        (
            CollOp::At,
            "3121",
            Arg::Int(-1),
            "invalid invalid invalid invalid",
        ),
        (CollOp::At, "3121", Arg::Int(1), "invalid 3 invalid 3"),
        (CollOp::At, "3121", Arg::Int(3), "invalid 2 invalid 2"),
        (CollOp::At, "3121", Arg::Int(4), "invalid invalid invalid 1"),
        (
            CollOp::At,
            "3121",
            Arg::Int(5),
            "invalid invalid invalid invalid",
        ),
        (CollOp::IndexOf, "3121", Arg::Int(3), "invalid 1 invalid 1"),
        (CollOp::IndexOf, "3121", Arg::Int(1), "invalid 2 invalid 2"),
        (
            CollOp::IndexOf,
            "3121",
            Arg::Int(7),
            "invalid invalid invalid invalid",
        ),
        (CollOp::IndexOf, "3n1", Arg::Null, "invalid 2 invalid 2"),
    ] {
        let found = of_each_kind(alloc, op, source, &[arg])?;
        assert_eq!(rt; found.as_slice(), want.as_bytes());
    }
    Ok(())
}

#[test]
fn ends(rt: HostRuntime) -> Result<(), Fail> {
    let alloc = rt.alloc();
    for (op, source, arg, want) in [
        (
            CollOp::Append,
            "3121",
            Arg::Int(1),
            "invalid OrderedSet{3,1,2} invalid Sequence{3,1,2,1,1}",
        ),
        (
            CollOp::Append,
            "3121",
            Arg::Int(3),
            "invalid OrderedSet{3,1,2} invalid Sequence{3,1,2,1,3}",
        ),
        (
            CollOp::Append,
            "3121",
            Arg::Int(9),
            "invalid OrderedSet{3,1,2,9} invalid Sequence{3,1,2,1,9}",
        ),
        (
            CollOp::Append,
            "31",
            Arg::Null,
            "invalid OrderedSet{3,1,null} invalid Sequence{3,1,null}",
        ),
        (
            CollOp::Prepend,
            "3121",
            Arg::Int(2),
            "invalid OrderedSet{3,1,2} invalid Sequence{2,3,1,2,1}",
        ),
        (
            CollOp::Prepend,
            "3121",
            Arg::Int(9),
            "invalid OrderedSet{9,3,1,2} invalid Sequence{9,3,1,2,1}",
        ),
        (
            CollOp::Prepend,
            "",
            Arg::Int(9),
            "invalid OrderedSet{9} invalid Sequence{9}",
        ),
    ] {
        let found = of_each_kind(alloc, op, source, &[arg])?;
        assert_eq!(rt; found.as_slice(), want.as_bytes());
    }
    Ok(())
}

#[test]
fn insertions(rt: HostRuntime) -> Result<(), Fail> {
    let alloc = rt.alloc();
    for (op, source, first, second, want) in [
        (
            CollOp::InsertAt,
            "3121",
            Arg::Int(0),
            Arg::Int(2),
            "invalid invalid invalid invalid",
        ),
        (
            CollOp::InsertAt,
            "3121",
            Arg::Int(1),
            Arg::Int(9),
            "invalid OrderedSet{9,3,1,2} invalid Sequence{9,3,1,2,1}",
        ),
        (
            CollOp::InsertAt,
            "3121",
            Arg::Int(1),
            Arg::Int(2),
            "invalid OrderedSet{3,1,2} invalid Sequence{2,3,1,2,1}",
        ),
        (
            CollOp::InsertAt,
            "3121",
            Arg::Int(3),
            Arg::Int(3),
            "invalid OrderedSet{3,1,2} invalid Sequence{3,1,3,2,1}",
        ),
        (
            CollOp::InsertAt,
            "3121",
            Arg::Int(4),
            Arg::Int(9),
            "invalid OrderedSet{3,1,2,9} invalid Sequence{3,1,2,9,1}",
        ),
        (
            CollOp::InsertAt,
            "3121",
            Arg::Int(5),
            Arg::Int(9),
            "invalid invalid invalid Sequence{3,1,2,1,9}",
        ),
        (
            CollOp::InsertAt,
            "3121",
            Arg::Int(6),
            Arg::Int(9),
            "invalid invalid invalid invalid",
        ),
        (
            CollOp::InsertAt,
            "31",
            Arg::Int(2),
            Arg::Null,
            "invalid OrderedSet{3,null,1} invalid Sequence{3,null,1}",
        ),
        (
            CollOp::InsertAt,
            "",
            Arg::Int(1),
            Arg::Int(9),
            "invalid OrderedSet{9} invalid Sequence{9}",
        ),
    ] {
        let found = of_each_kind(alloc, op, source, &[first, second])?;
        assert_eq!(rt; found.as_slice(), want.as_bytes());
    }
    Ok(())
}

#[test]
fn parts(rt: HostRuntime) -> Result<(), Fail> {
    let alloc = rt.alloc();
    for (op, source, first, second, want) in [
        (
            CollOp::SubSequence,
            "3121",
            Arg::Int(2),
            Arg::Int(3),
            "invalid invalid invalid Sequence{1,2}",
        ),
        (
            CollOp::SubSequence,
            "3121",
            Arg::Int(1),
            Arg::Int(4),
            "invalid invalid invalid Sequence{3,1,2,1}",
        ),
        (
            CollOp::SubSequence,
            "3121",
            Arg::Int(2),
            Arg::Int(2),
            "invalid invalid invalid Sequence{1}",
        ),
        (
            CollOp::SubSequence,
            "3121",
            Arg::Int(2),
            Arg::Int(1),
            "invalid invalid invalid invalid",
        ),
        (
            CollOp::SubSequence,
            "3121",
            Arg::Int(0),
            Arg::Int(1),
            "invalid invalid invalid invalid",
        ),
        (
            CollOp::SubSequence,
            "3121",
            Arg::Int(1),
            Arg::Int(5),
            "invalid invalid invalid invalid",
        ),
        (
            CollOp::SubOrderedSet,
            "3121",
            Arg::Int(2),
            Arg::Int(3),
            "invalid OrderedSet{1,2} invalid invalid",
        ),
        (
            CollOp::SubOrderedSet,
            "3121",
            Arg::Int(1),
            Arg::Int(1),
            "invalid OrderedSet{3} invalid invalid",
        ),
        (
            CollOp::SubOrderedSet,
            "3121",
            Arg::Int(2),
            Arg::Int(1),
            "invalid invalid invalid invalid",
        ),
        (
            CollOp::SubOrderedSet,
            "3121",
            Arg::Int(0),
            Arg::Int(1),
            "invalid invalid invalid invalid",
        ),
        (
            CollOp::SubOrderedSet,
            "3121",
            Arg::Int(1),
            Arg::Int(4),
            "invalid invalid invalid invalid",
        ),
    ] {
        let found = of_each_kind(alloc, op, source, &[first, second])?;
        assert_eq!(rt; found.as_slice(), want.as_bytes());
    }
    Ok(())
}
