use super::{Arg, of_each_kind};
use ocl_collections::CollOp;
use std::test::Fail;

#[test]
fn adding(rt: HostRuntime) -> Result<(), Fail> {
    let alloc = rt.alloc();
    for (op, source, arg, want) in [
        (
            CollOp::Including,
            "3121",
            Arg::Int(2),
            "Set{1,2,3} OrderedSet{3,1,2} Bag{1,1,2,2,3} Sequence{3,1,2,1,2}",
        ),
        (
            CollOp::Including,
            "3121",
            Arg::Int(0),
            "Set{0,1,2,3} OrderedSet{3,1,2,0} Bag{0,1,1,2,3} Sequence{3,1,2,1,0}",
        ),
        (
            CollOp::Including,
            "3151",
            Arg::Int(4),
            "Set{1,3,4,5} OrderedSet{3,1,5,4} Bag{1,1,3,4,5} Sequence{3,1,5,1,4}",
        ),
        (
            CollOp::Including,
            "3121",
            Arg::Int(9),
            "Set{1,2,3,9} OrderedSet{3,1,2,9} Bag{1,1,2,3,9} Sequence{3,1,2,1,9}",
        ),
        (
            CollOp::Including,
            "3121",
            Arg::Null,
            "Set{null,1,2,3} OrderedSet{3,1,2,null} Bag{null,1,1,2,3} Sequence{3,1,2,1,null}",
        ),
        (
            CollOp::Including,
            "",
            Arg::Int(1),
            "Set{1} OrderedSet{1} Bag{1} Sequence{1}",
        ),
        (
            CollOp::Including,
            "s",
            Arg::Set("3"),
            "Set{Set{1,2},Set{3}} OrderedSet{Set{1,2},Set{3}} Bag{Set{1,2},Set{3}} Sequence{Set{1,2},Set{3}}",
        ),
    ] {
        let found = of_each_kind(alloc, op, source, &[arg])?;
        assert_eq!(rt; found.as_slice(), want.as_bytes());
    }
    Ok(())
}

#[test]
fn taking_away(rt: HostRuntime) -> Result<(), Fail> {
    let alloc = rt.alloc();
    for (op, source, arg, want) in [
        (
            CollOp::Excluding,
            "3121",
            Arg::Int(1),
            "Set{2,3} OrderedSet{3,2} Bag{2,3} Sequence{3,2}",
        ),
        (
            CollOp::Excluding,
            "3121",
            Arg::Int(3),
            "Set{1,2} OrderedSet{1,2} Bag{1,1,2} Sequence{1,2,1}",
        ),
        (
            CollOp::Excluding,
            "3121",
            Arg::Int(4),
            "Set{1,2,3} OrderedSet{3,1,2} Bag{1,1,2,3} Sequence{3,1,2,1}",
        ),
        (
            CollOp::Excluding,
            "n1n",
            Arg::Null,
            "Set{1} OrderedSet{1} Bag{1} Sequence{1}",
        ),
        (
            CollOp::Excluding,
            "1",
            Arg::Int(1),
            "Set{} OrderedSet{} Bag{} Sequence{}",
        ),
        (
            CollOp::Excluding,
            "",
            Arg::Int(1),
            "Set{} OrderedSet{} Bag{} Sequence{}",
        ),
        (
            CollOp::Excluding,
            "s3",
            Arg::Set("12"),
            "Set{3} OrderedSet{3} Bag{3} Sequence{3}",
        ),
    ] {
        let found = of_each_kind(alloc, op, source, &[arg])?;
        assert_eq!(rt; found.as_slice(), want.as_bytes());
    }
    Ok(())
}

#[test]
fn unions(rt: HostRuntime) -> Result<(), Fail> {
    let alloc = rt.alloc();
    for (op, source, arg, want) in [
        (
            CollOp::Union,
            "3121",
            Arg::Set("24"),
            "Set{1,2,3,4} invalid Bag{1,1,2,2,3,4} invalid",
        ),
        (
            CollOp::Union,
            "3121",
            Arg::OrderedSet("24"),
            "invalid OrderedSet{3,1,2,4} invalid invalid",
        ),
        (
            CollOp::Union,
            "3121",
            Arg::Bag("242"),
            "Bag{1,2,2,2,3,4} invalid Bag{1,1,2,2,2,3,4} invalid",
        ),
        (
            CollOp::Union,
            "3121",
            Arg::Sequence("242"),
            "invalid invalid invalid Sequence{3,1,2,1,2,4,2}",
        ),
        (
            CollOp::Union,
            "",
            Arg::Set("24"),
            "Set{2,4} invalid Bag{2,4} invalid",
        ),
        (
            CollOp::Union,
            "24",
            Arg::Bag(""),
            "Bag{2,4} invalid Bag{2,4} invalid",
        ),
        (
            CollOp::Union,
            "2n",
            Arg::Set("n1"),
            "Set{null,1,2} invalid Bag{null,null,1,2} invalid",
        ),
    ] {
        let found = of_each_kind(alloc, op, source, &[arg])?;
        assert_eq!(rt; found.as_slice(), want.as_bytes());
    }
    Ok(())
}

#[test]
fn intersections(rt: HostRuntime) -> Result<(), Fail> {
    let alloc = rt.alloc();
    for (op, source, arg, want) in [
        (
            CollOp::Intersection,
            "3121",
            Arg::Set("125"),
            "Set{1,2} invalid Set{1,2} invalid",
        ),
        (
            CollOp::Intersection,
            "3121",
            Arg::OrderedSet("125"),
            "invalid invalid invalid invalid",
        ),
        (
            CollOp::Intersection,
            "3121",
            Arg::Bag("1225"),
            "Set{1,2} invalid Bag{1,2} invalid",
        ),
        (
            CollOp::Intersection,
            "1112",
            Arg::Bag("113"),
            "Set{1} invalid Bag{1,1} invalid",
        ),
        (
            CollOp::Intersection,
            "113",
            Arg::Bag("1112"),
            "Set{1} invalid Bag{1,1} invalid",
        ),
        (
            CollOp::Intersection,
            "3121",
            Arg::Sequence("125"),
            "invalid invalid invalid invalid",
        ),
        (
            CollOp::Intersection,
            "3121",
            Arg::Set(""),
            "Set{} invalid Set{} invalid",
        ),
        (
            CollOp::Intersection,
            "nn1",
            Arg::Bag("nn"),
            "Set{null} invalid Bag{null,null} invalid",
        ),
    ] {
        let found = of_each_kind(alloc, op, source, &[arg])?;
        assert_eq!(rt; found.as_slice(), want.as_bytes());
    }
    Ok(())
}

#[test]
fn differences(rt: HostRuntime) -> Result<(), Fail> {
    let alloc = rt.alloc();
    for (op, source, arg, want) in [
        (
            CollOp::Minus,
            "3121",
            Arg::Set("24"),
            "Set{1,3} invalid invalid invalid",
        ),
        (
            CollOp::Minus,
            "3121",
            Arg::OrderedSet("24"),
            "invalid invalid invalid invalid",
        ),
        (
            CollOp::Minus,
            "3121",
            Arg::Bag("24"),
            "invalid invalid invalid invalid",
        ),
        (
            CollOp::Minus,
            "3121",
            Arg::Sequence("24"),
            "invalid invalid invalid invalid",
        ),
        (
            CollOp::SymmetricDifference,
            "3121",
            Arg::Set("24"),
            "Set{1,3,4} invalid invalid invalid",
        ),
        (
            CollOp::SymmetricDifference,
            "12",
            Arg::Set("21"),
            "Set{} invalid invalid invalid",
        ),
        (
            CollOp::SymmetricDifference,
            "3121",
            Arg::OrderedSet("24"),
            "invalid invalid invalid invalid",
        ),
        (
            CollOp::SymmetricDifference,
            "3121",
            Arg::Bag("24"),
            "invalid invalid invalid invalid",
        ),
        (
            CollOp::SymmetricDifference,
            "3121",
            Arg::Sequence("24"),
            "invalid invalid invalid invalid",
        ),
    ] {
        let found = of_each_kind(alloc, op, source, &[arg])?;
        assert_eq!(rt; found.as_slice(), want.as_bytes());
    }
    Ok(())
}
