use super::{Arg, of_each_kind};
use ocl_collections::CollOp;
use std::test::Fail;

#[test]
fn sizes(rt: HostRuntime) -> Result<(), Fail> {
    let alloc = rt.alloc();
    for (op, source, want) in [
        (CollOp::Size, "3121", "3 3 4 4"),
        (CollOp::Size, "", "0 0 0 0"),
        (CollOp::Size, "1n", "2 2 2 2"),
        (CollOp::IsEmpty, "3121", "false false false false"),
        (CollOp::IsEmpty, "", "true true true true"),
        (CollOp::NotEmpty, "3121", "true true true true"),
        (CollOp::NotEmpty, "", "false false false false"),
    ] {
        let found = of_each_kind(alloc, op, source, &[])?;
        assert_eq!(rt; found.as_slice(), want.as_bytes());
    }
    Ok(())
}

#[test]
fn membership(rt: HostRuntime) -> Result<(), Fail> {
    let alloc = rt.alloc();
    for (op, source, arg, want) in [
        (CollOp::Includes, "3121", Arg::Int(1), "true true true true"),
        (
            CollOp::Includes,
            "3121",
            Arg::Int(4),
            "false false false false",
        ),
        (CollOp::Includes, "1n", Arg::Null, "true true true true"),
        (CollOp::Includes, "31", Arg::Null, "false false false false"),
        (
            CollOp::Includes,
            "s3",
            Arg::Set("21"),
            "true true true true",
        ),
        (
            CollOp::Includes,
            "s3",
            Arg::Bag("21"),
            "false false false false",
        ),
        (
            CollOp::Excludes,
            "3121",
            Arg::Int(1),
            "false false false false",
        ),
        (CollOp::Excludes, "3121", Arg::Int(4), "true true true true"),
        (CollOp::Excludes, "1n", Arg::Null, "false false false false"),
        (CollOp::Count, "3121", Arg::Int(1), "1 1 2 2"),
        (CollOp::Count, "3121", Arg::Int(4), "0 0 0 0"),
        (CollOp::Count, "1nn", Arg::Null, "1 1 2 2"),
    ] {
        let found = of_each_kind(alloc, op, source, &[arg])?;
        assert_eq!(rt; found.as_slice(), want.as_bytes());
    }
    Ok(())
}

#[test]
fn membership_of_all(rt: HostRuntime) -> Result<(), Fail> {
    let alloc = rt.alloc();
    for (op, source, arg, want) in [
        (
            CollOp::IncludesAll,
            "3121",
            Arg::Set("13"),
            "true true true true",
        ),
        (
            CollOp::IncludesAll,
            "3121",
            Arg::OrderedSet("31"),
            "true true true true",
        ),
        (
            CollOp::IncludesAll,
            "3121",
            Arg::Bag("113"),
            "true true true true",
        ),
        (
            CollOp::IncludesAll,
            "3121",
            Arg::Sequence("14"),
            "false false false false",
        ),
        (
            CollOp::IncludesAll,
            "3121",
            Arg::Set(""),
            "true true true true",
        ),
        (
            CollOp::IncludesAll,
            "31n1",
            Arg::Sequence("n1"),
            "true true true true",
        ),
        (
            CollOp::ExcludesAll,
            "3121",
            Arg::Set("56"),
            "true true true true",
        ),
        (
            CollOp::ExcludesAll,
            "3121",
            Arg::OrderedSet("51"),
            "false false false false",
        ),
        (
            CollOp::ExcludesAll,
            "3121",
            Arg::Bag("44n"),
            "true true true true",
        ),
        (
            CollOp::ExcludesAll,
            "3121",
            Arg::Sequence("45"),
            "true true true true",
        ),
        (
            CollOp::ExcludesAll,
            "31n",
            Arg::Sequence("n"),
            "false false false false",
        ),
    ] {
        let found = of_each_kind(alloc, op, source, &[arg])?;
        assert_eq!(rt; found.as_slice(), want.as_bytes());
    }
    Ok(())
}
