ghost use Rattle.ocl_values.specs.Shape.{IsWellMade};
ghost use Rattle.ocl_values.specs.declared.value.Value.TheVariants.{Coll};

use super::{Arg, arguments, collection, elements, of_each_kind, shown};
use ocl_collections::{CollOp, apply_owned, copy_selected, flatten, select};
use ocl_values::{Kind, Value};
use std::alloc::{AllocError, Global};
use std::test::Fail;

// The texts of what an operation gives of a source of each kind that is given away, between blanks.
fn of_each_owned(
    alloc: Global,
    op: CollOp,
    letters: &str,
    args: &[Arg],
) -> Result<Vec<u8>, AllocError> {
    let mut all = Vec::new(alloc);
    'each: for kind in [Kind::Set, Kind::OrderedSet, Kind::Bag, Kind::Sequence] {
        let args = arguments(alloc, args)?;
        let source = collection(alloc, kind, letters)?;
        let text = shown(alloc, &apply_owned(alloc, op, source, args.as_slice())?)?;
        all.extend_from_slice(text.as_slice())?;
        all.push(b' ')?;
    }
    all.pop();
    Ok(all)
}

#[test]
fn sources_may_be_given_away(rt: HostRuntime) -> Result<(), Fail> {
    let alloc = rt.alloc();
    for op in [
        CollOp::Reverse,
        CollOp::AsSet,
        CollOp::AsBag,
        CollOp::AsSequence,
        CollOp::AsOrderedSet,
        CollOp::Flatten,
        CollOp::Size,
        CollOp::First,
    ] {
        for letters in ["3121", "", "7dn", "sq"] {
            let found = of_each_owned(alloc, op, letters, &[])?;
            assert_eq!(rt;
                found.as_slice(),
                of_each_kind(alloc, op, letters, &[])?.as_slice()
            );
        }
    }
    for op in [CollOp::Including, CollOp::Append, CollOp::Excluding] {
        for arg in [Arg::Int(1), Arg::Null, Arg::Invalid, Arg::Set("1")] {
            let found = of_each_owned(alloc, op, "3121", &[arg])?;
            assert_eq!(rt;
                found.as_slice(),
                of_each_kind(alloc, op, "3121", &[arg])?.as_slice()
            );
        }
    }
    let found = of_each_owned(alloc, CollOp::InsertAt, "312", &[Arg::Int(1), Arg::Int(4)])?;
    assert_eq!(rt;
        found.as_slice(),
        "invalid OrderedSet{4,3,1,2} invalid Sequence{4,3,1,2}".as_bytes()
    );
    let none = apply_owned(alloc, CollOp::Size, Value::Null, &[])?;
    assert_eq!(rt; shown(alloc, &none)?.as_slice(), "invalid".as_bytes());
    Ok(())
}

// What `collect` gives of bodies, which stand as letters do.
fn collected(alloc: Global, kind: Kind, letters: &str) -> Result<Vec<u8>, AllocError> {
    shown(alloc, &flatten(alloc, kind, elements(alloc, letters)?)?)
}

#[test]
fn collections_are_flattened(rt: HostRuntime) -> Result<(), Fail> {
    let alloc = rt.alloc();
    for (kind, letters, want) in [
        (Kind::Bag, "3q1", "Bag{1,1,2,3}"),
        (Kind::Sequence, "3q1", "Sequence{3,2,1,1}"),
        (Kind::Sequence, "dn", "Sequence{1,2,3,null}"),
        (Kind::Set, "3q1", "Set{1,2,3}"),
        (Kind::OrderedSet, "3q1", "OrderedSet{3,2,1}"),
        (Kind::Sequence, "", "Sequence{}"),
    ] {
        assert_eq!(rt;
            collected(alloc, kind, letters)?.as_slice(),
            want.as_bytes()
        );
    }
    let invalid = arguments(alloc, &[Arg::Invalid])?;
    assert!(rt; flatten(alloc, Kind::Bag, invalid)?.is_invalid());
    Ok(())
}

// A selection, by copies and by moves.
fn selected(
    alloc: Global,
    kind: Kind,
    letters: &str,
    flags: &[bool],
) -> Result<Vec<u8>, AllocError> {
    match collection(alloc, kind, letters)? {
        Value::Coll(kind, items) => both_selected(alloc, kind, items.into_vec(), flags),
        _ => Ok(Vec::new(alloc)),
    }
}

fn both_selected(
    alloc: Global,
    kind: Kind,
    items: Vec<Value>,
    flags: &[bool],
) -> Result<Vec<u8>, AllocError>
    requires { IsWellMade (Coll kind items.items) }
{
    let mut text = Vec::new(alloc);
    if items.len() == flags.len() {
        let copied = copy_selected(alloc, kind, items.as_slice(), flags)?;
        let moved = select(alloc, kind, items, flags)?;
        text.extend_from_slice(shown(alloc, &copied)?.as_slice())?;
        text.push(b' ')?;
        text.extend_from_slice(shown(alloc, &moved)?.as_slice())?;
    }
    Ok(text)
}

#[test]
fn selections_stay_as_they_stand(rt: HostRuntime) -> Result<(), Fail> {
    let alloc = rt.alloc();
    for (kind, letters, flags, want) in [
        (Kind::Set, "312", [true, false, true], "Set{1,3} Set{1,3}"),
        (
            Kind::OrderedSet,
            "312",
            [true, false, true],
            "OrderedSet{3,2} OrderedSet{3,2}",
        ),
        (Kind::Bag, "311", [true, true, false], "Bag{1,1} Bag{1,1}"),
        (
            Kind::Sequence,
            "n1n",
            [true, false, true],
            "Sequence{null,null} Sequence{null,null}",
        ),
        (
            Kind::OrderedSet,
            "312",
            [false, false, false],
            "OrderedSet{} OrderedSet{}",
        ),
    ] {
        let found = selected(alloc, kind, letters, flags.as_slice())?;
        assert_eq!(rt; found.as_slice(), want.as_bytes());
    }
    Ok(())
}
