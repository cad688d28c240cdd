ghost use Rattle.std.specs.Prelude.{◌≡◌, IfOk, IsSorted};
ghost use Rattle.std.specs.Ordering.{nat_cmp};
ghost use Rattle.use_orders.specs.Canon.{set_of};

use super::*;
use std::alloc::{AllocError, Global};
use std::test::Fail;

impl TryCopy for u8 {
    fn try_copy(&self, _alloc: Global) -> Result<Self, AllocError> {
        Ok(*self)
    }
}

// The bytes of a text in order.
fn in_order(alloc: Global, text: &str) -> Result<Vec<u8>, AllocError>
    ensures { IfOk result (λ v. IsSorted nat_cmp v.items) }
{
    let sorted = bag(copied(alloc, text.as_bytes())?)?;
    Ok(sorted)
}

// The bytes of a text in order, without repeats.
fn distinct(alloc: Global, text: &str) -> Result<Vec<u8>, AllocError>
    ensures { IfOk result (λ v. set_of nat_cmp v.items ≡ v.items) }
{
    let sorted = set(copied(alloc, text.as_bytes())?)?;
    Ok(sorted)
}

/// What makes a list of one list.
#[derive(Clone, Copy, Debug)]
enum ListCall {
    Bag,
    Set,
    KeepFirst,
    Copied,
    AppendCopies,
    InsertAt,
}

fn of_list(alloc: Global, call: ListCall, text: &str) -> Result<Vec<u8>, AllocError> {
    let items = copied(alloc, text.as_bytes())?;
    match call {
        ListCall::Bag => bag(items),
        ListCall::Set => set(items),
        ListCall::KeepFirst => keep_first(alloc, items),
        ListCall::Copied => copied(alloc, items.as_slice()),
        ListCall::AppendCopies => {
            let mut out = copied(alloc, "0".as_bytes())?;
            append_copies(alloc, items.as_slice(), items.len().min(1), &mut out)?;
            Ok(out)
        }
        ListCall::InsertAt => insert_at(alloc, items.as_slice(), items.len().min(1), &b'9'),
    }
}

#[test]
fn whole_lists(rt: HostRuntime) -> Result<(), Fail> {
    let alloc = rt.alloc();
    for (call, text, want) in [
        (ListCall::Bag, "3121", "1123"),
        (ListCall::Set, "3121", "123"),
        (ListCall::KeepFirst, "3121", "312"),
        (ListCall::Copied, "3121", "3121"),
        (ListCall::AppendCopies, "3121", "0121"),
        (ListCall::InsertAt, "3121", "39121"),
        (ListCall::Bag, "", ""),
        (ListCall::Set, "", ""),
        (ListCall::KeepFirst, "", ""),
    ] {
        let found = of_list(alloc, call, text)?;
        assert_eq!(rt; found.as_slice(), want.as_bytes());
    }
    Ok(())
}

/// What makes a list of a list in order and an element.
#[derive(Clone, Copy, Debug)]
enum EditCall {
    Insert,
    InsertAbsent,
    Remove,
}

fn edited(alloc: Global, call: EditCall, text: &str, x: u8) -> Result<Vec<u8>, AllocError> {
    match call {
        EditCall::Insert => insert(in_order(alloc, text)?, x),
        EditCall::InsertAbsent => insert_absent(distinct(alloc, text)?, x),
        EditCall::Remove => remove(alloc, in_order(alloc, text)?.as_slice(), &x),
    }
}

#[test]
fn edits(rt: HostRuntime) -> Result<(), Fail> {
    let alloc = rt.alloc();
    for (call, text, x, want) in [
        (EditCall::Insert, "3121", b'2', "11223"),
        (EditCall::Insert, "3121", b'0', "01123"),
        (EditCall::Insert, "3121", b'4', "11234"),
        (EditCall::InsertAbsent, "3151", b'2', "1235"),
        (EditCall::InsertAbsent, "3151", b'3', "135"),
        (EditCall::InsertAbsent, "", b'3', "3"),
        (EditCall::Remove, "3121", b'1', "23"),
        (EditCall::Remove, "3121", b'3', "112"),
        (EditCall::Remove, "3151", b'4', "1135"),
    ] {
        let found = edited(alloc, call, text, x)?;
        assert_eq!(rt; found.as_slice(), want.as_bytes());
    }
    Ok(())
}

/// What makes a list of two lists in order.
#[derive(Clone, Copy, Debug)]
enum PairCall {
    Union,
    Symmetric,
    Within,
    Without,
    Common,
    Join,
}

fn of_sets(alloc: Global, call: PairCall, a: &str, b: &str) -> Result<Vec<u8>, AllocError> {
    let first = distinct(alloc, a)?;
    let second = distinct(alloc, b)?;
    match call {
        PairCall::Symmetric => symmetric(alloc, first.as_slice(), second.as_slice()),
        _ => union(alloc, first.as_slice(), second.as_slice()),
    }
}

fn of_pair(alloc: Global, call: PairCall, a: &str, b: &str) -> Result<Vec<u8>, AllocError> {
    let first = in_order(alloc, a)?;
    let second = in_order(alloc, b)?;
    match call {
        PairCall::Union | PairCall::Symmetric => of_sets(alloc, call, a, b),
        PairCall::Within => within(alloc, first.as_slice(), second.as_slice()),
        PairCall::Without => without(alloc, first.as_slice(), second.as_slice()),
        PairCall::Common => common(alloc, first.as_slice(), second.as_slice()),
        PairCall::Join => join(alloc, first.as_slice(), second.as_slice()),
    }
}

#[test]
fn two_lists(rt: HostRuntime) -> Result<(), Fail> {
    let alloc = rt.alloc();
    for (call, a, b, want) in [
        (PairCall::Union, "3121", "242", "1234"),
        (PairCall::Symmetric, "3121", "242", "134"),
        (PairCall::Within, "3121", "141", "11"),
        (PairCall::Without, "3121", "141", "23"),
        (PairCall::Common, "3111", "141", "11"),
        (PairCall::Common, "31", "1411", "1"),
        (PairCall::Join, "3121", "242", "1122234"),
        (PairCall::Join, "", "21", "12"),
        (PairCall::Join, "21", "", "12"),
    ] {
        let found = of_pair(alloc, call, a, b)?;
        assert_eq!(rt; found.as_slice(), want.as_bytes());
    }
    Ok(())
}

#[test]
fn searching(rt: HostRuntime) -> Result<(), Fail> {
    let alloc = rt.alloc();
    for (text, x, times) in [("3121", b'1', 2), ("3121", b'3', 1), ("3121", b'4', 0)] {
        let items = in_order(alloc, text)?;
        assert_eq!(rt; count(items.as_slice(), &x), times);
        assert_eq!(rt; contains(items.as_slice(), &x), times > 0);
        assert_eq!(rt; count_anywhere(text.as_bytes(), &x), times);
        assert_eq!(rt; contains_anywhere(text.as_bytes(), &x), times > 0);
    }
    Ok(())
}

#[test]
fn items_of_one_key_stay_in_order(rt: HostRuntime) -> Result<(), Fail> {
    let alloc = rt.alloc();
    let items = copied(alloc, b"abcd")?;
    let keys = copied(alloc, b"3121")?;
    let found = sort_by_keys(alloc, items, keys)?;
    assert_eq!(rt; found.as_slice(), "bdca".as_bytes());
    Ok(())
}

// Whether all of some bytes are in a text, none is, and no two bytes of the text are equal.
fn answers(alloc: Global, text: &str, others: &str) -> Result<[bool; 3], AllocError> {
    Ok([
        contains_all(alloc, text.as_bytes(), others.as_bytes())?,
        contains_none(alloc, text.as_bytes(), others.as_bytes())?,
        all_differ(alloc, text.as_bytes())?,
    ])
}

#[test]
fn whole_lists_are_looked_for(rt: HostRuntime) -> Result<(), Fail> {
    let alloc = rt.alloc();
    for (text, others, want) in [
        ("3121", "13", [true, false, false]),
        ("3121", "14", [false, false, false]),
        ("321", "45", [false, true, true]),
        ("321", "", [true, true, true]),
        ("", "3", [false, true, true]),
        ("321", "33", [true, false, true]),
    ] {
        assert_eq!(rt; answers(alloc, text, others)?, want);
    }
    Ok(())
}

// A selection by copies, and then by moves.
fn selected(alloc: Global, text: &str, flags: &[bool]) -> Result<Vec<u8>, AllocError> {
    let items = copied(alloc, text.as_bytes())?;
    if items.len() != flags.len() {
        return Ok(items);
    }
    let mut both = copy_selected(alloc, items.as_slice(), flags)?;
    both.push(b' ')?;
    both.extend_from_slice(select(alloc, items, flags)?.as_slice())?;
    Ok(both)
}

#[test]
fn selections_keep_their_order(rt: HostRuntime) -> Result<(), Fail> {
    let alloc = rt.alloc();
    for (flags, want) in [
        ([true, false, true, true], "321 321"),
        ([false, false, false, false], " "),
        ([true, true, true, true], "3121 3121"),
    ] {
        let found = selected(alloc, "3121", flags.as_slice())?;
        assert_eq!(rt; found.as_slice(), want.as_bytes());
    }
    Ok(())
}
