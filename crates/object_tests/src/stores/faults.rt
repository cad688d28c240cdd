use super::samples::{Move, stores};
use super::walks::step;
use object_state::{Change, LinkChange, StateReader, StoreFault};
use std::test::Fail;

/// What is asked in this order of stores that are empty at first, each with its first fault then.
/// Class 4 is abstract. An object and a variable weigh 1 and the sizes of their values, a link
/// weighs 1: the state weighs 11 before `w` is bound, and then 1,000,000.
fn row(at: u32) -> (Move, Option<StoreFault>) {
    match at {
        0 => (Move::Create("a", 3), None),
        1 => (Move::Create("a", 4), Some(StoreFault::X1)),
        2 => (Move::Create("b", 4), Some(StoreFault::X2)),
        3 => (Move::Create("b", 1), None),
        4 => (Move::Link(0, 1, 2), None),
        5 => (Move::Link(0, 1, 2), Some(StoreFault::X3)),
        6 => (Move::Link(1, 1, 2), None),
        7 => (Move::Link(0, 1, 9), Some(StoreFault::X5)),
        8 => (Move::Link(0, 9, 2), Some(StoreFault::X5)),
        9 => (Move::Set(9, 0, 1), Some(StoreFault::X5)),
        10 => (Move::Set(1, 2, 7), None),
        11 => (Move::Bind("v", 1), None),
        12 => (Move::Create("v", 4), Some(StoreFault::X1)),
        13 => (Move::Bind("b", 1), Some(StoreFault::X1)),
        14 => (Move::Fill("w", 999_988), Some(StoreFault::X8)),
        15 => (Move::Fill("w", 999_987), None),
        16 => (Move::Create("c", 0), Some(StoreFault::X8)),
        17 => (Move::Link(0, 1, 1), Some(StoreFault::X8)),
        18 => (Move::Set(1, 0, 5), None),
        19 => (Move::Unbind("w"), None),
        20 => (Move::CreateLast("c", 0), None),
        21 => (Move::LinkLast(1, 2, 2), None),
        22 => (Move::Create("d", 0), Some(StoreFault::X15)),
        _ => (Move::Link(0, 1, 1), Some(StoreFault::X15)),
    }
}

#[test]
fn a_change_that_does_not_fit_has_its_first_fault(rt: HostRuntime) -> Result<(), Fail> {
    let alloc = rt.alloc();
    let (mut plain, mut store) = stores(alloc)?;
    'rows: for at in 0..24u32 {
        let (asked, fault) = row(at);
        let found = step(alloc, &mut plain, &mut store, asked, 1)?;
        assert!(rt; found == [fault, fault], "in row {at}");
    }
    Ok(())
}

/// A link of stores that have none.
const UNLINKED: LinkChange = LinkChange {
    assoc: 0,
    first: 1,
    second: 2,
    stamp: 1,
    before: 1,
    after: 1,
};

#[test]
fn a_link_that_is_not_there_cannot_go(rt: HostRuntime) -> Result<(), Fail> {
    let alloc = rt.alloc();
    let (plain, store) = stores(alloc)?;
    let change = Change::Unlink(UNLINKED);
    assert_eq!(rt; plain.fits(&change), Err(StoreFault::X4));
    assert_eq!(rt; store.fits(&change), Err(StoreFault::X4));
    Ok(())
}
