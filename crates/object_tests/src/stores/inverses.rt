ghost use Rattle.std.specs.Prelude.{◌≡◌, IfOk};

use super::samples::{Move, stores};
use super::walks::{looks, step};
use object_state::{Look, PlainStore, StateReader, Variable};
use object_store::Store;
use ocl_values::Text;
use std::alloc::{AllocError, Global};
use std::test::Fail;
use use_lists::Items;

/// What a store shows of its state.
#[derive(Drop, PartialEq, Eq)]
struct Shown {
    looks: Vec<Look>,
    variables: Items<(Text, Variable)>,
    counters: (u32, u32),
    weight: u64,
}

fn shown_by<S: StateReader>(alloc: Global, store: &S) -> Result<Shown, AllocError> {
    let counters = store.counters();
    let weight = store.weight();
    Ok(Shown {
        looks: looks(alloc, store)?,
        variables: store.variables(alloc)?,
        counters,
        weight,
    })
}

fn moves() -> [Move; 3] {
    [
        Move::Create("a", 3),
        Move::Create("b", 1),
        Move::Bind("v", 1),
    ]
}

/// A store of each kind with an object of D, one of B, and a variable.
pub fn filled(alloc: Global) -> Result<(PlainStore, Store), AllocError>
    ensures { IfOk result (λ both. both.0 ≡ both.1) }
{
    let (mut plain, mut store) = stores(alloc)?;
    'moves: for asked in moves() {
        step(alloc, &mut plain, &mut store, asked, 1)?;
    }
    Ok((plain, store))
}

/// What both stores show.
fn both_shown(
    alloc: Global,
    plain: &PlainStore,
    store: &Store,
) -> Result<(Shown, Shown), AllocError> {
    let first = shown_by(alloc, plain)?;
    let second = shown_by(alloc, store)?;
    Ok((first, second))
}

/// What both stores show after so many changes: what is asked, and what takes it back, in turn.
fn shown_after(alloc: Global, asked: Move, count: u32) -> Result<(Shown, Shown), AllocError> {
    let (mut plain, mut store) = filled(alloc)?;
    step(alloc, &mut plain, &mut store, asked, count)?;
    both_shown(alloc, &plain, &store)
}

/// Whether both stores show one thing in both of two cases.
fn are_same(one: &(Shown, Shown), other: &(Shown, Shown)) -> bool {
    one.0 == one.1 && one.0 == other.0 && other.0 == other.1
}

/// Whether both stores show the same after so many changes in turn as after so many others.
fn is_same(alloc: Global, asked: Move, count: u32, other: u32) -> Result<bool, AllocError> {
    let one = shown_after(alloc, asked, count)?;
    let another = shown_after(alloc, asked, other)?;
    Ok(are_same(&one, &another))
}

/// One for each kind of change, or for the one that takes it back.
fn changes() -> [Move; 6] {
    [
        Move::Create("c", 3),
        Move::Link(0, 1, 2),
        Move::Set(1, 2, 7),
        Move::Bind("w", 1),
        Move::Bind("v", 2),
        Move::Unbind("v"),
    ]
}

#[test]
fn each_change_is_taken_back_and_each_inverse_too(rt: HostRuntime) -> Result<(), Fail> {
    let alloc = rt.alloc();
    'changes: for asked in changes() {
        assert!(rt; !is_same(alloc, asked, 0, 1)?);
        assert!(rt; is_same(alloc, asked, 0, 2)?);
        assert!(rt; is_same(alloc, asked, 1, 3)?);
        assert!(rt; is_same(alloc, asked, 0, 4)?);
    }
    Ok(())
}
