ghost use Rattle.std.specs.Prelude.{◌≡◌, ◌<◌, OnOk};
ghost use Rattle.object_state.specs.Faults.{Fits, OldPartsAgree};

use super::samples::{Move, carry_out, proposed, stores};
use class_model::End;
use object_state::{Cell, Change, Look, PlainStore, StateReader, StoreFault};
use object_store::Store;
use std::alloc::{AllocError, Global};
use std::test::Fail;

/// Looks at an object, whether it is live or not.
fn add_looks<S: StateReader>(
    alloc: Global,
    store: &S,
    object: u32,
    looks: &mut Vec<Look>,
) -> Result<(), AllocError> {
    looks.push(store.look(alloc, &Cell::Kind(object))?)?;
    'attrs: for attr in 0..4u32 {
        looks.push(store.look(alloc, &Cell::Slot(object, attr))?)?;
    }
    'assocs: for assoc in 0..3u32 {
        looks.push(store.look(alloc, &Cell::Nav(assoc, End::First, object))?)?;
        looks.push(store.look(alloc, &Cell::Nav(assoc, End::Second, object))?)?;
    }
    Ok(())
}

/// What is seen at every cell of a few objects and of all classes, and of one that is none.
pub(crate) fn looks<S: StateReader>(alloc: Global, store: &S) -> Result<Vec<Look>, AllocError> {
    let mut looks = Vec::new(alloc);
    'objects: for object in 0..8u32 {
        add_looks(alloc, store, object, &mut looks)?;
    }
    'classes: for class in 0..6u32 {
        looks.push(store.look(alloc, &Cell::Extent(class))?)?;
    }
    Ok(looks)
}

/// Whether both stores list the same.
fn lists_same(alloc: Global, plain: &PlainStore, store: &Store) -> Result<bool, AllocError> {
    Ok(
        plain.objects(alloc)? == store.objects(alloc)?
            && plain.links(alloc, 0)? == store.links(alloc, 0)?
            && plain.links(alloc, 1)? == store.links(alloc, 1)?
            && plain.variables(alloc)? == store.variables(alloc)?,
    )
}

/// Whether both stores have the same counts.
fn counts_same(plain: &PlainStore, store: &Store) -> bool {
    plain.counters() == store.counters()
        && plain.weight() == store.weight()
        && plain.object_count() == store.object_count()
        && plain.link_count() == store.link_count()
}

fn names() -> [&'static str; 6] {
    ["a", "b", "c", "ab", "", "zz"]
}

/// Whether both stores know the same names.
fn names_same(plain: &PlainStore, store: &Store) -> bool {
    let mut same = true;
    'names: for name in names() {
        same = same && plain.object_named(name) == store.object_named(name);
        same = same && plain.variable(name) == store.variable(name);
    }
    same
}

/// Whether both stores have the same names and stamps under the same numbers.
fn numbered_same(plain: &PlainStore, store: &Store) -> bool {
    let mut same = true;
    'objects: for object in 0..8u32 {
        same = same && plain.name_of(object) == store.name_of(object);
        same = same && plain.stamp(1, object, 1) == store.stamp(1, object, 1);
    }
    same
}

/// Whether nothing tells one store from the other.
fn all_same(alloc: Global, plain: &PlainStore, store: &Store) -> Result<bool, AllocError> {
    Ok(
        counts_same(plain, store)
            && names_same(plain, store)
            && numbered_same(plain, store)
            && lists_same(alloc, plain, store)?
            && looks(alloc, plain)? == looks(alloc, store)?,
    )
}

/// Carries a change out in both stores, then what takes it back, then what takes that back, and so
/// on: so many changes in all.
fn carry_out_in_turn(
    plain: &mut PlainStore,
    store: &mut Store,
    first: Change,
    second: Change,
    count: u32,
) -> Result<(), AllocError>
    requires same { plain.old ≡ store.old }
    requires equal { second ≡ first }
    requires fits { Fits plain.old.layout plain.old.state first }
    ensures { OnOk result (plain.new ≡ store.new) }
{
    let mut both = (first, second);
    'turns: for _turn in 0..count {
        both = carry_out(plain, store, both.0, both.1)?;
    }
    Ok(())
}

/// Carries a change out in both stores where it fits, and takes it back and carries it out in turn;
/// tells the fault that each finds.
fn try_change(
    plain: &mut PlainStore,
    store: &mut Store,
    first: Change,
    second: Change,
    count: u32,
) -> Result<[Option<StoreFault>; 2], AllocError>
    requires same { plain.old ≡ store.old }
    requires equal { second ≡ first }
    requires agrees { OldPartsAgree plain.old.layout plain.old.state first }
    ensures { OnOk result (plain.new ≡ store.new) }
{
    match (plain.fits(&first), store.fits(&second)) {
        (Ok(()), Ok(())) => {
            carry_out_in_turn(plain, store, first, second, count)?;
            Ok([None, None])
        }
        (found, also) => Ok([found.err(), also.err()]),
    }
}

/// Does what is asked in both stores where it fits, takes it back and does it again in turn, so many
/// changes in all; tells the fault that each finds.
pub fn step(
    alloc: Global,
    plain: &mut PlainStore,
    store: &mut Store,
    asked: Move,
    count: u32,
) -> Result<[Option<StoreFault>; 2], AllocError>
    requires { plain.old ≡ store.old }
    ensures { OnOk result (plain.new ≡ store.new) }
{
    match proposed(alloc, plain, store, asked)? {
        None => Ok([None, None]),
        Some((first, second)) => try_change(plain, store, first, second, count),
    }
}

/// The next of a row of numbers that look random.
fn next(seed: u64) -> u64 {
    seed.wrapping_mul(6_364_136_223_846_793_005)
        .wrapping_add(1_442_695_040_888_963_407)
}

/// A number below 8, from the bits of a seed above some.
fn digit(seed: u64, at: u32) -> u32
    requires { at < 64 }
{
    ((seed >> at) % 8) as u32
}

/// What a seed asks.
fn asked(seed: u64) -> Move {
    let name = names()[((seed >> 30) % 6) as usize];
    let (one, other) = (digit(seed, 40), digit(seed, 44));
    match (seed >> 50) % 9 {
        0 | 1 => Move::Create(name, one),
        2 => Move::Set(one, other % 4, i128::from(other)),
        3 => Move::Bind(name, i128::from(one)),
        4 => Move::Unbind(name),
        _ => Move::Link(other % 3, one, other),
    }
}

/// How many changes in turn a seed asks: each fourth step is taken back.
fn turns(seed: u64) -> u32 {
    if (seed >> 60) % 4 == 0 { 2 } else { 1 }
}

/// Walks so far with both stores, where each fourth step is taken back, and tells the step after
/// which they first differ.
fn walk(alloc: Global, start: u64, steps: u32) -> Result<Option<u32>, AllocError> {
    let (mut plain, mut store) = stores(alloc)?;
    let mut seed = next(start);
    'steps: for at in 0..steps {
        seed = next(seed);
        let [found, also] = step(alloc, &mut plain, &mut store, asked(seed), turns(seed))?;
        if found != also || !all_same(alloc, &plain, &store)? {
            return Ok(Some(at));
        }
    }
    Ok(None)
}

#[test]
fn both_stores_look_the_same(rt: HostRuntime) -> Result<(), Fail> {
    let alloc = rt.alloc();
    'starts: for start in 0..50u64 {
        assert_eq!(rt; walk(alloc, start, 60)?, None, "from {start}");
    }
    Ok(())
}
