ghost use Rattle.std.specs.Prelude.{◌≡◌, ◌<◌};

use super::inverses::filled;
use super::samples::Move;
use super::walks::step;
use class_model::{ClassNo, End};
use object_state::{Cell, Look, PlainStore, World};
use object_store::Store;
use ocl_values::Value;
use std::alloc::{AllocError, Global};
use std::marker::Brand;
use std::sync::ledger::{Blank, Ledger};
use std::test::Fail;
use use_lists::Items;
use use_steps::Steps;

fn class_look(class: Option<ClassNo>) -> Look {
    match class {
        None => Look::Absent,
        Some(class) => Look::Class(class),
    }
}

fn value_look(value: Option<Value>) -> Look {
    match value {
        None => Look::Absent,
        Some(value) => Look::Value(value),
    }
}

fn items_look(items: Option<Items<Value>>) -> Look {
    match items {
        None => Look::Absent,
        Some(items) => Look::Items(items),
    }
}

/// What a world answers of a cell.
fn answer<L: Ledger, W: World<L>>(
    alloc: Global,
    world: &W,
    cell: Cell,
    steps: &mut Steps<L>,
) -> Result<Look, AllocError> {
    match cell {
        Cell::Kind(object) => Ok(class_look(world.kind(object, steps))),
        Cell::Slot(object, attr) => Ok(value_look(world.slot(alloc, object, attr, steps)?)),
        Cell::Nav(assoc, end, object) => {
            Ok(items_look(world.nav(alloc, assoc, end, object, steps)?))
        }
        Cell::Extent(class) => Ok(Look::Items(world.extent(alloc, class, steps)?)),
    }
}

/// What is to be seen.
#[derive(Clone, Copy)]
enum Sight {
    Absent,
    Class(u32),
    Null,
    Number(i128),
    Objects(&'static [u32]),
}

/// The numbers of objects as values.
fn objects(alloc: Global, numbers: &[u32]) -> Result<Vec<Value>, AllocError> {
    numbers
        .iter()
        .map(|number| Value::Obj(*number))
        .collect(alloc)
}

fn look_of(alloc: Global, sight: Sight) -> Result<Look, AllocError> {
    match sight {
        Sight::Absent => Ok(Look::Absent),
        Sight::Class(class) => Ok(Look::Class(class)),
        Sight::Null => Ok(Look::Value(Value::Null)),
        Sight::Number(number) => Ok(Look::Value(Value::Int(number))),
        Sight::Objects(numbers) => Ok(Look::Items(Items::from_vec(objects(alloc, numbers)?))),
    }
}

/// What is to be seen of an object of D, to which an object of B is linked, and of what there is not.
fn row(at: u32) -> (Cell, Sight) {
    match at {
        0 => (Cell::Kind(1), Sight::Class(3)),
        1 => (Cell::Kind(3), Sight::Absent),
        2 => (Cell::Slot(1, 2), Sight::Number(7)),
        3 => (Cell::Slot(2, 1), Sight::Null),
        4 => (Cell::Slot(2, 2), Sight::Absent),
        5 => (Cell::Slot(3, 0), Sight::Absent),
        6 => (Cell::Nav(0, End::Second, 1), Sight::Objects(&[2])),
        7 => (Cell::Nav(0, End::First, 2), Sight::Objects(&[1])),
        8 => (Cell::Nav(0, End::First, 1), Sight::Objects(&[])),
        9 => (Cell::Nav(0, End::Second, 3), Sight::Absent),
        10 => (Cell::Nav(2, End::Second, 1), Sight::Absent),
        11 => (Cell::Extent(0), Sight::Objects(&[1, 2])),
        12 => (Cell::Extent(2), Sight::Objects(&[1])),
        _ => (Cell::Extent(4), Sight::Objects(&[])),
    }
}

/// The first row that a world does not answer as it is to be seen.
fn first_other<L: Ledger, W: World<L>>(
    alloc: Global,
    world: &W,
    steps: &mut Steps<L>,
) -> Result<Option<u32>, AllocError> {
    'rows: for at in 0..14u32 {
        let (cell, sight) = row(at);
        let answered = answer(alloc, world, cell, steps)?;
        if answered != look_of(alloc, sight)? {
            return Ok(Some(at));
        }
    }
    Ok(None)
}

/// A store of each kind with an object of D, one of B, a link between them and a number.
fn linked(alloc: Global) -> Result<(PlainStore, Store), AllocError> {
    let (mut plain, mut store) = filled(alloc)?;
    step(alloc, &mut plain, &mut store, Move::Link(0, 1, 2), 1)?;
    step(alloc, &mut plain, &mut store, Move::Set(1, 2, 7), 1)?;
    Ok((plain, store))
}

/// The first row that the plain store does not answer as it is to be seen, and that of the other.
fn first_others<L: Ledger>(alloc: Global, blank: Blank) -> Result<[Option<u32>; 2], AllocError>
    requires name { blank.name ≡ L.name }
    requires parts { blank.parts ≡ L.parts }
    requires some { 0 < blank.parts }
{
    let (plain, store) = linked(alloc)?;
    let mut steps = Steps::<L>::new(blank);
    Ok([
        first_other(alloc, &plain, &mut steps)?,
        first_other(alloc, &store, &mut steps)?,
    ])
}

#[test]
fn both_stores_answer_as_worlds(rt: HostRuntime) -> Result<(), Fail> {
    let found = first_others::<Brand>(rt.alloc(), Blank::new(1))?;
    assert_eq!(rt; found, [None, None]);
    Ok(())
}
