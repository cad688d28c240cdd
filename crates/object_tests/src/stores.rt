use object_store::*;

mod faults;
mod inverses;
mod samples;
mod walks;
mod worlds;

use object_state::{AssocLayout, ClassLayout, Layout, StateReader, StoreFault, creation, linking};
use ocl_values::Text;
use std::alloc::{AllocError, Global};
use std::test::Fail;
use use_lists::Items;

fn class(
    alloc: Global,
    is_abstract: bool,
    attrs: &[u32],
    ancestors: &[u32],
) -> Result<ClassLayout, AllocError> {
    Ok(ClassLayout {
        is_abstract,
        attrs: Items::from_slice(alloc, attrs)?,
        ancestors: Items::from_slice(alloc, ancestors)?,
    })
}

/// Classes A with two attributes, B and C below A, D below B and C with one attribute more, and an
/// abstract E; associations from A to B and from A to A.
fn layout(alloc: Global) -> Result<Layout, AllocError> {
    let mut classes = Items::new(alloc);
    classes.push(class(alloc, false, &[0, 1], &[0])?)?;
    classes.push(class(alloc, false, &[0, 1], &[0, 1])?)?;
    classes.push(class(alloc, false, &[0, 1], &[0, 2])?)?;
    classes.push(class(alloc, false, &[0, 1, 2], &[0, 1, 2, 3])?)?;
    classes.push(class(alloc, true, &[], &[4])?)?;
    let mut assocs = Items::new(alloc);
    assocs.push(AssocLayout {
        first: 0,
        second: 1,
    })?;
    assocs.push(AssocLayout {
        first: 0,
        second: 0,
    })?;
    Ok(Layout { classes, assocs })
}

/// Creates an object named by a number where that fits, and else tells the first fault.
fn create_one(
    alloc: Global,
    store: &mut Store,
    number: u32,
    class: u32,
) -> Result<Option<StoreFault>, AllocError> {
    if class as usize >= store.layout().classes.len() {
        return Ok(None);
    }
    let name = format!(in alloc; "{number}")?;
    let change = creation(alloc, store, Text::from_string(name), class)?;
    match store.fits(&change) {
        Err(fault) => Ok(Some(fault)),
        Ok(()) => {
            store.apply(change)?;
            Ok(None)
        }
    }
}

/// Links two objects in the second association where that fits, and else tells the first fault.
fn link_one(store: &mut Store, first: u32, second: u32) -> Result<Option<StoreFault>, AllocError> {
    if store.layout().assocs.len() < 2 {
        return Ok(None);
    }
    match linking(store, 1, first, second) {
        None => Ok(None),
        Some(change) => match store.fits(&change) {
            Err(fault) => Ok(Some(fault)),
            Ok(()) => {
                store.carry_out(&change)?;
                Ok(None)
            }
        },
    }
}

/// Creates so many objects, and tells the first fault.
fn create_many(
    alloc: Global,
    store: &mut Store,
    count: u32,
) -> Result<Option<StoreFault>, AllocError> {
    'objects: for number in 0..count {
        let found = create_one(alloc, store, number, 0)?;
        if found.is_some() {
            return Ok(found);
        }
    }
    Ok(None)
}

/// Links one object to so many, and tells the first fault.
fn link_many(store: &mut Store, first: u32, count: u32) -> Result<Option<StoreFault>, AllocError> {
    'seconds: for second in 0..count {
        let found = link_one(store, first, second.saturating_add(1))?;
        if found.is_some() {
            return Ok(found);
        }
    }
    Ok(None)
}

#[test]
fn ten_thousand_objects_and_fifty_thousand_links_are_the_most(rt: HostRuntime) -> Result<(), Fail> {
    let alloc = rt.alloc();
    let mut store = Store::new(alloc, layout(alloc)?);
    assert_eq!(rt; create_many(alloc, &mut store, 10_000)?, None);
    assert_eq!(rt;
        create_one(alloc, &mut store, 10_000, 0)?,
        Some(StoreFault::X6)
    );
    'firsts: for first in 1..6u32 {
        assert_eq!(rt; link_many(&mut store, first, 10_000)?, None);
    }
    assert_eq!(rt; link_one(&mut store, 6, 1)?, Some(StoreFault::X7));
    assert_eq!(rt; store.link_count(), 50_000);
    Ok(())
}

#[test]
fn a_new_store_is_empty(rt: HostRuntime) -> Result<(), Fail> {
    let alloc = rt.alloc();
    let store = Store::new(alloc, layout(alloc)?);
    assert_eq!(rt; store.counters(), (1, 1));
    assert_eq!(rt; store.weight(), 0);
    assert_eq!(rt; store.object_named("a"), None);
    assert!(rt; store.objects(alloc)?.is_empty());
    Ok(())
}
