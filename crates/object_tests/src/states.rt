use class_model::{End, OclType};
use object_state::*;
use ocl_values::{Text, Value};
use std::alloc::{AllocError, Global};
use std::test::Fail;
use use_lists::Items;

fn class(
    alloc: Global,
    is_abstract: bool,
    attrs: &[u32],
    ancestors: &[u32],
) -> Result<ClassLayout, AllocError> {
    Ok(ClassLayout {
        is_abstract,
        attrs: Items::from_slice(alloc, attrs)?,
        ancestors: Items::from_slice(alloc, ancestors)?,
    })
}

/// Classes A with two attributes, B and C below A, D below B and C with one attribute more, and an
/// abstract E; an association from A to B.
fn layout(alloc: Global) -> Result<Layout, AllocError> {
    let mut classes = Items::new(alloc);
    classes.push(class(alloc, false, &[0, 1], &[0])?)?;
    classes.push(class(alloc, false, &[0, 1], &[0, 1])?)?;
    classes.push(class(alloc, false, &[0, 1], &[0, 2])?)?;
    classes.push(class(alloc, false, &[0, 1, 2], &[0, 1, 2, 3])?)?;
    classes.push(class(alloc, true, &[], &[4])?)?;
    let mut assocs = Items::new(alloc);
    assocs.push(AssocLayout {
        first: 0,
        second: 1,
    })?;
    Ok(Layout { classes, assocs })
}

/// Carries a creation out where it fits, and gives what takes it back.
fn create(
    alloc: Global,
    store: &mut PlainStore,
    name: &str,
    class: u32,
) -> Result<Option<Change>, AllocError> {
    if class as usize >= store.layout().classes.len() {
        return Ok(None);
    }
    let change = creation(alloc, store, Text::copy_of(alloc, name)?, class)?;
    match store.fits(&change) {
        Err(_) => Ok(None),
        Ok(()) => Ok(Some(store.apply(change)?)),
    }
}

/// How many objects a class and its descendants have.
fn count(alloc: Global, store: &PlainStore, class: u32) -> Result<usize, AllocError> {
    let there = store.objects_of(alloc, class)?;
    Ok(there.len())
}

#[test]
fn a_new_store_is_empty(rt: HostRuntime) -> Result<(), Fail> {
    let alloc = rt.alloc();
    let store = PlainStore::new(alloc, layout(alloc)?);
    assert_eq!(rt; store.counters(), (1, 1));
    assert_eq!(rt; store.weight(), 0);
    assert_eq!(rt; store.object_named("a"), None);
    Ok(())
}

#[test]
fn an_object_is_of_its_class_and_all_ancestors(rt: HostRuntime) -> Result<(), Fail> {
    let alloc = rt.alloc();
    let mut store = PlainStore::new(alloc, layout(alloc)?);
    assert!(rt; create(alloc, &mut store, "d", 3)?.is_some());
    assert_eq!(rt; store.object_named("d"), Some(1));
    assert_eq!(rt; count(alloc, &store, 0)?, 1);
    assert_eq!(rt; count(alloc, &store, 2)?, 1);
    assert_eq!(rt; count(alloc, &store, 4)?, 0);
    Ok(())
}

#[test]
fn a_slot_is_null_at_first(rt: HostRuntime) -> Result<(), Fail> {
    let alloc = rt.alloc();
    let mut store = PlainStore::new(alloc, layout(alloc)?);
    assert!(rt; create(alloc, &mut store, "d", 3)?.is_some());
    let seen = store.look(alloc, &Cell::Slot(1, 2))?;
    assert!(rt; seen == Look::Value(Value::Null));
    Ok(())
}

#[test]
fn a_taken_name_and_an_abstract_class_are_refused(rt: HostRuntime) -> Result<(), Fail> {
    let alloc = rt.alloc();
    let mut store = PlainStore::new(alloc, layout(alloc)?);
    assert!(rt; create(alloc, &mut store, "d", 3)?.is_some());
    assert!(rt; create(alloc, &mut store, "d", 0)?.is_none());
    assert!(rt; create(alloc, &mut store, "e", 4)?.is_none());
    Ok(())
}

fn variable() -> Variable {
    Variable {
        of_type: OclType::Int,
        value: Value::Int(7),
    }
}

#[test]
fn a_link_tells_how_it_is_taken_back(rt: HostRuntime) {
    let there = LinkChange {
        assoc: 0,
        first: 1,
        second: 2,
        stamp: 5,
        before: 5,
        after: 6,
    };
    let back = LinkChange {
        before: 6,
        after: 5,
        ..there
    };
    assert!(rt; Change::Link(there).inverse() == Change::Unlink(back));
    assert!(rt; Change::Unlink(back).inverse() == Change::Link(there));
}

#[test]
fn a_binding_tells_how_it_is_taken_back(rt: HostRuntime) -> Result<(), Fail> {
    let alloc = rt.alloc();
    let bound = Change::Bind {
        name: Text::copy_of(alloc, "v")?,
        old: None,
        new: variable(),
    };
    let unbound = Change::Unbind {
        name: Text::copy_of(alloc, "v")?,
        old: variable(),
    };
    assert_eq!(rt; bound.weight(), 2);
    assert!(rt; bound.inverse() == unbound);
    Ok(())
}

/// What a change touches, where the layout is not too large.
fn touched_by(alloc: Global, change: &Change) -> Result<Cells, AllocError> {
    let layout = layout(alloc)?;
    let mut cells = Cells::new(alloc);
    if layout.assocs.len() < 9 {
        touched(&layout, change, &mut cells)?;
    }
    Ok(cells)
}

#[test]
fn a_creation_touches_its_cells(rt: HostRuntime) -> Result<(), Fail> {
    let alloc = rt.alloc();
    let creation = Change::Create(ObjectChange {
        object: 1,
        name: Text::copy_of(alloc, "d")?,
        class: 1,
        slots: Items::new(alloc),
        before: 1,
        after: 2,
    });
    let cells = touched_by(alloc, &creation)?;
    assert!(rt; cells.has(&Cell::Kind(1)));
    assert!(rt; cells.has(&Cell::Slot(1, 1)));
    assert!(rt; cells.has(&Cell::Nav(0, End::First, 1)));
    assert!(rt; cells.has(&Cell::Extent(0)));
    assert!(rt; !cells.has(&Cell::Extent(2)));
    Ok(())
}

#[test]
fn a_link_touches_two_navigations(rt: HostRuntime) -> Result<(), Fail> {
    let alloc = rt.alloc();
    let link = Change::Link(LinkChange {
        assoc: 0,
        first: 3,
        second: 4,
        stamp: 1,
        before: 1,
        after: 2,
    });
    let cells = touched_by(alloc, &link)?;
    assert_eq!(rt; cells.iter().count(), 2);
    assert!(rt; cells.has(&Cell::Nav(0, End::First, 4)));
    assert!(rt; cells.has(&Cell::Nav(0, End::Second, 3)));
    Ok(())
}
