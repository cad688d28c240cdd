ghost use Rattle.std.specs.Prelude.{◌≡◌, IfOk};
ghost use Rattle.object_state.specs.Layouts.{may_stand};
ghost use Rattle.object_state.specs.Looks.{class_of, end_of, has_at, items_at, look, stands, value_of};

use crate::{Cell, LinkKey, Look, StateReader};
use class_model::{AssocNo, AttrNo, ClassNo, End};
use ocl_values::{ObjNo, Value};
use std::alloc::{AllocError, Global};
use use_lists::Items;

/// The object that a link has at an end.
pub(crate) fn end_of(pair: (ObjNo, ObjNo), end: End) -> ObjNo
    ensures { result ≡ end_of pair end }
{
    match end {
        End::First => pair.0,
        End::Second => pair.1,
    }
}

/// Whether a link of an association has an object at an end.
pub(crate) fn has_at(
    assoc: AssocNo,
    end: End,
    object: ObjNo,
    entry: &(LinkKey, (ObjNo, ObjNo)),
) -> bool
    ensures { result ≡ has_at assoc end object entry.now }
{
    entry.0.0 == assoc && end_of(entry.1, end) == object
}

/// The class of a live object.
pub(crate) fn class_of<S: StateReader>(store: &S, object: ObjNo) -> Option<ClassNo>
    ensures { result ≡ class_of (S.held store.now).state object }
{
    match store.object(object) {
        None => None,
        Some(live) => Some(live.class),
    }
}

/// The value of an attribute of a live object.
pub(crate) fn value_of<S: StateReader>(
    alloc: Global,
    store: &S,
    object: ObjNo,
    attr: AttrNo,
) -> Result<Option<Value>, AllocError>
    ensures { IfOk result (λ value. value ≡ value_of (S.held store.now).layout (S.held store.now).state object attr) }
{
    match store.object(object) {
        None => Ok(None),
        Some(live) => match store.layout().slot(live, attr) {
            None => Ok(None),
            Some(value) => Ok(Some(value.try_copy(alloc)?)),
        },
    }
}

/// Whether a live object may stand at an end of an association.
fn stands<S: StateReader>(store: &S, assoc: AssocNo, end: End, object: ObjNo) -> bool
    ensures { result ≡ stands (S.held store.now).layout (S.held store.now).state assoc end object }
{
    match store.object(object) {
        None => false,
        Some(live) => store.layout().may_stand(assoc, end, live.class),
    }
}

/// The objects at an end of an object that may stand at the opposite one.
pub(crate) fn items_at<S: StateReader>(
    alloc: Global,
    store: &S,
    assoc: AssocNo,
    end: End,
    object: ObjNo,
) -> Result<Option<Items<Value>>, AllocError>
    ensures { IfOk result (λ items. items ≡ items_at (S.held store.now).layout (S.held store.now).state assoc end object) }
{
    if stands(store, assoc, end.opposite(), object) {
        Ok(Some(store.joined(alloc, assoc, end, object)?))
    } else {
        Ok(None)
    }
}

/// What a cell holds.
pub(crate) fn look_at<S: StateReader>(
    alloc: Global,
    store: &S,
    cell: &Cell,
) -> Result<Look, AllocError>
    ensures { IfOk result (λ seen. seen ≡ look (S.held store.now).layout (S.held store.now).state cell.now) }
{
    Ok(match *cell {
        Cell::Kind(object) => match class_of(store, object) {
            None => Look::Absent,
            Some(class) => Look::Class(class),
        },
        Cell::Slot(object, attr) => match value_of(alloc, store, object, attr)? {
            None => Look::Absent,
            Some(value) => Look::Value(value),
        },
        Cell::Nav(assoc, end, object) => match items_at(alloc, store, assoc, end, object)? {
            None => Look::Absent,
            Some(items) => Look::Items(items),
        },
        Cell::Extent(class) => Look::Items(store.objects_of(alloc, class)?),
    })
}
