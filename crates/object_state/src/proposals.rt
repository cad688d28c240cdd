ghost use Rattle.std.specs.Prelude.{◌≡◌, ◌<◌, Some, None, length, map, if◌then◌else◌, IfOk, MatchOption};
ghost use Rattle.ocl_values.specs.declared.value.Value.TheVariants.{Null};
ghost use Rattle.object_state.specs.declared.change.Change.TheVariants.{Create, Link};
ghost use Rattle.object_state.specs.Faults.{OldPartsAgree};
ghost use Rattle.object_state.specs.Proposals.{creation, linking, may_be_at, may_be_linked, next};

use crate::{Change, LinkChange, ObjectChange, StateReader};
use class_model::{AssocNo, AttrNo, ClassNo, End};
use ocl_values::{ObjNo, Text, Value};
use std::alloc::{AllocError, Global};
use use_lists::Items;

fn next(number: u32) -> u32
    ensures { result ≡ next number }
{
    number.saturating_add(1)
}

/// A null for each attribute.
fn nulls(alloc: Global, attrs: &[AttrNo]) -> Result<Vec<Value>, AllocError>
    ensures { IfOk result (λ v. v.items ≡ map (λ a. Null) attrs.now) }
{
    attrs.iter().map(|_attr| Value::Null).collect(alloc)
}

/// An object of nulls at the next number.
fn new_object<S: StateReader>(
    alloc: Global,
    store: &S,
    name: Text,
    class: ClassNo,
) -> Result<Change, AllocError>
    ensures { IfOk result (λ c. c ≡ Create (creation (S.held store.now).layout (S.held store.now).state name class)) }
{
    let slots = Items::from_vec(nulls(alloc, store.layout().attrs(class))?);
    let before = store.counters().0;
    Ok(Change::Create(ObjectChange {
        object: before,
        name,
        class,
        slots,
        before,
        after: next(before),
    }))
}

/// An object of nulls that comes at the next number.
pub fn creation<S: StateReader>(
    alloc: Global,
    store: &S,
    name: Text,
    class: ClassNo,
) -> Result<Change, AllocError>
    requires { class < length (S.held store.now).layout.classes }
    ensures change { IfOk result (λ c. c ≡ Create (creation (S.held store.now).layout (S.held store.now).state name class)) }
    ensures agrees { IfOk result (λ c. OldPartsAgree (S.held store.now).layout (S.held store.now).state c) }
{
    store.state_is_valid();
    let change = new_object(alloc, store, name, class)?;
    Ok(change)
}

/// Whether an object may stand at an end of an association, or is not live.
fn may_be_at<S: StateReader>(store: &S, assoc: AssocNo, end: End, object: ObjNo) -> bool
    ensures { result ≡ may_be_at (S.held store.now).layout (S.held store.now).state assoc end object }
{
    match store.object(object) {
        None => true,
        Some(live) => store.layout().may_stand(assoc, end, live.class),
    }
}

/// Whether both objects may stand at the ends of an association, or are not live.
fn may_be_linked<S: StateReader>(store: &S, assoc: AssocNo, first: ObjNo, second: ObjNo) -> bool
    ensures { result ≡ may_be_linked (S.held store.now).layout (S.held store.now).state assoc first second }
{
    may_be_at(store, assoc, End::First, first) && may_be_at(store, assoc, End::Second, second)
}

/// A link at the next stamp.
fn new_link<S: StateReader>(store: &S, assoc: AssocNo, first: ObjNo, second: ObjNo) -> Change
    ensures { result ≡ Link (linking (S.held store.now).state assoc first second) }
{
    let before = store.counters().1;
    Change::Link(LinkChange {
        assoc,
        first,
        second,
        stamp: before,
        before,
        after: next(before),
    })
}

/// A link that comes at the next stamp; none where a live object is not of the class at its end.
pub fn linking<S: StateReader>(
    store: &S,
    assoc: AssocNo,
    first: ObjNo,
    second: ObjNo,
) -> Option<Change>
    requires { assoc < length (S.held store.now).layout.assocs }
    ensures change { result ≡ (if may_be_linked (S.held store.now).layout (S.held store.now).state assoc first second
        then Some (Link (linking (S.held store.now).state assoc first second)) else None) }
    ensures agrees { MatchOption result (Unit {0}) (λ c. OldPartsAgree (S.held store.now).layout (S.held store.now).state c) }
{
    store.state_is_valid();
    if may_be_linked(store, assoc, first, second) {
        Some(new_link(store, assoc, first, second))
    } else {
        None
    }
}
