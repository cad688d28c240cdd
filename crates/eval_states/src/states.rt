ghost use Rattle.std.specs.Prelude.{◌≡◌, IfOk, IfSome};
ghost use Rattle.ocl_values.specs.Shape.{IsWellMade};
ghost use Rattle.ocl_values.specs.declared.value.Value.TheVariants.{Null};
ghost use Rattle.object_state.specs.declared.change.Change.TheVariants.{SetSlot};
ghost use Rattle.object_state.specs.Faults.{OldPartsAgree};

use crate::moves::{MOVES_TO_ENTRY, MOVES_TO_NOW, Move, Stored};
use class_model::ClassModel;
use object_state::{Change, Layout, ObjectChange, PlainStore, StateReader, creation, linking};
use object_store::Store;
use ocl_collections::make;
use ocl_values::{Kind, Text, Value};
use std::alloc::{AllocError, Global};

/// A state in a store of each kind.
#[derive(Drop)]
pub struct Both {
    pub plain: PlainStore,
    pub indexed: Store,
}

/// The sequence of some integers.
fn numbers(alloc: Global, all: &[i128]) -> Result<Value, AllocError>
    ensures { IfOk result IsWellMade }
{
    let mut values = Vec::new(alloc);
    'numbers: for number in all {
        values.push(Value::Int(*number))?;
    }
    make(alloc, Kind::Sequence, values)
}

fn value_of(alloc: Global, stored: Stored) -> Result<Value, AllocError>
    ensures { IfOk result IsWellMade }
{
    match stored {
        Stored::Number(number) => Ok(Value::Int(number)),
        Stored::Word(word) => Ok(Value::Str(Text::copy_of(alloc, word)?)),
        Stored::Literal(enumeration, literal) => Ok(Value::Enum(enumeration, literal)),
        Stored::Object(object) => Ok(Value::Obj(object)),
        Stored::Numbers(all) => numbers(alloc, all),
    }
}

fn created<S: StateReader>(
    alloc: Global,
    store: &S,
    name: &str,
    class: u32,
) -> Result<Option<Change>, AllocError>
    ensures { IfOk result (λ o. IfSome o (OldPartsAgree (S.held store.now).layout (S.held store.now).state)) }
{
    if class as usize >= store.layout().classes.len() {
        return Ok(None);
    }
    let change = creation(alloc, store, Text::copy_of(alloc, name)?, class)?;
    Ok(Some(change))
}

/// A creation after which one number more is left out.
fn apart<S: StateReader>(store: &S, change: Change) -> Change
    requires { OldPartsAgree (S.held store.now).layout (S.held store.now).state change }
    ensures { OldPartsAgree (S.held store.now).layout (S.held store.now).state result }
{
    let _ = store;
    match change {
        Change::Create(new) => Change::Create(ObjectChange {
            after: new.after.saturating_add(1),
            ..new
        }),
        other => other,
    }
}

/// A creation of an object of a name and a class, after which one number is left out.
fn created_apart<S: StateReader>(
    alloc: Global,
    store: &S,
    name: &str,
    class: u32,
) -> Result<Option<Change>, AllocError>
    ensures { IfOk result (λ o. IfSome o (OldPartsAgree (S.held store.now).layout (S.held store.now).state)) }
{
    match created(alloc, store, name, class)? {
        None => Ok(None),
        Some(change) => Ok(Some(apart(store, change))),
    }
}

/// An equal value, where it is null.
fn known(value: &Value) -> Option<Value>
    ensures { IfSome result (λ v. (v ≡ value.now) × IsWellMade v) }
{
    match value {
        Value::Null => Some(Value::Null),
        _ => None,
    }
}

/// The value that an attribute of an object has, where it is null, and null where there is no such object.
fn had<S: StateReader>(store: &S, object: u32, attr: u32) -> Option<Value>
    ensures { IfSome result (λ old. OldPartsAgree (S.held store.now).layout (S.held store.now).state (SetSlot object attr old Null)) }
{
    match store.object(object) {
        None => Some(Value::Null),
        Some(live) => match store.layout().slot(live, attr) {
            None => None,
            Some(old) => known(old),
        },
    }
}

/// The first setting of an attribute.
fn set<S: StateReader>(store: &S, object: u32, attr: u32, new: Value) -> Option<Change>
    requires { IsWellMade new }
    ensures { IfSome result (OldPartsAgree (S.held store.now).layout (S.held store.now).state) }
{
    let old = had(store, object, attr)?;
    Some(Change::SetSlot {
        object,
        attr,
        old,
        new,
    })
}

fn linked<S: StateReader>(store: &S, assoc: u32, first: u32, second: u32) -> Option<Change>
    ensures { IfSome result (OldPartsAgree (S.held store.now).layout (S.held store.now).state) }
{
    if assoc as usize >= store.layout().assocs.len() {
        return None;
    }
    linking(store, assoc, first, second)
}

/// The change that a step makes of a state.
fn proposed<S: StateReader>(
    alloc: Global,
    store: &S,
    asked: Move,
) -> Result<Option<Change>, AllocError>
    ensures { IfOk result (λ o. IfSome o (OldPartsAgree (S.held store.now).layout (S.held store.now).state)) }
{
    match asked {
        Move::Create(name, class) => created(alloc, store, name, class),
        Move::CreateApart(name, class) => created_apart(alloc, store, name, class),
        Move::Set(object, attr, stored) => {
            let new = value_of(alloc, stored)?;
            Ok(set(store, object, attr, new))
        }
        Move::Link(assoc, first, second) => Ok(linked(store, assoc, first, second)),
    }
}

/// Carries a change out where it fits.
fn carry_out_plain(store: &mut PlainStore, change: Change) -> Result<(), AllocError>
    requires { OldPartsAgree store.old.layout store.old.state change }
{
    match store.fits(&change) {
        Err(_) => Ok(()),
        Ok(()) => {
            store.apply(change)?;
            Ok(())
        }
    }
}

/// Carries a change out where it fits.
fn carry_out_indexed(store: &mut Store, change: Change) -> Result<(), AllocError>
    requires { OldPartsAgree store.old.layout store.old.state change }
{
    match store.fits(&change) {
        Err(_) => Ok(()),
        Ok(()) => {
            store.apply(change)?;
            Ok(())
        }
    }
}

fn step_plain(alloc: Global, store: &mut PlainStore, asked: Move) -> Result<(), AllocError> {
    match proposed(alloc, store, asked)? {
        None => Ok(()),
        Some(change) => carry_out_plain(store, change),
    }
}

fn step_indexed(alloc: Global, store: &mut Store, asked: Move) -> Result<(), AllocError> {
    match proposed(alloc, store, asked)? {
        None => Ok(()),
        Some(change) => carry_out_indexed(store, change),
    }
}

/// The state of a model after some steps, in a store of each kind.
fn after(alloc: Global, model: &ClassModel, moves: &[Move]) -> Result<Both, AllocError> {
    let mut plain = PlainStore::new(alloc, Layout::of(alloc, model)?);
    let mut indexed = Store::new(alloc, Layout::of(alloc, model)?);
    'moves: for asked in moves {
        step_plain(alloc, &mut plain, *asked)?;
        step_indexed(alloc, &mut indexed, *asked)?;
    }
    Ok(Both { plain, indexed })
}

/// The state at the entry of an operation.
pub fn at_entry(alloc: Global, model: &ClassModel) -> Result<Both, AllocError> {
    after(alloc, model, MOVES_TO_ENTRY)
}

/// The present state.
pub fn now(alloc: Global, model: &ClassModel) -> Result<Both, AllocError> {
    after(alloc, model, MOVES_TO_NOW)
}
