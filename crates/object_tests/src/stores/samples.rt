ghost use Rattle.std.specs.Prelude.{◌≡◌, [], ◌∷◌, length, true, false, IfOk, IfSome, OnOk, MatchOption};
ghost use Rattle.ocl_values.specs.Shape.{IsWellMade};
ghost use Rattle.ocl_values.specs.declared.value.Value.TheVariants.{Null};
ghost use Rattle.class_model.specs.declared.types.OclType.TheVariants as types;
ghost use Rattle.object_state.specs.declared.change.Change.TheVariants.{Bind, Create, Link, SetSlot};
ghost use Rattle.object_state.specs.Changes.{apply, inverse};
ghost use Rattle.object_state.specs.Faults.{CreationAgrees, Fits, LinkingAgrees, OldPartsAgree};
ghost use Rattle.object_state.specs.State.{empty, variable};
ghost use Rattle.std.specs.Option.{option_copied};

use class_model::OclType;
use object_state::{
    AssocLayout, Change, ClassLayout, Layout, LinkChange, ObjectChange, PlainStore, StateReader,
    Variable, changes_are_taken_back, creation, linking,
};
use object_store::Store;
use ocl_values::{Text, Value};
use std::alloc::{AllocError, Global};
use use_lists::Items;

fn class(
    alloc: Global,
    is_abstract: bool,
    attrs: &[u32],
    ancestors: &[u32],
) -> Result<ClassLayout, AllocError>
    ensures { IfOk result (λ c. c ≡ record { is_abstract = is_abstract; attrs = attrs.now; ancestors = ancestors.now }) }
{
    Ok(ClassLayout {
        is_abstract,
        attrs: Items::from_slice(alloc, attrs)?,
        ancestors: Items::from_slice(alloc, ancestors)?,
    })
}

/// Classes A with two attributes, B and C below A, D below B and C with one attribute more, and an
/// abstract E.
fn classes(alloc: Global) -> Result<Items<ClassLayout>, AllocError>
    ensures { IfOk result (λ classes. classes ≡ (
        record { is_abstract = false; attrs = 0 ∷ 1 ∷ []; ancestors = 0 ∷ [] }
        ∷ record { is_abstract = false; attrs = 0 ∷ 1 ∷ []; ancestors = 0 ∷ 1 ∷ [] }
        ∷ record { is_abstract = false; attrs = 0 ∷ 1 ∷ []; ancestors = 0 ∷ 2 ∷ [] }
        ∷ record { is_abstract = false; attrs = 0 ∷ 1 ∷ 2 ∷ []; ancestors = 0 ∷ 1 ∷ 2 ∷ 3 ∷ [] }
        ∷ record { is_abstract = true; attrs = []; ancestors = 4 ∷ [] } ∷ [])) }
{
    let mut classes = Items::new(alloc);
    classes.push(class(alloc, false, &[0, 1], &[0])?)?;
    classes.push(class(alloc, false, &[0, 1], &[0, 1])?)?;
    classes.push(class(alloc, false, &[0, 1], &[0, 2])?)?;
    classes.push(class(alloc, false, &[0, 1, 2], &[0, 1, 2, 3])?)?;
    classes.push(class(alloc, true, &[], &[4])?)?;
    Ok(classes)
}

/// Associations from A to B and from A to A.
fn assocs(alloc: Global) -> Result<Items<AssocLayout>, AllocError>
    ensures { IfOk result (λ assocs. assocs ≡ (record { first = 0; second = 1 } ∷ record { first = 0; second = 0 } ∷ [])) }
{
    let mut assocs = Items::new(alloc);
    assocs.push(AssocLayout {
        first: 0,
        second: 1,
    })?;
    assocs.push(AssocLayout {
        first: 0,
        second: 0,
    })?;
    Ok(assocs)
}

/// A store of each kind, without objects.
pub fn stores(alloc: Global) -> Result<(PlainStore, Store), AllocError>
    ensures same { IfOk result (λ both. both.0 ≡ both.1) }
    ensures state { IfOk result (λ both. both.0.state ≡ empty) }
    ensures assocs { IfOk result (λ both. length both.0.layout.assocs ≡ 2) }
{
    let plain = Layout {
        classes: classes(alloc)?,
        assocs: assocs(alloc)?,
    };
    let indexed = Layout {
        classes: classes(alloc)?,
        assocs: assocs(alloc)?,
    };
    Ok((PlainStore::new(alloc, plain), Store::new(alloc, indexed)))
}

/// What a test asks of a state.
#[derive(Clone, Copy)]
pub enum Move {
    /// An object of a name and a class.
    Create(&'static str, u32),
    /// The same, after which no number of an object is left.
    CreateLast(&'static str, u32),
    /// A link of an association between two objects.
    Link(u32, u32, u32),
    /// The same, after which no stamp of a link is left.
    LinkLast(u32, u32, u32),
    /// Another integer as an attribute of an object.
    Set(u32, u32, i128),
    /// A variable with an integer.
    Bind(&'static str, i128),
    /// A variable with a text of so many letters.
    Fill(&'static str, usize),
    Unbind(&'static str),
}

/// The same creation for both stores.
fn created(
    alloc: Global,
    plain: &PlainStore,
    store: &Store,
    name: &str,
    class: u32,
) -> Result<Option<(Change, Change)>, AllocError>
    requires same { plain.now ≡ store.now }
    ensures equal { IfOk result (λ o. MatchOption o (Unit {0}) (λ both. both.1 ≡ both.0)) }
    ensures agrees { IfOk result (λ o. MatchOption o (Unit {0}) (λ both. OldPartsAgree plain.now.layout plain.now.state both.0)) }
{
    if class as usize >= plain.layout().classes.len() {
        return Ok(None);
    }
    let first = creation(alloc, plain, Text::copy_of(alloc, name)?, class)?;
    let second = creation(alloc, store, Text::copy_of(alloc, name)?, class)?;
    Ok(Some((first, second)))
}

/// The same link for both stores.
fn linked(
    plain: &PlainStore,
    store: &Store,
    assoc: u32,
    ends: (u32, u32),
) -> Option<(Change, Change)>
    requires same { plain.now ≡ store.now }
    ensures equal { MatchOption result (Unit {0}) (λ both. both.1 ≡ both.0) }
    ensures agrees { MatchOption result (Unit {0}) (λ both. OldPartsAgree plain.now.layout plain.now.state both.0) }
{
    if assoc as usize >= plain.layout().assocs.len() {
        return None;
    }
    match linking(plain, assoc, ends.0, ends.1) {
        None => None,
        Some(first) => match linking(store, assoc, ends.0, ends.1) {
            None => None,
            Some(second) => Some((first, second)),
        },
    }
}

/// The same creations, after which no number of an object is left.
fn last_creations(plain: &PlainStore, new: ObjectChange, also: ObjectChange) -> (Change, Change)
    requires equal { also ≡ new }
    requires agrees { CreationAgrees plain.now.layout plain.now.state new }
    ensures equal { result.1 ≡ result.0 }
    ensures agrees { OldPartsAgree plain.now.layout plain.now.state result.0 }
{
    let _ = plain;
    (
        Change::Create(ObjectChange {
            after: u32::MAX,
            ..new
        }),
        Change::Create(ObjectChange {
            after: u32::MAX,
            ..also
        }),
    )
}

/// The same links, after which no stamp is left.
fn last_links(plain: &PlainStore, new: LinkChange, also: LinkChange) -> (Change, Change)
    requires equal { also ≡ new }
    requires agrees { LinkingAgrees plain.now.layout plain.now.state new }
    ensures equal { result.1 ≡ result.0 }
    ensures agrees { OldPartsAgree plain.now.layout plain.now.state result.0 }
{
    let _ = plain;
    (
        Change::Link(LinkChange {
            after: u32::MAX,
            ..new
        }),
        Change::Link(LinkChange {
            after: u32::MAX,
            ..also
        }),
    )
}

/// The same changes, where they are links, after which no stamp is left.
fn last_link(plain: &PlainStore, new: LinkChange, second: Change) -> Option<(Change, Change)>
    requires equal { second ≡ Link new }
    requires agrees { LinkingAgrees plain.now.layout plain.now.state new }
    ensures equal { MatchOption result (Unit {0}) (λ both. both.1 ≡ both.0) }
    ensures agrees { MatchOption result (Unit {0}) (λ both. OldPartsAgree plain.now.layout plain.now.state both.0) }
{
    match second {
        Change::Link(also) => Some(last_links(plain, new, also)),
        _ => None,
    }
}

/// The same changes, where they are creations, after which no number of an object is left.
fn last_creation(plain: &PlainStore, new: ObjectChange, second: Change) -> Option<(Change, Change)>
    requires equal { second ≡ Create new }
    requires agrees { CreationAgrees plain.now.layout plain.now.state new }
    ensures equal { MatchOption result (Unit {0}) (λ both. both.1 ≡ both.0) }
    ensures agrees { MatchOption result (Unit {0}) (λ both. OldPartsAgree plain.now.layout plain.now.state both.0) }
{
    match second {
        Change::Create(also) => Some(last_creations(plain, new, also)),
        _ => None,
    }
}

/// The same changes, after which the counter stands at its last value.
fn last_of(plain: &PlainStore, first: Change, second: Change) -> Option<(Change, Change)>
    requires equal { second ≡ first }
    requires agrees { OldPartsAgree plain.now.layout plain.now.state first }
    ensures equal { MatchOption result (Unit {0}) (λ both. both.1 ≡ both.0) }
    ensures agrees { MatchOption result (Unit {0}) (λ both. OldPartsAgree plain.now.layout plain.now.state both.0) }
{
    match first {
        Change::Create(new) => last_creation(plain, new, second),
        Change::Link(new) => last_link(plain, new, second),
        _ => None,
    }
}

/// The same object or link, after which its counter stands at its last value.
fn last(plain: &PlainStore, both: Option<(Change, Change)>) -> Option<(Change, Change)>
    requires equal { MatchOption both (Unit {0}) (λ both. both.1 ≡ both.0) }
    requires agrees { MatchOption both (Unit {0}) (λ both. OldPartsAgree plain.now.layout plain.now.state both.0) }
    ensures equal { MatchOption result (Unit {0}) (λ both. both.1 ≡ both.0) }
    ensures agrees { MatchOption result (Unit {0}) (λ both. OldPartsAgree plain.now.layout plain.now.state both.0) }
{
    match both {
        None => None,
        Some((first, second)) => last_of(plain, first, second),
    }
}

/// An equal value, where it is null or an integer.
fn known(value: &Value) -> Option<Value>
    ensures { IfSome result (λ v. (v ≡ value.now) × IsWellMade v) }
{
    match value {
        Value::Null => Some(Value::Null),
        Value::Int(number) => Some(Value::Int(*number)),
        _ => None,
    }
}

/// The value that an attribute of an object has, and null where there is no such object.
fn had(plain: &PlainStore, object: u32, attr: u32) -> Option<Value>
    ensures { IfSome result (λ old. OldPartsAgree plain.now.layout plain.now.state (SetSlot object attr old Null)) }
{
    match plain.object(object) {
        None => Some(Value::Null),
        Some(live) => match plain.layout().slot(live, attr) {
            None => None,
            Some(old) => known(old),
        },
    }
}

/// The same setting for both stores.
fn set(plain: &PlainStore, object: u32, attr: u32, number: i128) -> Option<(Change, Change)>
    ensures equal { MatchOption result (Unit {0}) (λ both. both.1 ≡ both.0) }
    ensures agrees { MatchOption result (Unit {0}) (λ both. OldPartsAgree plain.now.layout plain.now.state both.0) }
{
    let first = had(plain, object, attr)?;
    let second = known(&first)?;
    Some((
        Change::SetSlot {
            object,
            attr,
            old: first,
            new: Value::Int(number),
        },
        Change::SetSlot {
            object,
            attr,
            old: second,
            new: Value::Int(number),
        },
    ))
}

/// A copy of a variable, where there is one.
fn copy_of(alloc: Global, bound: Option<&Variable>) -> Result<Option<Variable>, AllocError>
    ensures { IfOk result (λ o. o ≡ option_copied bound.entry) }
{
    match bound {
        None => Ok(None),
        Some(there) => Ok(Some(there.try_copy(alloc)?)),
    }
}

/// A binding of a name to a value.
fn binding(
    alloc: Global,
    plain: &PlainStore,
    name: &str,
    value: &Value,
) -> Result<Change, AllocError>
    requires { IsWellMade value.now }
    ensures change { IfOk result (λ c. c ≡ Bind name.now (variable plain.now.state name.now) (record { of_type = types.Any; value = value.now })) }
    ensures agrees { IfOk result (λ c. OldPartsAgree plain.now.layout plain.now.state c) }
{
    Ok(Change::Bind {
        name: Text::copy_of(alloc, name)?,
        old: copy_of(alloc, plain.variable(name))?,
        new: Variable {
            of_type: OclType::Any,
            value: value.try_copy(alloc)?,
        },
    })
}

/// The same binding for both stores.
fn bound(
    alloc: Global,
    plain: &PlainStore,
    name: &str,
    value: &Value,
) -> Result<Option<(Change, Change)>, AllocError>
    requires { IsWellMade value.now }
    ensures equal { IfOk result (λ o. MatchOption o (Unit {0}) (λ both. both.1 ≡ both.0)) }
    ensures agrees { IfOk result (λ o. MatchOption o (Unit {0}) (λ both. OldPartsAgree plain.now.layout plain.now.state both.0)) }
{
    let first = binding(alloc, plain, name, value)?;
    let second = binding(alloc, plain, name, value)?;
    Ok(Some((first, second)))
}

/// The same unbinding for both stores, of a name that is bound.
fn unbound(
    alloc: Global,
    plain: &PlainStore,
    name: &str,
) -> Result<Option<(Change, Change)>, AllocError>
    ensures equal { IfOk result (λ o. MatchOption o (Unit {0}) (λ both. both.1 ≡ both.0)) }
    ensures agrees { IfOk result (λ o. MatchOption o (Unit {0}) (λ both. OldPartsAgree plain.now.layout plain.now.state both.0)) }
{
    match plain.variable(name) {
        None => Ok(None),
        Some(there) => Ok(Some((
            Change::Unbind {
                name: Text::copy_of(alloc, name)?,
                old: there.try_copy(alloc)?,
            },
            Change::Unbind {
                name: Text::copy_of(alloc, name)?,
                old: there.try_copy(alloc)?,
            },
        ))),
    }
}

/// The same change for both stores, as a test asks.
pub fn proposed(
    alloc: Global,
    plain: &PlainStore,
    store: &Store,
    asked: Move,
) -> Result<Option<(Change, Change)>, AllocError>
    requires same { plain.now ≡ store.now }
    ensures equal { IfOk result (λ o. MatchOption o (Unit {0}) (λ both. both.1 ≡ both.0)) }
    ensures agrees { IfOk result (λ o. MatchOption o (Unit {0}) (λ both. OldPartsAgree plain.now.layout plain.now.state both.0)) }
{
    match asked {
        Move::Create(name, class) => created(alloc, plain, store, name, class),
        Move::CreateLast(name, class) => {
            Ok(last(plain, created(alloc, plain, store, name, class)?))
        }
        Move::Link(assoc, first, second) => Ok(linked(plain, store, assoc, (first, second))),
        Move::LinkLast(assoc, first, second) => {
            Ok(last(plain, linked(plain, store, assoc, (first, second))))
        }
        Move::Set(object, attr, number) => Ok(set(plain, object, attr, number)),
        Move::Bind(name, number) => bound(alloc, plain, name, &Value::Int(number)),
        Move::Fill(name, length) => {
            let text = Text::from_string("x".repeat(alloc, length)?);
            bound(alloc, plain, name, &Value::Str(text))
        }
        Move::Unbind(name) => unbound(alloc, plain, name),
    }
}

/// Carries a change out in both stores, and tells how each takes it back.
pub fn carry_out(
    plain: &mut PlainStore,
    store: &mut Store,
    first: Change,
    second: Change,
) -> Result<(Change, Change), AllocError>
    requires same { plain.old ≡ store.old }
    requires equal { second ≡ first }
    requires fits { Fits plain.old.layout plain.old.state first }
    ensures same { OnOk result (plain.new ≡ store.new) }
    ensures equal { IfOk result (λ back. back.1 ≡ back.0) }
    ensures fits { IfOk result (λ back. Fits plain.new.layout plain.new.state back.0) }
{
    plain.state_is_valid();
    changes_are_taken_back();
    let back = plain.apply(first)?;
    let also = store.apply(second)?;
    Ok((back, also))
}
