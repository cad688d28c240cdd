ghost use Rattle.std.specs.Prelude.{◌≡◌, ◌≤◌, [], ◌∷◌, ◌||◌, not, nat_eq, nat_le, length, Some, None};
ghost use Rattle.object_state.specs.declared.store_fault.StoreFault.TheVariants.{X1, X2, X3, X4, X5, X6, X7, X8, X15};
ghost use Rattle.std.specs.Option.{is_some};
ghost use Rattle.object_state.specs.Faults.{OldPartsAgree, fault, first_fault, grows_too_large, is_gone, is_linked};
ghost use Rattle.object_state.specs.Layouts.{is_abstract};
ghost use Rattle.object_state.specs.State.{object_named, variable};
ghost use Rattle.object_state.specs.Valid.{IsValid, last_number, max_links, max_objects, max_weight};
ghost use Rattle.object_state.specs.Weights.{lost};

use crate::{Change, LinkChange, ObjectChange, StateReader, StoreFault};
use ocl_values::ObjNo;

/// The most live objects of a state.
const MAX_OBJECTS: usize = 10_000;

/// The most links of a state.
const MAX_LINKS: usize = 50_000;

/// The most that a state may weigh.
const MAX_WEIGHT: u64 = 1_000_000;

fn is_gone<S: StateReader>(store: &S, object: ObjNo) -> bool
    ensures { result ≡ is_gone (S.held store.now).state object }
{
    store.object(object).is_none()
}

fn is_object_name<S: StateReader>(store: &S, name: &str) -> bool
    ensures { result ≡ is_some (object_named (S.held store.now).state name.now) }
{
    store.object_named(name).is_some()
}

fn is_variable_name<S: StateReader>(store: &S, name: &str) -> bool
    ensures { result ≡ is_some (variable (S.held store.now).state name.now) }
{
    store.variable(name).is_some()
}

fn is_linked<S: StateReader>(store: &S, link: &LinkChange) -> bool
    ensures { result ≡ is_linked (S.held store.now).state link.now }
{
    store.stamp(link.assoc, link.first, link.second).is_some()
}

/// Whether the state would grow past what it may weigh.
fn grows_too_large<S: StateReader>(store: &S, change: &Change) -> bool
    requires { lost change.now ≤ max_weight }
    ensures { result ≡ grows_too_large (S.held store.now).state change.now }
{
    let gained = change.gained();
    let lost = change.lost();
    lost < gained && MAX_WEIGHT + lost < store.weight().saturating_add(gained)
}

fn creation_fault<S: StateReader>(
    store: &S,
    new: &ObjectChange,
    is_large: bool,
) -> Option<StoreFault>
    ensures { result ≡ first_fault ((
      is_some (object_named (S.held store.now).state new.now.name)
          || is_some (variable (S.held store.now).state new.now.name),
      X1,
    )
        ∷ (is_abstract (S.held store.now).layout new.now.class, X2) ∷ (nat_le max_objects (length (S.held store.now).state.objects), X6)
        ∷ (nat_eq new.now.object last_number, X15) ∷ (is_large, X8) ∷ []) }
{
    if is_object_name(store, new.name.as_str()) || is_variable_name(store, new.name.as_str()) {
        Some(StoreFault::X1)
    } else if store.layout().is_abstract(new.class) {
        Some(StoreFault::X2)
    } else if store.object_count() >= MAX_OBJECTS {
        Some(StoreFault::X6)
    } else if new.object == u32::MAX {
        Some(StoreFault::X15)
    } else if is_large {
        Some(StoreFault::X8)
    } else {
        None
    }
}

fn linking_fault<S: StateReader>(store: &S, new: &LinkChange, is_large: bool) -> Option<StoreFault>
    ensures { result ≡ first_fault ((is_linked (S.held store.now).state new.now, X3)
        ∷ (is_gone (S.held store.now).state new.now.first || is_gone (S.held store.now).state new.now.second, X5)
        ∷ (nat_le max_links (length (S.held store.now).state.links), X7) ∷ (nat_eq new.now.stamp last_number, X15) ∷ (is_large, X8) ∷ []) }
{
    if is_linked(store, new) {
        Some(StoreFault::X3)
    } else if is_gone(store, new.first) || is_gone(store, new.second) {
        Some(StoreFault::X5)
    } else if store.link_count() >= MAX_LINKS {
        Some(StoreFault::X7)
    } else if new.stamp == u32::MAX {
        Some(StoreFault::X15)
    } else if is_large {
        Some(StoreFault::X8)
    } else {
        None
    }
}

fn unlinking_fault<S: StateReader>(store: &S, old: &LinkChange) -> Option<StoreFault>
    ensures { result ≡ first_fault ((not (is_linked (S.held store.now).state old.now), X4)
        ∷ (is_gone (S.held store.now).state old.now.first || is_gone (S.held store.now).state old.now.second, X5) ∷ []) }
{
    if !is_linked(store, old) {
        Some(StoreFault::X4)
    } else if is_gone(store, old.first) || is_gone(store, old.second) {
        Some(StoreFault::X5)
    } else {
        None
    }
}

fn removal_fault<S: StateReader>(store: &S, object: ObjNo) -> Option<StoreFault>
    ensures { result ≡ first_fault ((is_gone (S.held store.now).state object, X5) ∷ []) }
{
    if is_gone(store, object) {
        Some(StoreFault::X5)
    } else {
        None
    }
}

fn size_fault<S: StateReader>(store: &S, change: &Change) -> Option<StoreFault>
    requires { lost change.now ≤ max_weight }
    ensures { result ≡ first_fault ((grows_too_large (S.held store.now).state change.now, X8) ∷ []) }
{
    if grows_too_large(store, change) {
        Some(StoreFault::X8)
    } else {
        None
    }
}

/// The first fault that a change has in a store's state, whose old parts agree with that state.
pub(crate) fn fault<S: StateReader>(store: &S, change: &Change) -> Option<StoreFault>
    requires valid { IsValid (S.held store.now).layout (S.held store.now).state }
    requires agrees { OldPartsAgree (S.held store.now).layout (S.held store.now).state change.now }
    ensures { result ≡ fault (S.held store.now).layout (S.held store.now).state change.now }
{
    match change {
        Change::Create(new) => creation_fault(store, new, grows_too_large(store, change)),
        Change::Remove(old) => removal_fault(store, old.object),
        Change::SetSlot { object, .. } => {
            if is_gone(store, *object) {
                Some(StoreFault::X5)
            } else {
                size_fault(store, change)
            }
        }
        Change::Link(new) => linking_fault(store, new, grows_too_large(store, change)),
        Change::Unlink(old) => unlinking_fault(store, old),
        Change::Bind { name, .. } => {
            if is_object_name(store, name.as_str()) {
                Some(StoreFault::X1)
            } else {
                size_fault(store, change)
            }
        }
        Change::Unbind { .. } => None,
    }
}
