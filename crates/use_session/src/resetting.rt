ghost use Rattle.std.specs.Prelude.{◌≡◌, ◌++◌, ◌<◌, ◌≤◌, ◌^◌, IfOk, OnOk, length};
ghost use Rattle.object_state.specs.State.{object, stamp_of};
ghost use Rattle.use_session.specs.Resetting.{cleared, removal_if, removals, reset_changes, unbindings, unlinking_if, unlinkings, unlinkings_below, unlinkings_of};

use crate::moments::carry_out_again;
use class_model::AssocNo;
use entry_states::Frames;
use object_referrers::ReferrerStore;
use object_state::{Change, LinkChange, ObjectChange, StateReader};
use ocl_values::{ObjNo, Text};
use std::alloc::{AllocError, Global};
use use_lists::Items;
use use_orders::copied;

/// Adds what takes a link away; the counter stays.
fn add_unlinking(
    store: &ReferrerStore,
    assoc: AssocNo,
    pair: (ObjNo, ObjNo),
    changes: &mut Items<Change>,
) -> Result<(), AllocError>
    ensures { OnOk result (changes.new ≡ changes.old ++ unlinking_if store.now.state assoc pair (stamp_of store.now.state assoc pair.0 pair.1)) }
{
    let counter = store.counters().1;
    match store.stamp(assoc, pair.0, pair.1) {
        None => Ok(()),
        Some(stamp) => changes.push(Change::Unlink(LinkChange {
            assoc,
            first: pair.0,
            second: pair.1,
            stamp,
            before: counter,
            after: counter,
        })),
    }
}

/// Adds what takes the links of an association away, by stamps.
fn add_unlinkings_of(
    alloc: Global,
    store: &ReferrerStore,
    assoc: AssocNo,
    changes: &mut Items<Change>,
) -> Result<(), AllocError>
    ensures { OnOk result (changes.new ≡ changes.old ++ unlinkings_of store.now.state assoc) }
{
    store.state_is_valid();
    let pairs = store.links(alloc, assoc)?;
    'pairs: for pair in pairs.into_vec() {
        add_unlinking(store, assoc, pair, changes)?;
    }
    Ok(())
}

/// Adds what takes the links of the first associations away, by association and stamp.
fn add_unlinkings_below(
    alloc: Global,
    store: &ReferrerStore,
    count: usize,
    changes: &mut Items<Change>,
) -> Result<(), AllocError>
    requires { count ≤ 2 ^ 32 }
    ensures { OnOk result (changes.new ≡ changes.old ++ unlinkings_below store.now.state count) }
{
    store.state_is_valid();
    'assocs: for assoc in 0..count {
        add_unlinkings_of(alloc, store, assoc as AssocNo, changes)?;
    }
    Ok(())
}

/// Adds what takes all links away, by association and stamp.
fn add_unlinkings(
    alloc: Global,
    store: &ReferrerStore,
    changes: &mut Items<Change>,
) -> Result<(), AllocError>
    requires { length store.now.layout.assocs ≤ 2 ^ 32 }
    ensures { OnOk result (changes.new ≡ changes.old ++ unlinkings store.now.state) }
{
    store.state_is_valid();
    let count = store.layout().assocs.len();
    add_unlinkings_below(alloc, store, count, changes)
}

/// Adds what unbinds all variables, by name.
fn add_unbindings(
    alloc: Global,
    store: &ReferrerStore,
    changes: &mut Items<Change>,
) -> Result<(), AllocError>
    ensures { OnOk result (changes.new ≡ changes.old ++ unbindings store.now.state) }
{
    let variables = store.variables(alloc)?;
    'variables: for (name, old) in variables.into_vec() {
        changes.push(Change::Unbind { name, old })?;
    }
    Ok(())
}

/// Adds what takes an object away, where it is live; the counter stays.
fn add_removal(
    alloc: Global,
    store: &ReferrerStore,
    number: ObjNo,
    changes: &mut Items<Change>,
) -> Result<(), AllocError>
    ensures { OnOk result (changes.new ≡ changes.old ++ removal_if store.now.state number (object store.now.state number)) }
{
    let counter = store.counters().0;
    match store.object(number) {
        None => Ok(()),
        Some(live) => changes.push(Change::Remove(ObjectChange {
            object: number,
            name: Text::copy_of(alloc, live.name.as_str())?,
            class: live.class,
            slots: Items::from_vec(copied(alloc, live.slots.as_slice())?),
            before: counter,
            after: counter,
        })),
    }
}

/// Adds what takes all objects away, by number.
fn add_removals(
    alloc: Global,
    store: &ReferrerStore,
    changes: &mut Items<Change>,
) -> Result<(), AllocError>
    ensures { OnOk result (changes.new ≡ changes.old ++ removals store.now.state) }
{
    store.state_is_valid();
    let numbers = store.objects(alloc)?;
    'objects: for number in numbers.into_vec() {
        add_removal(alloc, store, number, changes)?;
    }
    Ok(())
}

/// The changes that take all links, variables and objects away.
fn reset_changes(alloc: Global, store: &ReferrerStore) -> Result<Items<Change>, AllocError>
    requires { length store.now.layout.assocs ≤ 2 ^ 32 }
    ensures { IfOk result (λ changes. changes ≡ reset_changes store.now.state) }
{
    let mut changes = Items::new(alloc);
    add_unlinkings(alloc, store, &mut changes)?;
    add_unbindings(alloc, store, &mut changes)?;
    add_removals(alloc, store, &mut changes)?;
    Ok(changes)
}

/// Takes all links, variables and objects away, and gives the changes. The counters stay.
pub(crate) fn clear(alloc: Global, store: &mut ReferrerStore) -> Result<Items<Change>, AllocError>
    requires { length store.old.layout.assocs < 2 ^ 32 }
    ensures state { OnOk result (store.new ≡ record store.old { state = cleared store.old.state }) }
    ensures changes { IfOk result (λ changes. changes ≡ reset_changes store.old.state) }
{
    store.state_is_valid();
    let changes = reset_changes(alloc, store)?;
    let mut frames = Frames::new(alloc);
    carry_out_again(alloc, store, &mut frames, changes)
}
