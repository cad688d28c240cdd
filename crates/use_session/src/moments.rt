ghost use Rattle.std.specs.Prelude.{◌≡◌, ◌<◌, ◌^◌, IfOk, OnOk, length};
ghost use Rattle.object_state.specs.Changes.{apply, inverse};
ghost use Rattle.object_state.specs.Faults.{Fits};
ghost use Rattle.entry_states.specs.Leading.{CanBeCarriedOut, CanBeTakenBack, led_on, taken_back};
ghost use Rattle.entry_states.specs.Noting.{AreNoted};

use entry_states::Frames;
use object_referrers::ReferrerStore;
use object_state::Change;
use std::alloc::{AllocError, Global};
use use_lists::Items;

/// Takes a change back, and gives it again. What takes it back is noted, as any change.
fn take_one_back(
    alloc: Global,
    store: &mut ReferrerStore,
    frames: &mut Frames,
    change: Change,
) -> Result<Change, AllocError>
    requires few { length store.old.layout.assocs < 2 ^ 32 }
    requires fits { Fits store.old.layout store.old.state (inverse change) }
    ensures state { OnOk result (store.new ≡ record store.old { state = apply store.old.layout store.old.state (inverse change) }) }
    ensures same { IfOk result (λ again. again ≡ change) }
    ensures noted { OnOk result (AreNoted store.old.layout store.old.state (apply store.old.layout store.old.state (inverse change)) frames.old frames.new) }
{
    let back = change.inverse();
    frames.note(alloc, store, &back)?;
    store.apply(back)
}

/// Carries a change out again, and gives it again.
fn carry_one_out_again(
    alloc: Global,
    store: &mut ReferrerStore,
    frames: &mut Frames,
    change: Change,
) -> Result<Change, AllocError>
    requires few { length store.old.layout.assocs < 2 ^ 32 }
    requires fits { Fits store.old.layout store.old.state change }
    ensures state { OnOk result (store.new ≡ record store.old { state = apply store.old.layout store.old.state change }) }
    ensures same { IfOk result (λ again. again ≡ change) }
    ensures noted { OnOk result (AreNoted store.old.layout store.old.state (apply store.old.layout store.old.state change) frames.old frames.new) }
{
    frames.note(alloc, store, &change)?;
    store.carry_out(&change)?;
    Ok(change)
}

/// Takes changes back, the last first, and gives them again.
pub(crate) fn take_back(
    alloc: Global,
    store: &mut ReferrerStore,
    frames: &mut Frames,
    changes: Items<Change>,
) -> Result<Items<Change>, AllocError>
    requires few { length store.old.layout.assocs < 2 ^ 32 }
    requires back { CanBeTakenBack store.old.layout changes store.old.state }
    ensures state { OnOk result (store.new ≡ record store.old { state = taken_back store.old.layout changes store.old.state }) }
    ensures same { IfOk result (λ again. again ≡ changes) }
    ensures noted { OnOk result (AreNoted store.old.layout store.old.state (taken_back store.old.layout changes store.old.state) frames.old frames.new) }
{
    let mut left = changes.into_vec();
    let mut again = Vec::with_capacity(alloc, left.len())?;
    'back: while let Some(change) = left.pop() {
        let taken = take_one_back(alloc, store, frames, change)?;
        again.push(taken)?;
    }
    again.reverse();
    Ok(Items::from_vec(again))
}

/// Carries changes out again, and gives them again.
pub(crate) fn carry_out_again(
    alloc: Global,
    store: &mut ReferrerStore,
    frames: &mut Frames,
    changes: Items<Change>,
) -> Result<Items<Change>, AllocError>
    requires few { length store.old.layout.assocs < 2 ^ 32 }
    requires on { CanBeCarriedOut store.old.layout store.old.state changes }
    ensures state { OnOk result (store.new ≡ record store.old { state = led_on store.old.layout store.old.state changes }) }
    ensures same { IfOk result (λ again. again ≡ changes) }
    ensures noted { OnOk result (AreNoted store.old.layout store.old.state (led_on store.old.layout store.old.state changes) frames.old frames.new) }
{
    let mut again = Vec::with_capacity(alloc, changes.len())?;
    'on: for change in changes.into_vec() {
        let carried = carry_one_out_again(alloc, store, frames, change)?;
        again.push(carried)?;
    }
    Ok(Items::from_vec(again))
}
