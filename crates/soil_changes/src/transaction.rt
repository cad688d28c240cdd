ghost use Rattle.std.specs.Prelude.{◌≡◌, ◌∷◌, ◌<◌, ◌-◌, ◌≤◌, ◌^◌, OnOk, [], length};
ghost use Rattle.object_state.specs.Changes.{apply, inverse};
ghost use Rattle.object_state.specs.Faults.{Fits, OldPartsAgree};
ghost use Rattle.object_state.specs.Weights.{change_weight};
ghost use Rattle.entry_states.specs.Frames.{left, opened};
ghost use Rattle.entry_states.specs.Leading.{CanBeTakenBack, taken_back};
ghost use Rattle.entry_states.specs.Noting.{AreNoted};
ghost use Rattle.soil_changes.specs.Progress.{Gives, Lead, begun, diagram_of, make, make_fit, with_change};

use crate::ChangeFault;
use crate::fault::{breaks, breaks_x};
use entry_states::{Call, Frame, Frames, Overlay};
use object_referrers::ReferrerStore;
use object_state::{Change, StateReader};
use std::alloc::{AllocError, Global};
use std::marker::Model;
use std::mem;
use use_lists::Items;

/// What the changes of a transaction may weigh.
const MAX_CHANGE_WEIGHT: u32 = 50_000;

/// A store with the frames of the calls that are open, and the changes that were made of it since a
/// transaction began, so that they can be taken back.
#[derive(Drop)]
pub struct Transaction {
    pub(crate) alloc: Global,
    pub(crate) store: ReferrerStore,
    pub(crate) frames: Frames,
    pub(crate) changes: Vec<Change>,
    /// What further changes may weigh.
    pub(crate) left: u32,
}

impl Model for Transaction {
    ghost use Rattle.std.specs.Coded.{codes};
    ghost use Rattle.class_model.specs.contracts.types.OclType as types;
    ghost use Rattle.ocl_values.specs.contracts.value.Value as values;
    ghost use Rattle.soil_changes.specs.Progress.{Progress};
    ghost use Rattle.soil_changes.specs.Kept.{IsKept, progress};

    ghost Value = { Progress };

    ghost coded = { Prim.hlevel (codes, types.the_row.coded, values.the_row.coded) };

    ghost view = { progress };

    ghost invariant = { IsKept };
}

/// Takes a change back. What takes it back is noted, as any change.
fn take_one_back(
    alloc: Global,
    store: &mut ReferrerStore,
    frames: &mut Frames,
    change: Change,
) -> Result<(), AllocError>
    requires few { length store.old.layout.assocs < 2 ^ 32 }
    requires fits { Fits store.old.layout store.old.state (inverse change) }
    ensures layout { store.new.layout ≡ store.old.layout }
    ensures back { OnOk result (store.new ≡ record store.old { state = apply store.old.layout store.old.state (inverse change) }) }
    ensures noted { OnOk result (AreNoted store.old.layout store.old.state (apply store.old.layout store.old.state (inverse change)) frames.old frames.new) }
{
    let back = change.inverse();
    frames.note(alloc, store, &back)?;
    store.carry_out(&back)?;
    Ok(())
}

/// Takes changes back, the last first.
fn take_back(
    alloc: Global,
    store: &mut ReferrerStore,
    frames: &mut Frames,
    changes: Vec<Change>,
) -> Result<(), AllocError>
    requires few { length store.old.layout.assocs < 2 ^ 32 }
    requires back { CanBeTakenBack store.old.layout changes.items store.old.state }
    ensures layout { store.new.layout ≡ store.old.layout }
    ensures back { OnOk result (store.new ≡ record store.old { state = taken_back store.old.layout changes.items store.old.state }) }
    ensures noted { OnOk result (AreNoted store.old.layout store.old.state (taken_back store.old.layout changes.items store.old.state) frames.old frames.new) }
{
    let mut changes = changes;
    'back: while let Some(change) = changes.pop() {
        take_one_back(alloc, store, frames, change)?;
    }
    Ok(())
}

impl Transaction {
    /// A transaction that begins.
    pub fn begin(alloc: Global, store: ReferrerStore, frames: Frames) -> Transaction
        requires { length store.layout.assocs < 2 ^ 32 }
        ensures { result ≡ begun store frames }
    {
        Transaction {
            alloc,
            store,
            frames,
            changes: Vec::new(alloc),
            left: MAX_CHANGE_WEIGHT,
        }
    }

    /// The store as it stands now.
    pub fn store(&self) -> &ReferrerStore
        ensures { result.now ≡ diagram_of self.now }
    {
        &self.store
    }

    /// The frames of the calls that are open.
    pub fn frames(&self) -> &Frames
        ensures { result.now ≡ self.now.frames }
    {
        &self.frames
    }

    /// Enters a call.
    pub fn enter(&mut self, call: Call) -> Result<(), AllocError>
        requires { length self.old.frames < 2 ^ 32 - 1 }
        ensures { OnOk result (self.new ≡ record self.old { frames = opened call ∷ self.old.frames }) }
    {
        let overlay = Overlay::new(self.alloc);
        self.frames.push(Frame { call, overlay })
    }

    /// Leaves the top call.
    pub fn leave(&mut self) -> Result<(), AllocError>
        ensures { OnOk result (self.new ≡ record self.old { frames = left self.old.frames }) }
    {
        self.frames.leave_top(self.alloc)?;
        Ok(())
    }

    /// The changes that were made, in their order.
    pub fn changes(&self) -> &[Change]
        ensures { result.now ≡ self.now.changes }
    {
        self.changes.as_slice()
    }

    /// A law: the changes lead from the state in which it began to the one now, and each fits.
    pub fn changes_lead(&self)
        ensures { Lead self.now.layout self.now.start self.now.changes self.now.state }
    {
        self.store.state_is_valid();
    }

    /// Carries a change out that fits and weighs no more than is left.
    fn carry_out(&mut self, change: Change, weight: u32) -> Result<(), AllocError>
        requires fits { Fits self.old.layout self.old.state change }
        requires weight { weight ≡ change_weight change }
        requires light { weight ≤ self.old.left }
        ensures { OnOk result (self.new ≡ with_change change self.old) }
    {
        self.store.state_is_valid();
        self.changes.reserve(1)?;
        self.frames.note(self.alloc, &self.store, &change)?;
        self.store.carry_out(&change)?;
        self.left -= weight;
        self.changes.push(change)?;
        Ok(())
    }

    /// Carries a change out that fits, unless it weighs more than is left (X13).
    fn make_fit(&mut self, change: Change) -> Result<(), ChangeFault>
        requires { Fits self.old.layout self.old.state change }
        ensures gives { Gives (make_fit change self.old) result self.new }
        ensures made { OnOk result (self.new ≡ with_change change self.old) }
    {
        let weight = change.weight();
        if weight > self.left as u64 {
            return Err(breaks_x(13));
        }
        self.carry_out(change, weight as u32)?;
        Ok(())
    }

    /// Makes a change whose old parts agree with the state, unless it has a fault or weighs too much.
    pub(crate) fn make(&mut self, change: Change) -> Result<(), ChangeFault>
        requires { OldPartsAgree self.old.layout self.old.state change }
        ensures gives { Gives (make change self.old) result self.new }
        ensures made { OnOk result (self.new ≡ with_change change self.old) }
    {
        match self.store.fits(&change) {
            Err(fault) => Err(breaks(fault)),
            Ok(()) => self.make_fit(change),
        }
    }

    /// Takes all changes back, the last first. What they weighed stays spent.
    pub fn roll_back(&mut self) -> Result<(), AllocError>
        ensures start { OnOk result (diagram_of self.new ≡ record { layout = self.old.layout; state = self.old.start }) }
        ensures noted { OnOk result (AreNoted self.old.layout self.old.state self.old.start self.old.frames self.new.frames) }
        ensures none { OnOk result (self.new.changes ≡ []) }
        ensures spent { OnOk result (self.new.left ≡ self.old.left) }
    {
        let changes = mem::replace(&mut self.changes, Vec::new(self.alloc));
        take_back(self.alloc, &mut self.store, &mut self.frames, changes)
    }

    /// Ends it: gives the store back as it stands now, with the frames of the calls that are open. The
    /// changes that led there are told.
    pub fn end(self, store: &mut ReferrerStore, frames: &mut Frames) -> Items<Change>
        ensures store { store.new ≡ diagram_of self }
        ensures frames { frames.new ≡ self.frames }
        ensures changes { result ≡ self.changes }
        ensures lead { Lead self.layout self.start self.changes self.state }
    {
        self.store.state_is_valid();
        let Transaction {
            store: left,
            frames: open,
            changes,
            ..
        } = self;
        *store = left;
        *frames = open;
        Items::from_vec(changes)
    }
}
