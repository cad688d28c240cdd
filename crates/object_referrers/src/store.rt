ghost use Rattle.std.specs.Prelude.{◌≡◌, OnOk, OnErr, IfOk};
ghost use Rattle.object_state.specs.Changes.{apply, inverse};
ghost use Rattle.object_state.specs.Faults.{Fits};
ghost use Rattle.object_state.specs.State.{empty};

use crate::referrers::Referrers;
use object_state::{Change, Layout, StateReader};
use object_store::Store;
use std::alloc::{AllocError, Global};
use std::marker::Model;

/// A store that also keeps where its values refer to objects. A change costs the logarithm of what
/// there is, and its own values.
#[derive(Drop)]
pub struct ReferrerStore {
    pub(crate) alloc: Global,
    pub(crate) store: Store,
    pub(crate) referrers: Referrers,
}

impl Model for ReferrerStore {
    ghost use Rattle.std.specs.Coded.{codes};
    ghost use Rattle.class_model.specs.contracts.types.OclType as types;
    ghost use Rattle.ocl_values.specs.contracts.value.Value as values;
    ghost use Rattle.object_state.specs.State.{Diagram};
    ghost use Rattle.object_referrers.specs.Kept.{AreKept};

    ghost Value = { Diagram };

    ghost coded = { Prim.hlevel (codes, types.the_row.coded, values.the_row.coded) };

    ghost view = { λ s. s.store };

    ghost invariant = { AreKept };
}

impl ReferrerStore {
    /// A store without objects, links and variables.
    pub fn new(alloc: Global, layout: Layout) -> ReferrerStore
        ensures layout { result.layout ≡ layout }
        ensures state { result.state ≡ empty }
    {
        ReferrerStore {
            alloc,
            store: Store::new(alloc, layout),
            referrers: Referrers::new(alloc),
        }
    }

    /// Carries a change out that fits. After `AllocError` the state is as it was.
    pub fn carry_out(&mut self, change: &Change) -> Result<(), AllocError>
        requires { Fits self.old.layout self.old.state change.now }
        ensures ok { OnOk result (self.new ≡ record self.old { state = apply self.old.layout self.old.state change.now }) }
        ensures err { OnErr result (self.new ≡ self.old) }
    {
        self.store.state_is_valid();
        let leaving = self
            .referrers
            .prepare(self.alloc, self.store.layout(), change)?;
        self.store.carry_out(change)?;
        self.referrers.forget(leaving);
        Ok(())
    }

    /// The same, and gives the change that takes it back.
    pub fn apply(&mut self, change: Change) -> Result<Change, AllocError>
        requires { Fits self.old.layout self.old.state change }
        ensures back { IfOk result (λ back. back ≡ inverse change) }
        ensures applied { OnOk result (self.new ≡ record self.old { state = apply self.old.layout self.old.state change }) }
        ensures refused { OnErr result (self.new ≡ self.old) }
    {
        self.carry_out(&change)?;
        Ok(change.inverse())
    }
}
