ghost use Rattle.std.specs.Prelude.{◌≡◌, ◌+◌, IfOk, OnOk};
ghost use Rattle.ocl_values.specs.Shape.{IsWellMade};
ghost use Rattle.contract_frames.specs.Judging.{pre_units, pres};
ghost use Rattle.contract_frames.specs.Entering.{IsCall, IsOpen, TopIsCall, top_post_units, top_posts};

use crate::conditions::{Case, outcomes};
use crate::environments::{bound_after, bound_before};
use entry_states::{Call, Frames, OldWorld};
use object_referrers::ReferrerStore;
use ocl_core::ContractNo;
use ocl_eval::Outcome;
use ocl_program::Program;
use ocl_values::Value;
use std::alloc::{AllocError, Global};
use std::sync::ledger::Ledger;
use use_lists::Items;
use use_steps::Steps;

/// What the preconditions of a call come to in the present state, each with its number, in their
/// order. Each unit that is spent is counted.
pub fn check_pre<L: Ledger>(
    alloc: Global,
    program: &Program,
    store: &ReferrerStore,
    call: &Call,
    steps: &mut Steps<L>,
) -> Result<Items<(ContractNo, Outcome)>, AllocError>
    requires { IsCall program.now call.now }
    ensures value { IfOk result (λ os. os ≡ pres program.now store.now call.now) }
    ensures units { OnOk result (steps.new ≡ steps.old + pre_units program.now store.now call.now) }
{
    let case = Case {
        alloc,
        program,
        store,
        entry: store,
    };
    let mut env = bound_before(alloc, call)?;
    outcomes::<L, ReferrerStore>(&case, false, program.contracts(call.op), &mut env, steps)
}

/// What the postconditions of the call of the top frame come to over the present state and the one at
/// its entry, each with its number, in their order, where the call gave a value. Each unit that is
/// spent is counted.
pub fn check_post<L: Ledger>(
    alloc: Global,
    program: &Program,
    store: &ReferrerStore,
    frames: &Frames,
    given: &Value,
    steps: &mut Steps<L>,
) -> Result<Items<(ContractNo, Outcome)>, AllocError>
    requires given { IsWellMade given.now }
    requires open { IsOpen frames.now }
    requires call { TopIsCall program.now frames.now }
    ensures value { IfOk result (λ os. os ≡ top_posts program.now store.now frames.now given.now) }
    ensures units { OnOk result (steps.new ≡ steps.old + top_post_units program.now store.now frames.now given.now) }
{
    let Some(top) = frames.top() else {
        return Ok(Items::new(alloc));
    };
    let old = OldWorld::new(store, frames, frames.depth() - 1);
    let case = Case {
        alloc,
        program,
        store,
        entry: &old,
    };
    let mut env = bound_after(alloc, program, &top.call, given)?;
    outcomes::<L, OldWorld<'_, ReferrerStore>>(
        &case,
        true,
        program.contracts(top.call.op),
        &mut env,
        steps,
    )
}
