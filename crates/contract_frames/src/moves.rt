ghost use Rattle.std.specs.Prelude.{◌≡◌, ◌∷◌, ◌+◌, ◌≤◌, OnErr, OnOk, drop, length};
ghost use Rattle.ocl_values.specs.Shape.{IsWellMade};
ghost use Rattle.entry_states.specs.Frames.{Grown, entered, left, opened};
ghost use Rattle.entry_states.specs.Overlays.{Picture};
ghost use Rattle.contract_frames.specs.Judging.{picture};
ghost use Rattle.contract_frames.specs.Entering.{IsCall, TopIsCall, entering, entering_units, leaving, top_post_units};
ghost use Rattle.contract_frames.specs.Holding.{Answers, NotMemory};

use crate::{FrameFault, all_true, check_post, check_pre};
use entry_states::{Call, Frame, Frames, Overlay};
use object_referrers::ReferrerStore;
use ocl_core::ContractNo;
use ocl_eval::Outcome;
use ocl_program::Program;
use ocl_values::Value;
use std::alloc::Global;
use std::sync::ledger::Ledger;
use use_lists::Items;
use use_steps::Steps;

/// Enters a call, where fewer calls are open than may be and all its preconditions are true, and gives
/// their numbers. It is refused with the first that is not. Each unit that is spent is counted.
pub fn enter<L: Ledger>(
    alloc: Global,
    program: &Program,
    store: &ReferrerStore,
    frames: &mut Frames,
    call: Call,
    limit: u32,
    steps: &mut Steps<L>,
) -> Result<Items<ContractNo>, FrameFault>
    requires call { IsCall program.now call }
    requires within { length frames.old ≤ limit }
    ensures told { Answers (entering program.now store.now call (length frames.old) limit) result }
    ensures pushed { OnOk result (frames.new ≡ opened call ∷ frames.old) }
    ensures keeps { OnOk result (entered frames.new (picture store.now) ≡ (call, picture store.now) ∷ entered frames.old (picture store.now)) }
    ensures stay { OnErr result (frames.new ≡ frames.old) }
    ensures units { NotMemory result (steps.new ≡ steps.old + entering_units program.now store.now call (length frames.old) limit) }
{
    if frames.depth() == limit {
        return Err(FrameFault::TooMany);
    }
    let outcomes = check_pre(alloc, program, store, &call, steps)?;
    let numbers = all_true(alloc, outcomes.as_slice())?;
    let overlay = Overlay::new(alloc);
    frames.push(Frame { call, overlay })?;
    Ok(numbers)
}

/// Leaves the top call, whatever its postconditions come to, and gives its frame with that. Each unit
/// that is spent is counted.
pub fn leave<L: Ledger>(
    alloc: Global,
    program: &Program,
    store: &ReferrerStore,
    frames: &mut Frames,
    given: &Value,
    steps: &mut Steps<L>,
) -> Result<(Frame, Items<(ContractNo, Outcome)>), FrameFault>
    requires given { IsWellMade given.now }
    requires call { TopIsCall program.now frames.old }
    ensures told { Answers (leaving program.now store.now frames.old given.now) result }
    ensures stay { OnOk result (frames.new ≡ left frames.old) }
    ensures keeps { OnOk result ((q : Picture) → entered frames.new q ≡ drop 1 (entered frames.old q)) }
    ensures grown { OnOk result (Grown (drop 1 frames.old) frames.new) }
    ensures none { NotMemory result (OnErr result (frames.new ≡ frames.old)) }
    ensures units { NotMemory result (steps.new ≡ steps.old + top_post_units program.now store.now frames.old given.now) }
{
    if frames.depth() == 0 {
        return Err(FrameFault::Nothing);
    }
    let outcomes = check_post(alloc, program, store, frames, given, steps)?;
    match frames.leave_top(alloc)? {
        None => Err(FrameFault::Nothing),
        Some(frame) => Ok((frame, outcomes)),
    }
}
