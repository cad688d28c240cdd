ghost use Rattle.std.specs.Prelude.{◌≡◌, ◌<◌, ◌^◌, [], All, IfOk, OnOk, length, true};
ghost use Rattle.std.specs.Option.{ForSome, option_copied};
ghost use Rattle.use_orders.specs.Canon.{all_differ};
ghost use Rattle.ocl_values.specs.Shape.{IsWellMade};
ghost use Rattle.ocl_core.specs.Trees.{IsSound};
ghost use Rattle.object_state.specs.Layouts.{layout_of};
ghost use Rattle.object_state.specs.State.{text_cmp};
ghost use Rattle.contract_frames.specs.Entering.{IsCall};
ghost use Rattle.soil_exec.specs.Calls.{entering, giving};
ghost use Rattle.soil_exec.specs.Exec.{Finds};
ghost use Rattle.soil_exec.specs.Kept.{Gives, IsCurrent, IsOfModel, stand};
ghost use Rattle.soil_exec.specs.Machine.{begin};

use crate::evaluators::Counting;
use crate::execution::{begin, beginning, setting_of};
use crate::{Evaluator, ExecFault, Machine, Setting};
use class_model::OpNo;
use entry_states::{Call, Frames};
use object_referrers::ReferrerStore;
use object_state::StateReader;
use ocl_core::Expr;
use ocl_program::Program;
use ocl_values::{Text, Value};
use std::alloc::Global;
use std::sync::ledger::Ledger;
use use_lists::Items;
use use_steps::Steps;
use use_text::Place;

impl Machine {
    fn entering<S, V: Evaluator<S>>(
        &mut self,
        setting: &Setting<'_, V>,
        place: Place,
        receiver: &Expr,
        op: OpNo,
        args: &[Expr],
        steps: &mut S,
    ) -> Result<Call, ExecFault>
        requires op { op < length setting.now.program.now.model.ops }
        requires receiver { IsSound receiver.now }
        requires args { All IsSound args.now }
        requires of_model { IsOfModel setting.now.program.now.model self.old }
        requires current { IsCurrent self.old }
        ensures gives { Gives (entering setting.now.program.now place receiver.now op args.now (stand self.old (V.count steps.old))) result (stand self.new (V.count steps.new)) }
        ensures is_call { IfOk result (IsCall setting.now.program.now) }
    {
        let value = self.value(setting, place, receiver, steps)?;
        let values = self.values(setting, place, args, steps)?;
        self.call_of(setting.program, place, op, &value, values)
    }

    fn giving<S, V: Evaluator<S>>(
        &mut self,
        setting: &Setting<'_, V>,
        place: Place,
        e: Option<&Expr>,
        steps: &mut S,
    ) -> Result<Value, ExecFault>
        requires tree { ForSome (option_copied e) IsSound }
        requires current { IsCurrent self.old }
        ensures gives { Gives (giving setting.now.program.now place (option_copied e.entry) (stand self.old (V.count steps.old))) result (stand self.new (V.count steps.new)) }
        ensures well_made { IfOk result IsWellMade }
    {
        match e {
            None => Ok(Value::Null),
            Some(e) => {
                let value = self.value(setting, place, e, steps)?;
                self.check_stored(place, &value)?;
                Ok(value)
            }
        }
    }
}

/// The call that a command enters: X5 where the receiver is no live object of a class that has the
/// operation, X12 where an argument may not be stored, B1 where a budget is spent, each at a place.
/// `shell` and `bound` are as those of `execute`, and the units are counted likewise. The store stays,
/// but after want of memory it is in no stated condition.
pub fn call_to_enter<L: Ledger>(
    alloc: Global,
    program: &Program,
    place: Place,
    receiver: &Expr,
    op: OpNo,
    args: &[Expr],
    shell: Items<Text>,
    bound: Vec<Value>,
    store: &mut ReferrerStore,
    steps: &mut Steps<L>,
) -> Result<Call, ExecFault>
    requires few { length shell < 2 ^ 32 }
    requires differ { all_differ text_cmp shell ≡ true }
    requires bound { All IsWellMade bound.items }
    requires op { op < length program.now.model.ops }
    requires receiver { IsSound receiver.now }
    requires args { All IsSound args.now }
    requires of_model { store.old.layout ≡ layout_of program.now.model }
    ensures finds { Finds store.old (entering program.now place receiver.now op args.now (begin store.old [] shell bound.items 0)) steps.old result store.new steps.new }
    ensures is_call { IfOk result (IsCall program.now) }
{
    store.state_is_valid();
    let mut frames = Frames::new(alloc);
    let (shell, env) = beginning(alloc, shell, bound, store)?;
    let mut machine = begin(alloc, program, shell, env, store, &mut frames);
    let setting = setting_of(program, &Counting);
    let found = machine.entering(&setting, place, receiver, op, args, steps);
    machine.into_transaction().end(store, &mut frames);
    found
}

/// The value that a command gives as the result of the call that it leaves, null where it names none:
/// X12 where it may not be stored, B1 where the budget is spent, each at a place.
pub fn value_to_give<L: Ledger>(
    alloc: Global,
    program: &Program,
    place: Place,
    e: Option<&Expr>,
    shell: Items<Text>,
    bound: Vec<Value>,
    store: &mut ReferrerStore,
    steps: &mut Steps<L>,
) -> Result<Value, ExecFault>
    requires few { length shell < 2 ^ 32 }
    requires differ { all_differ text_cmp shell ≡ true }
    requires bound { All IsWellMade bound.items }
    requires tree { ForSome (option_copied e) IsSound }
    requires of_model { store.old.layout ≡ layout_of program.now.model }
    ensures finds { Finds store.old (giving program.now place (option_copied e.entry) (begin store.old [] shell bound.items 0)) steps.old result store.new steps.new }
    ensures well_made { IfOk result IsWellMade }
{
    store.state_is_valid();
    let mut frames = Frames::new(alloc);
    let (shell, env) = beginning(alloc, shell, bound, store)?;
    let mut machine = begin(alloc, program, shell, env, store, &mut frames);
    let setting = setting_of(program, &Counting);
    let given = machine.giving(&setting, place, e, steps);
    machine.into_transaction().end(store, &mut frames);
    given
}
