ghost use Rattle.std.specs.Prelude.{◌≡◌, ◌<◌, ◌≤◌, ◌+◌, ◌++◌, ◌∷◌, [], ℕ, All, IfOk, OnOk, Ok, length};
ghost use Rattle.std.specs.Option.{option_copied};
ghost use Rattle.class_model.specs.Parts.{op_result};
ghost use Rattle.ocl_values.specs.declared.value.Value.{Value};
ghost use Rattle.ocl_values.specs.Shape.{IsWellMade};
ghost use Rattle.object_state.specs.Layouts.{layout_of};
ghost use Rattle.contract_frames.specs.Entering.{IsCall};
ghost use Rattle.entry_states.specs.declared.frame.Call.{Call};
ghost use Rattle.entry_states.specs.Frames.{left, opened};
ghost use Rattle.soil_changes.specs.Acts as acts;
ghost use Rattle.soil_changes.specs.Acts.{each};
ghost use Rattle.soil_changes.specs.Adding.{Adds};
ghost use Rattle.soil_exec.specs.declared.fault.ExecFault as fault;
ghost use Rattle.soil_exec.specs.declared.machine.Machine as declared;
ghost use Rattle.soil_exec.specs.Acted.{HasTop, IsBoundIn, IsEntered, Returns};
ghost use Rattle.soil_exec.specs.Calls.{call_of, called_on, check_stored, chosen, chosen_for, holds, local_at, posts_hold, pres_hold, result_start};
ghost use Rattle.soil_exec.specs.Kept.{Gives, HasRoom, IsCurrent, IsOfModel, stand};
ghost use Rattle.soil_exec.specs.Machine as machines;
ghost use Rattle.soil_exec.specs.Machine.{bound_again, frame_left};

use crate::fault::{breaks_b, breaks_c, breaks_x};
use crate::{Evaluator, ExecFault, Machine, Setting, Shell};
use class_model::{ClassModel, OclType, OpNo};
use contract_frames::{is_true, judged};
use entry_states::Call;
use object_referrers::ReferrerStore;
use object_state::{Object, StateReader};
use ocl_core::ContractNo;
use ocl_eval::{Env, Outcome};
use ocl_program::Program;
use ocl_values::{ObjNo, Value};
use std::alloc::AllocError;
use std::mem;
use use_lists::Items;
use use_text::Place;

/// What was bound before something else was.
#[derive(Drop)]
pub(crate) struct Bound {
    pub(crate) shell: Shell,
    pub(crate) env: Env,
    /// How many changes had been made.
    pub(crate) since: usize,
}

/// An object with the operation that is chosen for its class, where that has the operation.
fn chosen_for(model: &ClassModel, op: OpNo, number: ObjNo, live: &Object) -> Option<(ObjNo, OpNo)>
    requires op { op < length model.now.ops }
    requires class { live.now.class < length model.now.classes }
    ensures { result ≡ chosen_for model.now op number live.now }
{
    if model.is_a(live.class, model.op_class(op)) {
        Some((number, model.dispatch(live.class, op)))
    } else {
        None
    }
}

/// The live object that a value is, with the operation that is chosen for its class.
fn chosen(
    model: &ClassModel,
    store: &ReferrerStore,
    op: OpNo,
    value: &Value,
) -> Option<(ObjNo, OpNo)>
    requires op { op < length model.now.ops }
    requires of_model { store.now.layout ≡ layout_of model.now }
    ensures { result ≡ chosen model.now store.now.state op value.now }
{
    store.state_is_valid();
    match value {
        Value::Obj(number) => match store.object(*number) {
            None => None,
            Some(live) => chosen_for(model, op, *number, live),
        },
        _ => None,
    }
}

/// A contract is true, or why not is told: B1, or C and a number.
fn holds(outcome: &(ContractNo, Outcome), number: u8, place: Place) -> Result<(), ExecFault>
    ensures { (m : machines.Machine) → Gives (holds place number outcome.now m) result m }
{
    match &outcome.1 {
        Outcome::Exhausted => Err(breaks_b(1, place)),
        Outcome::Done(value) => {
            if is_true(value) {
                Ok(())
            } else {
                Err(breaks_c(number, place, outcome.0, judged(value)))
            }
        }
    }
}

/// Contracts are all true, or the first that is not is told.
fn hold(outcomes: &[(ContractNo, Outcome)], number: u8, place: Place) -> Result<(), ExecFault>
    ensures { (m : machines.Machine) → Gives (each (holds place number) outcomes.now m) result m }
{
    'contracts: for outcome in outcomes {
        holds(outcome, number, place)?;
    }
    Ok(())
}

/// `result` is bound to null, where an operation has one.
pub(crate) fn bind_result(result_type: Option<&OclType>, env: &mut Env) -> Result<(), AllocError>
    ensures { OnOk result (env.new ≡ env.old ++ result_start (option_copied result_type.entry)) }
{
    match result_type {
        None => Ok(()),
        Some(_) => env.push(Value::Null),
    }
}

impl Machine {
    /// X12 where one of some values may not be stored.
    fn check_all_stored(&self, place: Place, values: &[Value]) -> Result<(), ExecFault>
        ensures { (steps : ℕ) → Gives (each (check_stored place) values.now (stand self.now steps)) result (stand self.now steps) }
    {
        'values: for value in values {
            self.check_stored(place, value)?;
        }
        Ok(())
    }

    /// The object that is called, with the operation that is chosen for its class; X5 where a value is no
    /// live object of a class that has the operation.
    fn called_on(
        &self,
        program: &Program,
        place: Place,
        op: OpNo,
        value: &Value,
    ) -> Result<(ObjNo, OpNo), ExecFault>
        requires op { op < length program.now.model.ops }
        requires of_model { IsOfModel program.now.model self.now }
        ensures { (steps : ℕ) → Gives (called_on program.now place op value.now (stand self.now steps)) result (stand self.now steps) }
    {
        match chosen(program.model(), self.transaction.store(), op, value) {
            None => Err(breaks_x(5, place)),
            Some(found) => Ok(found),
        }
    }

    /// The call of an operation.
    pub(crate) fn call_of(
        &self,
        program: &Program,
        place: Place,
        op: OpNo,
        value: &Value,
        args: Items<Value>,
    ) -> Result<Call, ExecFault>
        requires op { op < length program.now.model.ops }
        requires args { All IsWellMade args }
        requires of_model { IsOfModel program.now.model self.now }
        ensures gives { (steps : ℕ) → Gives (call_of program.now place op value.now args (stand self.now steps)) result (stand self.now steps) }
        ensures is_call { IfOk result (IsCall program.now) }
    {
        let found = self.called_on(program, place, op, value)?;
        self.check_all_stored(place, args.as_slice())?;
        Ok(Call {
            op: found.1,
            receiver: found.0,
            args,
        })
    }

    /// The preconditions of a call are all true in the present state.
    pub(crate) fn pres_hold<S, V: Evaluator<S>>(
        &self,
        setting: &Setting<'_, V>,
        place: Place,
        call: &Call,
        steps: &mut S,
    ) -> Result<(), ExecFault>
        requires { IsCall setting.now.program.now call.now }
        ensures { Gives (pres_hold setting.now.program.now place call.now (stand self.now (V.count steps.old))) result (stand self.now (V.count steps.new)) }
    {
        let store = self.transaction.store();
        let outcomes = setting
            .evaluator
            .check_pre(self.alloc, setting.program, store, call, steps)?;
        hold(outcomes.as_slice(), 1, place)
    }

    /// The postconditions of the top call, which gave a value, are all true over the present state and
    /// the one at its entry.
    pub(crate) fn posts_hold<S, V: Evaluator<S>>(
        &self,
        setting: &Setting<'_, V>,
        place: Place,
        given: &Value,
        steps: &mut S,
    ) -> Result<(), ExecFault>
        requires given { IsWellMade given.now }
        requires top { HasTop setting.now.program.now self.now.transaction.frames }
        ensures { (k : Call) (entry : machines.Machine) → IsEntered k entry.progress self.now.transaction
            → Gives (posts_hold setting.now.program.now place k entry given.now (stand self.now (V.count steps.old))) result (stand self.now (V.count steps.new)) }
    {
        let outcomes = setting.evaluator.check_post(
            self.alloc,
            setting.program,
            self.transaction.store(),
            self.transaction.frames(),
            given,
            steps,
        )?;
        hold(outcomes.as_slice(), 2, place)
    }

    /// The value at a place of the environment of a body.
    pub(crate) fn local_at(&self, place: usize) -> Result<Value, ExecFault>
        requires unnamed { length self.now.shell ≡ 0 }
        ensures gives { (steps : ℕ) → Gives (local_at place (stand self.now steps)) result (stand self.now steps) }
        ensures well_made { IfOk result IsWellMade }
    {
        match self.env.get(place) {
            None => Ok(Value::Null),
            Some(value) => Ok(value.try_copy(self.alloc)?),
        }
    }

    /// Binds other things, and gives what was bound.
    pub(crate) fn bind_apart(&mut self, env: Env) -> Result<Bound, AllocError>
        requires { IsCurrent self.old }
        ensures bound { IfOk result (IsBoundIn self.old) }
        ensures apart { OnOk result (self.new ≡ record self.old { shell = []; env = env }) }
    {
        let shell = Shell::new(self.alloc, Items::new(self.alloc))?;
        let since = self.changes();
        Ok(Bound {
            shell: mem::replace(&mut self.shell, shell),
            env: mem::replace(&mut self.env, env),
            since,
        })
    }

    /// What was bound is bound again, behind an act.
    pub(crate) fn bind_again(
        &mut self,
        bound: Bound,
        done: Result<Value, ExecFault>,
    ) -> Result<Value, ExecFault>
        requires since { OnOk done (bound.since ≤ length self.old.transaction.changes) }
        requires within { length bound.shell ≤ length bound.env }
        ensures given { IfOk result (λ v. done ≡ Ok v) }
        ensures gives { (before : declared.Machine) (n steps : ℕ) (o : acts.Outcome machines.Machine fault.ExecFault Value) → IsBoundIn before bound
            → Gives o done (stand self.old steps) → Gives (bound_again (stand before n) o) result (stand self.new steps) }
        ensures returns { (before : declared.Machine) → IsBoundIn before bound → OnOk done (Adds before.transaction self.old.transaction) → OnOk result (Returns before self.new) }
    {
        let Bound { shell, env, since } = bound;
        self.shell = shell;
        self.env = env;
        let value = done?;
        self.changes();
        self.shell.names_differ();
        self.refresh(since)?;
        Ok(value)
    }

    /// Enters a call.
    pub(crate) fn enter(&mut self, call: Call) -> Result<(), AllocError>
        requires { HasRoom 0 self.old }
        ensures { OnOk result (self.new ≡ record self.old { transaction = record self.old.transaction { frames = opened call ∷ self.old.transaction.frames } }) }
    {
        self.transaction.enter(call)
    }

    /// Leaves the top call, whatever came of it.
    pub(crate) fn leave_call(&mut self, ended: Result<Value, ExecFault>) -> Result<Value, ExecFault>
        ensures given { IfOk result (λ v. ended ≡ Ok v) }
        ensures gives { (o : acts.Outcome machines.Machine fault.ExecFault Value) (steps : ℕ) → Gives o ended (stand self.old steps) → Gives (frame_left o) result (stand self.new steps) }
        ensures left { OnOk result (self.new ≡ record self.old { transaction = record self.old.transaction { frames = left self.old.transaction.frames } }) }
    {
        self.transaction.leave()?;
        ended
    }
}
