ghost use Rattle.std.specs.Prelude.{◌≡◌, ◌<◌, ◌+◌, ◌++◌, All, IfOk, OnOk, Ok, length};
ghost use Rattle.std.specs.Option.{ForSome, option_copied};
ghost use Rattle.class_model.specs.Parts.{op_result};
ghost use Rattle.ocl_values.specs.Shape.{IsWellMade};
ghost use Rattle.ocl_core.specs.Programs.{query_of};
ghost use Rattle.ocl_core.specs.Trees.{IsSound};
ghost use Rattle.contract_frames.specs.Entering.{IsCall};
ghost use Rattle.contract_frames.specs.Judging.{bound_before};
ghost use Rattle.ocl_program.specs.Bodies.{IsBodyOf, soil_of};
ghost use Rattle.soil_changes.specs.Acts as acts;
ghost use Rattle.soil_changes.specs.Acts.{then_act};
ghost use Rattle.entry_states.specs.declared.frame.Call.{Call};
ghost use Rattle.ocl_values.specs.declared.value.Value.{Value};
ghost use Rattle.soil_exec.specs.declared.fault.ExecFault as fault;
ghost use Rattle.soil_exec.specs.Acted.{HasTop, IsEntered, Returns};
ghost use Rattle.soil_exec.specs.Bodies.{IsBody, TargetIsSound};
ghost use Rattle.soil_exec.specs.Calls.{call, framed, given_by, query, query_value, result_start, statements, statements_value, then_posts};
ghost use Rattle.soil_exec.specs.Kept.{Follows, Gives, HasRoom, IsCurrent, IsOfModel, stand};
ghost use Rattle.soil_exec.specs.Machine as machines;
ghost use Rattle.soil_exec.specs.Parts.{Executes, called_in};

use crate::calls::bind_result;
use crate::fault::breaks_x;
use crate::{Evaluator, ExecFault, Machine, Setting, Walk};
use class_model::{OclType, OpNo};
use contract_frames::bound_before;
use entry_states::Call;
use ocl_core::{Expr, OpBody, Stmt, Target};
use ocl_eval::Env;
use ocl_values::Value;
use use_text::Place;

impl<S, V: Evaluator<S>, F> Walk<'_, S, V, F>
where
    F: Fn(&Setting<'_, V>, Place, &[Stmt], &mut Machine, &mut S) -> Result<(), ExecFault>,
{
    /// The body of an operation that is called, one level deeper. All that is told of it is told at
    /// the place of the call.
    fn called(
        &self,
        place: Place,
        body: &[Stmt],
        machine: &mut Machine,
        steps: &mut S,
    ) -> Result<(), ExecFault>
        requires inside { Executes V.count self.now.setting.levels (F.pre self.now.inside) (F.post self.now.inside) }
        requires body { IsBody self.now.setting.program.now.model body.now }
        requires of_model { IsOfModel self.now.setting.program.now.model machine.old }
        requires room { HasRoom self.now.setting.levels machine.old }
        requires current { IsCurrent machine.old }
        ensures gives { Gives (called_in self.now.setting place body.now (stand machine.old (V.count steps.old))) result (stand machine.new (V.count steps.new)) }
        ensures follows { OnOk result (Follows machine.old machine.new) }
    {
        let setting = Setting {
            program: self.setting.program,
            evaluator: self.setting.evaluator,
            levels: self.setting.levels,
            told: Some(place),
        };
        (self.inside)(&setting, place, body, machine, steps)
    }

    fn query_value(
        &self,
        place: Place,
        e: &Expr,
        machine: &mut Machine,
        steps: &mut S,
    ) -> Result<Value, ExecFault>
        requires inside { Executes V.count self.now.setting.levels (F.pre self.now.inside) (F.post self.now.inside) }
        requires tree { IsSound e.now }
        requires of_model { IsOfModel self.now.setting.program.now.model machine.old }
        requires room { HasRoom self.now.setting.levels machine.old }
        requires current { IsCurrent machine.old }
        ensures gives { Gives (query_value self.now.setting.program.now (called_in self.now.setting) place e.now (stand machine.old (V.count steps.old))) result (stand machine.new (V.count steps.new)) }
        ensures well_made { IfOk result IsWellMade }
    {
        self.called(place, &[], machine, steps)?;
        machine.value(&self.setting, place, e, steps)
    }

    /// The value of a query in an environment of its own; X12 where the operation has a result and it
    /// may not be stored.
    fn query(
        &self,
        place: Place,
        e: &Expr,
        result_type: Option<&OclType>,
        env: Env,
        machine: &mut Machine,
        steps: &mut S,
    ) -> Result<Value, ExecFault>
        requires inside { Executes V.count self.now.setting.levels (F.pre self.now.inside) (F.post self.now.inside) }
        requires tree { IsSound e.now }
        requires of_model { IsOfModel self.now.setting.program.now.model machine.old }
        requires room { HasRoom self.now.setting.levels machine.old }
        requires current { IsCurrent machine.old }
        ensures gives { Gives (query self.now.setting.program.now (called_in self.now.setting) place (option_copied result_type.entry) env e.now (stand machine.old (V.count steps.old))) result (stand machine.new (V.count steps.new)) }
        ensures well_made { IfOk result IsWellMade }
        ensures returns { OnOk result (Returns machine.old machine.new) }
    {
        self.setting.program.is_checked();
        let bound = machine.bind_apart(env)?;
        let done = self.query_value(place, e, machine, steps);
        let value = machine.bind_again(bound, done)?;
        machine.check_stored_if(place, result_type, &value)?;
        Ok(value)
    }

    fn statements_value(
        &self,
        place: Place,
        body: &[Stmt],
        result_place: usize,
        machine: &mut Machine,
        steps: &mut S,
    ) -> Result<Value, ExecFault>
        requires inside { Executes V.count self.now.setting.levels (F.pre self.now.inside) (F.post self.now.inside) }
        requires body { IsBodyOf self.now.setting.program.now.model body.now }
        requires of_model { IsOfModel self.now.setting.program.now.model machine.old }
        requires room { HasRoom self.now.setting.levels machine.old }
        requires current { IsCurrent machine.old }
        requires unnamed { length machine.old.shell ≡ 0 }
        ensures gives { Gives (statements_value self.now.setting.program.now (called_in self.now.setting) place result_place body.now (stand machine.old (V.count steps.old))) result (stand machine.new (V.count steps.new)) }
        ensures well_made { IfOk result IsWellMade }
    {
        self.called(place, body, machine, steps)?;
        machine.local_at(result_place)
    }

    /// What statements leave as `result`, in an environment of their own.
    fn statements(
        &self,
        place: Place,
        body: &[Stmt],
        result_place: usize,
        env: Env,
        machine: &mut Machine,
        steps: &mut S,
    ) -> Result<Value, ExecFault>
        requires inside { Executes V.count self.now.setting.levels (F.pre self.now.inside) (F.post self.now.inside) }
        requires body { IsBodyOf self.now.setting.program.now.model body.now }
        requires of_model { IsOfModel self.now.setting.program.now.model machine.old }
        requires room { HasRoom self.now.setting.levels machine.old }
        requires current { IsCurrent machine.old }
        ensures gives { Gives (statements self.now.setting.program.now (called_in self.now.setting) place result_place env body.now (stand machine.old (V.count steps.old))) result (stand machine.new (V.count steps.new)) }
        ensures well_made { IfOk result IsWellMade }
        ensures returns { OnOk result (Returns machine.old machine.new) }
    {
        self.setting.program.is_checked();
        let bound = machine.bind_apart(env)?;
        let done = self.statements_value(place, body, result_place, machine, steps);
        machine.bind_again(bound, done)
    }

    /// The postconditions behind a body that was carried out.
    fn checked(
        &self,
        place: Place,
        done: Result<Value, ExecFault>,
        machine: &Machine,
        steps: &mut S,
    ) -> Result<Value, ExecFault>
        requires given { IfOk done IsWellMade }
        requires entered { OnOk done (HasTop self.now.setting.program.now machine.now.transaction.frames) }
        ensures given { IfOk result (λ v. done ≡ Ok v) }
        ensures gives { (k : Call) (entry : machines.Machine) (o : acts.Outcome machines.Machine fault.ExecFault Value) → OnOk done (IsEntered k entry.progress machine.now.transaction)
            → Gives o done (stand machine.now (V.count steps.old))
            → Gives (then_act o (then_posts self.now.setting.program.now place k entry)) result (stand machine.now (V.count steps.new)) }
    {
        let given = done?;
        machine.posts_hold(&self.setting, place, &given, steps)?;
        Ok(given)
    }

    /// A query in the frame of its call, which is left also where it is refused.
    fn framed_query(
        &self,
        place: Place,
        call: Call,
        e: &Expr,
        machine: &mut Machine,
        steps: &mut S,
    ) -> Result<Value, ExecFault>
        requires inside { Executes V.count self.now.setting.levels (F.pre self.now.inside) (F.post self.now.inside) }
        requires call { IsCall self.now.setting.program.now call }
        requires tree { IsSound e.now }
        requires of_model { IsOfModel self.now.setting.program.now.model machine.old }
        requires room { HasRoom (self.now.setting.levels + 1) machine.old }
        requires current { IsCurrent machine.old }
        ensures gives { Gives (framed self.now.setting.program.now place call
            (query self.now.setting.program.now (called_in self.now.setting) place (op_result self.now.setting.program.now.model call.op) (bound_before call) e.now)
            (stand machine.old (V.count steps.old))) result (stand machine.new (V.count steps.new)) }
        ensures well_made { IfOk result IsWellMade }
        ensures follows { OnOk result (Follows machine.old machine.new) }
    {
        let result_type = self.setting.program.model().op_result(call.op);
        let env = bound_before(machine.alloc, &call)?;
        machine.enter(call)?;
        let done = self.query(place, e, result_type, env, machine, steps);
        let ended = self.checked(place, done, machine, steps);
        machine.leave_call(ended)
    }

    /// Statements in the frame of their call, which is left also where they are refused.
    fn framed_statements(
        &self,
        place: Place,
        call: Call,
        body: &[Stmt],
        machine: &mut Machine,
        steps: &mut S,
    ) -> Result<Value, ExecFault>
        requires inside { Executes V.count self.now.setting.levels (F.pre self.now.inside) (F.post self.now.inside) }
        requires call { IsCall self.now.setting.program.now call }
        requires body { IsBodyOf self.now.setting.program.now.model body.now }
        requires of_model { IsOfModel self.now.setting.program.now.model machine.old }
        requires room { HasRoom (self.now.setting.levels + 1) machine.old }
        requires current { IsCurrent machine.old }
        ensures gives { Gives (framed self.now.setting.program.now place call
            (statements self.now.setting.program.now (called_in self.now.setting) place (length call.args + 1)
            (bound_before call ++ result_start (op_result self.now.setting.program.now.model call.op)) body.now)
            (stand machine.old (V.count steps.old))) result (stand machine.new (V.count steps.new)) }
        ensures well_made { IfOk result IsWellMade }
        ensures follows { OnOk result (Follows machine.old machine.new) }
    {
        let result_type = self.setting.program.model().op_result(call.op);
        let result_place = call.args.len() + 1;
        let mut env = bound_before(machine.alloc, &call)?;
        bind_result(result_type, &mut env)?;
        machine.enter(call)?;
        let done = self.statements(place, body, result_place, env, machine, steps);
        let ended = self.checked(place, done, machine, steps);
        machine.leave_call(ended)
    }

    /// The value that a call gives; X9 where the operation has no body.
    fn given_by(
        &self,
        place: Place,
        call: Call,
        body: &OpBody,
        machine: &mut Machine,
        steps: &mut S,
    ) -> Result<Value, ExecFault>
        requires inside { Executes V.count self.now.setting.levels (F.pre self.now.inside) (F.post self.now.inside) }
        requires call { IsCall self.now.setting.program.now call }
        requires query { ForSome (query_of body.now) IsSound }
        requires soil { ForSome (soil_of body.now) (IsBodyOf self.now.setting.program.now.model) }
        requires of_model { IsOfModel self.now.setting.program.now.model machine.old }
        requires room { HasRoom (self.now.setting.levels + 1) machine.old }
        requires current { IsCurrent machine.old }
        ensures gives { Gives (given_by self.now.setting.program.now (called_in self.now.setting) place call body.now (stand machine.old (V.count steps.old))) result (stand machine.new (V.count steps.new)) }
        ensures well_made { IfOk result IsWellMade }
        ensures follows { OnOk result (Follows machine.old machine.new) }
    {
        match body {
            OpBody::None => Err(breaks_x(9, place)),
            OpBody::Query(e) => self.framed_query(place, call, e, machine, steps),
            OpBody::Soil(body) => {
                self.framed_statements(place, call, body.as_slice(), machine, steps)
            }
        }
    }

    /// A call of an operation, whose result may be stored.
    pub(crate) fn call(
        &self,
        place: Place,
        receiver: &Expr,
        op: OpNo,
        args: &[Expr],
        target: &Option<Target>,
        machine: &mut Machine,
        steps: &mut S,
    ) -> Result<(), ExecFault>
        requires inside { Executes V.count self.now.setting.levels (F.pre self.now.inside) (F.post self.now.inside) }
        requires op { op < length self.now.setting.program.now.model.ops }
        requires receiver { IsSound receiver.now }
        requires args { All IsSound args.now }
        requires target { ForSome target.now TargetIsSound }
        requires of_model { IsOfModel self.now.setting.program.now.model machine.old }
        requires room { HasRoom (self.now.setting.levels + 1) machine.old }
        requires current { IsCurrent machine.old }
        ensures gives { Gives (call self.now.setting.program.now (called_in self.now.setting) place receiver.now op args.now target.now (stand machine.old (V.count steps.old))) result (stand machine.new (V.count steps.new)) }
        ensures follows { OnOk result (Follows machine.old machine.new) }
    {
        let setting = &self.setting;
        setting.program.is_checked();
        let object = machine.holder_if(setting, place, target, steps)?;
        let value = machine.value(setting, place, receiver, steps)?;
        let values = machine.values(setting, place, args, steps)?;
        machine.check_holder_if(place, target, &object)?;
        let call = machine.call_of(setting.program, place, op, &value, values)?;
        machine.pres_hold(setting, place, &call, steps)?;
        let body = setting.program.op_body(call.op);
        let given = self.given_by(place, call, body, machine, steps)?;
        machine.put_if(place, target, &object, given)
    }
}
