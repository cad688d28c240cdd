ghost use Rattle.std.specs.Prelude.{◌≡◌, ◌+◌, ◌∷◌, MatchOption, IfOk, ⊤};
ghost use Rattle.std.specs.Option.{option_copied};
ghost use Rattle.ocl_values.specs.Shape.{IsWellMade};
ghost use Rattle.ocl_eval.specs.Parts.{Evaluates, ev_at, ev_in, scene};
ghost use Rattle.ocl_eval.specs.Evaluations.{Gives};
ghost use Rattle.ocl_eval.specs.Nodes.{body_value, derived, of_object, query};
ghost use Rattle.ocl_core.specs.Trees.{IsSound};
ghost use Rattle.ocl_core.specs.Programs.{IsSoundProgram};

use crate::looks::within;
use crate::node::Node;
use crate::objects::class_of;
use crate::programs::{derived_body, query_called};
use crate::{Meter, Setting, States, Stop, Values};
use class_model::{DerNo, OpNo};
use ocl_core::{Expr, When};
use ocl_values::{ObjNo, Value};

/// Bodies of queries and of derived attributes.
impl<S, V: States<S>, F> Node<'_, S, V, F>
where
    F: Fn(&Setting<'_, V>, &Expr, &mut Values, &mut Meter, &mut S) -> Result<Value, Stop>,
{
    /// The value of a body with its own environment.
    fn body_value(
        &self,
        at: When,
        env: Values,
        body: Option<&Expr>,
        meter: &mut Meter,
        steps: &mut S,
    ) -> Result<Value, Stop>
        requires parts { Evaluates V.now V.pre V.count self.now.setting.levels (F.pre self.now.value) (F.post self.now.value) }
        requires program { IsSoundProgram self.now.setting.program.now }
        requires tree { MatchOption (option_copied body) ⊤ IsSound }
        ensures value { Gives (body_value (scene V.now V.pre self.now.setting) (ev_at V.now V.pre self.now.setting) self.now.setting.at at env
            (option_copied body.entry) meter.old) result meter.new }
        ensures well_made { IfOk result IsWellMade }
        ensures ticks { V.count steps.new + meter.new.fuel ≡ V.count steps.old + meter.old.fuel }
    {
        match body {
            None => Ok(Value::Invalid),
            Some(e) => {
                let mut env = env;
                let setting = Setting {
                    alloc: self.setting.alloc,
                    program: self.setting.program,
                    states: self.setting.states,
                    at,
                    levels: self.setting.levels,
                };
                (self.value)(&setting, e, &mut env, meter, steps)
            }
        }
    }

    /// A derived attribute of an object.
    #[tactic(auto, unfolding(crate::specs::Nodes::derived))]
    fn derived(
        &self,
        number: DerNo,
        when: When,
        object: ObjNo,
        meter: &mut Meter,
        steps: &mut S,
    ) -> Result<Value, Stop>
        requires parts { Evaluates V.now V.pre V.count self.now.setting.levels (F.pre self.now.value) (F.post self.now.value) }
        requires program { IsSoundProgram self.now.setting.program.now }
        ensures value { Gives (derived (scene V.now V.pre self.now.setting)
            (ev_at V.now V.pre self.now.setting) self.now.setting.at number when object meter.old) result meter.new }
        ensures well_made { IfOk result IsWellMade }
        ensures ticks { V.count steps.new + meter.new.fuel ≡ V.count steps.old + meter.old.fuel }
    {
        let class = class_of(&self.setting, when, object, meter, steps)?;
        match class {
            None => Ok(Value::Invalid),
            Some(_) => {
                let mut env = Values::new(self.setting.alloc);
                env.push(Value::Obj(object))?;
                let body = derived_body(self.setting.program, number);
                self.body_value(within(self.setting.at, when), env, body, meter, steps)
            }
        }
    }

    /// A derived attribute of a value.
    #[inline(never)]
    pub(crate) fn derived_of(
        &self,
        number: DerNo,
        when: When,
        x: &Value,
        meter: &mut Meter,
        steps: &mut S,
    ) -> Result<Value, Stop>
        requires parts { Evaluates V.now V.pre V.count self.now.setting.levels (F.pre self.now.value) (F.post self.now.value) }
        requires program { IsSoundProgram self.now.setting.program.now }
        ensures value { Gives (of_object x.now (derived (scene V.now V.pre self.now.setting)
            (ev_at V.now V.pre self.now.setting) self.now.setting.at number when) meter.old) result meter.new }
        ensures well_made { IfOk result IsWellMade }
        ensures ticks { V.count steps.new + meter.new.fuel ≡ V.count steps.old + meter.old.fuel }
    {
        match x {
            Value::Obj(object) => self.derived(number, when, *object, meter, steps),
            _ => Ok(Value::Invalid),
        }
    }

    /// The query that an object carries out.
    #[tactic(auto, unfolding(crate::specs::Nodes::query))]
    fn query(
        &self,
        op: OpNo,
        args: Values,
        object: ObjNo,
        meter: &mut Meter,
        steps: &mut S,
    ) -> Result<Value, Stop>
        requires parts { Evaluates V.now V.pre V.count self.now.setting.levels (F.pre self.now.value) (F.post self.now.value) }
        requires program { IsSoundProgram self.now.setting.program.now }
        ensures value { Gives (query (scene V.now V.pre self.now.setting)
            (ev_at V.now V.pre self.now.setting) self.now.setting.at op args object meter.old) result meter.new }
        ensures well_made { IfOk result IsWellMade }
        ensures ticks { V.count steps.new + meter.new.fuel ≡ V.count steps.old + meter.old.fuel }
    {
        let class = class_of(&self.setting, When::Now, object, meter, steps)?;
        match class {
            None => Ok(Value::Invalid),
            Some(class) => {
                let mut env = args;
                env.put_first(Value::Obj(object))?;
                let body = query_called(self.setting.program, class, op);
                self.body_value(self.setting.at, env, body, meter, steps)
            }
        }
    }

    /// The query that a value carries out.
    #[inline(never)]
    pub(crate) fn query_of(
        &self,
        op: OpNo,
        args: Values,
        x: &Value,
        meter: &mut Meter,
        steps: &mut S,
    ) -> Result<Value, Stop>
        requires parts { Evaluates V.now V.pre V.count self.now.setting.levels (F.pre self.now.value) (F.post self.now.value) }
        requires program { IsSoundProgram self.now.setting.program.now }
        ensures value { Gives (of_object x.now (query (scene V.now V.pre self.now.setting)
            (ev_at V.now V.pre self.now.setting) self.now.setting.at op args) meter.old) result meter.new }
        ensures well_made { IfOk result IsWellMade }
        ensures ticks { V.count steps.new + meter.new.fuel ≡ V.count steps.old + meter.old.fuel }
    {
        match x {
            Value::Obj(object) => self.query(op, args, *object, meter, steps),
            _ => Ok(Value::Invalid),
        }
    }
}
