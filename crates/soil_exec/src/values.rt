ghost use Rattle.std.specs.Prelude.{◌≡◌, All, IfOk, OnOk};
ghost use Rattle.std.specs.Option.{ForSome};
ghost use Rattle.ocl_values.specs.Shape.{IsWellMade};
ghost use Rattle.ocl_core.specs.Trees.{IsSound};
ghost use Rattle.soil_exec.specs.Kept.{Follows, Gives, IsCurrent, stand};
ghost use Rattle.soil_exec.specs.Machine.{or_breaks_x};
ghost use Rattle.soil_exec.specs.Values.{as_elements, as_truth, collection, condition, value, value_if, values};

use crate::fault::{breaks_b, breaks_x};
use crate::{Evaluator, ExecFault, Machine, Setting};
use ocl_core::Expr;
use ocl_eval::Outcome;
use ocl_values::{Value, elements_are_well_made};
use use_lists::Items;
use use_text::Place;

/// What a value is as a condition; X10 where it is null or invalid.
fn truth(value: &Value, place: Place) -> Result<bool, ExecFault>
    ensures { (m : _) → Gives (or_breaks_x (as_truth value.now) 10 place m) result m }
{
    match value {
        Value::Bool(holds) => Ok(*holds),
        _ => Err(breaks_x(10, place)),
    }
}

/// The elements of a value; X11 where it is no collection.
fn elements(value: Value, place: Place) -> Result<Items<Value>, ExecFault>
    requires { IsWellMade value }
    ensures gives { (m : _) → Gives (or_breaks_x (as_elements value) 11 place m) result m }
    ensures well_made { IfOk result (All IsWellMade) }
{
    elements_are_well_made();
    match value {
        Value::Coll(_, items) => Ok(items),
        _ => Err(breaks_x(11, place)),
    }
}

impl Machine {
    /// The value of an expression in the present state; B1 where its budget is spent.
    pub(crate) fn value<S, V: Evaluator<S>>(
        &mut self,
        setting: &Setting<'_, V>,
        place: Place,
        e: &Expr,
        steps: &mut S,
    ) -> Result<Value, ExecFault>
        requires tree { IsSound e.now }
        requires current { IsCurrent self.old }
        ensures gives { Gives (value setting.now.program.now place e.now (stand self.old (V.count steps.old))) result (stand self.new (V.count steps.new)) }
        ensures well_made { IfOk result IsWellMade }
        ensures follows { OnOk result (Follows self.old self.new) }
    {
        let outcome = setting.evaluator.evaluate(
            self.alloc,
            setting.program,
            e,
            &mut self.env,
            self.transaction.store(),
            steps,
        )?;
        match outcome {
            Outcome::Done(value) => Ok(value),
            Outcome::Exhausted => Err(breaks_b(1, place)),
        }
    }

    /// The values of some expressions, from left to right.
    pub(crate) fn values<S, V: Evaluator<S>>(
        &mut self,
        setting: &Setting<'_, V>,
        place: Place,
        es: &[Expr],
        steps: &mut S,
    ) -> Result<Items<Value>, ExecFault>
        requires trees { All IsSound es.now }
        requires current { IsCurrent self.old }
        ensures gives { Gives (values setting.now.program.now place es.now (stand self.old (V.count steps.old))) result (stand self.new (V.count steps.new)) }
        ensures well_made { IfOk result (All IsWellMade) }
        ensures follows { OnOk result (Follows self.old self.new) }
    {
        let mut values = Items::new(self.alloc);
        'expressions: for e in es {
            let value = self.value(setting, place, e, steps)?;
            values.push(value)?;
        }
        Ok(values)
    }

    pub(crate) fn value_if<S, V: Evaluator<S>>(
        &mut self,
        setting: &Setting<'_, V>,
        place: Place,
        e: &Option<Expr>,
        steps: &mut S,
    ) -> Result<Option<Value>, ExecFault>
        requires tree { ForSome e.now IsSound }
        requires current { IsCurrent self.old }
        ensures gives { Gives (value_if setting.now.program.now place e.now (stand self.old (V.count steps.old))) result (stand self.new (V.count steps.new)) }
        ensures well_made { IfOk result (λ v. ForSome v IsWellMade) }
        ensures follows { OnOk result (Follows self.old self.new) }
    {
        match e {
            None => Ok(None),
            Some(e) => Ok(Some(self.value(setting, place, e, steps)?)),
        }
    }

    /// Whether a condition holds.
    pub(crate) fn condition<S, V: Evaluator<S>>(
        &mut self,
        setting: &Setting<'_, V>,
        place: Place,
        e: &Expr,
        steps: &mut S,
    ) -> Result<bool, ExecFault>
        requires tree { IsSound e.now }
        requires current { IsCurrent self.old }
        ensures gives { Gives (condition setting.now.program.now place e.now (stand self.old (V.count steps.old))) result (stand self.new (V.count steps.new)) }
        ensures follows { OnOk result (Follows self.old self.new) }
    {
        let value = self.value(setting, place, e, steps)?;
        truth(&value, place)
    }

    /// The elements of a collection.
    pub(crate) fn collection<S, V: Evaluator<S>>(
        &mut self,
        setting: &Setting<'_, V>,
        place: Place,
        e: &Expr,
        steps: &mut S,
    ) -> Result<Items<Value>, ExecFault>
        requires tree { IsSound e.now }
        requires current { IsCurrent self.old }
        ensures gives { Gives (collection setting.now.program.now place e.now (stand self.old (V.count steps.old))) result (stand self.new (V.count steps.new)) }
        ensures well_made { IfOk result (All IsWellMade) }
        ensures follows { OnOk result (Follows self.old self.new) }
    {
        let value = self.value(setting, place, e, steps)?;
        elements(value, place)
    }
}
