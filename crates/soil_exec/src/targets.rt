ghost use Rattle.std.specs.Prelude.{◌≡◌, ℕ, IfOk, OnOk};
ghost use Rattle.std.specs.Option.{ForSome, option_copied};
ghost use Rattle.ocl_values.specs.Shape.{IsWellMade};
ghost use Rattle.soil_changes.specs.Storing.{refuse_unless_stored, set_slot, set_variable};
ghost use Rattle.soil_exec.specs.Bodies.{TargetIsSound};
ghost use Rattle.soil_exec.specs.Calls.{check_stored_if};
ghost use Rattle.soil_exec.specs.Kept.{Follows, Gives, IsCurrent, stand};
ghost use Rattle.soil_exec.specs.Machine.{changing};
ghost use Rattle.soil_exec.specs.Targets.{check_attr, check_holder, check_holder_if, holder, holder_if, put, put_if, put_local};

use crate::fault::placed;
use crate::{Evaluator, ExecFault, Machine, Setting};
use class_model::{AttrNo, OclType};
use ocl_core::Target;
use ocl_values::{Text, Value};
use use_text::Place;

impl Machine {
    /// The value of the object whose attribute is meant; null of other targets.
    pub(crate) fn holder<S, V: Evaluator<S>>(
        &mut self,
        setting: &Setting<'_, V>,
        place: Place,
        target: &Target,
        steps: &mut S,
    ) -> Result<Value, ExecFault>
        requires target { TargetIsSound target.now }
        requires current { IsCurrent self.old }
        ensures gives { Gives (holder setting.now.program.now place target.now (stand self.old (V.count steps.old))) result (stand self.new (V.count steps.new)) }
        ensures well_made { IfOk result IsWellMade }
        ensures follows { OnOk result (Follows self.old self.new) }
    {
        match target {
            Target::Attr(e, _) => self.value(setting, place, e, steps),
            _ => Ok(Value::Null),
        }
    }

    pub(crate) fn holder_if<S, V: Evaluator<S>>(
        &mut self,
        setting: &Setting<'_, V>,
        place: Place,
        target: &Option<Target>,
        steps: &mut S,
    ) -> Result<Value, ExecFault>
        requires target { ForSome target.now TargetIsSound }
        requires current { IsCurrent self.old }
        ensures gives { Gives (holder_if setting.now.program.now place target.now (stand self.old (V.count steps.old))) result (stand self.new (V.count steps.new)) }
        ensures well_made { IfOk result IsWellMade }
        ensures follows { OnOk result (Follows self.old self.new) }
    {
        match target {
            None => Ok(Value::Null),
            Some(target) => self.holder(setting, place, target, steps),
        }
    }

    /// X5 where the object whose attribute is meant is not live, or has it not.
    fn check_attr(&self, place: Place, attr: AttrNo, object: &Value) -> Result<(), ExecFault>
        ensures { (steps : ℕ) → Gives (check_attr place attr object.now (stand self.now steps)) result (stand self.now steps) }
    {
        match self.transaction.holder_of(object, attr) {
            Ok(_) => Ok(()),
            Err(fault) => Err(placed(fault, place)),
        }
    }

    fn check_holder(&self, place: Place, target: &Target, object: &Value) -> Result<(), ExecFault>
        ensures { (steps : ℕ) → Gives (check_holder place target.now object.now (stand self.now steps)) result (stand self.now steps) }
    {
        match target {
            Target::Attr(_, attr) => self.check_attr(place, *attr, object),
            _ => Ok(()),
        }
    }

    pub(crate) fn check_holder_if(
        &self,
        place: Place,
        target: &Option<Target>,
        object: &Value,
    ) -> Result<(), ExecFault>
        ensures { (steps : ℕ) → Gives (check_holder_if place target.now object.now (stand self.now steps)) result (stand self.now steps) }
    {
        match target {
            None => Ok(()),
            Some(target) => self.check_holder(place, target, object),
        }
    }

    /// X12 where a value may not be stored.
    pub(crate) fn check_stored(&self, place: Place, value: &Value) -> Result<(), ExecFault>
        ensures { (steps : ℕ) → Gives (changing place (refuse_unless_stored value.now) (stand self.now steps)) result (stand self.now steps) }
    {
        match self.transaction.check_stored(value) {
            Ok(()) => Ok(()),
            Err(fault) => Err(placed(fault, place)),
        }
    }

    /// The same of what an operation gives that has a result.
    pub(crate) fn check_stored_if(
        &self,
        place: Place,
        result_type: Option<&OclType>,
        value: &Value,
    ) -> Result<(), ExecFault>
        ensures { (steps : ℕ) → Gives (check_stored_if place (option_copied result_type.entry) value.now (stand self.now steps)) result (stand self.now steps) }
    {
        match result_type {
            None => Ok(()),
            Some(_) => self.check_stored(place, value),
        }
    }

    fn put_local(&mut self, place: Place, number: u32, value: Value) -> Result<(), ExecFault>
        requires well_made { IsWellMade value }
        requires current { IsCurrent self.old }
        ensures gives { (steps : ℕ) → Gives (put_local place number value (stand self.old steps)) result (stand self.new steps) }
        ensures follows { OnOk result (Follows self.old self.new) }
    {
        self.check_stored(place, &value)?;
        self.set_local(number, value)
    }

    fn put_shell(
        &mut self,
        place: Place,
        name: &Text,
        of_type: &OclType,
        value: Value,
    ) -> Result<(), ExecFault>
        requires well_made { IsWellMade value }
        requires current { IsCurrent self.old }
        ensures gives { (steps : ℕ) → Gives (changing place (set_variable name.now of_type.now value) (stand self.old steps)) result (stand self.new steps) }
        ensures follows { OnOk result (Follows self.old self.new) }
    {
        let since = self.changes();
        let done = self.transaction.set_variable(name, of_type, value);
        self.settle(place, since, done)
    }

    fn put_attr(
        &mut self,
        place: Place,
        object: &Value,
        attr: AttrNo,
        value: Value,
    ) -> Result<(), ExecFault>
        requires well_made { IsWellMade value }
        requires current { IsCurrent self.old }
        ensures gives { (steps : ℕ) → Gives (changing place (set_slot object.now attr value) (stand self.old steps)) result (stand self.new steps) }
        ensures follows { OnOk result (Follows self.old self.new) }
    {
        let since = self.changes();
        let done = self.transaction.set_slot(object, attr, value);
        self.settle(place, since, done)
    }

    /// Stores a value in a target.
    pub(crate) fn put(
        &mut self,
        place: Place,
        target: &Target,
        object: &Value,
        value: Value,
    ) -> Result<(), ExecFault>
        requires well_made { IsWellMade value }
        requires current { IsCurrent self.old }
        ensures gives { (steps : ℕ) → Gives (put place target.now object.now value (stand self.old steps)) result (stand self.new steps) }
        ensures follows { OnOk result (Follows self.old self.new) }
    {
        match target {
            Target::Local(number) => self.put_local(place, *number, value),
            Target::Shell(name, of_type) => self.put_shell(place, name, of_type, value),
            Target::Attr(_, attr) => self.put_attr(place, object, *attr, value),
        }
    }

    pub(crate) fn put_if(
        &mut self,
        place: Place,
        target: &Option<Target>,
        object: &Value,
        value: Value,
    ) -> Result<(), ExecFault>
        requires well_made { IsWellMade value }
        requires current { IsCurrent self.old }
        ensures gives { (steps : ℕ) → Gives (put_if place target.now object.now value (stand self.old steps)) result (stand self.new steps) }
        ensures follows { OnOk result (Follows self.old self.new) }
    {
        match target {
            None => Ok(()),
            Some(target) => self.put(place, target, object, value),
        }
    }
}
