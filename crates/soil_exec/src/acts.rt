ghost use Rattle.std.specs.Prelude.{◌≡◌, ◌<◌, ℕ, All, OnOk, length};
ghost use Rattle.std.specs.Option.{ForSome};
ghost use Rattle.ocl_core.specs.Trees.{IsSound};
ghost use Rattle.soil_changes.specs.Creating as creating;
ghost use Rattle.soil_changes.specs.Creating.{create_all};
ghost use Rattle.soil_changes.specs.Destroying as destroying;
ghost use Rattle.soil_changes.specs.Joining as links;
ghost use Rattle.soil_exec.specs.Bodies.{TargetIsSound};
ghost use Rattle.soil_exec.specs.Kept.{Follows, Gives, IsCurrent, IsOfModel, stand};
ghost use Rattle.soil_exec.specs.Machine.{changing};
ghost use Rattle.soil_exec.specs.Statements.{assign, declare, delete, destroy, insert, new};

use crate::{Evaluator, ExecFault, Machine, Setting};
use class_model::{AssocNo, ClassNo};
use object_state::StateReader;
use ocl_core::{Expr, Target};
use ocl_values::{Text, Value};
use use_text::Place;

impl Machine {
    /// The number that the next object gets.
    fn next_object(&self) -> u32
        ensures { result ≡ self.now.transaction.state.next_object }
    {
        self.transaction.store().counters().0
    }

    fn create_new(
        &mut self,
        place: Place,
        class: ClassNo,
        word: &str,
        given: Option<Value>,
    ) -> Result<(), ExecFault>
        requires class { class < length self.old.transaction.layout.classes }
        requires current { IsCurrent self.old }
        ensures gives { (steps : ℕ) → Gives (changing place (creating.create_new class word.now given) (stand self.old steps)) result (stand self.new steps) }
        ensures follows { OnOk result (Follows self.old self.new) }
    {
        let since = self.changes();
        let done = self.transaction.create_new(class, word, given);
        self.settle(place, since, done)
    }

    /// `new`, also where the object is stored.
    pub(crate) fn new_object<S, V: Evaluator<S>>(
        &mut self,
        setting: &Setting<'_, V>,
        place: Place,
        class: ClassNo,
        name: &Option<Expr>,
        target: &Option<Target>,
        steps: &mut S,
    ) -> Result<(), ExecFault>
        requires class { class < length setting.now.program.now.model.classes }
        requires name { ForSome name.now IsSound }
        requires target { ForSome target.now TargetIsSound }
        requires of_model { IsOfModel setting.now.program.now.model self.old }
        requires current { IsCurrent self.old }
        ensures gives { Gives (new setting.now.program.now place class name.now target.now (stand self.old (V.count steps.old))) result (stand self.new (V.count steps.new)) }
        ensures follows { OnOk result (Follows self.old self.new) }
    {
        let holder = self.holder_if(setting, place, target, steps)?;
        let given = self.value_if(setting, place, name, steps)?;
        self.check_holder_if(place, target, &holder)?;
        let object = self.next_object();
        let word = setting.program.model().class_name(class);
        self.create_new(place, class, word, given)?;
        self.put_if(place, target, &holder, Value::Obj(object))
    }

    pub(crate) fn create(
        &mut self,
        place: Place,
        names: &[Text],
        class: ClassNo,
    ) -> Result<(), ExecFault>
        requires class { class < length self.old.transaction.layout.classes }
        requires current { IsCurrent self.old }
        ensures gives { (steps : ℕ) → Gives (changing place (create_all class names.now) (stand self.old steps)) result (stand self.new steps) }
        ensures follows { OnOk result (Follows self.old self.new) }
    {
        let since = self.changes();
        let done = self.transaction.create_all(class, names);
        self.settle(place, since, done)
    }

    fn destroy_all(&mut self, place: Place, values: &[Value]) -> Result<(), ExecFault>
        requires current { IsCurrent self.old }
        ensures gives { (steps : ℕ) → Gives (changing place (destroying.destroy_all values.now) (stand self.old steps)) result (stand self.new steps) }
        ensures follows { OnOk result (Follows self.old self.new) }
    {
        let since = self.changes();
        let done = self.transaction.destroy_all(values);
        self.settle(place, since, done)
    }

    pub(crate) fn destroy<S, V: Evaluator<S>>(
        &mut self,
        setting: &Setting<'_, V>,
        place: Place,
        es: &[Expr],
        steps: &mut S,
    ) -> Result<(), ExecFault>
        requires trees { All IsSound es.now }
        requires current { IsCurrent self.old }
        ensures gives { Gives (destroy setting.now.program.now place es.now (stand self.old (V.count steps.old))) result (stand self.new (V.count steps.new)) }
        ensures follows { OnOk result (Follows self.old self.new) }
    {
        let values = self.values(setting, place, es, steps)?;
        self.destroy_all(place, values.as_slice())
    }

    fn link(
        &mut self,
        place: Place,
        assoc: AssocNo,
        first: &Value,
        second: &Value,
    ) -> Result<(), ExecFault>
        requires assoc { assoc < length self.old.transaction.layout.assocs }
        requires current { IsCurrent self.old }
        ensures gives { (steps : ℕ) → Gives (changing place (links.insert assoc first.now second.now) (stand self.old steps)) result (stand self.new steps) }
        ensures follows { OnOk result (Follows self.old self.new) }
    {
        let since = self.changes();
        let done = self.transaction.insert(assoc, first, second);
        self.settle(place, since, done)
    }

    pub(crate) fn insert<S, V: Evaluator<S>>(
        &mut self,
        setting: &Setting<'_, V>,
        place: Place,
        assoc: AssocNo,
        first: &Expr,
        second: &Expr,
        steps: &mut S,
    ) -> Result<(), ExecFault>
        requires assoc { assoc < length self.old.transaction.layout.assocs }
        requires first { IsSound first.now }
        requires second { IsSound second.now }
        requires current { IsCurrent self.old }
        ensures gives { Gives (insert setting.now.program.now place assoc first.now second.now (stand self.old (V.count steps.old))) result (stand self.new (V.count steps.new)) }
        ensures follows { OnOk result (Follows self.old self.new) }
    {
        let one = self.value(setting, place, first, steps)?;
        let other = self.value(setting, place, second, steps)?;
        self.link(place, assoc, &one, &other)
    }

    fn unlink(
        &mut self,
        place: Place,
        assoc: AssocNo,
        first: &Value,
        second: &Value,
    ) -> Result<(), ExecFault>
        requires current { IsCurrent self.old }
        ensures gives { (steps : ℕ) → Gives (changing place (links.delete assoc first.now second.now) (stand self.old steps)) result (stand self.new steps) }
        ensures follows { OnOk result (Follows self.old self.new) }
    {
        let since = self.changes();
        let done = self.transaction.delete(assoc, first, second);
        self.settle(place, since, done)
    }

    pub(crate) fn delete<S, V: Evaluator<S>>(
        &mut self,
        setting: &Setting<'_, V>,
        place: Place,
        assoc: AssocNo,
        first: &Expr,
        second: &Expr,
        steps: &mut S,
    ) -> Result<(), ExecFault>
        requires first { IsSound first.now }
        requires second { IsSound second.now }
        requires current { IsCurrent self.old }
        ensures gives { Gives (delete setting.now.program.now place assoc first.now second.now (stand self.old (V.count steps.old))) result (stand self.new (V.count steps.new)) }
        ensures follows { OnOk result (Follows self.old self.new) }
    {
        let one = self.value(setting, place, first, steps)?;
        let other = self.value(setting, place, second, steps)?;
        self.unlink(place, assoc, &one, &other)
    }

    pub(crate) fn assign<S, V: Evaluator<S>>(
        &mut self,
        setting: &Setting<'_, V>,
        place: Place,
        target: &Target,
        e: &Expr,
        steps: &mut S,
    ) -> Result<(), ExecFault>
        requires target { TargetIsSound target.now }
        requires tree { IsSound e.now }
        requires current { IsCurrent self.old }
        ensures gives { Gives (assign setting.now.program.now place target.now e.now (stand self.old (V.count steps.old))) result (stand self.new (V.count steps.new)) }
        ensures follows { OnOk result (Follows self.old self.new) }
    {
        let holder = self.holder(setting, place, target, steps)?;
        let value = self.value(setting, place, e, steps)?;
        self.put(place, target, &holder, value)
    }

    /// Variables that hold null.
    pub(crate) fn declare(&mut self, number: u32) -> Result<(), ExecFault>
        requires current { IsCurrent self.old }
        ensures gives { (steps : ℕ) → Gives (declare number (stand self.old steps)) result (stand self.new steps) }
        ensures follows { OnOk result (Follows self.old self.new) }
    {
        let mut left = number;
        'variables: while left > 0 {
            self.push(Value::Null)?;
            left -= 1;
        }
        Ok(())
    }
}
