ghost use Rattle.std.specs.Prelude.{◌≡◌, ◌+◌, All, IfOk};
ghost use Rattle.ocl_values.specs.Shape.{IsWellMade};
ghost use Rattle.ocl_eval.specs.Parts.{Evaluates, ev_at, scene};
ghost use Rattle.ocl_eval.specs.Evaluations.{Gives};
ghost use Rattle.ocl_eval.specs.Nodes.{layer};
ghost use Rattle.ocl_core.specs.Trees.{IsSound};
ghost use Rattle.ocl_core.specs.Programs.{IsSoundProgram};
ghost use Rattle.ocl_core.specs.declared.expression.Expr.TheOpen.{Expr-F};

use crate::costs::pay;
use crate::node::Node;
use crate::objects::{instances, linked_with, new_object, slot_of, test_value};
use crate::{Meter, Setting, States, Stop, Values};
use ocl_core::{AssocNo, AttrNo, ClassNo, DerNo, End, Expr, OclType, OpNo, TypeTest, When};
use ocl_values::Value;

/// Nodes that look at a state. They stand apart from the others, so that a node without a look needs
/// little room on the stack.
impl<S, V: States<S>, F> Node<'_, S, V, F>
where
    F: Fn(&Setting<'_, V>, &Expr, &mut Values, &mut Meter, &mut S) -> Result<Value, Stop>,
{
    /// An attribute of an object.
    #[inline(never)]
    pub(crate) fn attribute(
        &self,
        a: &Expr,
        number: AttrNo,
        when: When,
        locals: &mut Values,
        meter: &mut Meter,
        steps: &mut S,
    ) -> Result<Value, Stop>
        requires parts { Evaluates V.now V.pre V.count self.now.setting.levels (F.pre self.now.value) (F.post self.now.value) }
        requires program { IsSoundProgram self.now.setting.program.now }
        requires tree { IsSound a.now }
        ensures value { Gives (layer (scene V.now V.pre self.now.setting) (ev_at V.now V.pre self.now.setting) self.now.setting.at locals.old (Expr-F.Attr a.now number when) meter.old) result meter.new }
        ensures well_made { IfOk result IsWellMade }
        ensures locals { locals.new ≡ locals.old }
        ensures ticks { V.count steps.new + meter.new.fuel ≡ V.count steps.old + meter.old.fuel }
    {
        let x = self.part(a, locals, meter, steps)?;
        let value = slot_of(&self.setting, number, when, &x, meter, steps)?;
        pay(self.setting.states, value, meter, steps)
    }

    /// A derived attribute of an object.
    #[inline(never)]
    pub(crate) fn derived_attribute(
        &self,
        a: &Expr,
        number: DerNo,
        when: When,
        locals: &mut Values,
        meter: &mut Meter,
        steps: &mut S,
    ) -> Result<Value, Stop>
        requires parts { Evaluates V.now V.pre V.count self.now.setting.levels (F.pre self.now.value) (F.post self.now.value) }
        requires program { IsSoundProgram self.now.setting.program.now }
        requires tree { IsSound a.now }
        ensures value { Gives (layer (scene V.now V.pre self.now.setting) (ev_at V.now V.pre self.now.setting) self.now.setting.at locals.old (Expr-F.Derived a.now number when) meter.old) result meter.new }
        ensures well_made { IfOk result IsWellMade }
        ensures locals { locals.new ≡ locals.old }
        ensures ticks { V.count steps.new + meter.new.fuel ≡ V.count steps.old + meter.old.fuel }
    {
        let x = self.part(a, locals, meter, steps)?;
        let value = self.derived_of(number, when, &x, meter, steps)?;
        pay(self.setting.states, value, meter, steps)
    }

    /// The objects at the other end of an object's links.
    #[inline(never)]
    pub(crate) fn navigation(
        &self,
        a: &Expr,
        assoc: AssocNo,
        end: End,
        when: When,
        locals: &mut Values,
        meter: &mut Meter,
        steps: &mut S,
    ) -> Result<Value, Stop>
        requires parts { Evaluates V.now V.pre V.count self.now.setting.levels (F.pre self.now.value) (F.post self.now.value) }
        requires program { IsSoundProgram self.now.setting.program.now }
        requires tree { IsSound a.now }
        ensures value { Gives (layer (scene V.now V.pre self.now.setting) (ev_at V.now V.pre self.now.setting) self.now.setting.at locals.old (Expr-F.Nav a.now assoc end when) meter.old) result meter.new }
        ensures well_made { IfOk result IsWellMade }
        ensures locals { locals.new ≡ locals.old }
        ensures ticks { V.count steps.new + meter.new.fuel ≡ V.count steps.old + meter.old.fuel }
    {
        let x = self.part(a, locals, meter, steps)?;
        let value = linked_with(&self.setting, assoc, end, when, &x, meter, steps)?;
        pay(self.setting.states, value, meter, steps)
    }

    /// All objects of a class.
    #[inline(never)]
    pub(crate) fn extent(
        &self,
        class: ClassNo,
        when: When,
        locals: &mut Values,
        meter: &mut Meter,
        steps: &mut S,
    ) -> Result<Value, Stop>
        requires parts { Evaluates V.now V.pre V.count self.now.setting.levels (F.pre self.now.value) (F.post self.now.value) }
        requires program { IsSoundProgram self.now.setting.program.now }
        ensures value { Gives (layer (scene V.now V.pre self.now.setting) (ev_at V.now V.pre self.now.setting) self.now.setting.at locals.old (Expr-F.Extent class when) meter.old) result meter.new }
        ensures well_made { IfOk result IsWellMade }
        ensures locals { locals.new ≡ locals.old }
        ensures ticks { V.count steps.new + meter.new.fuel ≡ V.count steps.old + meter.old.fuel }
    {
        let value = instances(&self.setting, class, when, meter, steps)?;
        pay(self.setting.states, value, meter, steps)
    }

    /// A query operation of an object.
    #[inline(never)]
    pub(crate) fn called_query(
        &self,
        a: &Expr,
        op: OpNo,
        all: &[Expr],
        locals: &mut Values,
        meter: &mut Meter,
        steps: &mut S,
    ) -> Result<Value, Stop>
        requires parts { Evaluates V.now V.pre V.count self.now.setting.levels (F.pre self.now.value) (F.post self.now.value) }
        requires program { IsSoundProgram self.now.setting.program.now }
        requires tree { IsSound a.now }
        requires trees { All IsSound all.now }
        ensures value { Gives (layer (scene V.now V.pre self.now.setting) (ev_at V.now V.pre self.now.setting) self.now.setting.at locals.old (Expr-F.Query a.now op all.now) meter.old) result meter.new }
        ensures well_made { IfOk result IsWellMade }
        ensures locals { locals.new ≡ locals.old }
        ensures ticks { V.count steps.new + meter.new.fuel ≡ V.count steps.old + meter.old.fuel }
    {
        let x = self.part(a, locals, meter, steps)?;
        let none = Values::new(self.setting.alloc);
        let xs = self.values(none, all, locals, meter, steps)?;
        let value = self.query_of(op, xs, &x, meter, steps)?;
        pay(self.setting.states, value, meter, steps)
    }

    /// A test of a value's type, or a cast.
    #[inline(never)]
    pub(crate) fn type_test(
        &self,
        test: TypeTest,
        a: &Expr,
        asked: &OclType,
        when: When,
        locals: &mut Values,
        meter: &mut Meter,
        steps: &mut S,
    ) -> Result<Value, Stop>
        requires parts { Evaluates V.now V.pre V.count self.now.setting.levels (F.pre self.now.value) (F.post self.now.value) }
        requires program { IsSoundProgram self.now.setting.program.now }
        requires tree { IsSound a.now }
        ensures value { Gives (layer (scene V.now V.pre self.now.setting) (ev_at V.now V.pre self.now.setting) self.now.setting.at locals.old (Expr-F.Test test a.now asked.now when) meter.old) result meter.new }
        ensures well_made { IfOk result IsWellMade }
        ensures locals { locals.new ≡ locals.old }
        ensures ticks { V.count steps.new + meter.new.fuel ≡ V.count steps.old + meter.old.fuel }
    {
        let x = self.part(a, locals, meter, steps)?;
        let value = test_value(&self.setting, test, asked, when, x, meter, steps)?;
        pay(self.setting.states, value, meter, steps)
    }

    /// Whether an object was made since the state at entry.
    #[inline(never)]
    pub(crate) fn newness(
        &self,
        a: &Expr,
        locals: &mut Values,
        meter: &mut Meter,
        steps: &mut S,
    ) -> Result<Value, Stop>
        requires parts { Evaluates V.now V.pre V.count self.now.setting.levels (F.pre self.now.value) (F.post self.now.value) }
        requires program { IsSoundProgram self.now.setting.program.now }
        requires tree { IsSound a.now }
        ensures value { Gives (layer (scene V.now V.pre self.now.setting) (ev_at V.now V.pre self.now.setting) self.now.setting.at locals.old (Expr-F.IsNew a.now) meter.old) result meter.new }
        ensures well_made { IfOk result IsWellMade }
        ensures locals { locals.new ≡ locals.old }
        ensures ticks { V.count steps.new + meter.new.fuel ≡ V.count steps.old + meter.old.fuel }
    {
        let x = self.part(a, locals, meter, steps)?;
        let value = new_object(&self.setting, &x, meter, steps)?;
        pay(self.setting.states, value, meter, steps)
    }
}
