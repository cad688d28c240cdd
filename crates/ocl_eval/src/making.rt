ghost use Rattle.std.specs.Prelude.{◌≡◌, ◌+◌, All, IfOk};
ghost use Rattle.ocl_values.specs.Shape.{IsWellMade};
ghost use Rattle.ocl_eval.specs.Parts.{Evaluates, ev_in};
ghost use Rattle.ocl_eval.specs.Evaluations.{Gives};
ghost use Rattle.ocl_eval.specs.Nodes.{add_part, make, parts};
ghost use Rattle.ocl_core.specs.Trees.{IsSound, IsSoundPart};
ghost use Rattle.ocl_core.specs.Programs.{IsSoundProgram};

use crate::costs::pay;
use crate::node::Node;
use crate::parts::{Made, add_item, add_range, made_value, nothing_made};
use crate::{Meter, Setting, States, Stop, Values};
use ocl_core::{Expr, Kind, Part};
use ocl_values::Value;

/// Written collections.
impl<S, V: States<S>, F> Node<'_, S, V, F>
where
    F: Fn(&Setting<'_, V>, &Expr, &mut Values, &mut Meter, &mut S) -> Result<Value, Stop>,
{
    /// The elements so far, with those of one part more.
    #[tactic(auto, unfolding(crate::specs::Nodes::add_part))]
    fn add_part(
        &self,
        before: Made,
        p: &Part,
        locals: &mut Values,
        meter: &mut Meter,
        steps: &mut S,
    ) -> Result<Made, Stop>
        requires parts { Evaluates V.now V.pre V.count self.now.setting.levels (F.pre self.now.value) (F.post self.now.value) }
        requires program { IsSoundProgram self.now.setting.program.now }
        requires tree { IsSoundPart p.now }
        ensures value { Gives (add_part (ev_in V.now V.pre self.now.setting) locals.old before p.now meter.old) result meter.new }
        ensures locals { locals.new ≡ locals.old }
        ensures ticks { V.count steps.new + meter.new.fuel ≡ V.count steps.old + meter.old.fuel }
    {
        match p {
            Part::One(e) => {
                let x = self.part(e, locals, meter, steps)?;
                let made = add_item(before, x)?;
                Ok(made)
            }
            Part::Range(a, b) => {
                let x = self.part(a, locals, meter, steps)?;
                let y = self.part(b, locals, meter, steps)?;
                add_range(before, &x, &y, meter)
            }
        }
    }

    /// The elements of all parts.
    #[tactic(auto, unfolding(crate::specs::Nodes::parts))]
    fn parts(
        &self,
        before: Made,
        all: &[Part],
        locals: &mut Values,
        meter: &mut Meter,
        steps: &mut S,
    ) -> Result<Made, Stop>
        requires parts { Evaluates V.now V.pre V.count self.now.setting.levels (F.pre self.now.value) (F.post self.now.value) }
        requires program { IsSoundProgram self.now.setting.program.now }
        requires trees { All IsSoundPart all.now }
        ensures value { Gives (parts (ev_in V.now V.pre self.now.setting) locals.old before all.now meter.old) result meter.new }
        ensures locals { locals.new ≡ locals.old }
        ensures ticks { V.count steps.new + meter.new.fuel ≡ V.count steps.old + meter.old.fuel }
    {
        let mut made = before;
        let mut rest = all;
        'parts: while let [p, more @ ..] = rest {
            made = self.add_part(made, p, locals, meter, steps)?;
            rest = more;
        }
        Ok(made)
    }

    #[tactic(auto, unfolding(crate::specs::Nodes::make))]
    #[inline(never)]
    pub(crate) fn make(
        &self,
        kind: Kind,
        all: &[Part],
        locals: &mut Values,
        meter: &mut Meter,
        steps: &mut S,
    ) -> Result<Value, Stop>
        requires parts { Evaluates V.now V.pre V.count self.now.setting.levels (F.pre self.now.value) (F.post self.now.value) }
        requires program { IsSoundProgram self.now.setting.program.now }
        requires trees { All IsSoundPart all.now }
        ensures value { Gives (make (ev_in V.now V.pre self.now.setting) locals.old kind all.now meter.old) result meter.new }
        ensures well_made { IfOk result IsWellMade }
        ensures locals { locals.new ≡ locals.old }
        ensures ticks { V.count steps.new + meter.new.fuel ≡ V.count steps.old + meter.old.fuel }
    {
        let made = self.parts(nothing_made(self.setting.alloc), all, locals, meter, steps)?;
        let value = made_value(self.setting.alloc, kind, made)?;
        pay(self.setting.states, value, meter, steps)
    }
}
