ghost use Rattle.std.specs.Prelude.{◌≡◌, ◌+◌, IfOk};
ghost use Rattle.std.specs.Option.{option_copied};
ghost use Rattle.ocl_values.specs.Shape.{IsWellMade};
ghost use Rattle.ocl_eval.specs.Parts.{Evaluates, ev_at, scene};
ghost use Rattle.ocl_eval.specs.Evaluations.{Gives};
ghost use Rattle.ocl_eval.specs.Nodes.{node};
ghost use Rattle.ocl_core.specs.Trees.{IsSound};
ghost use Rattle.ocl_core.specs.Programs.{IsSoundProgram};

use crate::node::Node;
use crate::{Meter, Setting, States, Stop, Values};
use ocl_core::Expr;
use ocl_values::Value;
use use_lists::Boxed;

/// The start of an iterator.
fn start_of(start: &Option<Boxed<Expr>>) -> Option<&Expr>
    ensures { option_copied result ≡ start.now }
{
    match start {
        Some(e) => Some(e.get()),
        None => None,
    }
}

/// Every node.
impl<S, V: States<S>, F> Node<'_, S, V, F>
where
    F: Fn(&Setting<'_, V>, &Expr, &mut Values, &mut Meter, &mut S) -> Result<Value, Stop>,
{
    /// The value of a node.
    #[tactic(auto, unfolding(crate::specs::Nodes::node))]
    pub(crate) fn node(
        &self,
        e: &Expr,
        locals: &mut Values,
        meter: &mut Meter,
        steps: &mut S,
    ) -> Result<Value, Stop>
        requires parts { Evaluates V.now V.pre V.count self.now.setting.levels (F.pre self.now.value) (F.post self.now.value) }
        requires program { IsSoundProgram self.now.setting.program.now }
        requires tree { IsSound e.now }
        ensures value { Gives (node (scene V.now V.pre self.now.setting)
            (ev_at V.now V.pre self.now.setting) self.now.setting.at locals.old e.now meter.old) result meter.new }
        ensures well_made { IfOk result IsWellMade }
        ensures locals { locals.new ≡ locals.old }
        ensures ticks { V.count steps.new + meter.new.fuel ≡ V.count steps.old + meter.old.fuel }
    {
        match e {
            Expr::Literal(value) => self.literal(value, meter, steps),
            Expr::Local(number) => self.local(*number, locals, meter, steps),
            Expr::Unary(op, a) => self.unary(*op, a.get(), locals, meter, steps),
            Expr::Binary(op, a, b) => self.binary(*op, a.get(), b.get(), locals, meter, steps),
            Expr::If(c, a, b) => self.choice(c.get(), a.get(), b.get(), locals, meter, steps),
            Expr::Let(a, b) => self.bind(a.get(), b.get(), locals, meter, steps),
            Expr::Make(kind, all) => self.make(*kind, all.as_slice(), locals, meter, steps),
            Expr::Plain(op, all) => self.plain(*op, all.as_slice(), locals, meter, steps),
            Expr::Coll(op, all) => self.collection(*op, all.as_slice(), locals, meter, steps),
            Expr::Iter(op, source, count, start, body) => {
                let start = start_of(start);
                self.iterator(
                    *op,
                    source.get(),
                    *count,
                    start,
                    body.get(),
                    locals,
                    meter,
                    steps,
                )
            }
            Expr::Attr(a, number, when) => {
                self.attribute(a.get(), *number, *when, locals, meter, steps)
            }
            Expr::Derived(a, number, when) => {
                self.derived_attribute(a.get(), *number, *when, locals, meter, steps)
            }
            Expr::Nav(a, assoc, end, when) => {
                self.navigation(a.get(), *assoc, *end, *when, locals, meter, steps)
            }
            Expr::Extent(class, when) => self.extent(*class, *when, locals, meter, steps),
            Expr::Query(a, op, all) => {
                self.called_query(a.get(), *op, all.as_slice(), locals, meter, steps)
            }
            Expr::Test(test, a, asked, when) => {
                self.type_test(*test, a.get(), asked, *when, locals, meter, steps)
            }
            Expr::IsNew(a) => self.newness(a.get(), locals, meter, steps),
            Expr::ToSet(a) => self.to_set(a.get(), locals, meter, steps),
        }
    }
}
