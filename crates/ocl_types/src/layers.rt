ghost use Rattle.std.specs.Prelude.{◌≡◌, IfOk};
ghost use Rattle.ocl_syntax.specs.declared.tree.Written.{out-Written};
ghost use Rattle.ocl_rules.specs.Forms.{level_rule};
ghost use Rattle.ocl_rules.specs.Typings.{Tells};
ghost use Rattle.ocl_types.specs.Nodes.{node};
ghost use Rattle.ocl_types.specs.Walk.{leveled};
ghost use Rattle.ocl_types.specs.Parts.{HasRoom, IsShallow, Types, part_in, scene};

use crate::node::literal;
use crate::{Node, Setting};
use ocl_rules::{TypeFault, Typed, breaks_t, level_rule};
use ocl_scope::{Environment, only_literal_rule};
use ocl_syntax::Written;
use use_text::Place;

/// Every node.
impl<F> Node<'_, F>
where
    F: Fn(&Setting<'_>, &mut Environment, &Written) -> Result<Typed, TypeFault>,
{
    /// The type of a node, but for how deep types may nest.
    #[tactic(auto, unfolding(crate::specs::Nodes::node))]
    pub(crate) fn node(&self, env: &mut Environment, written: &Written) -> Result<Typed, TypeFault>
        requires parts { Types self.now.setting.nesting (F.pre self.now.type_of) (F.post self.now.type_of) }
        requires room { HasRoom 256 self.now.setting.nesting env.old }
        ensures value { Tells (node (scene self.now.setting) (part_in self.now.setting) env.old (out-Written written.now)) result }
        ensures environment { env.new ≡ env.old }
    {
        match written {
            Written::TooDeep(place) => Err(breaks_t(16, *place)),
            Written::Literal(_, said) => Ok(literal(self.setting.alloc, said)?),
            Written::OnlyLiteral(_, name) => only_literal_rule(self.setting.model, name),
            Written::Named(name, literal, is_before, arguments) => {
                self.named(env, name, literal, *is_before, arguments)
            }
            Written::Collection(_, kind, all) => self.collection(env, *kind, all.as_slice()),
            Written::If(_, c, a, b) => self.choice(env, c.get(), a.get(), b.get()),
            Written::Let(_, name, of_type, value, body) => {
                self.bind(env, name, of_type, value.get(), body.get())
            }
            Written::Unary(place, op, operand) => self.unary(env, *place, *op, operand.get()),
            Written::Binary(place, op, a, b) => self.binary(env, *place, *op, a.get(), b.get()),
            Written::Dot(source, name, is_before, arguments) => {
                self.dot(env, source.get(), name, *is_before, arguments)
            }
            Written::Arrow(source, name, arguments) => {
                self.arrow(env, source.get(), name, arguments)
            }
            Written::Group(_, inner) => self.part(env, inner.get()),
        }
    }

    /// The type of a node, unless it nests too many collections.
    #[tactic(auto, unfolding(crate::specs::Walk::leveled))]
    pub(crate) fn leveled(
        &self,
        env: &mut Environment,
        written: &Written,
    ) -> Result<Typed, TypeFault>
        requires parts { Types self.now.setting.nesting (F.pre self.now.type_of) (F.post self.now.type_of) }
        requires room { HasRoom 256 self.now.setting.nesting env.old }
        ensures value { Tells (leveled (scene self.now.setting) (part_in self.now.setting) env.old written.now) result }
        ensures shallow { IfOk result IsShallow }
        ensures environment { env.new ≡ env.old }
    {
        let typed = self.node(env, written)?;
        within_levels(written.place(), typed)
    }
}

/// A node that is typed, unless its type nests too many collections.
fn within_levels(place: Place, typed: Typed) -> Result<Typed, TypeFault>
    ensures value { Tells (level_rule place typed) result }
    ensures shallow { IfOk result IsShallow }
{
    level_rule(place, typed)
}
