ghost use Rattle.std.specs.Prelude.{◌≡◌, []};
ghost use Rattle.std.specs.Option.{option_copied};
ghost use Rattle.ocl_rules.specs.Typings.{Tells};
ghost use Rattle.ocl_shapes.specs.Combining.{if_there};
ghost use Rattle.ocl_types.specs.Nodes.{argument_value, asked, behind, given, no_type, type_argument, types, values};
ghost use Rattle.ocl_types.specs.Parts.{HasRoom, Types, part_in, scene};

use crate::{Node, Setting};
use class_decls::Name;
use ocl_rules::{TypeFault, Typed};
use ocl_scope::{Environment, Given, TypeArgument, type_named, type_test};
use ocl_shapes::{are_plain, asked_name, expression_of, start_of, type_found, written_type};
use ocl_syntax::{Argument, Written};
use use_lists::Items;

impl<F> Node<'_, F>
where
    F: Fn(&Setting<'_>, &mut Environment, &Written) -> Result<Typed, TypeFault>,
{
    /// A part that may be left out.
    fn part_if(
        &self,
        env: &mut Environment,
        written: Option<&Written>,
    ) -> Result<Option<Typed>, TypeFault>
        requires parts { Types self.now.setting.nesting (F.pre self.now.type_of) (F.post self.now.type_of) }
        requires room { HasRoom 0 self.now.setting.nesting env.old }
        ensures value { Tells (if_there (part_in self.now.setting env.old) (option_copied written.entry)) result }
        ensures environment { env.new ≡ env.old }
    {
        match written {
            None => Ok(None),
            Some(written) => {
                let typed = self.part(env, written)?;
                Ok(Some(typed))
            }
        }
    }

    /// What stands behind the first expression of an argument.
    #[tactic(auto, unfolding(crate::specs::Nodes::behind))]
    fn behind(&self, env: &mut Environment, argument: &Argument) -> Result<Option<Typed>, TypeFault>
        requires parts { Types self.now.setting.nesting (F.pre self.now.type_of) (F.post self.now.type_of) }
        requires room { HasRoom 0 self.now.setting.nesting env.old }
        ensures value { Tells (behind (scene self.now.setting) (part_in self.now.setting) env.old argument.now) result }
        ensures environment { env.new ≡ env.old }
    {
        let _ = self.declared(env, written_type(argument))?;
        self.part_if(env, start_of(argument))
    }

    #[tactic(auto, unfolding(crate::specs::Nodes::argument_value))]
    fn argument_value(&self, env: &mut Environment, argument: &Argument) -> Result<Typed, TypeFault>
        requires parts { Types self.now.setting.nesting (F.pre self.now.type_of) (F.post self.now.type_of) }
        requires room { HasRoom 0 self.now.setting.nesting env.old }
        ensures value { Tells (argument_value (scene self.now.setting) (part_in self.now.setting) env.old argument.now) result }
        ensures environment { env.new ≡ env.old }
    {
        let typed = self.part(env, expression_of(argument))?;
        let _ = self.behind(env, argument)?;
        Ok(typed)
    }

    /// The values of arguments, in the order of the text.
    #[tactic(auto, unfolding(crate::specs::Nodes::values))]
    pub(crate) fn values(
        &self,
        env: &mut Environment,
        arguments: &[Argument],
    ) -> Result<Items<Typed>, TypeFault>
        requires parts { Types self.now.setting.nesting (F.pre self.now.type_of) (F.post self.now.type_of) }
        requires room { HasRoom 0 self.now.setting.nesting env.old }
        ensures value { Tells (values (scene self.now.setting) (part_in self.now.setting) env.old [] arguments.now) result }
        ensures environment { env.new ≡ env.old }
    {
        let mut done = Items::new(self.setting.alloc);
        let mut rest = arguments;
        'arguments: while let [argument, more @ ..] = rest {
            let typed = self.argument_value(env, argument)?;
            done.push(typed)?;
            rest = more;
        }
        Ok(done)
    }

    /// What is no type where one is wanted.
    fn no_type(&self, env: &mut Environment, written: &Written) -> Result<TypeArgument, TypeFault>
        requires parts { Types self.now.setting.nesting (F.pre self.now.type_of) (F.post self.now.type_of) }
        requires room { HasRoom 0 self.now.setting.nesting env.old }
        ensures value { Tells (no_type (scene self.now.setting) (part_in self.now.setting) env.old written.now) result }
        ensures environment { env.new ≡ env.old }
    {
        let _ = self.part(env, written)?;
        Ok(TypeArgument::NoType(written.first_place()))
    }

    fn asked(
        &self,
        env: &mut Environment,
        written: &Written,
        name: Option<&Name>,
    ) -> Result<TypeArgument, TypeFault>
        requires parts { Types self.now.setting.nesting (F.pre self.now.type_of) (F.post self.now.type_of) }
        requires room { HasRoom 0 self.now.setting.nesting env.old }
        ensures value { Tells (asked (scene self.now.setting)
            (part_in self.now.setting) env.old written.now (option_copied name.entry)) result }
        ensures environment { env.new ≡ env.old }
    {
        match name {
            None => self.no_type(env, written),
            Some(name) => {
                let found = type_named(self.setting.model, name.text.as_str());
                type_found(self.setting.model, env, name, found)
            }
        }
    }

    #[tactic(auto, unfolding(crate::specs::Nodes::type_argument))]
    fn type_argument(
        &self,
        env: &mut Environment,
        argument: &Argument,
    ) -> Result<TypeArgument, TypeFault>
        requires parts { Types self.now.setting.nesting (F.pre self.now.type_of) (F.post self.now.type_of) }
        requires room { HasRoom 0 self.now.setting.nesting env.old }
        ensures value { Tells (type_argument (scene self.now.setting) (part_in self.now.setting) env.old argument.now) result }
        ensures environment { env.new ≡ env.old }
    {
        let asked = self.asked(env, expression_of(argument), asked_name(argument))?;
        let _ = self.behind(env, argument)?;
        Ok(asked)
    }

    #[tactic(auto, unfolding(crate::specs::Nodes::types))]
    fn types(
        &self,
        env: &mut Environment,
        arguments: &[Argument],
    ) -> Result<Items<TypeArgument>, TypeFault>
        requires parts { Types self.now.setting.nesting (F.pre self.now.type_of) (F.post self.now.type_of) }
        requires room { HasRoom 0 self.now.setting.nesting env.old }
        ensures value { Tells (types (scene self.now.setting) (part_in self.now.setting) env.old [] arguments.now) result }
        ensures environment { env.new ≡ env.old }
    {
        let mut done = Items::new(self.setting.alloc);
        let mut rest = arguments;
        'arguments: while let [argument, more @ ..] = rest {
            let asked = self.type_argument(env, argument)?;
            done.push(asked)?;
            rest = more;
        }
        Ok(done)
    }

    /// The arguments of a call.
    #[tactic(auto, unfolding(crate::specs::Nodes::given))]
    pub(crate) fn given(
        &self,
        env: &mut Environment,
        name: &Name,
        arguments: &[Argument],
    ) -> Result<Given, TypeFault>
        requires parts { Types self.now.setting.nesting (F.pre self.now.type_of) (F.post self.now.type_of) }
        requires room { HasRoom 0 self.now.setting.nesting env.old }
        ensures value { Tells (given (scene self.now.setting) (part_in self.now.setting) env.old name.now arguments.now) result }
        ensures environment { env.new ≡ env.old }
    {
        if type_test(name.text.as_str()).is_some() {
            let types = self.types(env, arguments)?;
            Ok(Given::Types(types, are_plain(arguments)))
        } else {
            let values = self.values(env, arguments)?;
            Ok(Given::Values(values, are_plain(arguments)))
        }
    }
}
