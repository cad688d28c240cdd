ghost use Rattle.std.specs.Prelude.{◌≡◌, ◌≤◌, [], if◌then◌else◌};
ghost use Rattle.ocl_rules.specs.Forms.{levels, max_levels};
ghost use Rattle.ocl_rules.specs.Typings.{Tells};
ghost use Rattle.ocl_scope.specs.Environments.{with_values};
ghost use Rattle.ocl_shapes.specs.Combining.{if_there};
ghost use Rattle.ocl_types.specs.Nodes.{all_instances, call, dot, given, named, read_or_called, values};
ghost use Rattle.ocl_types.specs.Parts.{HasRoom, Types, part_in, scene};

use crate::{Node, Setting};
use class_decls::Name;
use class_model::OclType;
use ocl_rules::{TypeFault, Typed, levels};
use ocl_scope::{Environment, Given, type_named};
use ocl_shapes::{asks_elements, called, class_asked, extent, has_none, named_by, property};
use ocl_syntax::{Argument, Written};
use use_lists::{Boxed, Items};

impl<F> Node<'_, F>
where
    F: Fn(&Setting<'_>, &mut Environment, &Written) -> Result<Typed, TypeFault>,
{
    fn given_if(
        &self,
        env: &mut Environment,
        name: &Name,
        arguments: &Option<Items<Argument>>,
    ) -> Result<Option<Given>, TypeFault>
        requires parts { Types self.now.setting.nesting (F.pre self.now.type_of) (F.post self.now.type_of) }
        requires room { HasRoom 0 self.now.setting.nesting env.old }
        ensures value { Tells (if_there (given (scene self.now.setting) (part_in self.now.setting) env.old name.now) arguments.now) result }
        ensures environment { env.new ≡ env.old }
    {
        match arguments {
            None => Ok(None),
            Some(arguments) => {
                let given = self.given(env, name, arguments.as_slice())?;
                Ok(Some(given))
            }
        }
    }

    #[tactic(auto, unfolding(crate::specs::Nodes::named))]
    #[inline(never)]
    pub(crate) fn named(
        &self,
        env: &mut Environment,
        name: &Name,
        literal: &Option<Boxed<Name>>,
        is_before: bool,
        arguments: &Option<Items<Argument>>,
    ) -> Result<Typed, TypeFault>
        requires parts { Types self.now.setting.nesting (F.pre self.now.type_of) (F.post self.now.type_of) }
        requires room { HasRoom 256 self.now.setting.nesting env.old }
        ensures value { Tells (named (scene self.now.setting)
            (part_in self.now.setting) env.old name.now literal.now is_before arguments.now) result }
        ensures environment { env.new ≡ env.old }
    {
        let given = self.given_if(env, name, arguments)?;
        named_by(
            self.setting.alloc,
            self.setting.model,
            self.setting.is_post,
            env,
            name,
            is_before,
            literal,
            given,
        )
    }

    fn values_if(
        &self,
        env: &mut Environment,
        arguments: &Option<Items<Argument>>,
    ) -> Result<Option<Items<Typed>>, TypeFault>
        requires parts { Types self.now.setting.nesting (F.pre self.now.type_of) (F.post self.now.type_of) }
        requires room { HasRoom 0 self.now.setting.nesting env.old }
        ensures value { Tells (if_there (values (scene self.now.setting) (part_in self.now.setting) env.old []) arguments.now) result }
        ensures environment { env.new ≡ env.old }
    {
        match arguments {
            None => Ok(None),
            Some(arguments) => {
                let values = self.values(env, arguments.as_slice())?;
                Ok(Some(values))
            }
        }
    }

    #[tactic(auto, unfolding(crate::specs::Nodes::all_instances))]
    fn all_instances(
        &self,
        env: &mut Environment,
        class: &Name,
        name: &Name,
        is_before: bool,
        arguments: &Option<Items<Argument>>,
    ) -> Result<Typed, TypeFault>
        requires parts { Types self.now.setting.nesting (F.pre self.now.type_of) (F.post self.now.type_of) }
        requires room { HasRoom 256 self.now.setting.nesting env.old }
        ensures value { Tells (all_instances (scene self.now.setting)
            (part_in self.now.setting) env.old class.now name.now is_before arguments.now) result }
        ensures environment { env.new ≡ env.old }
    {
        let _ = self.values_if(env, arguments)?;
        let found = type_named(self.setting.model, class.text.as_str());
        extent(
            self.setting.alloc,
            self.setting.model,
            self.setting.is_post,
            env,
            class,
            name,
            is_before,
            has_none(arguments),
            found,
        )
    }

    /// The arguments of a call of the elements of a collection, which stand where the elements have
    /// numbers.
    #[tactic(auto, using(crate::proofs::Leaving::left_some))]
    fn given_behind(
        &self,
        env: &mut Environment,
        count: u32,
        name: &Name,
        arguments: &[Argument],
    ) -> Result<Given, TypeFault>
        requires parts { Types self.now.setting.nesting (F.pre self.now.type_of) (F.post self.now.type_of) }
        requires count { count ≤ max_levels }
        requires room { HasRoom 256 self.now.setting.nesting env.old }
        ensures value { Tells (given (scene self.now.setting)
            (part_in self.now.setting) (with_values env.old count) name.now arguments.now) result }
        ensures environment { env.new ≡ env.old }
    {
        let scope = env.scope();
        env.push_values(count);
        let given = self.given(env, name, arguments);
        env.leave(scope);
        given
    }

    fn given_for(
        &self,
        env: &mut Environment,
        of_elements: bool,
        of_type: &OclType,
        name: &Name,
        arguments: &[Argument],
    ) -> Result<Given, TypeFault>
        requires parts { Types self.now.setting.nesting (F.pre self.now.type_of) (F.post self.now.type_of) }
        requires shallow { levels of_type.now ≤ max_levels }
        requires room { HasRoom 256 self.now.setting.nesting env.old }
        ensures value { Tells (given (scene self.now.setting) (part_in self.now.setting)
            (if of_elements then with_values env.old (levels of_type.now) else env.old) name.now arguments.now) result }
        ensures environment { env.new ≡ env.old }
    {
        if of_elements {
            self.given_behind(env, levels(of_type), name, arguments)
        } else {
            self.given(env, name, arguments)
        }
    }

    #[tactic(auto, unfolding(crate::specs::Nodes::call))]
    fn call(
        &self,
        env: &mut Environment,
        name: &Name,
        is_before: bool,
        source: Typed,
        arguments: &[Argument],
    ) -> Result<Typed, TypeFault>
        requires parts { Types self.now.setting.nesting (F.pre self.now.type_of) (F.post self.now.type_of) }
        requires shallow { levels source.of_type ≤ max_levels }
        requires room { HasRoom 256 self.now.setting.nesting env.old }
        ensures value { Tells (call (scene self.now.setting)
            (part_in self.now.setting) env.old name.now is_before source arguments.now) result }
        ensures environment { env.new ≡ env.old }
    {
        let of_elements = asks_elements(&source.of_type, name.text.as_str());
        let given = self.given_for(env, of_elements, &source.of_type, name, arguments)?;
        called(
            self.setting.alloc,
            self.setting.model,
            self.setting.is_post,
            env,
            name,
            is_before,
            source,
            of_elements,
            given,
        )
    }

    fn read_or_called(
        &self,
        env: &mut Environment,
        name: &Name,
        is_before: bool,
        source: Typed,
        arguments: &Option<Items<Argument>>,
    ) -> Result<Typed, TypeFault>
        requires parts { Types self.now.setting.nesting (F.pre self.now.type_of) (F.post self.now.type_of) }
        requires shallow { levels source.of_type ≤ max_levels }
        requires room { HasRoom 256 self.now.setting.nesting env.old }
        ensures value { Tells (read_or_called (scene self.now.setting)
            (part_in self.now.setting) env.old name.now is_before source arguments.now) result }
        ensures environment { env.new ≡ env.old }
    {
        match arguments {
            None => property(
                self.setting.alloc,
                self.setting.model,
                self.setting.is_post,
                env,
                name,
                is_before,
                source,
            ),
            Some(arguments) => self.call(env, name, is_before, source, arguments.as_slice()),
        }
    }

    /// What stands behind a dot.
    #[tactic(auto, unfolding(crate::specs::Nodes::dot))]
    #[inline(never)]
    pub(crate) fn dot(
        &self,
        env: &mut Environment,
        source: &Written,
        name: &Name,
        is_before: bool,
        arguments: &Option<Items<Argument>>,
    ) -> Result<Typed, TypeFault>
        requires parts { Types self.now.setting.nesting (F.pre self.now.type_of) (F.post self.now.type_of) }
        requires room { HasRoom 256 self.now.setting.nesting env.old }
        ensures value { Tells (dot (scene self.now.setting)
            (part_in self.now.setting) env.old source.now name.now is_before arguments.now) result }
        ensures environment { env.new ≡ env.old }
    {
        match class_asked(source, name) {
            Some(class) => self.all_instances(env, class, name, is_before, arguments),
            None => {
                let x = self.part(env, source)?;
                self.read_or_called(env, name, is_before, x, arguments)
            }
        }
    }
}
