ghost use Rattle.std.specs.Prelude.{◌≡◌, None, Some};
ghost use Rattle.std.specs.Option.{option_copied};
ghost use Rattle.ocl_rules.specs.Typings.{Tells};
ghost use Rattle.ocl_shapes.specs.Shapes.{accumulator_name, body_of, start_of, variable_name, written_type};
ghost use Rattle.ocl_types.specs.Nodes.{accumulate, accumulate_by, accumulate_in, accumulation, arrow, bound, iteration, iterator, over};
ghost use Rattle.ocl_types.specs.Nodes.{under_two, with_body, with_one, with_two};
ghost use Rattle.ocl_types.specs.Parts.{HasRoom, Types, part_in, scene};

use crate::node::bound;
use crate::{Node, Setting};
use class_decls::{Name, TypeDecl};
use class_model::OclType;
use ocl_core::IterOp;
use ocl_rules::{TypeFault, Typed, collection_operation};
use ocl_scope::{Environment, declared_type};
use ocl_shapes::{
    Elements, accumulated, accumulates, accumulator_name, alone, are_plain, body_of, elements_of,
    iterated, iterator_named, malformed, may_have_two, operation_called, or_none, start_of,
    variable_name, written_type,
};
use ocl_syntax::{Argument, Written};
use use_lists::Items;
use use_text::Place;

impl<F> Node<'_, F>
where
    F: Fn(&Setting<'_>, &mut Environment, &Written) -> Result<Typed, TypeFault>,
{
    /// An iterator with a body alone: its variable has no name.
    fn with_body(
        &self,
        env: &mut Environment,
        op: IterOp,
        name: &Name,
        elements: Elements,
        body: Option<&Written>,
    ) -> Result<Typed, TypeFault>
        requires parts { Types self.now.setting.nesting (F.pre self.now.type_of) (F.post self.now.type_of) }
        requires room { HasRoom 256 self.now.setting.nesting env.old }
        ensures value { Tells (with_body (scene self.now.setting)
            (part_in self.now.setting) env.old op name.now elements (option_copied body.entry)) result }
        ensures environment { env.new ≡ env.old }
    {
        match body {
            None => Err(malformed(name)),
            Some(body) => {
                let of_type = elements.element.try_copy(self.setting.alloc)?;
                let x = self.under_implicit(env, of_type, body)?;
                iterated(
                    self.setting.alloc,
                    self.setting.model,
                    name,
                    op,
                    elements,
                    1,
                    &[],
                    body.first_place(),
                    x,
                )
            }
        }
    }

    /// An iterator with one variable.
    fn one_bound(
        &self,
        env: &mut Environment,
        op: IterOp,
        name: &Name,
        elements: Elements,
        variable: &Name,
        of_type: Option<&TypeDecl>,
        body: &Written,
    ) -> Result<Typed, TypeFault>
        requires parts { Types self.now.setting.nesting (F.pre self.now.type_of) (F.post self.now.type_of) }
        requires room { HasRoom 256 self.now.setting.nesting env.old }
        ensures value { Tells (with_one (scene self.now.setting) (part_in self.now.setting)
            env.old op name.now elements (Some variable.now) (option_copied of_type.entry) (Some body.now)) result }
        ensures environment { env.new ≡ env.old }
    {
        let declared = self.declared(env, of_type)?;
        let of_type = bound(self.setting.alloc, &declared, &elements.element)?;
        let x = self.under(env, variable, of_type, body)?;
        let variables = [declared];
        iterated(
            self.setting.alloc,
            self.setting.model,
            name,
            op,
            elements,
            1,
            &variables,
            body.first_place(),
            x,
        )
    }

    fn with_one(
        &self,
        env: &mut Environment,
        op: IterOp,
        name: &Name,
        elements: Elements,
        first: &Argument,
        second: &Argument,
    ) -> Result<Typed, TypeFault>
        requires parts { Types self.now.setting.nesting (F.pre self.now.type_of) (F.post self.now.type_of) }
        requires room { HasRoom 256 self.now.setting.nesting env.old }
        ensures value { Tells (with_one (scene self.now.setting) (part_in self.now.setting)
            env.old op name.now elements (variable_name first.now) (written_type first.now) (body_of second.now)) result }
        ensures environment { env.new ≡ env.old }
    {
        let Some(variable) = variable_name(first) else {
            return Err(malformed(name));
        };
        let Some(body) = body_of(second) else {
            return Err(malformed(name));
        };
        let of_type = written_type(first);
        self.one_bound(env, op, name, elements, variable, of_type, body)
    }

    /// The types of two variables of an iterator, and its body.
    fn two_bound(
        &self,
        env: &mut Environment,
        op: IterOp,
        name: &Name,
        elements: Elements,
        variables: (&Name, &Name),
        types: (Option<&TypeDecl>, Option<&TypeDecl>),
        body: &Written,
    ) -> Result<Typed, TypeFault>
        requires parts { Types self.now.setting.nesting (F.pre self.now.type_of) (F.post self.now.type_of) }
        requires room { HasRoom 256 self.now.setting.nesting env.old }
        ensures value { Tells (with_two (scene self.now.setting) (part_in self.now.setting) env.old op name.now elements
            (Some variables.entry.0.now) (option_copied types.entry.0) (Some variables.entry.1.now) (option_copied types.entry.1) (Some body.now)) result }
        ensures environment { env.new ≡ env.old }
    {
        let alloc = self.setting.alloc;
        let one = self.declared(env, types.0)?;
        let two = self.declared(env, types.1)?;
        let first = bound(alloc, &one, &elements.element)?;
        let second = bound(alloc, &two, &elements.element)?;
        let x = self.under_two(env, variables.0, first, variables.1, second, body)?;
        let declared = [one, two];
        iterated(
            self.setting.alloc,
            self.setting.model,
            name,
            op,
            elements,
            2,
            &declared,
            body.first_place(),
            x,
        )
    }

    fn with_two(
        &self,
        env: &mut Environment,
        op: IterOp,
        name: &Name,
        elements: Elements,
        first: &Argument,
        second: &Argument,
        third: &Argument,
    ) -> Result<Typed, TypeFault>
        requires parts { Types self.now.setting.nesting (F.pre self.now.type_of) (F.post self.now.type_of) }
        requires room { HasRoom 256 self.now.setting.nesting env.old }
        ensures value { Tells (with_two (scene self.now.setting) (part_in self.now.setting) env.old op name.now elements
            (variable_name first.now) (written_type first.now) (variable_name second.now) (written_type second.now) (body_of third.now)) result }
        ensures environment { env.new ≡ env.old }
    {
        let Some(one) = variable_name(first) else {
            return Err(malformed(name));
        };
        let Some(two) = variable_name(second) else {
            return Err(malformed(name));
        };
        let Some(body) = body_of(third) else {
            return Err(malformed(name));
        };
        let types = (written_type(first), written_type(second));
        self.two_bound(env, op, name, elements, (one, two), types, body)
    }

    /// The body of `iterate`, where its variable and what is accumulated are bound.
    fn accumulating(
        &self,
        env: &mut Environment,
        element: &OclType,
        variables: (&Name, &Name),
        declared: &Option<OclType>,
        of_type: &OclType,
        body: &Written,
    ) -> Result<Typed, TypeFault>
        requires parts { Types self.now.setting.nesting (F.pre self.now.type_of) (F.post self.now.type_of) }
        requires room { HasRoom 256 self.now.setting.nesting env.old }
        ensures value { Tells (under_two (scene self.now.setting) (part_in self.now.setting) env.old
            variables.entry.0.now (bound declared.now element.now) variables.entry.1.now of_type.now body.now) result }
        ensures environment { env.new ≡ env.old }
    {
        let first = bound(self.setting.alloc, declared, element)?;
        let second = of_type.try_copy(self.setting.alloc)?;
        self.under_two(env, variables.0, first, variables.1, second, body)
    }

    /// The rest of `iterate`, where its start is typed.
    fn accumulate_in(
        &self,
        env: &mut Environment,
        name: &Name,
        elements: Elements,
        variables: (&Name, &Name),
        declared: &Option<OclType>,
        of_type: OclType,
        start_place: Place,
        body: &Written,
        start: Typed,
    ) -> Result<Typed, TypeFault>
        requires parts { Types self.now.setting.nesting (F.pre self.now.type_of) (F.post self.now.type_of) }
        requires room { HasRoom 256 self.now.setting.nesting env.old }
        ensures value { Tells (accumulate_in (scene self.now.setting) (part_in self.now.setting) env.old name.now elements
            variables.entry.0.now variables.entry.1.now declared.now of_type start_place body.now start) result }
        ensures environment { env.new ≡ env.old }
    {
        let y = self.accumulating(env, &elements.element, variables, declared, &of_type, body)?;
        let places = (start_place, body.first_place());
        accumulated(
            self.setting.alloc,
            self.setting.model,
            name,
            elements,
            declared,
            of_type,
            places,
            start,
            y,
        )
    }

    /// `iterate`, by its variable and what is accumulated.
    fn accumulator_bound(
        &self,
        env: &mut Environment,
        name: &Name,
        elements: Elements,
        variables: (&Name, &Name),
        types: (Option<&TypeDecl>, &TypeDecl),
        start: &Written,
        body: &Written,
    ) -> Result<Typed, TypeFault>
        requires parts { Types self.now.setting.nesting (F.pre self.now.type_of) (F.post self.now.type_of) }
        requires room { HasRoom 256 self.now.setting.nesting env.old }
        ensures value { Tells (accumulate_by (scene self.now.setting) (part_in self.now.setting) env.old name.now elements
            variables.entry.0.now (option_copied types.entry.0) variables.entry.1.now (Some types.entry.1.now)
            (Some start.now) body.now) result }
        ensures environment { env.new ≡ env.old }
    {
        let declared = self.declared(env, types.0)?;
        let of_type = declared_type(self.setting.alloc, self.setting.model, env, types.1)?;
        let x = self.part(env, start)?;
        let start_place = start.first_place();
        self.accumulate_in(
            env,
            name,
            elements,
            variables,
            &declared,
            of_type,
            start_place,
            body,
            x,
        )
    }

    /// `iterate`, by the names of its variable and of what is accumulated.
    fn accumulate_by(
        &self,
        env: &mut Environment,
        name: &Name,
        elements: Elements,
        variables: (&Name, &Name),
        declared: Option<&TypeDecl>,
        accumulator: &Argument,
        body: &Written,
    ) -> Result<Typed, TypeFault>
        requires parts { Types self.now.setting.nesting (F.pre self.now.type_of) (F.post self.now.type_of) }
        requires room { HasRoom 256 self.now.setting.nesting env.old }
        ensures value { Tells (accumulate_by (scene self.now.setting) (part_in self.now.setting) env.old name.now elements
            variables.entry.0.now (option_copied declared.entry) variables.entry.1.now (written_type accumulator.now)
            (start_of accumulator.now) body.now) result }
        ensures environment { env.new ≡ env.old }
    {
        let Some(of_type) = written_type(accumulator) else {
            return Err(malformed(name));
        };
        let Some(start) = start_of(accumulator) else {
            return Err(malformed(name));
        };
        let types = (declared, of_type);
        self.accumulator_bound(env, name, elements, variables, types, start, body)
    }

    fn accumulate(
        &self,
        env: &mut Environment,
        name: &Name,
        elements: Elements,
        first: &Argument,
        second: &Argument,
        third: &Argument,
    ) -> Result<Typed, TypeFault>
        requires parts { Types self.now.setting.nesting (F.pre self.now.type_of) (F.post self.now.type_of) }
        requires room { HasRoom 256 self.now.setting.nesting env.old }
        ensures value { Tells (accumulate (scene self.now.setting) (part_in self.now.setting) env.old name.now elements
            (variable_name first.now) (written_type first.now) (accumulator_name second.now) (written_type second.now)
            (start_of second.now) (body_of third.now)) result }
        ensures environment { env.new ≡ env.old }
    {
        let Some(one) = variable_name(first) else {
            return Err(malformed(name));
        };
        let Some(two) = accumulator_name(second) else {
            return Err(malformed(name));
        };
        let Some(body) = body_of(third) else {
            return Err(malformed(name));
        };
        let declared = written_type(first);
        self.accumulate_by(env, name, elements, (one, two), declared, second, body)
    }

    #[tactic(auto, unfolding(crate::specs::Nodes::accumulation))]
    fn accumulation(
        &self,
        env: &mut Environment,
        name: &Name,
        elements: Elements,
        arguments: &[Argument],
    ) -> Result<Typed, TypeFault>
        requires parts { Types self.now.setting.nesting (F.pre self.now.type_of) (F.post self.now.type_of) }
        requires room { HasRoom 256 self.now.setting.nesting env.old }
        ensures value { Tells (accumulation (scene self.now.setting) (part_in self.now.setting) env.old name.now elements arguments.now) result }
        ensures environment { env.new ≡ env.old }
    {
        match arguments {
            [first, second, third] => self.accumulate(env, name, elements, first, second, third),
            _ => Err(malformed(name)),
        }
    }

    #[tactic(auto, unfolding(crate::specs::Nodes::iteration))]
    fn iteration(
        &self,
        env: &mut Environment,
        op: IterOp,
        name: &Name,
        elements: Elements,
        arguments: &[Argument],
    ) -> Result<Typed, TypeFault>
        requires parts { Types self.now.setting.nesting (F.pre self.now.type_of) (F.post self.now.type_of) }
        requires room { HasRoom 256 self.now.setting.nesting env.old }
        ensures value { Tells (iteration (scene self.now.setting) (part_in self.now.setting) env.old op name.now elements arguments.now) result }
        ensures environment { env.new ≡ env.old }
    {
        match arguments {
            [one] => self.with_body(env, op, name, elements, alone(one)),
            [first, second] => self.with_one(env, op, name, elements, first, second),
            [first, second, third] => {
                if may_have_two(op) {
                    self.with_two(env, op, name, elements, first, second, third)
                } else {
                    Err(malformed(name))
                }
            }
            _ => Err(malformed(name)),
        }
    }

    fn iterator(
        &self,
        env: &mut Environment,
        op: IterOp,
        name: &Name,
        elements: Elements,
        arguments: &[Argument],
    ) -> Result<Typed, TypeFault>
        requires parts { Types self.now.setting.nesting (F.pre self.now.type_of) (F.post self.now.type_of) }
        requires room { HasRoom 256 self.now.setting.nesting env.old }
        ensures value { Tells (iterator (scene self.now.setting) (part_in self.now.setting) env.old op name.now elements arguments.now) result }
        ensures environment { env.new ≡ env.old }
    {
        if accumulates(op) {
            self.accumulation(env, name, elements, arguments)
        } else {
            self.iteration(env, op, name, elements, arguments)
        }
    }

    fn operation(
        &self,
        env: &mut Environment,
        name: &Name,
        elements: Elements,
        arguments: &[Argument],
    ) -> Result<Typed, TypeFault>
        requires parts { Types self.now.setting.nesting (F.pre self.now.type_of) (F.post self.now.type_of) }
        requires room { HasRoom 256 self.now.setting.nesting env.old }
        ensures value { Tells (over (scene self.now.setting) (part_in self.now.setting) env.old name.now elements arguments.now None) result }
        ensures environment { env.new ≡ env.old }
    {
        let args = self.values(env, arguments)?;
        let found = collection_operation(name.text.as_str());
        operation_called(
            self.setting.alloc,
            self.setting.model,
            name,
            elements,
            args,
            are_plain(arguments),
            found,
        )
    }

    fn over(
        &self,
        env: &mut Environment,
        name: &Name,
        elements: Elements,
        arguments: &[Argument],
        op: Option<IterOp>,
    ) -> Result<Typed, TypeFault>
        requires parts { Types self.now.setting.nesting (F.pre self.now.type_of) (F.post self.now.type_of) }
        requires room { HasRoom 256 self.now.setting.nesting env.old }
        ensures value { Tells (over (scene self.now.setting) (part_in self.now.setting) env.old name.now elements arguments.now op) result }
        ensures environment { env.new ≡ env.old }
    {
        match op {
            Some(op) => self.iterator(env, op, name, elements, arguments),
            None => self.operation(env, name, elements, arguments),
        }
    }

    /// What stands behind an arrow.
    #[tactic(auto, unfolding(crate::specs::Nodes::arrow))]
    #[inline(never)]
    pub(crate) fn arrow(
        &self,
        env: &mut Environment,
        source: &Written,
        name: &Name,
        arguments: &Option<Items<Argument>>,
    ) -> Result<Typed, TypeFault>
        requires parts { Types self.now.setting.nesting (F.pre self.now.type_of) (F.post self.now.type_of) }
        requires room { HasRoom 256 self.now.setting.nesting env.old }
        ensures value { Tells (arrow (scene self.now.setting) (part_in self.now.setting) env.old source.now name.now arguments.now) result }
        ensures environment { env.new ≡ env.old }
    {
        let x = self.part(env, source)?;
        let elements = elements_of(self.setting.alloc, x)?;
        let op = iterator_named(name.text.as_str());
        self.over(env, name, elements, or_none(arguments), op)
    }
}
