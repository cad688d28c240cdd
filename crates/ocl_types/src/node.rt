ghost use Rattle.std.specs.Prelude.{◌≡◌, [], IfOk, Ok};
ghost use Rattle.std.specs.Option.{option_copied};
ghost use Rattle.ocl_rules.specs.Typings.{Tells};
ghost use Rattle.ocl_scope.specs.Names.{declared_if};
ghost use Rattle.ocl_types.specs.Nodes.{bind, binary, bound, choice, collection, literal, part, parts, unary, under, under_two, with_implicit};
ghost use Rattle.ocl_types.specs.Parts.{HasRoom, IsShallow, Types, part_in, scene};

use crate::Setting;
use class_decls::{Name, TypeDecl};
use class_model::OclType;
use ocl_core::Expr;
use ocl_rules::{
    TypeFault, Typed, TypedPart, binary_rule, collection_rule, if_rule, let_rule, unary_rule,
};
use ocl_scope::{Environment, declared_type, literal_type};
use ocl_syntax::{Written, WrittenBinary, WrittenLiteral, WrittenPart, WrittenUnary};
use ocl_values::{Kind, Text};
use std::alloc::{AllocError, Global};
use use_lists::{Boxed, Items};
use use_text::Place;

/// A node, by what types its parts.
#[derive(Drop)]
pub(crate) struct Node<'a, F> {
    pub(crate) setting: Setting<'a>,
    pub(crate) type_of: F,
}

/// A literal.
pub(crate) fn literal(alloc: Global, said: &WrittenLiteral) -> Result<Typed, AllocError>
    ensures { IfOk result (λ x. literal said.now ≡ Ok x) }
{
    let value = said.value(alloc)?;
    let of_type = literal_type(&value);
    Ok(Typed {
        expr: Expr::Literal(value),
        of_type,
    })
}

fn unboxed(written: &Option<Boxed<TypeDecl>>) -> Option<&TypeDecl>
    ensures { option_copied result ≡ written.now }
{
    match written {
        None => None,
        Some(written) => Some(written.get()),
    }
}

/// The type of a variable: the one that is declared, or else that of its value.
pub(crate) fn bound(
    alloc: Global,
    declared: &Option<OclType>,
    of_type: &OclType,
) -> Result<OclType, AllocError>
    ensures { IfOk result (λ t. t ≡ bound declared.now of_type.now) }
{
    match declared {
        None => of_type.try_copy(alloc),
        Some(declared) => declared.try_copy(alloc),
    }
}

impl<F> Node<'_, F>
where
    F: Fn(&Setting<'_>, &mut Environment, &Written) -> Result<Typed, TypeFault>,
{
    /// The type of a part.
    pub(crate) fn part(&self, env: &mut Environment, written: &Written) -> Result<Typed, TypeFault>
        requires parts { Types self.now.setting.nesting (F.pre self.now.type_of) (F.post self.now.type_of) }
        requires room { HasRoom 0 self.now.setting.nesting env.old }
        ensures value { Tells (part_in self.now.setting env.old written.now) result }
        ensures shallow { IfOk result IsShallow }
        ensures environment { env.new ≡ env.old }
    {
        (self.type_of)(&self.setting, env, written)
    }

    /// The type that is written, if one is.
    pub(crate) fn declared(
        &self,
        env: &Environment,
        written: Option<&TypeDecl>,
    ) -> Result<Option<OclType>, TypeFault>
        ensures { Tells (declared_if self.now.setting.model.now env.now (option_copied written.entry)) result }
    {
        match written {
            None => Ok(None),
            Some(written) => {
                let of_type = declared_type(self.setting.alloc, self.setting.model, env, written)?;
                Ok(Some(of_type))
            }
        }
    }

    /// An expression where one more name is bound.
    #[tactic(auto, using(crate::proofs::Leaving::left_one))]
    pub(crate) fn under(
        &self,
        env: &mut Environment,
        name: &Name,
        of_type: OclType,
        body: &Written,
    ) -> Result<Typed, TypeFault>
        requires parts { Types self.now.setting.nesting (F.pre self.now.type_of) (F.post self.now.type_of) }
        requires room { HasRoom 1 self.now.setting.nesting env.old }
        ensures value { Tells (under (scene self.now.setting) (part_in self.now.setting) env.old name.now of_type body.now) result }
        ensures environment { env.new ≡ env.old }
    {
        let scope = env.scope();
        let text = Text::copy_of(self.setting.alloc, name.text.as_str())?;
        env.push(Some(text), of_type, false)?;
        let typed = self.part(env, body);
        env.leave(scope);
        typed
    }

    /// An expression where two more names are bound, of which the second is found first.
    #[tactic(auto, using(crate::proofs::Leaving::left_one))]
    pub(crate) fn under_two(
        &self,
        env: &mut Environment,
        name: &Name,
        of_type: OclType,
        inner: &Name,
        inner_type: OclType,
        body: &Written,
    ) -> Result<Typed, TypeFault>
        requires parts { Types self.now.setting.nesting (F.pre self.now.type_of) (F.post self.now.type_of) }
        requires room { HasRoom 2 self.now.setting.nesting env.old }
        ensures value { Tells (under_two (scene self.now.setting)
            (part_in self.now.setting) env.old name.now of_type inner.now inner_type body.now) result }
        ensures environment { env.new ≡ env.old }
    {
        let scope = env.scope();
        let text = Text::copy_of(self.setting.alloc, name.text.as_str())?;
        env.push(Some(text), of_type, false)?;
        let typed = self.under(env, inner, inner_type, body);
        env.leave(scope);
        typed
    }

    /// An expression where a variable without a name is bound.
    #[tactic(auto, using(crate::proofs::Leaving::left_one))]
    pub(crate) fn under_implicit(
        &self,
        env: &mut Environment,
        of_type: OclType,
        body: &Written,
    ) -> Result<Typed, TypeFault>
        requires parts { Types self.now.setting.nesting (F.pre self.now.type_of) (F.post self.now.type_of) }
        requires room { HasRoom 1 self.now.setting.nesting env.old }
        ensures value { Tells (part_in self.now.setting (with_implicit env.old of_type) body.now) result }
        ensures environment { env.new ≡ env.old }
    {
        let scope = env.scope();
        env.push(None, of_type, true)?;
        let typed = self.part(env, body);
        env.leave(scope);
        typed
    }

    #[tactic(auto, unfolding(crate::specs::Nodes::unary))]
    #[inline(never)]
    pub(crate) fn unary(
        &self,
        env: &mut Environment,
        place: Place,
        op: WrittenUnary,
        operand: &Written,
    ) -> Result<Typed, TypeFault>
        requires parts { Types self.now.setting.nesting (F.pre self.now.type_of) (F.post self.now.type_of) }
        requires room { HasRoom 256 self.now.setting.nesting env.old }
        ensures value { Tells (unary (scene self.now.setting) (part_in self.now.setting) env.old place op operand.now) result }
        ensures environment { env.new ≡ env.old }
    {
        let x = self.part(env, operand)?;
        unary_rule(self.setting.alloc, self.setting.model, place, op, x)
    }

    #[tactic(auto, unfolding(crate::specs::Nodes::binary))]
    #[inline(never)]
    pub(crate) fn binary(
        &self,
        env: &mut Environment,
        place: Place,
        op: WrittenBinary,
        a: &Written,
        b: &Written,
    ) -> Result<Typed, TypeFault>
        requires parts { Types self.now.setting.nesting (F.pre self.now.type_of) (F.post self.now.type_of) }
        requires room { HasRoom 256 self.now.setting.nesting env.old }
        ensures value { Tells (binary (scene self.now.setting) (part_in self.now.setting) env.old place op a.now b.now) result }
        ensures environment { env.new ≡ env.old }
    {
        let x = self.part(env, a)?;
        let y = self.part(env, b)?;
        binary_rule(self.setting.alloc, self.setting.model, place, op, x, y)
    }

    #[tactic(auto, unfolding(crate::specs::Nodes::choice))]
    #[inline(never)]
    pub(crate) fn choice(
        &self,
        env: &mut Environment,
        c: &Written,
        a: &Written,
        b: &Written,
    ) -> Result<Typed, TypeFault>
        requires parts { Types self.now.setting.nesting (F.pre self.now.type_of) (F.post self.now.type_of) }
        requires room { HasRoom 256 self.now.setting.nesting env.old }
        ensures value { Tells (choice (scene self.now.setting) (part_in self.now.setting) env.old c.now a.now b.now) result }
        ensures environment { env.new ≡ env.old }
    {
        let x = self.part(env, c)?;
        let y = self.part(env, a)?;
        let z = self.part(env, b)?;
        if_rule(
            self.setting.alloc,
            self.setting.model,
            c.first_place(),
            x,
            y,
            z,
        )
    }

    #[tactic(auto, unfolding(crate::specs::Nodes::bind))]
    #[inline(never)]
    pub(crate) fn bind(
        &self,
        env: &mut Environment,
        name: &Name,
        of_type: &Option<Boxed<TypeDecl>>,
        value: &Written,
        body: &Written,
    ) -> Result<Typed, TypeFault>
        requires parts { Types self.now.setting.nesting (F.pre self.now.type_of) (F.post self.now.type_of) }
        requires room { HasRoom 256 self.now.setting.nesting env.old }
        ensures value { Tells (bind (scene self.now.setting)
            (part_in self.now.setting) env.old name.now of_type.now value.now body.now) result }
        ensures environment { env.new ≡ env.old }
    {
        let alloc = self.setting.alloc;
        let declared = self.declared(env, unboxed(of_type))?;
        let x = self.part(env, value)?;
        let of_type = bound(alloc, &declared, &x.of_type)?;
        let y = self.under(env, name, of_type, body)?;
        let_rule(
            alloc,
            self.setting.model,
            value.first_place(),
            &declared,
            x,
            y,
        )
    }

    /// A part of a collection literal.
    fn one_part(&self, env: &mut Environment, written: &WrittenPart) -> Result<TypedPart, TypeFault>
        requires parts { Types self.now.setting.nesting (F.pre self.now.type_of) (F.post self.now.type_of) }
        requires room { HasRoom 256 self.now.setting.nesting env.old }
        ensures value { Tells (part (scene self.now.setting) (part_in self.now.setting) env.old written.now) result }
        ensures environment { env.new ≡ env.old }
    {
        match written {
            WrittenPart::One(e) => {
                let x = self.part(env, e)?;
                Ok(TypedPart::One(x))
            }
            WrittenPart::Range(place, a, b) => {
                let x = self.part(env, a)?;
                let y = self.part(env, b)?;
                Ok(TypedPart::Range(*place, x, y))
            }
        }
    }

    #[tactic(auto, unfolding(crate::specs::Nodes::parts))]
    fn parts(
        &self,
        env: &mut Environment,
        all: &[WrittenPart],
    ) -> Result<Items<TypedPart>, TypeFault>
        requires parts { Types self.now.setting.nesting (F.pre self.now.type_of) (F.post self.now.type_of) }
        requires room { HasRoom 256 self.now.setting.nesting env.old }
        ensures value { Tells (parts (scene self.now.setting) (part_in self.now.setting) env.old [] all.now) result }
        ensures environment { env.new ≡ env.old }
    {
        let mut done = Items::new(self.setting.alloc);
        let mut rest = all;
        'parts: while let [part, more @ ..] = rest {
            let typed = self.one_part(env, part)?;
            done.push(typed)?;
            rest = more;
        }
        Ok(done)
    }

    #[tactic(auto, unfolding(crate::specs::Nodes::collection))]
    #[inline(never)]
    pub(crate) fn collection(
        &self,
        env: &mut Environment,
        kind: Kind,
        all: &[WrittenPart],
    ) -> Result<Typed, TypeFault>
        requires parts { Types self.now.setting.nesting (F.pre self.now.type_of) (F.post self.now.type_of) }
        requires room { HasRoom 256 self.now.setting.nesting env.old }
        ensures value { Tells (collection (scene self.now.setting) (part_in self.now.setting) env.old kind all.now) result }
        ensures environment { env.new ≡ env.old }
    {
        let typed = self.parts(env, all)?;
        collection_rule(
            self.setting.alloc,
            self.setting.model,
            kind,
            typed.into_vec(),
        )
    }
}
