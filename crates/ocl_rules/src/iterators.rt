ghost use Rattle.std.specs.Prelude.{◌≡◌, IfOk, None, Some};
ghost use Rattle.ocl_core.specs.declared.operators.IterOp.TheVariants.{Iterate};
ghost use Rattle.ocl_rules.specs.Iterators.{fit_variables, has_condition, iterate_refusal, iterate_rule, iterator_refusal, iterator_rule, iterator_type};
ghost use Rattle.ocl_rules.specs.Typings.{Tells};

use crate::collection_operations::innermost;
use crate::fault::type_refusal;
use crate::forms::fits_declared;
use crate::{TypeFault, Typed};
use class_model::{ClassModel, OclType};
use ocl_core::{Expr, IterOp, collected_kind, sorted_kind};
use ocl_values::Kind;
use std::alloc::{AllocError, Global};
use use_lists::Boxed;
use use_text::{Place, Refusal};

fn has_condition(op: IterOp) -> bool
    ensures { result ≡ has_condition op }
{
    matches!(
        op,
        IterOp::Select
            | IterOp::Reject
            | IterOp::Any
            | IterOp::One
            | IterOp::ForAll
            | IterOp::Exists
    )
}

/// What an iterator gives over a collection of this kind with such elements, where its body has this
/// type.
fn iterator_type(
    alloc: Global,
    op: IterOp,
    kind: Kind,
    element: &OclType,
    body: OclType,
) -> Result<OclType, AllocError>
    ensures { IfOk result (λ t. t ≡ iterator_type op kind element.now body) }
{
    match op {
        IterOp::Select | IterOp::Reject => {
            Ok(OclType::Coll(kind, Boxed::new(alloc, element.try_copy(alloc)?)?))
        }
        IterOp::Any => element.try_copy(alloc),
        IterOp::One | IterOp::ForAll | IterOp::Exists | IterOp::IsUnique => Ok(OclType::Bool),
        IterOp::CollectNested => {
            Ok(OclType::Coll(collected_kind(kind), Boxed::new(alloc, body)?))
        }
        IterOp::Collect => {
            let flat = innermost(alloc, &body)?;
            Ok(OclType::Coll(collected_kind(kind), Boxed::new(alloc, flat)?))
        }
        IterOp::SortedBy => {
            let element = element.try_copy(alloc)?;
            Ok(OclType::Coll(sorted_kind(kind), Boxed::new(alloc, element)?))
        }
        IterOp::Iterate => Ok(body),
    }
}

fn fit_variables(model: &ClassModel, element: &OclType, variables: &[Option<OclType>]) -> bool
    ensures { result ≡ fit_variables model.now element.now variables.now }
{
    variables
        .iter()
        .all(|variable| fits_declared(model, element, variable))
}

fn walk(alloc: Global, op: IterOp, source: Expr, count: u32, body: Expr) -> Result<Expr, AllocError>
    ensures { IfOk result (λ e. e ≡ Expr.Iter op source count None body) }
{
    let source = Boxed::new(alloc, source)?;
    let body = Boxed::new(alloc, body)?;
    Ok(Expr::Iter(op, source, count, None, body))
}

fn accumulation(alloc: Global, source: Expr, start: Expr, body: Expr) -> Result<Expr, AllocError>
    ensures { IfOk result (λ e. e ≡ Expr.Iter Iterate source 1 (Some start) body) }
{
    let source = Boxed::new(alloc, source)?;
    let start = Boxed::new(alloc, start)?;
    let body = Boxed::new(alloc, body)?;
    Ok(Expr::Iter(IterOp::Iterate, source, 1, Some(start), body))
}

fn iterator_refusal(
    model: &ClassModel,
    place: Place,
    op: IterOp,
    element: &OclType,
    variables: &[Option<OclType>],
    body_place: Place,
    body: &OclType,
) -> Option<Refusal>
    ensures { result ≡ iterator_refusal model.now place op element.now variables.now body_place body.now }
{
    if !fit_variables(model, element, variables) {
        return Some(type_refusal(3, place));
    }
    if has_condition(op) && !model.conforms(body, &OclType::Bool) {
        return Some(type_refusal(4, body_place));
    }
    None
}

fn walked(
    alloc: Global,
    op: IterOp,
    kind: Kind,
    element: &OclType,
    count: u32,
    source: Expr,
    body: Typed,
) -> Result<Typed, AllocError>
    ensures { IfOk result (λ t. t ≡ record { expr = Expr.Iter op source count None body.expr; of_type = iterator_type op kind element.now body.of_type }) }
{
    let Typed { expr, of_type } = body;
    let of_type = iterator_type(alloc, op, kind, element, of_type)?;
    let expr = walk(alloc, op, source, count, expr)?;
    Ok(Typed { expr, of_type })
}

/// An iterator (OCL 2.3.1, 11.9) over a collection of this kind with such elements: how many
/// variables it has, and the types that they declare.
pub fn iterator_rule(
    alloc: Global,
    model: &ClassModel,
    place: Place,
    op: IterOp,
    kind: Kind,
    element: &OclType,
    count: u32,
    variables: &[Option<OclType>],
    body_place: Place,
    source: Typed,
    body: Typed,
) -> Result<Typed, TypeFault>
    ensures { Tells (iterator_rule model.now place op kind element.now count variables.now body_place source body) result }
{
    match iterator_refusal(
        model,
        place,
        op,
        element,
        variables,
        body_place,
        &body.of_type,
    ) {
        Some(refusal) => Err(TypeFault::Refused(refusal)),
        None => Ok(walked(alloc, op, kind, element, count, source.expr, body)?),
    }
}

fn iterate_refusal(
    model: &ClassModel,
    place: Place,
    element: &OclType,
    variable: &Option<OclType>,
    of_type: &OclType,
    start_place: Place,
    body_place: Place,
    start: &OclType,
    body: &OclType,
) -> Option<Refusal>
    ensures { result ≡ iterate_refusal model.now place element.now variable.now of_type.now start_place body_place start.now body.now }
{
    if !fits_declared(model, element, variable) {
        return Some(type_refusal(3, place));
    }
    if !model.conforms(start, of_type) {
        return Some(type_refusal(5, start_place));
    }
    if !model.conforms(body, of_type) {
        return Some(type_refusal(5, body_place));
    }
    None
}

/// `iterate` (OCL 2.3.1, 11.9) over a collection of such elements: the type that its variable
/// declares, and that of what it accumulates.
pub fn iterate_rule(
    alloc: Global,
    model: &ClassModel,
    place: Place,
    element: &OclType,
    variable: &Option<OclType>,
    of_type: OclType,
    start_place: Place,
    body_place: Place,
    source: Typed,
    start: Typed,
    body: Typed,
) -> Result<Typed, TypeFault>
    ensures { Tells (iterate_rule model.now place element.now variable.now of_type start_place body_place source start body) result }
{
    let refusal = iterate_refusal(
        model,
        place,
        element,
        variable,
        &of_type,
        start_place,
        body_place,
        &start.of_type,
        &body.of_type,
    );
    match refusal {
        Some(refusal) => Err(TypeFault::Refused(refusal)),
        None => {
            let expr = accumulation(alloc, source.expr, start.expr, body.expr)?;
            Ok(Typed { expr, of_type })
        }
    }
}
