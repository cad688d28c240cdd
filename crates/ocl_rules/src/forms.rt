ghost use Rattle.std.specs.Prelude.{◌≡◌, ◌≤◌, IfOk, map, min, nat_lt};
ghost use Rattle.class_model.specs.Conformance.{join};
ghost use Rattle.ocl_rules.specs.Forms.{broken_range, collection_rule, first_broken_range, fits_declared, if_rule, join_of_parts, let_rule, level_rule, levels, max_levels, part_of, part_type};
ghost use Rattle.ocl_rules.specs.Typings.{Tells};

use crate::fault::breaks_t;
use crate::operators::both;
use crate::{TypeFault, Typed, TypedPart};
use class_model::{ClassModel, OclType};
use ocl_core::{Expr, Part};
use ocl_values::Kind;
use std::alloc::{AllocError, Global};
use use_lists::{Boxed, Items};
use use_text::Place;

/// How many collections may nest in a type.
const MAX_LEVELS: u32 = 256;

fn choice(alloc: Global, condition: Expr, a: Expr, b: Expr) -> Result<Expr, AllocError>
    ensures { IfOk result (λ e. e ≡ Expr.If condition a b) }
{
    let condition = Boxed::new(alloc, condition)?;
    let a = Boxed::new(alloc, a)?;
    let b = Boxed::new(alloc, b)?;
    Ok(Expr::If(condition, a, b))
}

/// `if` (OCL 2.3.1, 8.3.3): its condition, whose first token stands at a place, and its branches.
pub fn if_rule(
    alloc: Global,
    model: &ClassModel,
    condition_place: Place,
    condition: Typed,
    a: Typed,
    b: Typed,
) -> Result<Typed, TypeFault>
    ensures { Tells (if_rule model.now condition_place condition a b) result }
{
    if !model.conforms(&condition.of_type, &OclType::Bool) {
        return Err(breaks_t(4, condition_place));
    }
    let of_type = model.join_types(alloc, &a.of_type, &b.of_type)?;
    let expr = choice(alloc, condition.expr, a.expr, b.expr)?;
    Ok(Typed { expr, of_type })
}

pub(crate) fn fits_declared(
    model: &ClassModel,
    of_type: &OclType,
    declared: &Option<OclType>,
) -> bool
    ensures { result ≡ fits_declared model.now of_type.now declared.now }
{
    match declared {
        None => true,
        Some(declared) => model.conforms(of_type, declared),
    }
}

/// A bind of `let` (OCL 2.3.1, 8.3.5): its declared type, its value, whose first token stands at a
/// place, and what stands behind it.
pub fn let_rule(
    alloc: Global,
    model: &ClassModel,
    value_place: Place,
    declared: &Option<OclType>,
    value: Typed,
    body: Typed,
) -> Result<Typed, TypeFault>
    ensures { Tells (let_rule model.now value_place declared.now value body) result }
{
    if !fits_declared(model, &value.of_type, declared) {
        return Err(breaks_t(5, value_place));
    }
    let Typed { expr, of_type } = body;
    let value = Boxed::new(alloc, value.expr)?;
    Ok(Typed {
        expr: Expr::Let(value, Boxed::new(alloc, expr)?),
        of_type,
    })
}

fn broken_range(model: &ClassModel, part: &TypedPart) -> Option<Place>
    ensures { result ≡ broken_range model.now part.now }
{
    match part {
        TypedPart::One(_) => None,
        TypedPart::Range(place, first, last) => {
            if both(model, &OclType::Int, &first.of_type, &last.of_type) {
                None
            } else {
                Some(*place)
            }
        }
    }
}

/// The place of the first range whose sides are no Integers.
fn first_broken_range(model: &ClassModel, parts: &[TypedPart]) -> Option<Place>
    ensures { result ≡ first_broken_range model.now parts.now }
{
    'parts: for part in parts {
        if let Some(place) = broken_range(model, part) {
            return Some(place);
        }
    }
    None
}

/// The join of a type and that of a part.
fn join_part(
    alloc: Global,
    model: &ClassModel,
    joined: &OclType,
    part: &TypedPart,
) -> Result<OclType, AllocError>
    ensures { IfOk result (λ t. t ≡ join model.now joined.now (part_type part.now)) }
{
    match part {
        TypedPart::One(one) => model.join_types(alloc, joined, &one.of_type),
        TypedPart::Range(_, _, _) => model.join_types(alloc, joined, &OclType::Int),
    }
}

fn join_of_parts(
    alloc: Global,
    model: &ClassModel,
    parts: &[TypedPart],
) -> Result<OclType, AllocError>
    ensures { IfOk result (λ t. t ≡ join_of_parts model.now OclType.Void parts.now) }
{
    let mut joined = OclType::Void;
    'parts: for part in parts {
        joined = join_part(alloc, model, &joined, part)?;
    }
    Ok(joined)
}

fn part_of(part: TypedPart) -> Part
    ensures { result ≡ part_of part }
{
    match part {
        TypedPart::One(one) => Part::One(one.expr),
        TypedPart::Range(_, first, last) => Part::Range(first.expr, last.expr),
    }
}

fn parts_of(alloc: Global, parts: Vec<TypedPart>) -> Result<Items<Part>, AllocError>
    ensures { IfOk result (λ all. all ≡ map part_of parts.items) }
{
    let all = parts.into_iter().map(part_of).collect::<Vec<Part>>(alloc)?;
    Ok(Items::from_vec(all))
}

/// A collection literal (OCL 2.3.1, 8.3.6).
pub fn collection_rule(
    alloc: Global,
    model: &ClassModel,
    kind: Kind,
    parts: Vec<TypedPart>,
) -> Result<Typed, TypeFault>
    ensures { Tells (collection_rule model.now kind parts.items) result }
{
    match first_broken_range(model, parts.as_slice()) {
        Some(place) => Err(breaks_t(1, place)),
        None => {
            let element = join_of_parts(alloc, model, parts.as_slice())?;
            let of_type = OclType::Coll(kind, Boxed::new(alloc, element)?);
            Ok(Typed {
                expr: Expr::Make(kind, parts_of(alloc, parts)?),
                of_type,
            })
        }
    }
}

/// How many collections nest in a type, or the given number where there are more.
fn levels_up_to(of_type: &OclType, most: u32) -> u32
    ensures { result ≡ min (levels of_type.now) most }
{
    match of_type {
        OclType::Coll(_, element) => {
            if most == 0 {
                return 0;
            }
            levels_up_to(element.get(), most - 1) + 1
        }
        _ => 0,
    }
}

/// How many collections nest in a type that nests no more than it may.
pub fn levels(of_type: &OclType) -> u32
    requires { levels of_type.now ≤ max_levels }
    ensures { result ≡ levels of_type.now }
{
    levels_up_to(of_type, MAX_LEVELS)
}

fn nests_too_deep(of_type: &OclType) -> bool
    ensures { result ≡ nat_lt max_levels (levels of_type.now) }
{
    levels_up_to(of_type, MAX_LEVELS + 1) > MAX_LEVELS
}

/// A node at a place, unless its type nests too many collections.
pub fn level_rule(place: Place, node: Typed) -> Result<Typed, TypeFault>
    ensures { Tells (level_rule place node) result }
{
    if nests_too_deep(&node.of_type) {
        Err(breaks_t(16, place))
    } else {
        Ok(node)
    }
}
