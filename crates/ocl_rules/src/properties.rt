ghost use Rattle.std.specs.Prelude.{◌≡◌, ◌<◌, IfOk, length};
ghost use Rattle.std.specs.Option.{option_copied};
ghost use Rattle.class_model.specs.InRange.{IsTypeOf};
ghost use Rattle.ocl_rules.specs.Properties.{feature_of, feature_of_class, feature_read, has_property, is_new_rule, may_be_asked_for, operation_of_type, property_rule, query_rule, query_type, test_type, type_at, type_at_end, type_test_rule, when_of};
ghost use Rattle.class_model.specs.Parts.{type_of};
ghost use Rattle.ocl_rules.specs.Typings.{Tells};

use crate::arguments::{broken_arguments, exprs_of};
use crate::fault::{breaks_n, breaks_t};
use crate::{TypeFault, Typed};
use class_model::{
    AssocNo, AssociationEnd, Attribute, BodyKind, ClassModel, ClassNo, End, OclType, OpNo,
};
use ocl_core::{Expr, TypeTest, When};
use ocl_values::Kind;
use std::alloc::{AllocError, Global};
use use_lists::Boxed;
use use_text::Place;

fn when_of(is_before: bool) -> When
    ensures { result ≡ when_of is_before }
{
    if is_before { When::Pre } else { When::Now }
}

fn type_at(alloc: Global, end: &AssociationEnd) -> Result<OclType, AllocError>
    ensures { IfOk result (λ t. t ≡ type_at end.now) }
{
    let class = OclType::Class(end.class);
    if end.multiplicity.greatest_is_one() {
        return Ok(class);
    }
    let kind = if end.is_ordered {
        Kind::OrderedSet
    } else {
        Kind::Set
    };
    Ok(OclType::Coll(kind, Boxed::new(alloc, class)?))
}

fn type_at_end(
    alloc: Global,
    model: &ClassModel,
    assoc: AssocNo,
    end: End,
) -> Result<OclType, AllocError>
    ensures { IfOk result (λ t. t ≡ type_at_end model.now assoc end) }
{
    match model.as_model().assocs.get(assoc as usize) {
        None => Ok(OclType::Class(0)),
        Some(association) => Ok(type_at(alloc, association.end(end))?),
    }
}

fn type_among(alloc: Global, attrs: &[Attribute], number: u32) -> Result<OclType, AllocError>
    ensures { IfOk result (λ t. t ≡ type_of attrs.now number) }
{
    match attrs.get(number as usize) {
        None => Ok(OclType::Any),
        Some(attr) => Ok(attr.of_type.try_copy(alloc)?),
    }
}

/// What a class has under a name.
#[derive(Clone, Copy, Debug, PartialEq, Eq)]
pub enum Feature {
    Attr(u32),
    Derived(u32),
    Role(AssocNo, End),
}

fn feature_of_class(model: &ClassModel, class: ClassNo, name: &str) -> Option<Feature>
    requires { class < length model.now.classes }
    ensures { result ≡ feature_of_class model.now class name.now }
{
    if let Some(attr) = model.attr(class, name) {
        return Some(Feature::Attr(attr));
    }
    if let Some(derived) = model.derived(class, name) {
        return Some(Feature::Derived(derived));
    }
    match model.role(class, name) {
        None => None,
        Some((assoc, end)) => Some(Feature::Role(assoc, end)),
    }
}

/// A reading of what an object has.
fn read_feature(
    alloc: Global,
    model: &ClassModel,
    found: Feature,
    source: Expr,
    when: When,
) -> Result<Typed, AllocError>
    ensures { IfOk result (λ t. t ≡ feature_read model.now source when found) }
{
    let source = Boxed::new(alloc, source)?;
    match found {
        Feature::Attr(attr) => Ok(Typed {
            expr: Expr::Attr(source, attr, when),
            of_type: type_among(alloc, model.as_model().attrs.as_slice(), attr)?,
        }),
        Feature::Derived(derived) => Ok(Typed {
            expr: Expr::Derived(source, derived, when),
            of_type: type_among(alloc, model.as_model().derived.as_slice(), derived)?,
        }),
        Feature::Role(assoc, end) => Ok(Typed {
            expr: Expr::Nav(source, assoc, end, when),
            of_type: type_at_end(alloc, model, assoc, end)?,
        }),
    }
}

fn feature_of_type(model: &ClassModel, of_type: &OclType, name: &str) -> Option<Feature>
    requires { IsTypeOf model.now of_type.now }
    ensures { result ≡ feature_of model.now of_type.now name.now }
{
    match of_type {
        OclType::Class(class) => feature_of_class(model, *class, name),
        _ => None,
    }
}

/// Whether a value of a type has something under a name, without arguments.
pub fn has_property(model: &ClassModel, of_type: &OclType, name: &str) -> bool
    requires { IsTypeOf model.now of_type.now }
    ensures { result ≡ has_property model.now of_type.now name.now }
{
    feature_of_type(model, of_type, name).is_some()
}

/// A name without arguments behind a dot (OCL 2.3.1, 7.5.3 and 7.5.4).
pub fn property_rule(
    alloc: Global,
    model: &ClassModel,
    place: Place,
    is_post: bool,
    is_before: bool,
    name: &str,
    source: Typed,
) -> Result<Typed, TypeFault>
    requires { IsTypeOf model.now source.of_type }
    ensures { Tells (property_rule model.now place is_post is_before name.now source) result }
{
    match feature_of_type(model, &source.of_type, name) {
        None => Err(breaks_n(2, place)),
        Some(found) => {
            if is_before && !is_post {
                return Err(breaks_t(9, place));
            }
            let Typed { expr, of_type: _ } = source;
            Ok(read_feature(alloc, model, found, expr, when_of(is_before))?)
        }
    }
}

/// The operation of a name that objects of a type have.
pub fn operation_of_type(model: &ClassModel, of_type: &OclType, name: &str) -> Option<OpNo>
    requires { IsTypeOf model.now of_type.now }
    ensures { result ≡ operation_of_type model.now of_type.now name.now }
{
    match of_type {
        OclType::Class(class) => model.op(*class, name),
        _ => None,
    }
}

fn query_type(body: BodyKind, result_type: Option<&OclType>) -> Option<&OclType>
    ensures { option_copied result ≡ query_type body (option_copied result_type.entry) }
{
    match body {
        BodyKind::Soil => None,
        _ => result_type,
    }
}

/// A call of a model's operation (OCL 2.3.1, 7.5.5): it is a query.
pub fn query_rule(
    alloc: Global,
    model: &ClassModel,
    place: Place,
    is_before: bool,
    op: OpNo,
    source: Typed,
    args: Vec<Typed>,
) -> Result<Typed, TypeFault>
    requires { op < length model.now.ops }
    ensures { Tells (query_rule model.now place is_before op source args.items) result }
{
    if let Some(number) = broken_arguments(model, model.op_params(op), args.as_slice()) {
        return Err(breaks_t(number, place));
    }
    if is_before {
        return Err(breaks_t(9, place));
    }
    match query_type(model.op_body_kind(op), model.op_result(op)) {
        None => Err(breaks_t(10, place)),
        Some(of_type) => {
            let of_type = of_type.try_copy(alloc)?;
            let receiver = Boxed::new(alloc, source.expr)?;
            Ok(Typed {
                expr: Expr::Query(receiver, op, exprs_of(alloc, args)?),
                of_type,
            })
        }
    }
}

fn may_be_asked_for(of_type: &OclType) -> bool
    ensures { result ≡ may_be_asked_for of_type.now }
{
    match of_type {
        OclType::Void => false,
        _ => true,
    }
}

/// A test of the type of a value, or its use as a value of that type (OCL 2.3.1, 11.3.1).
pub fn type_test_rule(
    alloc: Global,
    place: Place,
    is_before: bool,
    test: TypeTest,
    source: Typed,
    of_type: OclType,
) -> Result<Typed, TypeFault>
    ensures { Tells (type_test_rule place is_before test source of_type) result }
{
    if !may_be_asked_for(&of_type) {
        return Err(breaks_t(3, place));
    }
    if is_before {
        return Err(breaks_t(9, place));
    }
    let gives = match test {
        TypeTest::AsType => of_type.try_copy(alloc)?,
        TypeTest::IsTypeOf => OclType::Bool,
        TypeTest::IsKindOf => OclType::Bool,
    };
    Ok(Typed {
        expr: Expr::Test(test, Boxed::new(alloc, source.expr)?, of_type, When::Now),
        of_type: gives,
    })
}

/// `oclIsNew` (OCL 2.3.1, 11.3.1), in postconditions.
pub fn is_new_rule(
    alloc: Global,
    place: Place,
    is_post: bool,
    is_before: bool,
    source: Typed,
    args: &[Typed],
) -> Result<Typed, TypeFault>
    ensures { Tells (is_new_rule place is_post is_before source args.now) result }
{
    if !args.is_empty() {
        return Err(breaks_t(2, place));
    }
    if !is_post || is_before {
        return Err(breaks_t(9, place));
    }
    Ok(Typed {
        expr: Expr::IsNew(Boxed::new(alloc, source.expr)?),
        of_type: OclType::Bool,
    })
}
