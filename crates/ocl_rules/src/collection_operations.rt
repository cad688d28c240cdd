ghost use Rattle.std.specs.Prelude.{◌≡◌, IfOk};
ghost use Rattle.ocl_rules.specs.CollectionOperations.{broken_call, collection_call_rule, collection_operation, element_of, fits_param, given_by, gives_type, innermost, is_for, is_ordered_kind, is_ordered_set, is_sequence, is_set_or_bag, kind_or, last_type, may_be_collection, of_kind, param_list, row_among, set_kind, shared_kind, union_kind};
ghost use Rattle.class_model.specs.Conformance.{join};
ghost use Rattle.ocl_rules.specs.Arguments.{all_fit, passes_at};
ghost use Rattle.ocl_rules.specs.Typings.{Tells};

use crate::arguments::source_and_args;
use crate::fault::breaks_t;
use crate::operators::is_kind_set;
use crate::{
    COLLECTION_OPERATIONS, CollectionOperation, Gives, Param, Params, Sources, TypeFault, Typed,
};
use class_model::{ClassModel, OclType};
use ocl_collections::CollOp;
use ocl_core::Expr;
use ocl_values::Kind;
use std::alloc::{AllocError, Global};
use use_lists::Boxed;
use use_text::Place;

/// The first row of a name.
fn row_among(rows: &[(&str, CollectionOperation)], name: &str) -> Option<CollectionOperation>
    ensures { result ≡ row_among rows.now (λ t. t.now) name.now }
{
    'rows: for row in rows {
        if row.0 == name {
            return Some(row.1);
        }
    }
    None
}

/// The operation of collections of a name.
#[tactic(auto, unfolding(crate::specs::CollectionOperations::collection_operation))]
pub fn collection_operation(name: &str) -> Option<CollectionOperation>
    ensures { result ≡ collection_operation name.now }
{
    row_among(&COLLECTION_OPERATIONS, name)
}

/// The parameters.
fn param_list(params: Params) -> &'static [Param]
    ensures { result.now ≡ param_list params }
{
    match params {
        Params::Nothing => &[],
        Params::Element => &[Param::Element],
        Params::Collection => &[Param::Collection],
        Params::Place => &[Param::Integer],
        Params::PlaceAndElement => &[Param::Integer, Param::Element],
        Params::TwoPlaces => &[Param::Integer, Param::Integer],
    }
}

/// The kind of a collection's type; of another type it is the given one.
pub(crate) fn kind_or(kind: Kind, of_type: &OclType) -> Kind
    ensures { result ≡ kind_or kind of_type.now }
{
    match of_type {
        OclType::Coll(own, _) => *own,
        _ => kind,
    }
}

/// The type of a collection's elements; of another type it is OclVoid.
fn element_of(alloc: Global, of_type: &OclType) -> Result<OclType, AllocError>
    ensures { IfOk result (λ t. t ≡ element_of of_type.now) }
{
    match of_type {
        OclType::Coll(_, element) => Ok(element.get().try_copy(alloc)?),
        _ => Ok(OclType::Void),
    }
}

fn may_be_collection(of_type: &OclType) -> bool
    ensures { result ≡ may_be_collection of_type.now }
{
    matches!(of_type, OclType::Coll(_, _) | OclType::Void)
}

fn fits_param(model: &ClassModel, param: Param, of_type: &OclType) -> bool
    ensures { result ≡ fits_param model.now param of_type.now }
{
    match param {
        Param::Element => true,
        Param::Integer => model.conforms(of_type, &OclType::Int),
        Param::Collection => may_be_collection(of_type),
    }
}

fn fits_at(model: &ClassModel, param: Param, args: &[Typed], at: usize) -> bool
    ensures { result ≡ passes_at (λ a. fits_param model.now param a.of_type) args.now at }
{
    match args.get(at) {
        None => false,
        Some(arg) => fits_param(model, param, &arg.of_type),
    }
}

fn all_fit(model: &ClassModel, params: &[Param], args: &[Typed]) -> bool
    ensures { result ≡ all_fit (λ p a. fits_param model.now p a.of_type) params.now args.now }
{
    params
        .iter()
        .enumerate()
        .all(|(i, param)| fits_at(model, *param, args, i))
}

fn is_ordered_kind(kind: Kind) -> bool
    ensures { result ≡ is_ordered_kind kind }
{
    matches!(kind, Kind::OrderedSet | Kind::Sequence)
}

fn is_for(model: &ClassModel, sources: Sources, kind: Kind, element: &OclType) -> bool
    ensures { result ≡ is_for model.now sources kind element.now }
{
    match sources {
        Sources::Every => true,
        Sources::Ordered => is_ordered_kind(kind),
        Sources::Sequences => matches!(kind, Kind::Sequence),
        Sources::OrderedSets => matches!(kind, Kind::OrderedSet),
        Sources::SetsAndBags => !is_ordered_kind(kind),
        Sources::Sets => is_kind_set(kind),
        Sources::OfIntegers => model.conforms(element, &OclType::Int),
    }
}

fn union_kind(a: Kind, b: Kind) -> Option<Kind>
    ensures { result ≡ union_kind a b }
{
    match (a, b) {
        (Kind::Set, Kind::Set) => Some(Kind::Set),
        (Kind::Set, Kind::Bag) => Some(Kind::Bag),
        (Kind::Bag, Kind::Set) => Some(Kind::Bag),
        (Kind::Bag, Kind::Bag) => Some(Kind::Bag),
        (Kind::Sequence, Kind::Sequence) => Some(Kind::Sequence),
        (Kind::OrderedSet, Kind::OrderedSet) => Some(Kind::OrderedSet),
        _ => None,
    }
}

fn shared_kind(a: Kind, b: Kind) -> Option<Kind>
    ensures { result ≡ shared_kind a b }
{
    match (a, b) {
        (Kind::Set, Kind::Set) => Some(Kind::Set),
        (Kind::Set, Kind::Bag) => Some(Kind::Set),
        (Kind::Bag, Kind::Set) => Some(Kind::Set),
        (Kind::Bag, Kind::Bag) => Some(Kind::Bag),
        _ => None,
    }
}

fn set_kind(a: Kind, b: Kind) -> Option<Kind>
    ensures { result ≡ set_kind a b }
{
    match (a, b) {
        (Kind::Set, Kind::Set) => Some(Kind::Set),
        _ => None,
    }
}

fn of_kind(
    alloc: Global,
    kind: Option<Kind>,
    element: OclType,
) -> Result<Option<OclType>, AllocError>
    ensures { IfOk result (λ t. t ≡ of_kind kind element) }
{
    match kind {
        None => Ok(None),
        Some(kind) => Ok(Some(OclType::Coll(kind, Boxed::new(alloc, element)?))),
    }
}

/// A type without the collections around it.
pub fn innermost(alloc: Global, of_type: &OclType) -> Result<OclType, AllocError>
    ensures { IfOk result (λ t. t ≡ innermost of_type.now) }
{
    match of_type {
        OclType::Coll(_, element) => Ok(innermost(alloc, element.get())?),
        other => Ok(other.try_copy(alloc)?),
    }
}

fn last_type(alloc: Global, args: &[Typed]) -> Result<OclType, AllocError>
    ensures { IfOk result (λ t. t ≡ last_type args.now) }
{
    match args.get(args.len().saturating_sub(1)) {
        None => Ok(OclType::Void),
        Some(arg) => Ok(arg.of_type.try_copy(alloc)?),
    }
}

fn joined_elements(
    alloc: Global,
    model: &ClassModel,
    element: &OclType,
    last: &OclType,
) -> Result<OclType, AllocError>
    ensures { IfOk result (λ t. t ≡ join model.now element.now (element_of last.now)) }
{
    let other = element_of(alloc, last)?;
    model.join_types(alloc, element, &other)
}

/// What an operation gives of a collection of this kind with such elements, where its last argument
/// has this type.
fn gives_type(
    alloc: Global,
    model: &ClassModel,
    gives: Gives,
    kind: Kind,
    element: &OclType,
    last: &OclType,
) -> Result<Option<OclType>, AllocError>
    ensures { IfOk result (λ t. t ≡ gives_type model.now gives kind element.now last.now) }
{
    match gives {
        Gives::Integer => Ok(Some(OclType::Int)),
        Gives::Boolean => Ok(Some(OclType::Bool)),
        Gives::Element => Ok(Some(element.try_copy(alloc)?)),
        Gives::Same => of_kind(alloc, Some(kind), element.try_copy(alloc)?),
        Gives::Joined => of_kind(alloc, Some(kind), model.join_types(alloc, element, last)?),
        Gives::Of(other) => of_kind(alloc, Some(other), element.try_copy(alloc)?),
        Gives::Union => {
            let kind = union_kind(kind, kind_or(kind, last));
            of_kind(alloc, kind, joined_elements(alloc, model, element, last)?)
        }
        Gives::Intersection => {
            let kind = shared_kind(kind, kind_or(kind, last));
            of_kind(alloc, kind, element.try_copy(alloc)?)
        }
        Gives::Difference => {
            let kind = set_kind(kind, kind_or(kind, last));
            of_kind(alloc, kind, joined_elements(alloc, model, element, last)?)
        }
        Gives::Flat => of_kind(alloc, Some(kind), innermost(alloc, element)?),
    }
}

/// The rule that arguments break: T2 where there are more or fewer than parameters, T3 where one
/// does not fit, T6 where the operation is not for the collection.
fn broken_call(
    model: &ClassModel,
    row: &CollectionOperation,
    kind: Kind,
    element: &OclType,
    args: &[Typed],
) -> Option<u8>
    ensures { result ≡ broken_call model.now row.now kind element.now args.now }
{
    let params = param_list(row.params);
    if args.len() != params.len() {
        Some(2)
    } else if !all_fit(model, params, args) {
        Some(3)
    } else if !is_for(model, row.sources, kind, element) {
        Some(6)
    } else {
        None
    }
}

fn type_given(
    alloc: Global,
    model: &ClassModel,
    gives: Gives,
    kind: Kind,
    element: &OclType,
    args: &[Typed],
) -> Result<Option<OclType>, AllocError>
    ensures { IfOk result (λ t. t ≡ gives_type model.now gives kind element.now (last_type args.now)) }
{
    let last = last_type(alloc, args)?;
    gives_type(alloc, model, gives, kind, element, &last)
}

fn given_by(
    alloc: Global,
    place: Place,
    op: CollOp,
    source: Typed,
    args: Vec<Typed>,
    given: Option<OclType>,
) -> Result<Typed, TypeFault>
    ensures { Tells (given_by place op source args.items given) result }
{
    match given {
        None => Err(breaks_t(3, place)),
        Some(of_type) => {
            let expr = Expr::Coll(op, source_and_args(alloc, source.expr, args)?);
            Ok(Typed { expr, of_type })
        }
    }
}

/// A call of an operation of a collection of this kind with such elements.
pub fn collection_call_rule(
    alloc: Global,
    model: &ClassModel,
    place: Place,
    row: &CollectionOperation,
    kind: Kind,
    element: &OclType,
    source: Typed,
    args: Vec<Typed>,
) -> Result<Typed, TypeFault>
    ensures { Tells (collection_call_rule model.now place row.now kind element.now source args.items) result }
{
    if let Some(number) = broken_call(model, row, kind, element, args.as_slice()) {
        return Err(breaks_t(number, place));
    }
    let given = type_given(alloc, model, row.gives, kind, element, args.as_slice())?;
    given_by(alloc, place, row.op, source, args, given)
}
