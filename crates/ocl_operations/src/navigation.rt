ghost use Rattle.std.specs.Prelude.{◌≡◌, ◌<◌, All, IfOk, length};
ghost use Rattle.ocl_values.specs.Shape.{IsWellMade};
ghost use Rattle.ocl_operations.specs.Navigation.{at_most_one, kind_at, navigated};

use class_model::{AssocNo, ClassModel, End};
use ocl_collections::make;
use ocl_values::{Kind, Value};
use std::alloc::{AllocError, Global};

/// The one object, or null for none; more than one are invalid.
fn at_most_one(items: Vec<Value>) -> Value
    requires { All IsWellMade items.items }
    ensures value { result ≡ at_most_one items.items }
    ensures well_made { IsWellMade result }
{
    let mut items = items;
    if items.len() > 1 {
        return Value::Invalid;
    }
    items.pop().unwrap_or(Value::Null)
}

/// The kind of what is seen at an end.
fn kind_at(model: &ClassModel, assoc: AssocNo, end: End) -> Kind
    requires { assoc < length model.now.assocs }
    ensures { result ≡ kind_at model.now assoc end }
{
    if model.is_ordered(assoc, end) {
        Kind::OrderedSet
    } else {
        Kind::Set
    }
}

/// What an object sees at an end, of the objects that stand there by stamps: where at most one may
/// stand there, that one, null for none, and invalid for more; else a Set, or an OrderedSet where the
/// end is ordered (OCL 2.3.1, 7.5.3). Of what is no association of the model the value is invalid.
pub fn navigated(
    alloc: Global,
    model: &ClassModel,
    assoc: AssocNo,
    end: End,
    items: Vec<Value>,
) -> Result<Value, AllocError>
    requires { All IsWellMade items.items }
    ensures value { IfOk result (λ v. v ≡ navigated model.now assoc end items.items) }
    ensures well_made { IfOk result IsWellMade }
{
    if assoc >= model.assoc_count() {
        return Ok(Value::Invalid);
    }
    if model.multiplicity(assoc, end).greatest_is_one() {
        return Ok(at_most_one(items));
    }
    make(alloc, kind_at(model, assoc, end), items)
}
