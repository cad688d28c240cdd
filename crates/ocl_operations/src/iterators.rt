ghost use Rattle.std.specs.Prelude.{◌≡◌, nat_eq, true, [], false, All, IfOk, List, length, map, fold, count_by, position, slice_get, unwrap_or};
ghost use Rattle.std.specs.List.{list_all, list_any};
ghost use Rattle.use_orders.specs.Canon.{all_differ, selected};
ghost use Rattle.ocl_values.specs.Logic.{and_table, entry, no, or_table, yes};
ghost use Rattle.ocl_values.specs.Order.{value_cmp};
ghost use Rattle.ocl_values.specs.Shape.{canon, IsWellMade, some_invalid};
ghost use Rattle.ocl_values.specs.declared.value.Value.TheVariants.{Coll, Null};
ghost use Rattle.ocl_operations.specs.Operators.{is_undefined};
ghost use Rattle.ocl_operations.specs.Iterators.{ends_walk, first_true, if_truths, is_false, is_true, is_truth, iterator_value, may_have, takes_all, wants_start};

use crate::operators::is_undefined;
use ocl_collections::{apply_owned, make, select, sort_by_keys};
use ocl_core::{CollOp, IterOp, Kind, Value, collected_kind, sorted_kind};
use ocl_values::{and, or};
use std::alloc::{AllocError, Global};
use use_orders::all_differ;

pub fn is_true(value: &Value) -> bool
    ensures { result ≡ is_true value.now }
{
    matches!(value, Value::Bool(true))
}

fn is_false(value: &Value) -> bool
    ensures { result ≡ is_false value.now }
{
    matches!(value, Value::Bool(false))
}

fn is_truth(value: &Value) -> bool
    ensures { result ≡ is_truth value.now }
{
    matches!(value, Value::Bool(_))
}

/// Whether a value of the body ends the walk: `any` and `exists` end at true, `forAll` at false.
pub fn ends_walk(op: IterOp, value: &Value) -> bool
    ensures { result ≡ ends_walk op value.now }
{
    match op {
        IterOp::Any => is_true(value),
        IterOp::ForAll => is_false(value),
        IterOp::Exists => is_true(value),
        _ => false,
    }
}

/// Whether an iterator may have so many variables: one, or two in `forAll` and `exists`.
pub fn may_have(op: IterOp, count: u32) -> bool
    ensures { result ≡ may_have op count }
{
    match op {
        IterOp::ForAll => count == 1 || count == 2,
        IterOp::Exists => count == 1 || count == 2,
        _ => count == 1,
    }
}

/// Whether an iterator has a start, which `iterate` alone has.
pub fn wants_start(op: IterOp) -> bool
    ensures { result ≡ wants_start op }
{
    matches!(op, IterOp::Iterate)
}

fn are_truths(values: &[Value]) -> bool
    ensures { result ≡ list_all is_truth values.now }
{
    values.iter().all(|value| is_truth(value))
}

fn flags_of_true(alloc: Global, values: &[Value]) -> Result<Vec<bool>, AllocError>
    ensures { IfOk result (λ flags. flags.items ≡ map is_true values.now) }
{
    values.iter().map(|value| is_true(value)).collect(alloc)
}

fn flags_of_false(alloc: Global, values: &[Value]) -> Result<Vec<bool>, AllocError>
    ensures { IfOk result (λ flags. flags.items ≡ map is_false values.now) }
{
    values.iter().map(|value| is_false(value)).collect(alloc)
}

fn count_true(values: &[Value]) -> usize
    ensures { result ≡ count_by is_true values.now }
{
    values.iter().filter(|value| is_true(value)).count()
}

/// The element at a place, or null past the end.
fn item_at(items: Vec<Value>, at: usize) -> Value
    requires { All IsWellMade items.items }
    ensures value { result ≡ unwrap_or (slice_get items.items at) Null }
    ensures well_made { IsWellMade result }
{
    let mut items = items;
    if at < items.len() {
        items.swap_remove(at)
    } else {
        Value::Null
    }
}

fn place_of_true(bodies: &[Value]) -> Option<usize>
    ensures { result ≡ position is_true bodies.now }
{
    bodies.iter().position(|value| is_true(value))
}

/// The element at the first place at which the body is true, or null.
fn first_true(items: Vec<Value>, bodies: &[Value]) -> Value
    requires { All IsWellMade items.items }
    ensures value { result ≡ first_true items.items bodies.now }
    ensures well_made { IsWellMade result }
{
    match place_of_true(bodies) {
        Some(at) => item_at(items, at),
        None => Value::Null,
    }
}

/// The values joined by `and`, from true.
fn all_of(values: &[Value]) -> Value
    ensures value { result ≡ fold (entry and_table) yes values.now }
    ensures well_made { IsWellMade result }
{
    let mut joined = Value::Bool(true);
    'each: for value in values {
        joined = and(&joined, value);
    }
    joined
}

/// The values joined by `or`, from false.
fn any_of(values: &[Value]) -> Value
    ensures value { result ≡ fold (entry or_table) no values.now }
    ensures well_made { IsWellMade result }
{
    let mut joined = Value::Bool(false);
    'each: for value in values {
        joined = or(&joined, value);
    }
    joined
}

fn any_invalid(values: &[Value]) -> bool
    ensures { result ≡ some_invalid values.now }
{
    'seek: for value in values {
        if value.is_invalid() {
            return true;
        }
    }
    false
}

fn any_undefined(values: &[Value]) -> bool
    ensures { result ≡ list_any is_undefined values.now }
{
    values.iter().any(|value| is_undefined(value))
}

fn is_unique(alloc: Global, bodies: &[Value]) -> Result<Value, AllocError>
    ensures value { IfOk result (λ v. v ≡ iterator_value IterOp.IsUnique Kind.Set [] bodies.now) }
    ensures well_made { IfOk result IsWellMade }
{
    if any_invalid(bodies) {
        return Ok(Value::Invalid);
    }
    Ok(Value::Bool(all_differ(alloc, bodies)?))
}

fn sorted_by(
    alloc: Global,
    kind: Kind,
    items: Vec<Value>,
    keys: Vec<Value>,
) -> Result<Value, AllocError>
    requires well { All IsWellMade items.items }
    requires beside { length items.items ≡ length keys.items }
    ensures value { IfOk result (λ v. v ≡ iterator_value IterOp.SortedBy kind items.items keys.items) }
    ensures well_made { IfOk result IsWellMade }
{
    if any_undefined(keys.as_slice()) {
        return Ok(Value::Invalid);
    }
    make(alloc, sorted_kind(kind), sort_by_keys(alloc, items, keys)?)
}

/// What an iterator but `iterate` gives of the elements of a collection and the values that the body
/// has for them (OCL 2.3.1, 11.9). A body that is no truth value where one is wanted makes the result
/// invalid, and so does an invalid body of `isUnique`, and an invalid or null key of `sortedBy`.
pub fn iterator_value(
    alloc: Global,
    op: IterOp,
    kind: Kind,
    items: Vec<Value>,
    bodies: Vec<Value>,
) -> Result<Value, AllocError>
    requires items { All IsWellMade items.items }
    requires bodies { All IsWellMade bodies.items }
    requires whole { takes_all op ≡ true → IsWellMade (Coll kind items.items) }
    requires beside { takes_all op ≡ true → length items.items ≡ length bodies.items }
    ensures value { IfOk result (λ v. v ≡ iterator_value op kind items.items bodies.items) }
    ensures well_made { IfOk result IsWellMade }
{
    match op {
        IterOp::Select => selected_true(alloc, kind, items, bodies.as_slice()),
        IterOp::Reject => selected_false(alloc, kind, items, bodies.as_slice()),
        IterOp::Any => Ok(any(items, bodies.as_slice())),
        IterOp::One => Ok(one(bodies.as_slice())),
        IterOp::ForAll => Ok(all_of(bodies.as_slice())),
        IterOp::Exists => Ok(any_of(bodies.as_slice())),
        IterOp::IsUnique => is_unique(alloc, bodies.as_slice()),
        IterOp::CollectNested => make(alloc, collected_kind(kind), bodies),
        IterOp::Collect => apply_owned(
            alloc,
            CollOp::Flatten,
            make(alloc, collected_kind(kind), bodies)?,
            &[],
        ),
        IterOp::SortedBy => sorted_by(alloc, kind, items, bodies),
        IterOp::Iterate => Ok(Value::Invalid),
    }
}

fn selected_true(
    alloc: Global,
    kind: Kind,
    items: Vec<Value>,
    bodies: &[Value],
) -> Result<Value, AllocError>
    requires source { IsWellMade (Coll kind items.items) }
    requires beside { length items.items ≡ length bodies.now }
    ensures value { IfOk result (λ v. v ≡ iterator_value IterOp.Select kind items.items bodies.now) }
    ensures well_made { IfOk result IsWellMade }
{
    if !are_truths(bodies) {
        return Ok(Value::Invalid);
    }
    let flags = flags_of_true(alloc, bodies)?;
    select(alloc, kind, items, flags.as_slice())
}

fn selected_false(
    alloc: Global,
    kind: Kind,
    items: Vec<Value>,
    bodies: &[Value],
) -> Result<Value, AllocError>
    requires source { IsWellMade (Coll kind items.items) }
    requires beside { length items.items ≡ length bodies.now }
    ensures value { IfOk result (λ v. v ≡ iterator_value IterOp.Reject kind items.items bodies.now) }
    ensures well_made { IfOk result IsWellMade }
{
    if !are_truths(bodies) {
        return Ok(Value::Invalid);
    }
    let flags = flags_of_false(alloc, bodies)?;
    select(alloc, kind, items, flags.as_slice())
}

fn any(items: Vec<Value>, bodies: &[Value]) -> Value
    requires { All IsWellMade items.items }
    ensures value { result ≡ if_truths bodies.now (first_true items.items bodies.now) }
    ensures well_made { IsWellMade result }
{
    if are_truths(bodies) {
        first_true(items, bodies)
    } else {
        Value::Invalid
    }
}

fn one(bodies: &[Value]) -> Value
    ensures value { result ≡ iterator_value IterOp.One Kind.Set [] bodies.now }
    ensures well_made { IsWellMade result }
{
    if are_truths(bodies) {
        Value::Bool(count_true(bodies) == 1)
    } else {
        Value::Invalid
    }
}
