ghost use Rattle.std.specs.Prelude.{◌≡◌, ◌≤◌, ◌+◌, true, IfOk, length, take, drop, slice_index_or};
ghost use Rattle.ocl_values.specs.Shape.{canon, IsWellMade};
ghost use Rattle.ocl_values.specs.declared.value.Value.TheVariants.{Coll, Invalid};
ghost use Rattle.ocl_collections.specs.Positions.{append, at, first, has_places, holds, index_of, insert_at, last, part, place_from, prepend, put, reversed, sub_ordered_set, sub_sequence};

use crate::making::{collection, is_unfit};
use ocl_values::{Kind, Value};
use std::alloc::{AllocError, Global};
use use_orders::{contains_anywhere, copied};

// Whether the elements of the kind have places.
fn has_places(kind: Kind) -> bool
    ensures { result ≡ has_places kind }
{
    match kind {
        Kind::OrderedSet | Kind::Sequence => true,
        Kind::Set | Kind::Bag => false,
    }
}

// Whether a collection of the kind has x and takes it no second time.
fn holds(kind: Kind, items: &[Value], x: &Value) -> bool
    ensures { result ≡ holds kind items.now x.now }
{
    match kind {
        Kind::OrderedSet => contains_anywhere(items, x),
        _ => false,
    }
}

// The collection with x after the first n, for a kind that has places.
fn put(alloc: Global, kind: Kind, n: usize, items: &[Value], x: &Value) -> Result<Value, AllocError>
    requires place { n ≤ length items.now }
    requires places { has_places kind ≡ true }
    requires source { IsWellMade (Coll kind items.now) }
    requires element { IsWellMade x.now }
    ensures { IfOk result (λ v. v ≡ canon kind (put kind n items.now x.now)) }
{
    if holds(kind, items, x) {
        return Ok(collection(kind, copied(alloc, items)?));
    }
    if is_unfit(x) {
        return Ok(Value::Invalid);
    }
    Ok(collection(kind, use_orders::insert_at(alloc, items, n, x)?))
}

pub(crate) fn append(
    alloc: Global,
    kind: Kind,
    items: &[Value],
    x: &Value,
) -> Result<Value, AllocError>
    requires source { IsWellMade (Coll kind items.now) }
    requires element { IsWellMade x.now }
    ensures { IfOk result (λ v. v ≡ append kind items.now x.now) }
{
    if has_places(kind) {
        put(alloc, kind, items.len(), items, x)
    } else {
        Ok(Value::Invalid)
    }
}

pub(crate) fn prepend(
    alloc: Global,
    kind: Kind,
    items: &[Value],
    x: &Value,
) -> Result<Value, AllocError>
    requires source { IsWellMade (Coll kind items.now) }
    requires element { IsWellMade x.now }
    ensures { IfOk result (λ v. v ≡ prepend kind items.now x.now) }
{
    if has_places(kind) {
        put(alloc, kind, 0, items, x)
    } else {
        Ok(Value::Invalid)
    }
}

pub(crate) fn insert_at(
    alloc: Global,
    kind: Kind,
    items: &[Value],
    i: i128,
    x: &Value,
) -> Result<Value, AllocError>
    requires source { IsWellMade (Coll kind items.now) }
    requires element { IsWellMade x.now }
    ensures { IfOk result (λ v. v ≡ insert_at kind items.now i x.now) }
{
    if has_places(kind) && 1 <= i && i <= items.len() as i128 + 1 {
        put(alloc, kind, (i - 1) as usize, items, x)
    } else {
        Ok(Value::Invalid)
    }
}

// A copy of the element after the first n, or invalid.
fn copy_after(alloc: Global, items: &[Value], n: usize) -> Result<Value, AllocError>
    ensures { IfOk result (λ v. v ≡ slice_index_or items.now n Invalid) }
{
    match items.get(n) {
        Some(v) => v.try_copy(alloc),
        None => Ok(Value::Invalid),
    }
}

pub(crate) fn at(alloc: Global, kind: Kind, items: &[Value], i: i128) -> Result<Value, AllocError>
    ensures { IfOk result (λ v. v ≡ at kind items.now i) }
{
    if has_places(kind) && 1 <= i && i <= items.len() as i128 {
        copy_after(alloc, items, (i - 1) as usize)
    } else {
        Ok(Value::Invalid)
    }
}

pub(crate) fn first(alloc: Global, kind: Kind, items: &[Value]) -> Result<Value, AllocError>
    ensures { IfOk result (λ v. v ≡ first kind items.now) }
{
    if has_places(kind) {
        copy_after(alloc, items, 0)
    } else {
        Ok(Value::Invalid)
    }
}

pub(crate) fn last(alloc: Global, kind: Kind, items: &[Value]) -> Result<Value, AllocError>
    ensures { IfOk result (λ v. v ≡ last kind items.now) }
{
    if has_places(kind) {
        copy_after(alloc, items, items.len().saturating_sub(1))
    } else {
        Ok(Value::Invalid)
    }
}

// The first place of x, counted from 1.
fn place(items: &[Value], x: &Value) -> Value
    ensures { result ≡ place_from 1 items.now x.now }
{
    'seek: for i in 0..items.len() {
        if x.cmp(&items[i]).is_eq() {
            return Value::Int(i as i128 + 1);
        }
    }
    Value::Invalid
}

pub(crate) fn index_of(kind: Kind, items: &[Value], x: &Value) -> Value
    ensures { result ≡ index_of kind items.now x.now }
{
    if has_places(kind) {
        place(items, x)
    } else {
        Value::Invalid
    }
}

// The collection of the m elements after the first n, for a kind that has places.
fn copy_part(
    alloc: Global,
    kind: Kind,
    items: &[Value],
    n: usize,
    m: usize,
) -> Result<Value, AllocError>
    requires within { n + m ≤ length items.now }
    requires places { has_places kind ≡ true }
    requires source { IsWellMade (Coll kind items.now) }
    ensures { IfOk result (λ v. v ≡ canon kind (take m (drop n items.now))) }
{
    Ok(collection(kind, copied(alloc, &items[n..n + m])?))
}

// The elements from place l to place u, of a kind that has places.
fn part(alloc: Global, kind: Kind, items: &[Value], l: i128, u: i128) -> Result<Value, AllocError>
    requires places { has_places kind ≡ true }
    requires source { IsWellMade (Coll kind items.now) }
    ensures { IfOk result (λ v. v ≡ part kind items.now l u) }
{
    if 1 <= l && l <= u && u <= items.len() as i128 {
        copy_part(alloc, kind, items, (l - 1) as usize, (u - l) as usize + 1)
    } else {
        Ok(Value::Invalid)
    }
}

pub(crate) fn sub_sequence(
    alloc: Global,
    kind: Kind,
    items: &[Value],
    l: i128,
    u: i128,
) -> Result<Value, AllocError>
    requires { IsWellMade (Coll kind items.now) }
    ensures { IfOk result (λ v. v ≡ sub_sequence kind items.now l u) }
{
    match kind {
        Kind::Sequence => part(alloc, Kind::Sequence, items, l, u),
        _ => Ok(Value::Invalid),
    }
}

pub(crate) fn sub_ordered_set(
    alloc: Global,
    kind: Kind,
    items: &[Value],
    l: i128,
    u: i128,
) -> Result<Value, AllocError>
    requires { IsWellMade (Coll kind items.now) }
    ensures { IfOk result (λ v. v ≡ sub_ordered_set kind items.now l u) }
{
    match kind {
        Kind::OrderedSet => part(alloc, Kind::OrderedSet, items, l, u),
        _ => Ok(Value::Invalid),
    }
}

pub(crate) fn reversed(kind: Kind, items: Vec<Value>) -> Value
    requires { IsWellMade (Coll kind items.items) }
    ensures { result ≡ reversed kind items.items }
{
    if !has_places(kind) {
        return Value::Invalid;
    }
    let mut all = items;
    all.reverse();
    collection(kind, all)
}
