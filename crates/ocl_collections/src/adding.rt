ghost use Rattle.std.specs.Prelude.{◌≡◌, ◌++◌, ◌∷◌, [], IfOk};
ghost use Rattle.ocl_values.specs.Order.{value_cmp};
ghost use Rattle.ocl_values.specs.Shape.{canonical, IsWellMade};
ghost use Rattle.ocl_values.specs.declared.value.Value.TheVariants.{Coll};
ghost use Rattle.use_orders.specs.Canon.{add_new, without};
ghost use Rattle.ocl_collections.specs.Adding.{excluding, including};

use crate::making::{collection, is_unfit};
use ocl_values::{Kind, Value};
use std::alloc::{AllocError, Global};
use std::slice;
use use_orders::{contains_anywhere, copied};

// The elements and, unless it is there, then x.
fn pushed_once(alloc: Global, items: Vec<Value>, x: &Value) -> Result<Vec<Value>, AllocError>
    ensures { IfOk result (λ v. v.items ≡ add_new value_cmp items.items x.now) }
{
    if contains_anywhere(items.as_slice(), x) {
        Ok(items)
    } else {
        pushed(alloc, items, x)
    }
}

// The elements and then x.
fn pushed(alloc: Global, items: Vec<Value>, x: &Value) -> Result<Vec<Value>, AllocError>
    ensures { IfOk result (λ v. v.items ≡ items.items ++ x.now ∷ []) }
{
    let mut all = items;
    all.push(x.try_copy(alloc)?)?;
    Ok(all)
}

// The elements of a collection that is given away and x, as the kind keeps them.
fn with_element_put(
    alloc: Global,
    kind: Kind,
    items: Vec<Value>,
    x: &Value,
) -> Result<Vec<Value>, AllocError>
    requires { IsWellMade (Coll kind items.items) }
    ensures { IfOk result (λ v. v.items ≡ canonical kind (items.items ++ x.now ∷ [])) }
{
    match kind {
        Kind::Set => use_orders::insert_absent(items, x.try_copy(alloc)?),
        Kind::OrderedSet => pushed_once(alloc, items, x),
        Kind::Bag => use_orders::insert(items, x.try_copy(alloc)?),
        Kind::Sequence => pushed(alloc, items, x),
    }
}

// A collection that is given away, with x.
pub(crate) fn put_element(
    alloc: Global,
    kind: Kind,
    items: Vec<Value>,
    x: &Value,
) -> Result<Value, AllocError>
    requires source { IsWellMade (Coll kind items.items) }
    requires element { IsWellMade x.now }
    ensures { IfOk result (λ v. v ≡ including kind items.items x.now) }
{
    if is_unfit(x) {
        return Ok(Value::Invalid);
    }
    Ok(collection(kind, with_element_put(alloc, kind, items, x)?))
}

pub(crate) fn including(
    alloc: Global,
    kind: Kind,
    items: &[Value],
    x: &Value,
) -> Result<Value, AllocError>
    requires source { IsWellMade (Coll kind items.now) }
    requires element { IsWellMade x.now }
    ensures { IfOk result (λ v. v ≡ including kind items.now x.now) }
{
    put_element(alloc, kind, copied(alloc, items)?, x)
}

// The elements of a collection but those that equal x.
fn without_element(
    alloc: Global,
    kind: Kind,
    items: &[Value],
    x: &Value,
) -> Result<Vec<Value>, AllocError>
    requires { IsWellMade (Coll kind items.now) }
    ensures { IfOk result (λ v. v.items ≡ without value_cmp items.now (x.now ∷ [])) }
{
    match kind {
        Kind::Set => use_orders::remove(alloc, items, x),
        Kind::Bag => use_orders::remove(alloc, items, x),
        _ => use_orders::without(alloc, items, slice::from_ref(x)),
    }
}

pub(crate) fn excluding(
    alloc: Global,
    kind: Kind,
    items: &[Value],
    x: &Value,
) -> Result<Value, AllocError>
    requires { IsWellMade (Coll kind items.now) }
    ensures { IfOk result (λ v. v ≡ excluding kind items.now x.now) }
{
    Ok(collection(kind, without_element(alloc, kind, items, x)?))
}
