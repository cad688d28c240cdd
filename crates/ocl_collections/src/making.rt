ghost use Rattle.std.specs.Prelude.{◌≡◌, ◌||◌, All, IfOk, nat_le};
ghost use Rattle.ocl_values.specs.Logic.{is_invalid};
ghost use Rattle.ocl_values.specs.Shape.{are_unfit, canon, canonical, IsWellMade, levels_of, max_levels, some_invalid};
ghost use Rattle.ocl_values.specs.declared.value.Value.TheVariants.{Coll};

use crate::depth::{MAX_LEVELS, levels, most};
use ocl_values::{Kind, Value};
use std::alloc::{AllocError, Global};
use use_lists::Items;

pub(crate) fn any_invalid(all: &[Value]) -> bool
    ensures { result ≡ some_invalid all.now }
{
    'seek: for v in all {
        if v.is_invalid() {
            return true;
        }
    }
    false
}

// Whether no collection holds x: it is invalid, or the collection would nest more than 256 deep.
pub(crate) fn is_unfit(x: &Value) -> bool
    ensures { result ≡ (is_invalid x.now || nat_le max_levels (levels_of x.now)) }
{
    x.is_invalid() || levels(x) >= MAX_LEVELS
}

// The elements as the kind keeps them.
pub(crate) fn canonical(
    alloc: Global,
    kind: Kind,
    items: Vec<Value>,
) -> Result<Vec<Value>, AllocError>
    ensures { IfOk result (λ v. v.items ≡ canonical kind items.items) }
{
    match kind {
        Kind::Set => use_orders::set(items),
        Kind::OrderedSet => use_orders::keep_first(alloc, items),
        Kind::Bag => use_orders::bag(items),
        Kind::Sequence => Ok(items),
    }
}

// The collection of elements that stand as the kind keeps them and that it may hold.
pub(crate) fn collection(kind: Kind, items: Vec<Value>) -> Value
    ensures { result ≡ Coll kind items.items }
{
    Value::Coll(kind, Items::from_vec(items))
}

// Whether no collection holds the items.
pub(crate) fn are_unfit(items: &[Value]) -> bool
    ensures { result ≡ are_unfit items.now }
{
    any_invalid(items) || most(items) >= MAX_LEVELS
}

/// The collection of the items: invalid if an item is, or if it would nest more than 256 deep.
/// Sets and Bags ascend, Sets without repeats; an OrderedSet keeps the first of equal items.
pub fn make(alloc: Global, kind: Kind, items: Vec<Value>) -> Result<Value, AllocError>
    requires { All IsWellMade items.items }
    ensures value { IfOk result (λ v. v ≡ canon kind items.items) }
    ensures well_made { IfOk result IsWellMade }
{
    if are_unfit(items.as_slice()) {
        return Ok(Value::Invalid);
    }
    Ok(collection(kind, canonical(alloc, kind, items)?))
}
