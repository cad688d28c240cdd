ghost use Rattle.std.specs.Prelude.{◌≡◌, min, ◌^◌, ◌-◌, IfOk};
ghost use Rattle.ocl_values.specs.Shape.{size_of, sizes_of};
ghost use Rattle.ocl_values.specs.declared.value.Value.TheVariants.{Coll, Str};

use crate::{Kind, Text, Value};
use std::alloc::{AllocError, Global};
use use_lists::Items;
use use_orders::TryCopy;

/// The size of a value: 1, and for a String its bytes, for a collection the sizes of its elements.
/// Sizes past 2^64 - 1 count as that.
#[cycle(size)]
#[inline(always)]
pub fn size(v: &Value) -> u64
    ensures { result ≡ min (size_of v.now) (2 ^ 64 - 1) }
{
    match v {
        Value::Str(text) => (text.as_str().len() as u64).saturating_add(1),
        Value::Coll(_, items) => sizes(items.as_slice()).saturating_add(1),
        _ => 1,
    }
}

#[cycle(size)]
fn sizes(all: &[Value]) -> u64
    ensures { result ≡ min (sizes_of all.now) (2 ^ 64 - 1) }
{
    let mut sum = 0u64;
    'add: for v in all {
        sum = sum.saturating_add(size(v));
    }
    sum
}

impl Value {
    /// An equal value.
    #[cycle(copy)]
    #[inline(always)]
    pub fn try_copy(&self, alloc: Global) -> Result<Value, AllocError>
        ensures { IfOk result (λ v. v ≡ self.now) }
    {
        match self {
            Value::Null => Ok(Value::Null),
            Value::Invalid => Ok(Value::Invalid),
            Value::Bool(b) => Ok(Value::Bool(*b)),
            Value::Int(n) => Ok(Value::Int(*n)),
            Value::Str(text) => copy_text(alloc, text),
            Value::Enum(enumeration, literal) => Ok(Value::Enum(*enumeration, *literal)),
            Value::Obj(object) => Ok(Value::Obj(*object)),
            Value::Coll(kind, items) => copy_collection(alloc, *kind, items.as_slice()),
        }
    }
}

// Most values that are copied are neither a String nor a collection, so that these stand apart.
#[inline(never)]
fn copy_text(alloc: Global, text: &Text) -> Result<Value, AllocError>
    ensures { IfOk result (λ v. v ≡ Str text.now) }
{
    Ok(Value::Str(Text::copy_of(alloc, text.as_str())?))
}

#[cycle(copy)]
#[inline(never)]
fn copy_collection(alloc: Global, kind: Kind, all: &[Value]) -> Result<Value, AllocError>
    ensures { IfOk result (λ v. v ≡ Coll kind all.now) }
{
    let mut list = Vec::with_capacity(alloc, all.len())?;
    'copy: for v in all {
        list.push(v.try_copy(alloc)?)?;
    }
    Ok(Value::Coll(kind, Items::from_vec(list)))
}

impl TryCopy for Value {
    fn try_copy(&self, alloc: Global) -> Result<Value, AllocError> {
        self.try_copy(alloc)
    }
}
