ghost use Rattle.std.specs.Prelude.{◌≡◌, ◌+◌, ◌-◌, ◌^◌, min};
ghost use Rattle.std.specs.List.{sum_by};
ghost use Rattle.std.specs.Map.{values_of};
ghost use Rattle.std.specs.Option.{option_map_or};
ghost use Rattle.ocl_values.specs.Shape.{size_of, sizes_of};
ghost use Rattle.object_state.specs.Weights.{change_weight, gained, lost, object_weight, variable_weight};

use crate::{Change, Object, Variable};
use ocl_values::{ObjNo, Text, Value, size};

/// The sizes of some values together. Here and below, sums past 2^64 - 1 count as that.
fn sizes(values: &[Value]) -> u64
    ensures { result ≡ min (sizes_of values.now) (2 ^ 64 - 1) }
{
    let mut sum = 0u64;
    'add: for value in values {
        sum = sum.saturating_add(size(value));
    }
    sum
}

fn slots_weight(values: &[Value]) -> u64
    ensures { result ≡ min (1 + sizes_of values.now) (2 ^ 64 - 1) }
{
    sizes(values).saturating_add(1)
}

fn variable_weight(variable: &Variable) -> u64
    ensures { result ≡ min (variable_weight variable.now) (2 ^ 64 - 1) }
{
    size(&variable.value).saturating_add(1)
}

fn old_weight(old: &Option<Variable>) -> u64
    ensures { result ≡ min (option_map_or variable_weight old.now 0) (2 ^ 64 - 1) }
{
    match old {
        None => 0,
        Some(variable) => variable_weight(variable),
    }
}

fn old_size(old: &Option<Variable>) -> u64
    ensures { result ≡ min (option_map_or (λ v. size_of v.value) old.now 0) (2 ^ 64 - 1) }
{
    match old {
        None => 0,
        Some(variable) => size(&variable.value),
    }
}

/// What some objects weigh together.
pub(crate) fn objects_weight(objects: &[(ObjNo, Object)]) -> u64
    ensures { result ≡ min (sum_by object_weight (values_of objects.now)) (2 ^ 64 - 1) }
{
    let mut sum = 0u64;
    'add: for entry in objects {
        sum = sum.saturating_add(slots_weight(entry.1.slots.as_slice()));
    }
    sum
}

/// What some variables weigh together.
pub(crate) fn variables_weight(variables: &[(Text, Variable)]) -> u64
    ensures { result ≡ min (sum_by variable_weight (values_of variables.now)) (2 ^ 64 - 1) }
{
    let mut sum = 0u64;
    'add: for entry in variables {
        sum = sum.saturating_add(variable_weight(&entry.1));
    }
    sum
}

impl Change {
    /// What the change brings into a state.
    pub fn gained(&self) -> u64
        ensures { result ≡ min (gained self.now) (2 ^ 64 - 1) }
    {
        match self {
            Change::Create(new) => slots_weight(new.slots.as_slice()),
            Change::SetSlot { new, .. } => size(new),
            Change::Link(_) => 1,
            Change::Bind { new, .. } => variable_weight(new),
            _ => 0,
        }
    }

    /// What the change takes out of a state.
    pub fn lost(&self) -> u64
        ensures { result ≡ min (lost self.now) (2 ^ 64 - 1) }
    {
        match self {
            Change::Remove(old) => slots_weight(old.slots.as_slice()),
            Change::SetSlot { old, .. } => size(old),
            Change::Unlink(_) => 1,
            Change::Bind { old, .. } => old_weight(old),
            Change::Unbind { old, .. } => variable_weight(old),
            _ => 0,
        }
    }

    /// 1 and the sizes of the values that the change carries.
    pub fn weight(&self) -> u64
        ensures { result ≡ min (change_weight self.now) (2 ^ 64 - 1) }
    {
        match self {
            Change::Create(object) => slots_weight(object.slots.as_slice()),
            Change::Remove(object) => slots_weight(object.slots.as_slice()),
            Change::SetSlot { old, new, .. } => size(old)
                .saturating_add(size(new))
                .saturating_add(1),
            Change::Link(_) => 1,
            Change::Unlink(_) => 1,
            Change::Bind { old, new, .. } => old_size(old).saturating_add(variable_weight(new)),
            Change::Unbind { old, .. } => size(&old.value).saturating_add(1),
        }
    }
}
