ghost use Rattle.std.specs.Prelude.{◌≡◌, ◌++◌, List, ℕ, IfOk, OnOk, nat_eq, nat_lt, not};
ghost use Rattle.std.specs.List.{list_all, list_any};
ghost use Rattle.class_rules.specs.Ancestors.{parent_numbers};
ghost use Rattle.class_rules.specs.Groups.{listed};
ghost use Rattle.class_rules.specs.Operations.{is_ambiguous};
ghost use Rattle.class_rules.specs.Declaring.{declaring, is_disputed, ops_numbered, times_declared};

use crate::groups::{Groups, add_to, of_name};
use crate::hierarchy::Hierarchy;
use class_decls::OpDecl;
use std::alloc::{AllocError, Global};
use std::collections::BTreeMap;
use use_orders::contains_all;

/// Adds a class under the name of each of some operations.
fn add_number(
    alloc: Global,
    groups: &mut Groups<usize>,
    number: usize,
    ops: &[OpDecl],
) -> Result<(), AllocError>
    ensures { OnOk result ((t : List ℕ) → listed groups.new t ≡ listed groups.old t ++ times_declared number t ops.now) }
{
    'ops: for op in ops {
        add_to(alloc, groups, &op.name.text, number)?;
    }
    Ok(())
}

/// The operations that the class of a number declares.
fn ops_of<'a>(hierarchy: &Hierarchy<'a>, number: usize) -> &'a [OpDecl]
    ensures { result.now ≡ ops_numbered hierarchy.now number }
{
    match hierarchy.class(number) {
        None => &[],
        Some(class) => class.ops.as_slice(),
    }
}

/// Which of some classes declare the operations of each name.
fn declaring(
    alloc: Global,
    hierarchy: &Hierarchy<'_>,
    numbers: &[usize],
) -> Result<Groups<usize>, AllocError>
    ensures { IfOk result (λ groups. (t : List ℕ) → listed groups t ≡ declaring hierarchy.now numbers.now t) }
{
    let mut groups = BTreeMap::new(alloc);
    'numbers: for number in numbers {
        add_number(alloc, &mut groups, *number, ops_of(hierarchy, *number))?;
    }
    Ok(groups)
}

/// Whether a class alone declares an operation.
pub(crate) fn is_alone(numbers: &[usize], number: usize) -> bool
    ensures { result ≡ list_all (nat_eq number) numbers.now }
{
    numbers.iter().all(|other| number == *other)
}

/// Whether a class has the greatest number of those that declare an operation.
fn is_last(numbers: &[usize], number: usize) -> bool
    ensures { result ≡ list_all (λ other. not (nat_lt number other)) numbers.now }
{
    numbers.iter().all(|other| *other <= number)
}

/// Whether a class is the last of those that declare an operation, and not below all of them.
fn is_disputed(
    alloc: Global,
    hierarchy: &Hierarchy<'_>,
    numbers: &[usize],
    number: usize,
) -> Result<bool, AllocError>
    ensures { IfOk result (λ b. b ≡ is_disputed (parent_numbers hierarchy.now) numbers.now number) }
{
    if is_alone(numbers, number) {
        return Ok(false);
    }
    if !is_last(numbers, number) {
        return Ok(false);
    }
    let above = hierarchy.ancestors(alloc, number)?;
    let overrides_all = contains_all(alloc, above.as_slice(), numbers)?;
    Ok(!overrides_all)
}

fn some_disputed(
    alloc: Global,
    hierarchy: &Hierarchy<'_>,
    groups: &Groups<usize>,
    number: usize,
    ops: &[OpDecl],
) -> Result<bool, AllocError>
    ensures { IfOk result (λ b. b ≡ list_any (λ op. is_disputed (parent_numbers hierarchy.now) (listed groups.now op.name.text) number) ops.now) }
{
    'ops: for op in ops {
        let numbers = of_name(groups, &op.name.text);
        let disputed = is_disputed(alloc, hierarchy, numbers, number)?;
        if disputed {
            return Ok(true);
        }
    }
    Ok(false)
}

fn some_class_disputed(
    alloc: Global,
    hierarchy: &Hierarchy<'_>,
    groups: &Groups<usize>,
    numbers: &[usize],
) -> Result<bool, AllocError>
    ensures { IfOk result (λ b. b ≡ list_any (λ number. list_any
        (λ op. is_disputed (parent_numbers hierarchy.now) (listed groups.now op.name.text) number) (ops_numbered hierarchy.now number)) numbers.now) }
{
    'numbers: for number in numbers {
        let ops = ops_of(hierarchy, *number);
        let disputed = some_disputed(alloc, hierarchy, groups, *number, ops)?;
        if disputed {
            return Ok(true);
        }
    }
    Ok(false)
}

/// Whether no declaration of an operation of some classes overrides all others of its name. Only the
/// last that declares it can, so it is asked of that one.
pub(crate) fn is_ambiguous(
    alloc: Global,
    hierarchy: &Hierarchy<'_>,
    classes: &[usize],
) -> Result<bool, AllocError>
    ensures { IfOk result (λ b. b ≡ is_ambiguous hierarchy.now classes.now) }
{
    let groups = declaring(alloc, hierarchy, classes)?;
    let disputed = some_class_disputed(alloc, hierarchy, &groups, classes)?;
    Ok(disputed)
}
