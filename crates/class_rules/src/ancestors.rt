ghost use Rattle.std.specs.Prelude.{◌≡◌, IfOk, OnOk, fold};
ghost use Rattle.std.specs.Ordering.{nat_cmp};
ghost use Rattle.std.specs.BTreeSet.{IsOrdered, insert_key};
ghost use Rattle.class_rules.specs.Ancestors.{IsDownward, ancestors};
ghost use Rattle.class_rules.specs.Numbering.{row_at};

use std::alloc::{AllocError, Global};
use std::collections::BTreeSet;
use use_lists::Items;

/// The entry of a list of lists, and nothing past its end.
pub(crate) fn row_at(rows: &[Items<usize>], i: usize) -> &[usize]
    ensures { result.now ≡ row_at rows.now i }
{
    match rows.get(i) {
        None => &[],
        Some(row) => row.as_slice(),
    }
}

fn add_all(classes: &[usize], todo: &mut BTreeSet<usize>) -> Result<(), AllocError>
    ensures { OnOk result (todo.new.keys ≡ fold (insert_key nat_cmp) todo.old.keys classes.now) }
{
    'classes: for class in classes {
        todo.insert(*class)?;
    }
    Ok(())
}

/// The elements of a set, in order.
fn keys_of(alloc: Global, set: BTreeSet<usize>) -> Result<Vec<usize>, AllocError>
    ensures ok { IfOk result (λ v. v.items ≡ set.keys) }
    ensures ordered { IsOrdered nat_cmp set }
{
    let _ = set.len();
    set.into_iter().collect(alloc)
}

/// A class and its ancestors, in order. Classes are gone through from the largest number down, so
/// that each is met once.
pub(crate) fn ancestors(
    alloc: Global,
    parents: &[Items<usize>],
    class: usize,
) -> Result<Vec<usize>, AllocError>
    requires { IsDownward parents.now }
    ensures { IfOk result (λ v. v.items ≡ ancestors parents.now class) }
{
    let mut todo = BTreeSet::new(alloc);
    let mut found = BTreeSet::new(alloc);
    todo.insert(class)?;
    'classes: while let Some(next) = todo.pop_last() {
        add_all(row_at(parents, next), &mut todo)?;
        found.insert(next)?;
    }
    keys_of(alloc, found)
}
