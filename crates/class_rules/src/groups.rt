ghost use Rattle.std.specs.Prelude.{◌≡◌, [], ◌∷◌, ◌++◌, List, ℕ, OnOk, if◌then◌else◌};
ghost use Rattle.class_decls.specs.Texts.{same_text};
ghost use Rattle.class_rules.specs.Groups.{listed};

use ocl_values::Text;
use std::alloc::{AllocError, Global};
use std::collections::BTreeMap;
use use_lists::Items;

/// Things by name: those of each name, in the order in which they were added.
pub(crate) type Groups<T> = BTreeMap<Text, Items<T>>;

/// The things of a name, which has none from then on.
fn take<T: Drop>(alloc: Global, groups: &mut Groups<T>, name: &Text) -> Items<T>
    ensures taken { result ≡ listed groups.old name.now }
    ensures left { (t : List ℕ) → listed groups.new t ≡ (if same_text name.now t then [] else listed groups.old t) }
{
    match groups.remove(name) {
        Some(row) => row,
        None => Items::new(alloc),
    }
}

/// A name has these things from now on.
fn put<T: Drop>(groups: &mut Groups<T>, name: Text, row: Items<T>) -> Result<(), AllocError>
    ensures { OnOk result ((t : List ℕ) → listed groups.new t ≡ (if same_text name t then row else listed groups.old t)) }
{
    groups.insert(name, row)?;
    Ok(())
}

/// One thing more of a name.
pub(crate) fn add_to<T: Drop>(
    alloc: Global,
    groups: &mut Groups<T>,
    name: &Text,
    x: T,
) -> Result<(), AllocError>
    ensures { OnOk result ((t : List ℕ) → listed groups.new t ≡ listed groups.old t ++ (if same_text name.now t then x ∷ [] else [])) }
{
    let mut row = take(alloc, groups, name);
    row.push(x)?;
    put(groups, Text::copy_of(alloc, name.as_str())?, row)
}

/// The things of a name.
pub(crate) fn of_name<'a, T>(groups: &'a Groups<T>, name: &Text) -> &'a [T]
    ensures { result.now ≡ listed groups.now name.now }
{
    match groups.get(name) {
        Some(row) => row.as_slice(),
        None => &[],
    }
}
