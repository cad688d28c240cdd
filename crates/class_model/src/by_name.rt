ghost use Rattle.std.specs.Prelude.{◌≡◌, ◌≤◌, ◌^◌, ◌&&◌, List, ℕ, Some, None, false, IfOk, OnOk, if◌then◌else◌, length, nat_eq};
ghost use Rattle.std.specs.HashMap.{get_by_text};
ghost use Rattle.std.specs.List.{position_from};
ghost use Rattle.std.specs.Option.{option_map_or, option_or};
ghost use Rattle.class_decls.specs.Texts.{same_text};

use crate::{Association, Class, Enumeration};
use ocl_values::Text;
use std::alloc::{AllocError, Global};
use std::collections::HashMap;

/// What names stand for.
pub type ByName<V> = HashMap<String, V>;

/// What has a name.
pub(crate) trait Titled {
    ghost use Rattle.std.specs.Prelude.{List, ℕ};

    ghost title: { Self → List ℕ };

    /// Its name.
    fn title(&self) -> &Text
        ensures { result.now ≡ title self.now };
}

impl Titled for Text {
    ghost title = { λ t. t };

    fn title(&self) -> &Text {
        self
    }
}

impl Titled for Enumeration {
    ghost title = { λ e. e.name };

    fn title(&self) -> &Text {
        &self.name
    }
}

impl Titled for Class {
    ghost title = { λ c. c.name };

    fn title(&self) -> &Text {
        &self.name
    }
}

impl Titled for Association {
    ghost title = { λ a. a.name };

    fn title(&self) -> &Text {
        &self.name
    }
}

/// A name stands for this value from now on.
pub(crate) fn put<V: Drop>(
    alloc: Global,
    map: &mut ByName<V>,
    name: &str,
    value: V,
) -> Result<(), AllocError>
    ensures { OnOk result ((t : List ℕ) → get_by_text map.new t ≡ (if same_text name.now t then Some value else get_by_text map.old t)) }
{
    let key = String::from_str(alloc, name)?;
    map.insert(key, value)?;
    Ok(())
}

/// A name stands for this value, unless it stands for another already.
pub fn add_first<V: Drop>(
    alloc: Global,
    map: &mut ByName<V>,
    name: &str,
    value: V,
) -> Result<(), AllocError>
    ensures { OnOk result ((t : List ℕ) → get_by_text map.new t ≡ option_or (get_by_text map.old t) (if same_text name.now t then Some value else None)) }
{
    if map.contains_key(name) {
        return Ok(());
    }
    put(alloc, map, name, value)
}

/// The same, where a condition holds.
pub(crate) fn add_first_if<V: Drop>(
    alloc: Global,
    map: &mut ByName<V>,
    holds: bool,
    name: &str,
    value: V,
) -> Result<(), AllocError>
    ensures { OnOk result ((t : List ℕ) → get_by_text map.new t ≡ option_or (get_by_text map.old t) (if holds
        && same_text name.now t then Some value else None)) }
{
    if !holds {
        return Ok(());
    }
    add_first(alloc, map, name, value)
}

/// The numbers of some things by their names.
pub(crate) fn numbers_by_name<T: Titled>(
    alloc: Global,
    items: &[T],
) -> Result<ByName<u32>, AllocError>
    requires { length items.now ≤ 2 ^ 32 }
    ensures { IfOk result (λ m. (t : List ℕ) → get_by_text m t ≡ position_from (λ x. same_text (T.title x) t) 0 items.now) }
{
    let mut map = HashMap::new(alloc);
    'items: for (i, item) in items.iter().enumerate() {
        add_first(alloc, &mut map, item.title().as_str(), i as u32)?;
    }
    Ok(map)
}

/// Whether a name stands for this number.
pub(crate) fn stands_for(map: &ByName<u32>, name: &str, number: u32) -> bool
    ensures { result ≡ option_map_or (nat_eq number) (get_by_text map.now name.now) false }
{
    match map.get(name) {
        None => false,
        Some(found) => number == *found,
    }
}
