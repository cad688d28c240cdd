ghost use Rattle.std.specs.Prelude.{◌≡◌, ◌<◌, ◌≤◌, ◌++◌, ◌∷◌, [], List, ℕ, IfOk, None, OnOk, length};
ghost use Rattle.std.specs.HashMap.{get_by_text};
ghost use Rattle.soil_scope.specs.Shells.{slot_of, with_name};

use class_model::{ByName, add_first};
use ocl_values::Text;
use std::alloc::{AllocError, Global};
use std::collections::HashMap;
use std::marker::Model;
use use_lists::Items;

/// So many names are looked at one after another, which costs less than a map of them.
const FEW: usize = 8;

/// The names that a command takes from the shell, each once. Their values stand first in its
/// environment, in this order.
#[derive(Drop)]
pub struct ShellNames {
    names: Items<Text>,
    /// Where they stand, if they are more than a few.
    slots: ByName<usize>,
}

impl Model for ShellNames {
    ghost use Rattle.std.specs.Prelude.{List, ℕ};
    ghost use Rattle.soil_scope.specs.Slots.{AreSlots};

    ghost Value = { List (List ℕ) };

    ghost view = { λ s. s.names };

    ghost invariant = { AreSlots };
}

/// Where the first name stands that is this one.
fn place_among(names: &[Text], name: &str) -> Option<usize>
    ensures { result ≡ slot_of names.now name.now }
{
    names.iter().position(|listed| listed.as_str() == name)
}

/// Where names stand.
fn slots_of(alloc: Global, names: &[Text]) -> Result<ByName<usize>, AllocError>
    ensures { IfOk result (λ m. (t : List ℕ) → get_by_text m t ≡ slot_of names.now t) }
{
    let mut slots = HashMap::new(alloc);
    'names: for (i, name) in names.iter().enumerate() {
        add_first(alloc, &mut slots, name.as_str(), i)?;
    }
    Ok(slots)
}

/// Notes where a few names stand, since there will be more.
fn fill(alloc: Global, names: &[Text], slots: &mut ByName<usize>) -> Result<(), AllocError>
    requires slots { 8 < length names.now → (t : List ℕ) → get_by_text slots.old t ≡ slot_of names.now t }
    ensures { OnOk result (8 ≤ length names.now → (t : List ℕ) → get_by_text slots.new t ≡ slot_of names.now t) }
{
    if names.len() != FEW {
        return Ok(());
    }
    *slots = slots_of(alloc, names)?;
    Ok(())
}

/// Notes where one name more stands, if there are more than a few.
fn note_slot(
    alloc: Global,
    names: &[Text],
    slots: &mut ByName<usize>,
    name: &str,
) -> Result<(), AllocError>
    requires slots { 8 < length names.now → (t : List ℕ) → get_by_text slots.old t ≡ slot_of names.now t }
    ensures { OnOk result (8 < length (names.now ++ name.now ∷ []) → (t : List ℕ) → get_by_text slots.new t ≡ slot_of (names.now ++ name.now ∷ []) t) }
{
    if names.len() < FEW {
        return Ok(());
    }
    fill(alloc, names, slots)?;
    add_first(alloc, slots, name, names.len())
}

/// Adds a name that is not there.
fn put_last(
    alloc: Global,
    names: &mut Items<Text>,
    slots: &mut ByName<usize>,
    name: &str,
) -> Result<(), AllocError>
    requires slots { 8 < length names.old → (t : List ℕ) → get_by_text slots.old t ≡ slot_of names.old t }
    ensures names { OnOk result (names.new ≡ names.old ++ name.now ∷ []) }
    ensures slots { OnOk result (8 < length names.new → (t : List ℕ) → get_by_text slots.new t ≡ slot_of names.new t) }
{
    note_slot(alloc, names.as_slice(), slots, name)?;
    names.push(Text::copy_of(alloc, name)?)?;
    Ok(())
}

impl ShellNames {
    /// No name.
    pub fn new(alloc: Global) -> ShellNames
        ensures { result ≡ [] }
    {
        ShellNames {
            names: Items::new(alloc),
            slots: HashMap::new(alloc),
        }
    }

    /// The names, in the order of the environment.
    pub fn names(&self) -> &[Text]
        ensures { result.now ≡ self.now }
    {
        self.names.as_slice()
    }

    /// The same names as a list.
    pub fn into_names(self) -> Items<Text>
        ensures { result ≡ self }
    {
        let ShellNames { names, slots: _ } = self;
        names
    }

    /// Which value of the environment stands for a name.
    pub fn slot_of(&self, name: &str) -> Option<usize>
        ensures { result ≡ slot_of self.now name.now }
    {
        if self.names.len() <= FEW {
            return place_among(self.names.as_slice(), name);
        }
        self.slots.get(name).copied()
    }

    /// Adds a name, unless it is there. After want of memory there is none.
    pub fn add(&mut self, alloc: Global, name: &str) -> Result<(), AllocError>
        ensures { OnOk result (self.new ≡ with_name self.old name.now) }
    {
        if self.slot_of(name).is_some() {
            return Ok(());
        }
        let added = put_last(alloc, &mut self.names, &mut self.slots, name);
        if added.is_err() {
            *self = ShellNames::new(alloc);
        }
        added
    }
}
