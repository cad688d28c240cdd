ghost use Rattle.std.specs.Prelude.{◌≡◌, ◌<◌, ◌^◌, IfOk, length, nat_eq, true};
ghost use Rattle.std.specs.Cmp.Lexicographic.{pointwise};
ghost use Rattle.std.specs.BTreeMap.{is_at};
ghost use Rattle.std.specs.List.{position};
ghost use Rattle.std.specs.Map.{lookup};
ghost use Rattle.std.specs.Option.{ForSome};
ghost use Rattle.use_orders.specs.Canon.{all_differ};
ghost use Rattle.object_state.specs.State.{text_cmp};
ghost use Rattle.soil_exec.specs.Found.{AreFound};

use ocl_values::Text;
use std::alloc::{AllocError, Global};
use std::collections::BTreeMap;
use std::marker::Model;
use use_lists::Items;

/// The names that a command takes from the shell, found by name. Contracts see the list of them.
#[derive(Drop)]
pub(crate) struct Shell {
    names: Items<Text>,
    /// Where each name stands, unless they are few.
    places: Option<BTreeMap<Text, u32>>,
}

impl Model for Shell {
    ghost use Rattle.std.specs.Prelude.{List, ℕ};
    ghost use Rattle.soil_exec.specs.Found.{IsFound};

    ghost Value = { List (List ℕ) };

    ghost view = { λ s. s.names };

    ghost invariant = { IsFound };
}

/// So many names are compared one by one.
const FEW: usize = 8;

/// Where each name stands.
fn places_of(alloc: Global, names: &[Text]) -> Result<BTreeMap<Text, u32>, AllocError>
    requires { length names.now < 2 ^ 32 }
    ensures { IfOk result (λ m. AreFound names.now m.entries) }
{
    let mut places = BTreeMap::new(alloc);
    let mut place = names.len();
    'names: while place > 0 {
        place -= 1;
        let name = Text::copy_of(alloc, names[place].as_str())?;
        places.insert(name, place as u32)?;
    }
    Ok(places)
}

/// Where each name stands, unless they are few.
fn index_of(alloc: Global, names: &[Text]) -> Result<Option<BTreeMap<Text, u32>>, AllocError>
    requires { length names.now < 2 ^ 32 }
    ensures { IfOk result (λ index. ForSome index (λ m. AreFound names.now m.entries)) }
{
    if names.len() <= FEW {
        return Ok(None);
    }
    Ok(Some(places_of(alloc, names)?))
}

/// Where a name stands among few.
fn place_among(names: &[Text], name: &Text) -> Option<usize>
    ensures { result ≡ position (pointwise nat_eq name.now) names.now }
{
    names.iter().position(|other| name == other)
}

/// Where a name stands, by the index of names.
fn place_in(places: &BTreeMap<Text, u32>, name: &Text) -> Option<usize>
    ensures { result ≡ lookup (is_at (text_cmp name.now)) places.now.entries }
{
    match places.get(name) {
        None => None,
        Some(place) => Some(*place as usize),
    }
}

impl Shell {
    pub(crate) fn new(alloc: Global, names: Items<Text>) -> Result<Shell, AllocError>
        requires few { length names < 2 ^ 32 }
        requires differ { all_differ text_cmp names ≡ true }
        ensures { IfOk result (λ s. s ≡ names) }
    {
        let places = index_of(alloc, names.as_slice())?;
        Ok(Shell { names, places })
    }

    pub(crate) fn as_slice(&self) -> &[Text]
        ensures { result.now ≡ self.now }
    {
        self.names.as_slice()
    }

    pub(crate) fn len(&self) -> usize
        ensures { result ≡ length self.now }
    {
        self.names.len()
    }

    /// A law: no two names are one.
    pub(crate) fn names_differ(&self)
        ensures { all_differ text_cmp self.now ≡ true }
    {
        let _ = &self.names;
    }

    /// Where a name stands.
    pub(crate) fn place_of(&self, name: &Text) -> Option<usize>
        ensures { result ≡ position (pointwise nat_eq name.now) self.now }
    {
        match &self.places {
            None => place_among(self.names.as_slice(), name),
            Some(places) => place_in(places, name),
        }
    }
}
