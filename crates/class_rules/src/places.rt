ghost use Rattle.std.specs.Prelude.{◌≡◌, [], ◌++◌, List, ℕ, IfOk, OnOk, Some, map};
ghost use Rattle.std.specs.List.{cons_option, filter_map, position_from};
ghost use Rattle.std.specs.Option.{option_or};
ghost use Rattle.class_rules.specs.Numbering.{class_at, parent_places, place_in, some_if};
ghost use Rattle.class_decls.specs.Texts.{same_text};

use class_decls::{ClassDecl, Decls, Name};
use ocl_values::Text;
use std::alloc::{AllocError, Global};
use std::collections::HashMap;
use use_lists::Items;

/// Where the classes of names stand. Nothing asks for their order, and a look costs one comparison
/// of names.
pub(crate) type Places<'a> = HashMap<&'a str, usize>;

/// A name stands at this place, unless it stands at another already.
pub(crate) fn add_place<'a>(
    places: &mut Places<'a>,
    text: &'a str,
    place: usize,
) -> Result<(), AllocError>
    ensures { OnOk result ((t : List ℕ) → place_in places.new t ≡ option_or (place_in places.old t) (some_if (same_text text.now t) place)) }
{
    if places.contains_key(text) {
        return Ok(());
    }
    places.insert(text, place)?;
    Ok(())
}

/// Where the class or operation of a name stands.
pub(crate) fn place_of(places: &Places<'_>, name: &Text) -> Option<usize>
    ensures { result ≡ place_in places.now name.now }
{
    places.get(name.as_str()).copied()
}

fn places_of<'a>(alloc: Global, classes: &'a [ClassDecl]) -> Result<Places<'a>, AllocError>
    ensures { IfOk result (λ m. (t : List ℕ) → place_in m t ≡ position_from (λ c. same_text c.name.text t) 0 classes.now) }
{
    let mut places = HashMap::new(alloc);
    'classes: for (i, class) in classes.iter().enumerate() {
        add_place(&mut places, class.name.text.as_str(), i)?;
    }
    Ok(places)
}

/// Where the classes stand.
pub(crate) fn class_places<'a>(alloc: Global, decls: &'a Decls) -> Result<Places<'a>, AllocError>
    ensures { IfOk result (λ m. (t : List ℕ) → place_in m t ≡ class_at decls.now t) }
{
    places_of(alloc, decls.classes.as_slice())
}

fn add_found(place: Option<usize>, found: &mut Vec<usize>) -> Result<(), AllocError>
    ensures { OnOk result (found.new.items ≡ found.old.items ++ cons_option place []) }
{
    match place {
        None => Ok(()),
        Some(place) => {
            found.push(place)?;
            Ok(())
        }
    }
}

fn parents_in(
    alloc: Global,
    places: &Places<'_>,
    parents: &[Name],
) -> Result<Vec<usize>, AllocError>
    ensures { IfOk result (λ v. v.items ≡ filter_map (λ p. place_in places.now p.text) parents.now) }
{
    let mut found = Vec::new(alloc);
    'parents: for parent in parents {
        add_found(place_of(places, &parent.text), &mut found)?;
    }
    Ok(found)
}

fn all_parents(
    alloc: Global,
    places: &Places<'_>,
    classes: &[ClassDecl],
) -> Result<Vec<Items<usize>>, AllocError>
    ensures { IfOk result (λ v. v.items ≡ map (λ c. filter_map (λ p. place_in places.now p.text) c.parents) classes.now) }
{
    let mut rows = Vec::new(alloc);
    'classes: for class in classes {
        let row = parents_in(alloc, places, class.parents.as_slice())?;
        rows.push(Items::from_vec(row))?;
    }
    Ok(rows)
}

/// Where the parents of each class stand.
pub(crate) fn parent_places(alloc: Global, decls: &Decls) -> Result<Vec<Items<usize>>, AllocError>
    ensures { IfOk result (λ v. v.items ≡ parent_places decls.now) }
{
    let places = class_places(alloc, decls)?;
    let rows = all_parents(alloc, &places, decls.classes.as_slice())?;
    Ok(rows)
}
