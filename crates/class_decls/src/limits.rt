ghost use Rattle.std.specs.Prelude.{◌≡◌, slice_get, find, filter};
ghost use Rattle.std.specs.Option.{option_map, option_or};
ghost use Rattle.class_decls.specs.Texts.{first_given};
ghost use Rattle.class_decls.specs.Limits.{bad_multiplicity, bad_part, excess_literal, is_bad_part, is_invariant};
ghost use Rattle.class_decls.specs.Limits.{too_many_assocs, too_many_classes, too_many_invariants, too_many_literals};

use crate::entry::Named;
use crate::{AssocDecl, CondDecl, CondKind, Decls, EndDecl, EnumDecl, MultPart};
use use_text::Place;

/// The most classes, associations, enumerations and invariants that a model may have, of each.
const MOST: usize = 200;

/// The most literals of an enumeration.
const MOST_LITERALS: usize = 1000;

/// The largest number of a multiplicity.
const LARGEST: i128 = 4294967295;

/// The place of the name past as many as there may be.
fn place_past<T: Named>(items: &[T], most: usize) -> Option<Place>
    ensures { result ≡ option_map (λ x. (T.name_of x).place) (slice_get items.now most) }
{
    match items.get(most) {
        None => None,
        Some(item) => Some(item.name().place),
    }
}

/// M13: the first class past the most that there may be.
pub fn too_many_classes(decls: &Decls) -> Option<Place>
    ensures { result ≡ too_many_classes decls.now }
{
    place_past(decls.classes.as_slice(), MOST)
}

/// M15: the first association past the most that there may be.
pub fn too_many_assocs(decls: &Decls) -> Option<Place>
    ensures { result ≡ too_many_assocs decls.now }
{
    place_past(decls.assocs.as_slice(), MOST)
}

fn excess_literal(decl: &EnumDecl) -> Option<Place>
    ensures { result ≡ excess_literal decl.now }
{
    place_past(decl.literals.as_slice(), MOST_LITERALS)
}

fn first_excess_literal(enums: &[EnumDecl]) -> Option<Place>
    ensures { result ≡ first_given excess_literal enums.now }
{
    'enums: for decl in enums {
        let place = excess_literal(decl);
        if place.is_some() {
            return place;
        }
    }
    None
}

/// M18: the first enumeration past the most that there may be, or the first literal past the most
/// of its enumeration.
pub fn too_many_literals(decls: &Decls) -> Option<Place>
    ensures { result ≡ too_many_literals decls.now }
{
    let enums = decls.enums.as_slice();
    let most = MOST.min(enums.len());
    first_excess_literal(&enums[..most]).or(place_past(enums, MOST))
}

fn is_bad_part(part: &MultPart) -> bool
    ensures { result ≡ is_bad_part part.now }
{
    part.low > LARGEST
        || part
            .high
            .is_some_and(|high| high < part.low || high > LARGEST || high < 1)
}

fn bad_part(end: &EndDecl) -> Option<Place>
    ensures { result ≡ bad_part end.now }
{
    let parts = end.parts.as_slice();
    parts
        .iter()
        .find(|part| is_bad_part(part))
        .map(|part| part.place)
}

fn bad_end(assoc: &AssocDecl) -> Option<Place>
    ensures { result ≡ option_or (bad_part assoc.now.first) (bad_part assoc.now.second) }
{
    bad_part(&assoc.first).or(bad_part(&assoc.second))
}

fn first_bad_end(assocs: &[AssocDecl]) -> Option<Place>
    ensures { result ≡ first_given (λ a. option_or (bad_part a.first) (bad_part a.second)) assocs.now }
{
    'assocs: for assoc in assocs {
        let place = bad_end(assoc);
        if place.is_some() {
            return place;
        }
    }
    None
}

/// M11: the first part of a multiplicity whose bounds are in the wrong order, are too large, or
/// allow nothing but 0.
pub fn bad_multiplicity(decls: &Decls) -> Option<Place>
    ensures { result ≡ bad_multiplicity decls.now }
{
    first_bad_end(decls.assocs.as_slice())
}

fn is_invariant(cond: &CondDecl) -> bool
    ensures { result ≡ is_invariant cond.now.kind }
{
    matches!(cond.kind, CondKind::Inv)
}

/// The place of the name of the invariant behind as many others.
fn invariant_place(conds: &[CondDecl], others: usize) -> Option<Place>
    ensures { result ≡ option_map (λ c. c.name.place) (slice_get (filter (λ c. is_invariant c.kind) conds.now) others) }
{
    let mut left = others;
    'conds: for cond in conds {
        if is_invariant(cond) {
            if left == 0 {
                return Some(cond.name.place);
            }
            left -= 1;
        }
    }
    None
}

/// M16: the first invariant past the most that there may be.
pub fn too_many_invariants(decls: &Decls) -> Option<Place>
    ensures { result ≡ too_many_invariants decls.now }
{
    invariant_place(decls.conds.as_slice(), MOST)
}
