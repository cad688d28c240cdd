ghost use Rattle.std.specs.Prelude.{◌≡◌, ◌≤◌, ◌<◌, None, Some, IfOk, length, true, false};
ghost use Rattle.class_rules.specs.Numbering.{closes_cycle, has_cycle, inheritance_cycle, least_below, parent_places};

use crate::numbering::numbering;
use class_decls::Decls;
use std::alloc::{AllocError, Global};
use use_lists::Items;
use use_text::Place;

/// Whether so many classes from the first on hold a cycle, among them alone.
fn has_cycle(alloc: Global, parents: &[Items<usize>], count: usize) -> Result<bool, AllocError>
    requires { count ≤ length parents.now }
    ensures { IfOk result (λ b. b ≡ has_cycle parents.now count) }
{
    let considered = &parents[..count];
    let order = numbering(alloc, considered)?;
    Ok(order.len() < considered.len())
}

/// The first class that closes a cycle, where the classes before `low` hold none and those before
/// `high` hold one. A cycle stays when classes are added, so half of them tell on which side it is.
fn closing_between(
    alloc: Global,
    parents: &[Items<usize>],
    low: usize,
    high: usize,
) -> Result<usize, AllocError>
    requires without { has_cycle parents.now low ≡ false }
    requires with { has_cycle parents.now high ≡ true }
    requires between { low < high }
    requires within { high ≤ length parents.now }
    ensures { IfOk result (λ place. least_below (closes_cycle parents.now) (length parents.now) ≡ Some place) }
{
    if high - low == 1 {
        return Ok(low);
    }
    let middle = low + (high - low) / 2;
    let cyclic = has_cycle(alloc, parents, middle)?;
    if cyclic {
        closing_between(alloc, parents, low, middle)
    } else {
        closing_between(alloc, parents, middle, high)
    }
}

/// The first class that closes a cycle among the classes up to it.
fn closing_class(alloc: Global, parents: &[Items<usize>]) -> Result<Option<usize>, AllocError>
    requires { has_cycle parents.now (length parents.now) ≡ true }
    ensures { IfOk result (λ place. place ≡ least_below (closes_cycle parents.now) (length parents.now)) }
{
    let place = closing_between(alloc, parents, 0, parents.len())?;
    Ok(Some(place))
}

/// M4: the first class that closes a cycle of inheritance among the classes up to it.
pub(crate) fn inheritance_cycle(
    alloc: Global,
    decls: &Decls,
    parents: &[Items<usize>],
) -> Result<Option<Place>, AllocError>
    requires { parents.now ≡ parent_places decls.now }
    ensures { IfOk result (λ place. place ≡ inheritance_cycle decls.now) }
{
    let cyclic = has_cycle(alloc, parents, parents.len())?;
    if !cyclic {
        return Ok(None);
    }
    let closing = closing_class(alloc, parents)?;
    let class = closing.and_then(|place| decls.classes.get(place));
    Ok(class.map(|class| class.name.place))
}
