ghost use Rattle.std.specs.Prelude.{◌≡◌, ◌<◌, IfOk, Some, length};
ghost use Rattle.class_decls.specs.Entries.{again, declared_again, earlier, first_place, is_same_name};

use crate::Entry;
use std::alloc::AllocError;
use use_orders::bag;
use use_text::Place;

fn is_same_name(a: &Entry, b: &Entry) -> bool
    ensures { result ≡ is_same_name a.now b.now }
{
    a.space == b.space && a.text == b.text
}

/// The earlier of two places.
pub(crate) fn earlier(place: Place, other: Option<Place>) -> Place
    ensures { result ≡ earlier place other }
{
    match other {
        None => place,
        Some(q) => { if q.cmp(&place).is_lt() { q } else { place } }
    }
}

fn first_again(sorted: &[Entry]) -> Option<Place>
    ensures { result ≡ first_place (again sorted.now) }
{
    let mut first = None;
    let mut i = sorted.len();
    'entries: while i > 1 {
        i -= 1;
        let name = &sorted[i];
        if is_same_name(&sorted[i - 1], name) {
            first = Some(earlier(name.place, first));
        }
    }
    first
}

/// The first place at which a name is declared for the second time in its space.
pub(crate) fn declared_again(names: Vec<Entry>) -> Result<Option<Place>, AllocError>
    ensures { IfOk result (λ place. place ≡ declared_again names.items) }
{
    let sorted = bag(names)?;
    Ok(first_again(sorted.as_slice()))
}
