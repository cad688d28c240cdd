ghost use Rattle.std.specs.Prelude.{◌≡◌, ◌≢◌, ◌<◌, ℕ, None, All, IfOk, length, nat_eq, slice_index_or, vec_len};
ghost use Rattle.std.specs.List.{filter_map, position_from};
ghost use Rattle.std.specs.Option.{option_or};
ghost use Rattle.class_rules.specs.Numbering.{some_if};

use std::alloc::{AllocError, Global};

/// Gives a number to the class at a place, unless it has one.
fn give_number(numbers: &mut Vec<Option<usize>>, place: usize, number: usize)
    requires { place < vec_len numbers.old }
    ensures size { vec_len numbers.new ≡ vec_len numbers.old }
    ensures given { (i : ℕ) → slice_index_or numbers.new.items i None ≡ option_or (slice_index_or numbers.old.items i None) (some_if (nat_eq i place) number) }
{
    if numbers[place].is_none() {
        numbers[place] = Some(number);
    }
}

/// The number of the class at each place.
pub(crate) fn numbers_of(
    alloc: Global,
    order: &[usize],
    count: usize,
) -> Result<Vec<Option<usize>>, AllocError>
    requires { All (λ place. place < count) order.now }
    ensures { IfOk result (λ v. (i : ℕ) → slice_index_or v.items i None ≡ position_from (nat_eq i) 0 order.now) }
{
    let mut numbers = vec![in alloc; None; count]?;
    'order: for (number, place) in order.iter().enumerate() {
        give_number(&mut numbers, *place, number);
    }
    Ok(numbers)
}
