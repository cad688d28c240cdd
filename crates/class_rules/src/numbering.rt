ghost use Rattle.std.specs.Prelude.{◌≡◌, IfOk};
ghost use Rattle.class_rules.specs.Numbering.{numbering};

use crate::queue::{next_place, no_lists, release};
use crate::ready::Ready;
use std::alloc::{AllocError, Global};
use use_lists::Items;

/// Where the class of each number stands: each time, the first class that may follow gets the next
/// number.
pub(crate) fn numbering(alloc: Global, parents: &[Items<usize>]) -> Result<Vec<usize>, AllocError>
    ensures { IfOk result (λ v. v.items ≡ numbering parents.now) }
{
    let mut order = Vec::new(alloc);
    let mut done = vec![in alloc; false; parents.len()]?;
    let mut passed = vec![in alloc; 0; parents.len()]?;
    let mut waiting = no_lists(alloc, parents.len())?;
    let mut ready = Ready::all(alloc);
    'numbers: for _number in 0..parents.len() {
        match next_place(
            parents,
            done.as_slice(),
            &mut passed,
            &mut waiting,
            &mut ready,
        )? {
            None => return Ok(order),
            Some(place) => {
                order.push(place)?;
                done[place] = true;
                release(waiting.as_slice(), place, &mut ready)?;
            }
        }
    }
    Ok(order)
}
