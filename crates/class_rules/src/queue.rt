ghost use Rattle.std.specs.Prelude.{◌≡◌, ◌<◌, ◌||◌, ℕ, true, false, IfOk, OnOk, length, slice_index_or, take};
ghost use Rattle.std.specs.List.{list_all};
ghost use Rattle.class_rules.specs.Numbering.{is_among, least_below, may_follow_flags, row_at};
ghost use Rattle.class_rules.specs.Queue.{IsQueued, has_number};
ghost use Rattle.class_rules.specs.Ready.{is_ready};

use crate::ancestors::row_at;
use crate::ready::Ready;
use std::alloc::{AllocError, Global};
use use_lists::Items;

/// Whether the class at a place has a number, or is none of those that are considered.
fn has_number(done: &[bool], place: usize) -> bool
    ensures { result ≡ has_number done.now place }
{
    match done.get(place) {
        None => true,
        Some(has_number) => *has_number,
    }
}

/// Of the parents of a class, the first from another on that has no number; their count where all
/// have one.
fn next_open(done: &[bool], row: &[usize], from: usize) -> usize
    requires { list_all (has_number done.now) (take from row.now) ≡ true }
    ensures numbered { list_all (has_number done.now) (take result row.now) ≡ true }
    ensures unnumbered { result < length row.now → has_number done.now (slice_index_or row.now result 0) ≡ false }
{
    'parents: for i in from..row.len() {
        if !has_number(done, row[i]) {
            return i;
        }
    }
    row.len()
}

/// A list for each of so many classes, empty at first.
pub(crate) fn no_lists(alloc: Global, count: usize) -> Result<Vec<Items<usize>>, AllocError>
    ensures { IfOk result (λ v. length v.items ≡ count) }
{
    let mut lists = Vec::new(alloc);
    'lists: for _place in 0..count {
        lists.push(Items::new(alloc))?;
    }
    Ok(lists)
}

/// A class waits for a parent.
fn wait_for(waiting: &mut Vec<Items<usize>>, parent: usize, class: usize) -> Result<(), AllocError>
    requires { parent < length waiting.old.items }
    ensures size { OnOk result (length waiting.new.items ≡ length waiting.old.items) }
    ensures listed { OnOk result (is_among (row_at waiting.new.items parent) class ≡ true) }
    ensures kept { OnOk result ((p i : ℕ) → is_among (row_at waiting.old.items p) i ≡ true → is_among (row_at waiting.new.items p) i ≡ true) }
{
    waiting[parent].push(class)?;
    Ok(())
}

/// The first class in the text that may get the next number. A class that has to wait is met again
/// when the parent has its number for which it waits, so each parent is looked at once.
pub(crate) fn next_place(
    parents: &[Items<usize>],
    done: &[bool],
    passed: &mut Vec<usize>,
    waiting: &mut Vec<Items<usize>>,
    ready: &mut Ready,
) -> Result<Option<usize>, AllocError>
    requires { IsQueued parents.now done.now passed.old.items waiting.old.items ready.old }
    ensures place { IfOk result (λ place. place ≡ least_below (may_follow_flags parents.now done.now) (length parents.now)) }
    ensures queued { OnOk result (IsQueued parents.now done.now passed.new.items waiting.new.items ready.new) }
{
    'classes: while ready.first() < parents.len() {
        let place = ready.first();
        if !has_number(done, place) {
            let row = row_at(parents, place);
            let next = next_open(done, row, passed[place]);
            passed[place] = next;
            if next >= row.len() {
                return Ok(Some(place));
            }
            wait_for(waiting, row[next], place)?;
        }
        ready.drop_first();
    }
    Ok(None)
}

/// The classes that wait for one that got its number are ready to be looked at.
pub(crate) fn release(
    waiting: &[Items<usize>],
    place: usize,
    ready: &mut Ready,
) -> Result<(), AllocError>
    ensures { OnOk result ((i : ℕ) → is_ready ready.new i ≡ (is_ready ready.old i || is_among (row_at waiting.now place) i)) }
{
    ready.add_all(row_at(waiting, place))
}
