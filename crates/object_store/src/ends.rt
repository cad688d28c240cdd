ghost use Rattle.std.specs.Prelude.{◌≡◌, ◌∷◌, [], ℕ, IfOk, OnErr, OnOk, is_some, map, true};
ghost use Rattle.std.specs.BTreeMap.{insert_entry, is_at};
ghost use Rattle.std.specs.Map.{lookup, remove_entry};
ghost use Rattle.std.specs.Option.{option_copied, option_map_or};
ghost use Rattle.std.specs.Ordering.{nat_cmp};
ghost use Rattle.ocl_values.specs.declared.value.Value.TheVariants.{Obj};
ghost use Rattle.object_state.specs.State.{link_cmp};
ghost use Rattle.object_store.specs.Ends.{entries_in, entries_of, row_at};
ghost use Rattle.object_store.specs.Indexes.{pair_at, with_row};

use crate::LinkKey;
use crate::entries::{put, take};
use crate::pair_map::PairMap;
use class_model::{AssocNo, End};
use ocl_values::{ObjNo, Value};
use std::alloc::{AllocError, Global};
use std::collections::BTreeMap;

/// The links of an association at an end of an object: the object at the other end of each, by stamps.
/// Most objects have one, which needs no memory of its own.
#[derive(Drop)]
pub(crate) enum Row {
    One(u32, ObjNo),
    Many(BTreeMap<u32, ObjNo>),
}

/// The rows of associations and objects. An object without links has none.
pub(crate) type Ends = PairMap<Row>;

/// Two links in a map.
fn both(
    alloc: Global,
    first: (u32, ObjNo),
    second: (u32, ObjNo),
) -> Result<BTreeMap<u32, ObjNo>, AllocError>
    ensures { IfOk result (λ m. m.entries ≡ insert_entry nat_cmp ((first.0, first.1) ∷ []) second.0 second.1) }
{
    let mut objects = BTreeMap::new(alloc);
    put(&mut objects, first.0, first.1)?;
    put(&mut objects, second.0, second.1)?;
    Ok(objects)
}

/// The row of a map, unless it is empty.
fn row_of(objects: BTreeMap<u32, ObjNo>) -> Option<Row>
    ensures { entries_of result ≡ objects.entries }
{
    if objects.is_empty() {
        return None;
    }
    Some(Row::Many(objects))
}

/// A row of one link, without the link of a stamp.
fn one_without(held: u32, other: ObjNo, stamp: u32) -> Option<Row>
    ensures { entries_of result ≡ remove_entry (is_at (nat_cmp stamp)) ((held, other) ∷ []) }
{
    if stamp == held {
        return None;
    }
    Some(Row::One(held, other))
}

/// A list of one.
fn single<T: Drop>(alloc: Global, item: T) -> Result<Vec<T>, AllocError>
    ensures { IfOk result (λ v. v.items ≡ item ∷ []) }
{
    let mut items = Vec::with_capacity(alloc, 1)?;
    items.push(item)?;
    Ok(items)
}

impl Row {
    /// Puts a link in. After `AllocError` the row is as it was.
    fn insert(&mut self, alloc: Global, stamp: u32, object: ObjNo) -> Result<(), AllocError>
        ensures ok { OnOk result (entries_in self.new ≡ insert_entry nat_cmp (entries_in self.old) stamp object) }
        ensures err { OnErr result (entries_in self.new ≡ entries_in self.old) }
    {
        match self {
            Row::One(held, other) => {
                let objects = both(alloc, (*held, *other), (stamp, object))?;
                *self = Row::Many(objects);
                Ok(())
            }
            Row::Many(objects) => put(objects, stamp, object),
        }
    }

    /// What is left of it without the link of a stamp.
    fn without(self, stamp: u32) -> Option<Row>
        ensures { entries_of result ≡ remove_entry (is_at (nat_cmp stamp)) (entries_in self) }
    {
        match self {
            Row::One(held, other) => one_without(held, other, stamp),
            Row::Many(mut objects) => {
                take(&mut objects, stamp);
                row_of(objects)
            }
        }
    }

    /// The objects, by stamps.
    fn objects(&self, alloc: Global) -> Result<Vec<Value>, AllocError>
        ensures { IfOk result (λ v. v.items ≡ map (λ e. Obj e.1) (entries_in self.now)) }
    {
        match self {
            Row::One(_, other) => single(alloc, Value::Obj(*other)),
            Row::Many(objects) => objects
                .iter()
                .map(|(_, other)| Value::Obj(*other))
                .collect(alloc),
        }
    }

    /// The links, by stamps: of each its key, and the objects that it joins.
    fn links(
        &self,
        alloc: Global,
        assoc: AssocNo,
        end: End,
        object: ObjNo,
    ) -> Result<Vec<(LinkKey, (ObjNo, ObjNo))>, AllocError>
        ensures { IfOk result (λ v. v.items ≡ map (λ e. ((assoc, e.0), pair_at end object e.1)) (entries_in self.now)) }
    {
        match self {
            Row::One(stamp, other) => {
                single(alloc, ((assoc, *stamp), pair_at(end, object, *other)))
            }
            Row::Many(objects) => objects
                .iter()
                .map(|(stamp, other)| ((assoc, *stamp), pair_at(end, object, *other)))
                .collect(alloc),
        }
    }
}

/// The pair with an object at an end, and another at the opposite one.
fn pair_at(end: End, object: ObjNo, other: ObjNo) -> (ObjNo, ObjNo)
    ensures { result ≡ pair_at end object other }
{
    match end {
        End::First => (object, other),
        End::Second => (other, object),
    }
}

/// Puts a link into a row that is there.
fn put_more(
    alloc: Global,
    ends: &mut Ends,
    at: (AssocNo, ObjNo),
    link: (u32, ObjNo),
) -> Result<(), AllocError>
    requires { is_some (lookup (is_at (link_cmp (at.0, at.1))) ends.old) ≡ true }
    ensures ok { OnOk result ((k : ℕ × ℕ) → row_at ends.new k ≡ with_row (row_at ends.old) at (insert_entry nat_cmp (row_at ends.old at) link.0 link.1) k) }
    ensures err { OnErr result ((k : ℕ × ℕ) → row_at ends.new k ≡ row_at ends.old k) }
{
    let mut row = ends.replace(at.0, at.1, Row::One(link.0, link.1));
    let put = row.insert(alloc, link.0, link.1);
    ends.replace(at.0, at.1, row);
    put
}

/// Puts a link in at an association and an object. After `AllocError` the rows are as they were.
pub(crate) fn put_end(
    alloc: Global,
    ends: &mut Ends,
    at: (AssocNo, ObjNo),
    link: (u32, ObjNo),
) -> Result<(), AllocError>
    ensures ok { OnOk result ((k : ℕ × ℕ) → row_at ends.new k ≡ with_row (row_at ends.old) at (insert_entry nat_cmp (row_at ends.old at) link.0 link.1) k) }
    ensures err { OnErr result ((k : ℕ × ℕ) → row_at ends.new k ≡ row_at ends.old k) }
{
    if ends.has(at.0, at.1) {
        put_more(alloc, ends, at, link)
    } else {
        ends.insert(alloc, at.0, at.1, Row::One(link.0, link.1))
    }
}

/// Takes the link of a stamp out of a row that is there.
fn take_there(ends: &mut Ends, at: (AssocNo, ObjNo), stamp: u32)
    requires { is_some (lookup (is_at (link_cmp (at.0, at.1))) ends.old) ≡ true }
    ensures { (k : ℕ × ℕ) → row_at ends.new k ≡ with_row (row_at ends.old) at (remove_entry (is_at (nat_cmp stamp)) (row_at ends.old at)) k }
{
    let row = ends.replace(at.0, at.1, Row::One(stamp, at.1));
    match row.without(stamp) {
        None => ends.remove(at.0, at.1),
        Some(rest) => {
            ends.replace(at.0, at.1, rest);
        }
    }
}

/// Takes the link of a stamp out at an association and an object.
pub(crate) fn take_end(ends: &mut Ends, at: (AssocNo, ObjNo), stamp: u32)
    ensures { (k : ℕ × ℕ) → row_at ends.new k ≡ with_row (row_at ends.old) at (remove_entry (is_at (nat_cmp stamp)) (row_at ends.old at)) k }
{
    if ends.has(at.0, at.1) {
        take_there(ends, at, stamp);
    }
}

/// The objects at the other ends of the links of an association at an object, by stamps.
pub(crate) fn objects_at(
    alloc: Global,
    ends: &Ends,
    assoc: AssocNo,
    object: ObjNo,
) -> Result<Vec<Value>, AllocError>
    ensures { IfOk result (λ v. v.items ≡ map (λ e. Obj e.1) (row_at ends.now (assoc, object))) }
{
    match ends.get(assoc, object) {
        None => Ok(Vec::new(alloc)),
        Some(row) => row.objects(alloc),
    }
}

/// The links of an association at an object, by stamps: of each its key, and the objects that it joins.
pub(crate) fn links_at(
    alloc: Global,
    ends: &Ends,
    assoc: AssocNo,
    end: End,
    object: ObjNo,
) -> Result<Vec<(LinkKey, (ObjNo, ObjNo))>, AllocError>
    ensures { IfOk result (λ v. v.items ≡ map (λ e. ((assoc, e.0), pair_at end object e.1)) (row_at ends.now (assoc, object))) }
{
    match ends.get(assoc, object) {
        None => Ok(Vec::new(alloc)),
        Some(row) => row.links(alloc, assoc, end, object),
    }
}
