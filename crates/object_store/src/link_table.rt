ghost use Rattle.std.specs.Prelude.{◌≡◌, ◌<◌, ◌^◌, [], ℕ, IfOk, OnOk, OnErr, None, Some, filter, length, map};
ghost use Rattle.std.specs.BTreeMap.{insert_entry, is_at};
ghost use Rattle.std.specs.Map.{lookup, remove_entry, update};
ghost use Rattle.std.specs.Ordering.{nat_cmp};
ghost use Rattle.ocl_values.specs.declared.value.Value.TheVariants.{Obj};
ghost use Rattle.object_state.specs.Looks.{has_at};
ghost use Rattle.object_state.specs.State.{link_cmp};
ghost use Rattle.object_store.specs.Ends.{row_at};
ghost use Rattle.object_store.specs.Indexes.{joined_in, pairs_in, same_pair, stamp_at, stamp_in, with_row};

use crate::ends::{Ends, links_at, objects_at, put_end, take_end};
use crate::pair_map::PairMap;
use crate::{LinkKey, PairKey};
use class_model::{AssocNo, End};
use object_state::LinkChange;
use ocl_values::{ObjNo, Value};
use std::alloc::{AllocError, Global};
use std::collections::HashMap;
use std::marker::Model;

/// Links by association and stamp. Contracts see the list of them in that order.
#[derive(Drop)]
pub(crate) struct LinkTable {
    links: PairMap<(ObjNo, ObjNo)>,
    /// How many links there are.
    count: usize,
    /// The stamp of each linked pair.
    stamps: HashMap<PairKey, u32>,
    /// The second objects of the links of each first one.
    seconds: Ends,
    /// The first objects of the links of each second one.
    firsts: Ends,
}

impl Model for LinkTable {
    ghost use Rattle.std.specs.Prelude.{◌≡◌, List, ℕ, length};
    ghost use Rattle.object_store.specs.Ends.{row_at};
    ghost use Rattle.object_store.specs.Indexes.{LinksAreTied, stamp_at};

    ghost Value = { List ((ℕ × ℕ) × (ℕ × ℕ)) };

    ghost view = { λ t. t.links };

    ghost invariant = { λ t. LinksAreTied t.links (stamp_at t.stamps) (row_at t.seconds) (row_at t.firsts) × (t.count ≡ length t.links) };
}

/// A link by its pair.
fn pair_key(link: &LinkChange) -> PairKey
    ensures { result ≡ (link.now.assoc, (link.now.first, link.now.second)) }
{
    (link.assoc, (link.first, link.second))
}

/// An association and the first object of a link of it.
fn first_end(link: &LinkChange) -> (AssocNo, ObjNo)
    ensures { result ≡ (link.now.assoc, link.now.first) }
{
    (link.assoc, link.first)
}

/// An association and the second object of a link of it.
fn second_end(link: &LinkChange) -> (AssocNo, ObjNo)
    ensures { result ≡ (link.now.assoc, link.now.second) }
{
    (link.assoc, link.second)
}

/// Puts a stamp at a pair.
fn put_stamp(
    stamps: &mut HashMap<PairKey, u32>,
    pair: PairKey,
    stamp: u32,
) -> Result<(), AllocError>
    ensures ok { OnOk result ((k : ℕ × (ℕ × ℕ)) → stamp_at stamps.new k ≡ update same_pair (stamp_at stamps.old) pair (Some stamp) k) }
    ensures err { OnErr result ((k : ℕ × (ℕ × ℕ)) → stamp_at stamps.new k ≡ stamp_at stamps.old k) }
{
    stamps.insert(pair, stamp)?;
    Ok(())
}

/// Takes the stamp of a pair out.
fn take_stamp(stamps: &mut HashMap<PairKey, u32>, pair: PairKey)
    ensures { (k : ℕ × (ℕ × ℕ)) → stamp_at stamps.new k ≡ update same_pair (stamp_at stamps.old) pair None k }
{
    stamps.remove(&pair);
}

/// Puts both ends of a link into their rows, or neither.
fn put_ends(
    alloc: Global,
    seconds: &mut Ends,
    firsts: &mut Ends,
    link: &LinkChange,
) -> Result<(), AllocError>
    requires { lookup (is_at (nat_cmp link.now.stamp)) (row_at seconds.old (link.now.assoc, link.now.first)) ≡ None }
    ensures seconds { OnOk result ((k : ℕ × ℕ) → row_at seconds.new k ≡ with_row (row_at seconds.old) (link.now.assoc, link.now.first)
        (insert_entry nat_cmp (row_at seconds.old (link.now.assoc, link.now.first)) link.now.stamp link.now.second) k) }
    ensures firsts { OnOk result ((k : ℕ × ℕ) → row_at firsts.new k ≡ with_row (row_at firsts.old) (link.now.assoc, link.now.second)
        (insert_entry nat_cmp (row_at firsts.old (link.now.assoc, link.now.second)) link.now.stamp link.now.first) k) }
    ensures no_seconds { OnErr result ((k : ℕ × ℕ) → row_at seconds.new k ≡ row_at seconds.old k) }
    ensures no_firsts { OnErr result ((k : ℕ × ℕ) → row_at firsts.new k ≡ row_at firsts.old k) }
{
    put_end(alloc, seconds, first_end(link), (link.stamp, link.second))?;
    match put_end(alloc, firsts, second_end(link), (link.stamp, link.first)) {
        Ok(()) => Ok(()),
        Err(refused) => {
            take_end(seconds, first_end(link), link.stamp);
            Err(refused)
        }
    }
}

/// Puts a link into all indexes, or into none.
fn put_indexes(
    alloc: Global,
    stamps: &mut HashMap<PairKey, u32>,
    seconds: &mut Ends,
    firsts: &mut Ends,
    link: &LinkChange,
) -> Result<(), AllocError>
    requires pair { stamp_at stamps.old (link.now.assoc, (link.now.first, link.now.second)) ≡ None }
    requires end { lookup (is_at (nat_cmp link.now.stamp)) (row_at seconds.old (link.now.assoc, link.now.first)) ≡ None }
    ensures stamps { OnOk result ((k : ℕ × (ℕ × ℕ)) → stamp_at stamps.new k
        ≡ update same_pair (stamp_at stamps.old) (link.now.assoc, (link.now.first, link.now.second)) (Some link.now.stamp) k) }
    ensures seconds { OnOk result ((k : ℕ × ℕ) → row_at seconds.new k ≡ with_row (row_at seconds.old) (link.now.assoc, link.now.first)
        (insert_entry nat_cmp (row_at seconds.old (link.now.assoc, link.now.first)) link.now.stamp link.now.second) k) }
    ensures firsts { OnOk result ((k : ℕ × ℕ) → row_at firsts.new k ≡ with_row (row_at firsts.old) (link.now.assoc, link.now.second)
        (insert_entry nat_cmp (row_at firsts.old (link.now.assoc, link.now.second)) link.now.stamp link.now.first) k) }
    ensures no_stamps { OnErr result ((k : ℕ × (ℕ × ℕ)) → stamp_at stamps.new k ≡ stamp_at stamps.old k) }
    ensures no_seconds { OnErr result ((k : ℕ × ℕ) → row_at seconds.new k ≡ row_at seconds.old k) }
    ensures no_firsts { OnErr result ((k : ℕ × ℕ) → row_at firsts.new k ≡ row_at firsts.old k) }
{
    put_stamp(stamps, pair_key(link), link.stamp)?;
    match put_ends(alloc, seconds, firsts, link) {
        Ok(()) => Ok(()),
        Err(refused) => {
            take_stamp(stamps, pair_key(link));
            Err(refused)
        }
    }
}

impl LinkTable {
    pub(crate) fn new(alloc: Global) -> LinkTable
        ensures { result ≡ [] }
    {
        LinkTable {
            links: PairMap::new(alloc),
            count: 0,
            stamps: HashMap::new(alloc),
            seconds: PairMap::new(alloc),
            firsts: PairMap::new(alloc),
        }
    }

    pub(crate) fn len(&self) -> usize
        ensures { result ≡ length self.now }
    {
        self.count
    }

    /// The stamp of a pair that an association links.
    pub(crate) fn stamp(&self, assoc: AssocNo, first: ObjNo, second: ObjNo) -> Option<u32>
        ensures { result ≡ stamp_in self.now assoc first second }
    {
        self.stamps.get(&(assoc, (first, second))).copied()
    }

    /// The objects at an end of an object, by stamps.
    pub(crate) fn joined(
        &self,
        alloc: Global,
        assoc: AssocNo,
        end: End,
        object: ObjNo,
    ) -> Result<Vec<Value>, AllocError>
        ensures { IfOk result (λ v. v.items ≡ map Obj (joined_in self.now assoc end object)) }
    {
        match end {
            End::First => objects_at(alloc, &self.firsts, assoc, object),
            End::Second => objects_at(alloc, &self.seconds, assoc, object),
        }
    }

    /// The links of an association that have an object at an end, by stamps.
    pub(crate) fn at(
        &self,
        alloc: Global,
        assoc: AssocNo,
        end: End,
        object: ObjNo,
    ) -> Result<Vec<(LinkKey, (ObjNo, ObjNo))>, AllocError>
        ensures { IfOk result (λ v. v.items ≡ filter (has_at assoc end object) self.now) }
    {
        match end {
            End::First => links_at(alloc, &self.seconds, assoc, End::First, object),
            End::Second => links_at(alloc, &self.firsts, assoc, End::Second, object),
        }
    }

    /// The pairs that an association links, by stamps.
    pub(crate) fn pairs(
        &self,
        alloc: Global,
        assoc: AssocNo,
    ) -> Result<Vec<(ObjNo, ObjNo)>, AllocError>
        ensures { IfOk result (λ v. v.items ≡ pairs_in self.now assoc) }
    {
        self.links.values(alloc, assoc)
    }

    /// Puts a link in, whose key is free and whose pair is not linked. After `AllocError` the links
    /// are as they were.
    pub(crate) fn insert(&mut self, alloc: Global, link: &LinkChange) -> Result<(), AllocError>
        requires free { lookup (is_at (link_cmp (link.now.assoc, link.now.stamp))) self.old ≡ None }
        requires few { length self.old < 2 ^ 32 }
        requires fresh { stamp_in self.old link.now.assoc link.now.first link.now.second ≡ None }
        ensures ok { OnOk result (self.new ≡ insert_entry link_cmp self.old (link.now.assoc, link.now.stamp) (link.now.first, link.now.second)) }
        ensures err { OnErr result (self.new ≡ self.old) }
    {
        let pair = (link.first, link.second);
        self.links.insert(alloc, link.assoc, link.stamp, pair)?;
        match put_indexes(
            alloc,
            &mut self.stamps,
            &mut self.seconds,
            &mut self.firsts,
            link,
        ) {
            Ok(()) => {
                self.count += 1;
                Ok(())
            }
            Err(refused) => {
                self.links.remove(link.assoc, link.stamp);
                Err(refused)
            }
        }
    }

    /// Takes a link out.
    pub(crate) fn remove(&mut self, link: &LinkChange)
        requires { lookup (is_at (link_cmp (link.now.assoc, link.now.stamp))) self.old ≡ Some (link.now.first, link.now.second) }
        ensures { self.new ≡ remove_entry (is_at (link_cmp (link.now.assoc, link.now.stamp))) self.old }
    {
        self.links.remove(link.assoc, link.stamp);
        self.count -= 1;
        take_stamp(&mut self.stamps, pair_key(link));
        take_end(&mut self.seconds, first_end(link), link.stamp);
        take_end(&mut self.firsts, second_end(link), link.stamp);
    }
}
