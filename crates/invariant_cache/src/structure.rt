ghost use Rattle.std.specs.Prelude.{◌≡◌, ◌<◌, IfOk, OnOk, Some, None, if◌then◌else◌, length, map, pos};
ghost use Rattle.std.specs.BTreeMap.{IsOrdered};
ghost use Rattle.class_model.specs.Multiplicities.{allows};
ghost use Rattle.class_model.specs.declared.object_model.ObjectModel.{ObjectModel};
ghost use Rattle.object_state.specs.Changes.{apply, inverse};
ghost use Rattle.object_state.specs.Faults.{Fits};
ghost use Rattle.object_state.specs.Layouts.{layout_of};
ghost use Rattle.object_state.specs.State.{State, empty};
ghost use Rattle.invariant_cache.specs.Broken.{Navigation, broken, unless_allowed, violation_at};
ghost use Rattle.invariant_cache.specs.Counts.{StandsFor, counted, found, navigation_cmp};
ghost use Rattle.invariant_cache.specs.Noting.{Recounts, at, linked, may_start, one_less, one_more, recount, started, to_first, to_second};

use class_model::{AssocNo, ClassModel, ClassNo, End, Multiplicity};
use object_state::{Change, LinkChange, changes_keep_states_valid};
use ocl_values::ObjNo;
use std::alloc::{AllocError, Global};
use std::collections::{BTreeMap, HashMap};
use std::marker::Model;
use use_lists::Items;

/// An association, the end of it that is reached, and the object from which it is reached.
type Navigation = (AssocNo, (End, ObjNo));

/// A multiplicity that is broken: how many objects stand at an end for an object, where so many are not
/// allowed.
#[derive(Clone, Copy, Debug, PartialEq, Eq)]
pub struct Violation {
    pub assoc: AssocNo,
    /// The end whose objects are counted.
    pub end: End,
    /// The object for which they are counted.
    pub object: ObjNo,
    pub count: u32,
}

/// How many objects stand at each end for each object that may have links there. It is told of the
/// changes of a state, and so knows the multiplicities that are broken without a walk through the state.
#[derive(Drop)]
pub struct Structure {
    counts: HashMap<Navigation, u32>,
    /// Those of the counts that are not allowed.
    broken: BTreeMap<Navigation, u32>,
}

impl Model for Structure {
    ghost use Rattle.invariant_cache.specs.Counts.{Counts};

    ghost Value = { Counts };

    ghost view = { λ s. record { counts = s.counts.entries; broken = s.broken.entries } };
}

/// Keeps a count at a navigation.
fn put_count(
    counts: &mut HashMap<Navigation, u32>,
    navigation: Navigation,
    count: u32,
) -> Result<(), AllocError>
    ensures { OnOk result ((n : Navigation) → counted counts.new.entries n ≡ at navigation (λ old. Some count) n (counted counts.old.entries n)) }
{
    counts.insert(navigation, count)?;
    Ok(())
}

/// Forgets the count at a navigation.
fn take_count(counts: &mut HashMap<Navigation, u32>, navigation: Navigation)
    ensures { (n : Navigation) → counted counts.new.entries n ≡ at navigation (λ old. None) n (counted counts.old.entries n) }
{
    counts.remove(&navigation);
}

/// Lists a count at a navigation.
fn put_broken(
    broken: &mut BTreeMap<Navigation, u32>,
    navigation: Navigation,
    count: u32,
) -> Result<(), AllocError>
    ensures { OnOk result ((n : Navigation) → found broken.new.entries n ≡ at navigation (λ old. Some count) n (found broken.old.entries n)) }
{
    broken.insert(navigation, count)?;
    Ok(())
}

/// Lists no count at a navigation.
fn take_broken(broken: &mut BTreeMap<Navigation, u32>, navigation: Navigation)
    ensures { (n : Navigation) → found broken.new.entries n ≡ at navigation (λ old. None) n (found broken.old.entries n) }
{
    broken.remove(&navigation);
}

/// A count, if so many objects are not allowed.
fn disallowed(multiplicity: &Multiplicity, count: u32) -> Option<u32>
    ensures { result ≡ (if allows multiplicity.now (pos count) then None else Some count) }
{
    if multiplicity.allows(count) {
        None
    } else {
        Some(count)
    }
}

/// A count, if a navigation may not give so many objects.
fn unless_allowed(model: &ClassModel, navigation: Navigation, count: u32) -> Option<u32>
    ensures { result ≡ unless_allowed model.now navigation count }
{
    match model.as_model().assocs.get(navigation.0 as usize) {
        None => Some(count),
        Some(assoc) => disallowed(&assoc.end(navigation.1.0).multiplicity, count),
    }
}

/// Whether a navigation may start at objects of a class.
fn may_start(model: &ClassModel, class: ClassNo, navigation: Navigation) -> bool
    requires { navigation.0 < length model.now.assocs }
    ensures { result ≡ may_start model.now class navigation }
{
    let end = navigation.1.0;
    model.is_a(class, model.end_class(navigation.0, end.opposite()))
}

/// The navigation to the first end of a link, from the object at the second.
fn to_first(link: &LinkChange) -> Navigation
    ensures { result ≡ to_first link.now }
{
    (link.assoc, (End::First, link.second))
}

/// The navigation to the second end of a link, from the object at the first.
fn to_second(link: &LinkChange) -> Navigation
    ensures { result ≡ to_second link.now }
{
    (link.assoc, (End::Second, link.first))
}

/// What is told of a count that is not allowed.
fn violation_at(navigation: &Navigation, count: u32) -> Violation
    ensures { result ≡ violation_at navigation.now count }
{
    Violation {
        assoc: navigation.0,
        end: navigation.1.0,
        object: navigation.1.1,
        count,
    }
}

/// What is told of the counts at navigations.
fn violations_in(
    alloc: Global,
    counts: &BTreeMap<Navigation, u32>,
) -> Result<Vec<Violation>, AllocError>
    ensures told { IfOk result (λ v. v.items ≡ map (λ e. violation_at e.0 e.1) counts.now.entries) }
    ensures ordered { IsOrdered navigation_cmp counts.now }
{
    counts
        .iter()
        .map(|(navigation, count)| violation_at(navigation, *count))
        .collect(alloc)
}

impl Structure {
    /// The structure of a state without objects.
    pub fn new(alloc: Global) -> Structure
        ensures { (m : _) → StandsFor m result empty }
    {
        Structure {
            counts: HashMap::new(alloc),
            broken: BTreeMap::new(alloc),
        }
    }

    /// The count of a navigation becomes another.
    fn set_count(
        &mut self,
        model: &ClassModel,
        navigation: Navigation,
        count: u32,
    ) -> Result<(), AllocError>
        ensures { OnOk result (Recounts model.now (at navigation (λ old. Some count)) self.old self.new) }
    {
        put_count(&mut self.counts, navigation, count)?;
        match unless_allowed(model, navigation, count) {
            None => {
                take_broken(&mut self.broken, navigation);
                Ok(())
            }
            Some(count) => put_broken(&mut self.broken, navigation, count),
        }
    }

    /// A navigation has no count any more.
    fn forget(&mut self, navigation: Navigation)
        ensures { (m : ObjectModel) → Recounts m (at navigation (λ old. None)) self.old self.new }
    {
        take_count(&mut self.counts, navigation);
        take_broken(&mut self.broken, navigation);
    }

    /// One object more is reached.
    fn add_one(&mut self, model: &ClassModel, navigation: Navigation) -> Result<(), AllocError>
        ensures { OnOk result (Recounts model.now (at navigation one_more) self.old self.new) }
    {
        match self.counts.get(&navigation).copied() {
            None => Ok(()),
            Some(count) => self.set_count(model, navigation, count.saturating_add(1)),
        }
    }

    /// One object less is reached.
    fn take_one(&mut self, model: &ClassModel, navigation: Navigation) -> Result<(), AllocError>
        ensures { OnOk result (Recounts model.now (at navigation one_less) self.old self.new) }
    {
        match self.counts.get(&navigation).copied() {
            None => Ok(()),
            Some(count) => self.set_count(model, navigation, count.saturating_sub(1)),
        }
    }

    /// A navigation from a new object of a class begins, if it may start there.
    fn begin_at(
        &mut self,
        model: &ClassModel,
        class: ClassNo,
        navigation: Navigation,
    ) -> Result<(), AllocError>
        requires { navigation.0 < length model.now.assocs }
        ensures { OnOk result (Recounts model.now (at navigation (λ old. if may_start model.now class navigation then Some 0 else old)) self.old self.new) }
    {
        if may_start(model, class, navigation) {
            self.set_count(model, navigation, 0)
        } else {
            Ok(())
        }
    }

    /// The navigations from a new object of a class begin.
    fn begin(&mut self, model: &ClassModel, class: ClassNo, object: ObjNo) -> Result<(), AllocError>
        ensures { OnOk result (Recounts model.now (started model.now class object (Some 0) (length model.now.assocs)) self.old self.new) }
    {
        'assocs: for assoc in 0..model.assoc_count() {
            self.begin_at(model, class, (assoc, (End::First, object)))?;
            self.begin_at(model, class, (assoc, (End::Second, object)))?;
        }
        Ok(())
    }

    /// A navigation from an object of a class that goes ends, if it may start there.
    fn end_at(&mut self, model: &ClassModel, class: ClassNo, navigation: Navigation)
        requires { navigation.0 < length model.now.assocs }
        ensures { Recounts model.now (at navigation (λ old. if may_start model.now class navigation then None else old)) self.old self.new }
    {
        if may_start(model, class, navigation) {
            self.forget(navigation);
        }
    }

    /// The navigations from an object of a class that goes end.
    fn end(&mut self, model: &ClassModel, class: ClassNo, object: ObjNo)
        ensures { Recounts model.now (started model.now class object None (length model.now.assocs)) self.old self.new }
    {
        'assocs: for assoc in 0..model.assoc_count() {
            self.end_at(model, class, (assoc, (End::First, object)));
            self.end_at(model, class, (assoc, (End::Second, object)));
        }
    }

    /// A link comes.
    fn add_link(&mut self, model: &ClassModel, link: &LinkChange) -> Result<(), AllocError>
        ensures { OnOk result (Recounts model.now (linked link.now one_more) self.old self.new) }
    {
        self.add_one(model, to_first(link))?;
        self.add_one(model, to_second(link))
    }

    /// A link goes.
    fn take_link(&mut self, model: &ClassModel, link: &LinkChange) -> Result<(), AllocError>
        ensures { OnOk result (Recounts model.now (linked link.now one_less) self.old self.new) }
    {
        self.take_one(model, to_first(link))?;
        self.take_one(model, to_second(link))
    }

    /// The counts that a change alters become others.
    fn recount(&mut self, model: &ClassModel, change: &Change) -> Result<(), AllocError>
        ensures { OnOk result (Recounts model.now (recount model.now change.now) self.old self.new) }
    {
        match change {
            Change::Create(new) => self.begin(model, new.class, new.object),
            Change::Remove(old) => {
                self.end(model, old.class, old.object);
                Ok(())
            }
            Change::Link(new) => self.add_link(model, new),
            Change::Unlink(old) => self.take_link(model, old),
            Change::SetSlot { .. } | Change::Bind { .. } | Change::Unbind { .. } => Ok(()),
        }
    }

    /// Those that the change alters which takes this one back.
    fn recount_back(&mut self, model: &ClassModel, change: &Change) -> Result<(), AllocError>
        ensures { OnOk result (Recounts model.now (recount model.now (inverse change.now)) self.old self.new) }
    {
        match change {
            Change::Create(new) => {
                self.end(model, new.class, new.object);
                Ok(())
            }
            Change::Remove(old) => self.begin(model, old.class, old.object),
            Change::Link(new) => self.take_link(model, new),
            Change::Unlink(old) => self.add_link(model, old),
            Change::SetSlot { .. } | Change::Bind { .. } | Change::Unbind { .. } => Ok(()),
        }
    }

    /// Tells of a change that fits a state for which this structure stands. It costs the logarithm of
    /// what there is, and that for each association where an object comes or goes. After want of memory
    /// it stands for no state.
    pub fn note(&mut self, model: &ClassModel, change: &Change) -> Result<(), AllocError>
        ensures { OnOk result ((s : State) → StandsFor model.now self.old s → Fits (layout_of model.now) s change.now
            → StandsFor model.now self.new (apply (layout_of model.now) s change.now)) }
    {
        changes_keep_states_valid();
        model.has_numbers_in_range();
        self.recount(model, change)
    }

    /// The same of the change that takes this one back.
    pub fn note_back(&mut self, model: &ClassModel, change: &Change) -> Result<(), AllocError>
        ensures { OnOk result ((s : State) → StandsFor model.now self.old s → Fits (layout_of model.now) s (inverse change.now)
            → StandsFor model.now self.new (apply (layout_of model.now) s (inverse change.now))) }
    {
        changes_keep_states_valid();
        model.has_numbers_in_range();
        self.recount_back(model, change)
    }

    /// The multiplicities that are broken, by association, end and object. It costs what it lists.
    pub fn violations(&self, alloc: Global) -> Result<Items<Violation>, AllocError>
        ensures { IfOk result (λ found. (m : _) (s : State) → StandsFor m self.now s → found ≡ broken m s) }
    {
        let found = violations_in(alloc, &self.broken)?;
        Ok(Items::from_vec(found))
    }
}
