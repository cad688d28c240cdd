ghost use Rattle.std.specs.Prelude.{◌≡◌, ◌<◌, OnOk, Some, true, length};
ghost use Rattle.class_model.specs.declared.numbers.End.TheVariants.{First, Second};
ghost use Rattle.object_state.specs.Looks.{stands};
ghost use Rattle.object_state.specs.State as state;
ghost use Rattle.soil_changes.specs.Joining.{at_end, delete, end_of, insert, link, unlink, unlink_pair, unlinking};
ghost use Rattle.soil_changes.specs.Progress.{Gives, with_change};
ghost use Rattle.object_state.specs.declared.change.Change.TheVariants.{Unlink};

use crate::fault::breaks_x;
use crate::proposals::unlinking;
use crate::storing::as_object;
use crate::{ChangeFault, Transaction};
use class_model::{AssocNo, End};
use object_referrers::ReferrerStore;
use object_state::{StateReader, linking};
use ocl_values::{ObjNo, Value};

/// Whether a live object may stand at an end of an association.
fn stands(store: &ReferrerStore, assoc: AssocNo, end: End, number: ObjNo) -> bool
    ensures { result ≡ stands store.now.layout store.now.state assoc end number }
{
    match store.object(number) {
        None => false,
        Some(live) => store.layout().may_stand(assoc, end, live.class),
    }
}

/// The live object of the class at an end that a value is.
fn at_end(store: &ReferrerStore, assoc: AssocNo, end: End, value: &Value) -> Option<ObjNo>
    ensures { result ≡ at_end store.now.layout store.now.state assoc end value.now }
{
    match as_object(value) {
        None => None,
        Some(number) => {
            if stands(store, assoc, end, number) {
                Some(number)
            } else {
                None
            }
        }
    }
}

impl Transaction {
    /// The live object of the class at an end that a value is; X5 where it is none.
    fn end_of(&self, assoc: AssocNo, end: End, value: &Value) -> Result<ObjNo, ChangeFault>
        ensures { Gives (end_of assoc end value.now self.now) result self.now }
    {
        match at_end(&self.store, assoc, end, value) {
            None => Err(breaks_x(5)),
            Some(number) => Ok(number),
        }
    }

    /// Links two objects of the classes at the ends.
    fn link(&mut self, assoc: AssocNo, first: ObjNo, second: ObjNo) -> Result<(), ChangeFault>
        requires known { assoc < length self.old.layout.assocs }
        requires first { stands self.old.layout self.old.state assoc First first ≡ true }
        requires second { stands self.old.layout self.old.state assoc Second second ≡ true }
        ensures { Gives (link assoc first second self.old) result self.new }
    {
        match linking(&self.store, assoc, first, second) {
            None => Err(breaks_x(5)),
            Some(change) => self.make(change),
        }
    }

    /// Links the objects that two values are.
    pub fn insert(
        &mut self,
        assoc: AssocNo,
        first: &Value,
        second: &Value,
    ) -> Result<(), ChangeFault>
        requires { assoc < length self.old.layout.assocs }
        ensures { Gives (insert assoc first.now second.now self.old) result self.new }
    {
        let first = self.end_of(assoc, End::First, first)?;
        let second = self.end_of(assoc, End::Second, second)?;
        self.link(assoc, first, second)
    }

    /// Takes a link away.
    pub(crate) fn unlink(
        &mut self,
        assoc: AssocNo,
        first: ObjNo,
        second: ObjNo,
        stamp: u32,
    ) -> Result<(), ChangeFault>
        requires { state.link self.old.state (assoc, stamp) ≡ Some (first, second) }
        ensures gives { Gives (unlink assoc first second stamp self.old) result self.new }
        ensures made { OnOk result (self.new ≡ with_change (Unlink (unlinking self.old.state assoc first second stamp)) self.old) }
    {
        let change = unlinking(&self.store, assoc, first, second, stamp);
        self.make(change)
    }

    /// Takes the link of two objects away; X4 where there is none.
    fn unlink_pair(
        &mut self,
        assoc: AssocNo,
        first: ObjNo,
        second: ObjNo,
    ) -> Result<(), ChangeFault>
        ensures { Gives (unlink_pair assoc first second self.old) result self.new }
    {
        self.store.state_is_valid();
        match self.store.stamp(assoc, first, second) {
            None => Err(breaks_x(4)),
            Some(stamp) => self.unlink(assoc, first, second, stamp),
        }
    }

    /// Takes the link of the objects away that two values are.
    pub fn delete(
        &mut self,
        assoc: AssocNo,
        first: &Value,
        second: &Value,
    ) -> Result<(), ChangeFault>
        ensures { Gives (delete assoc first.now second.now self.old) result self.new }
    {
        let first = self.end_of(assoc, End::First, first)?;
        let second = self.end_of(assoc, End::Second, second)?;
        self.unlink_pair(assoc, first, second)
    }
}
