ghost use Rattle.std.specs.Prelude.{◌≡◌, Some, IfOk};
ghost use Rattle.std.specs.List.{list_all};
ghost use Rattle.std.specs.Option.{is_some};
ghost use Rattle.ocl_values.specs.Shape.{IsWellMade};
ghost use Rattle.object_state.specs.Looks.{value_of};
ghost use Rattle.soil_changes.specs.Progress.{Gives};
ghost use Rattle.soil_changes.specs.Storing.{as_object, bind, holder, holder_of, is_live, may_be_stored, names_itself, put_slot, refuse_unless_stored, replace_slot, set_slot, set_variable};

use crate::fault::breaks_x;
use crate::proposals::{binding, setting, value_of};
use crate::{ChangeFault, Transaction};
use class_model::{AttrNo, OclType};
use object_references::references;
use object_referrers::ReferrerStore;
use object_state::{StateReader, Variable};
use ocl_values::{ObjNo, Text, Value, order};
use std::alloc::{AllocError, Global};

/// The object that a value is.
pub(crate) fn as_object(value: &Value) -> Option<ObjNo>
    ensures { result ≡ as_object value.now }
{
    match value {
        Value::Obj(number) => Some(*number),
        _ => None,
    }
}

/// Whether all of some objects are live.
fn are_live(store: &ReferrerStore, objects: &[ObjNo]) -> bool
    ensures { result ≡ list_all (is_live store.now.state) objects.now }
{
    objects.iter().all(|number| store.object(*number).is_some())
}

/// Whether a value is neither invalid nor holds an object that is not live.
pub fn may_be_stored(
    alloc: Global,
    store: &ReferrerStore,
    value: &Value,
) -> Result<bool, AllocError>
    ensures { IfOk result (λ b. b ≡ may_be_stored store.now.state value.now) }
{
    if value.is_invalid() {
        return Ok(false);
    }
    let objects = references(alloc, value)?;
    Ok(are_live(store, objects.as_slice()))
}

/// Whether an object has an attribute.
fn has_slot(store: &ReferrerStore, number: ObjNo, attr: AttrNo) -> bool
    ensures { result ≡ is_some (value_of store.now.layout store.now.state number attr) }
{
    match store.object(number) {
        None => false,
        Some(live) => store.layout().slot(live, attr).is_some(),
    }
}

/// The live object with an attribute that a value is.
fn holder(store: &ReferrerStore, value: &Value, attr: AttrNo) -> Option<ObjNo>
    ensures { result ≡ holder store.now.layout store.now.state value.now attr }
{
    match as_object(value) {
        None => None,
        Some(number) => {
            if has_slot(store, number, attr) {
                Some(number)
            } else {
                None
            }
        }
    }
}

/// Whether a name is that of the object that a value is.
fn names_itself(store: &ReferrerStore, name: &Text, value: &Value) -> bool
    ensures { result ≡ names_itself store.now.state name.now value.now }
{
    match store.object_named(name.as_str()) {
        None => false,
        Some(number) => matches!(value, Value::Obj(own) if *own == number),
    }
}

impl Transaction {
    /// X12 where a value may not be stored.
    pub fn check_stored(&self, value: &Value) -> Result<(), ChangeFault>
        ensures { Gives (refuse_unless_stored value.now self.now) result self.now }
    {
        if may_be_stored(self.alloc, &self.store, value)? {
            Ok(())
        } else {
            Err(breaks_x(12))
        }
    }

    /// The live object with an attribute that a value is; X5 where it is none.
    pub fn holder_of(&self, target: &Value, attr: AttrNo) -> Result<ObjNo, ChangeFault>
        ensures { Gives (holder_of target.now attr self.now) result self.now }
    {
        match holder(&self.store, target, attr) {
            None => Err(breaks_x(5)),
            Some(number) => Ok(number),
        }
    }

    /// Replaces the old value of an attribute, unless the new one is equal.
    fn replace_slot(
        &mut self,
        number: ObjNo,
        attr: AttrNo,
        new: Value,
        old: Value,
    ) -> Result<(), ChangeFault>
        requires there { value_of self.old.layout self.old.state number attr ≡ Some old }
        requires well_made { IsWellMade new }
        ensures { Gives (replace_slot number attr new old self.old) result self.new }
    {
        if order(&old, &new).is_eq() {
            return Ok(());
        }
        let change = setting(&self.store, number, attr, old, new);
        self.make(change)
    }

    fn put_slot(&mut self, number: ObjNo, attr: AttrNo, new: Value) -> Result<(), ChangeFault>
        requires { IsWellMade new }
        ensures { Gives (put_slot number attr new self.old) result self.new }
    {
        match value_of(self.alloc, &self.store, number, attr)? {
            None => Err(breaks_x(5)),
            Some(old) => self.replace_slot(number, attr, new, old),
        }
    }

    /// Stores a value in an attribute of the object that another value is.
    pub fn set_slot(
        &mut self,
        target: &Value,
        attr: AttrNo,
        value: Value,
    ) -> Result<(), ChangeFault>
        requires { IsWellMade value }
        ensures { Gives (set_slot target.now attr value self.old) result self.new }
    {
        let number = self.holder_of(target, attr)?;
        self.check_stored(&value)?;
        self.put_slot(number, attr, value)
    }

    fn bind(&mut self, name: &Text, of_type: &OclType, value: Value) -> Result<(), ChangeFault>
        requires { IsWellMade value }
        ensures { Gives (bind name.now of_type.now value self.old) result self.new }
    {
        let of_type = of_type.try_copy(self.alloc)?;
        let change = binding(self.alloc, &self.store, name, Variable { of_type, value })?;
        self.make(change)
    }

    /// Stores a value in a variable of the shell.
    pub fn set_variable(
        &mut self,
        name: &Text,
        of_type: &OclType,
        value: Value,
    ) -> Result<(), ChangeFault>
        requires { IsWellMade value }
        ensures { Gives (set_variable name.now of_type.now value self.old) result self.new }
    {
        self.check_stored(&value)?;
        if names_itself(&self.store, name, &value) {
            return Ok(());
        }
        self.bind(name, of_type, value)
    }
}
