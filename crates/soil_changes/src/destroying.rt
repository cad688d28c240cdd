ghost use Rattle.std.specs.Prelude.{◌≡◌, [], OnOk, Some};
ghost use Rattle.object_state.specs.Looks.{value_of};
ghost use Rattle.object_state.specs.State.{variable};
ghost use Rattle.object_referrers.specs.Referring.{links_of};
ghost use Rattle.soil_changes.specs.Destroying.{clear_bound, clear_slot, clear_slots, clear_value, clear_variable, clear_variables, destroy, destroy_all, destroy_object, live_object, remove, unlink_all};
ghost use Rattle.soil_changes.specs.Progress.{Gives};

use crate::fault::breaks_x;
use crate::proposals::{binding, removal, setting, value_of, variable_of};
use crate::storing::as_object;
use crate::{ChangeFault, Transaction};
use class_model::AttrNo;
use object_references::without_object;
use object_state::{StateReader, Variable};
use ocl_values::{ObjNo, Text, Value};

impl Transaction {
    /// Takes the links of an object away, by association and stamp.
    fn unlink_all(&mut self, object: ObjNo) -> Result<(), ChangeFault>
        ensures gives { Gives (unlink_all object self.old) result self.new }
        ensures gone { OnOk result (links_of self.new.state object ≡ []) }
    {
        let links = self.store.links_of(self.alloc, object)?;
        'links: for link in links {
            self.store.state_is_valid();
            self.unlink(link.0.0, link.1.0, link.1.1, link.0.1)?;
        }
        Ok(())
    }

    /// Takes an object out of the value of an attribute.
    fn clear_value(
        &mut self,
        object: ObjNo,
        place: (ObjNo, AttrNo),
        old: Value,
    ) -> Result<(), ChangeFault>
        requires { value_of self.old.layout self.old.state place.0 place.1 ≡ Some old }
        ensures gives { Gives (clear_value object place (Some old) self.old) result self.new }
        ensures links { OnOk result (self.new.state.links ≡ self.old.state.links) }
    {
        self.store.state_is_valid();
        let new = without_object(self.alloc, &old, object)?;
        let change = setting(&self.store, place.0, place.1, old, new);
        self.make(change)
    }

    /// Takes an object out of an attribute.
    fn clear_slot(&mut self, object: ObjNo, place: (ObjNo, AttrNo)) -> Result<(), ChangeFault>
        ensures gives { Gives (clear_slot object place self.old) result self.new }
        ensures links { OnOk result (self.new.state.links ≡ self.old.state.links) }
    {
        match value_of(self.alloc, &self.store, place.0, place.1)? {
            None => Ok(()),
            Some(old) => self.clear_value(object, place, old),
        }
    }

    /// Takes an object out of all attributes, by object and attribute.
    fn clear_slots(&mut self, object: ObjNo) -> Result<(), ChangeFault>
        ensures gives { Gives (clear_slots object self.old) result self.new }
        ensures links { OnOk result (self.new.state.links ≡ self.old.state.links) }
    {
        let places = self.store.slots_referring_to(self.alloc, object)?;
        'places: for place in places {
            self.clear_slot(object, place)?;
        }
        Ok(())
    }

    /// Takes an object out of the value of a variable.
    fn clear_bound(&mut self, object: ObjNo, name: &Text, old: Variable) -> Result<(), ChangeFault>
        requires { variable self.old.state name.now ≡ Some old }
        ensures gives { Gives (clear_bound object name.now (Some old) self.old) result self.new }
        ensures links { OnOk result (self.new.state.links ≡ self.old.state.links) }
    {
        self.store.state_is_valid();
        let value = without_object(self.alloc, &old.value, object)?;
        let Variable { of_type, .. } = old;
        let change = binding(self.alloc, &self.store, name, Variable { of_type, value })?;
        self.make(change)
    }

    /// Takes an object out of a variable.
    fn clear_variable(&mut self, object: ObjNo, name: &Text) -> Result<(), ChangeFault>
        ensures gives { Gives (clear_variable object name.now self.old) result self.new }
        ensures links { OnOk result (self.new.state.links ≡ self.old.state.links) }
    {
        match variable_of(self.alloc, &self.store, name)? {
            None => Ok(()),
            Some(old) => self.clear_bound(object, name, old),
        }
    }

    /// Takes an object out of all variables, by name.
    fn clear_variables(&mut self, object: ObjNo) -> Result<(), ChangeFault>
        ensures gives { Gives (clear_variables object self.old) result self.new }
        ensures links { OnOk result (self.new.state.links ≡ self.old.state.links) }
    {
        let names = self.store.variables_referring_to(self.alloc, object)?;
        'names: for name in names {
            self.clear_variable(object, &name)?;
        }
        Ok(())
    }

    /// Removes an object that has no link.
    fn remove(&mut self, object: ObjNo) -> Result<(), ChangeFault>
        requires { links_of self.old.state object ≡ [] }
        ensures { Gives (remove object self.old) result self.new }
    {
        match self.store.object(object) {
            None => Err(breaks_x(5)),
            Some(live) => {
                let change = removal(self.alloc, &self.store, object, live)?;
                self.make(change)
            }
        }
    }

    /// Destroys a live object.
    fn destroy_object(&mut self, object: ObjNo) -> Result<(), ChangeFault>
        ensures { Gives (destroy_object object self.old) result self.new }
    {
        self.unlink_all(object)?;
        self.clear_slots(object)?;
        self.clear_variables(object)?;
        self.remove(object)
    }

    /// The live object that a value is; X5 where it is none.
    fn live_object(&self, value: &Value) -> Result<ObjNo, ChangeFault>
        ensures { Gives (live_object value.now self.now) result self.now }
    {
        match as_object(value) {
            None => Err(breaks_x(5)),
            Some(number) => match self.store.object(number) {
                None => Err(breaks_x(5)),
                Some(_) => Ok(number),
            },
        }
    }

    /// Destroys the object that a value is.
    fn destroy(&mut self, value: &Value) -> Result<(), ChangeFault>
        ensures { Gives (destroy value.now self.old) result self.new }
    {
        let object = self.live_object(value)?;
        self.destroy_object(object)
    }

    /// Destroys the objects that some values are, one after another, each tested in its turn.
    pub fn destroy_all(&mut self, values: &[Value]) -> Result<(), ChangeFault>
        ensures { Gives (destroy_all values.now self.old) result self.new }
    {
        'values: for value in values {
            self.destroy(value)?;
        }
        Ok(())
    }
}
