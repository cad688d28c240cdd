ghost use Rattle.std.specs.Prelude.{◌≡◌, ◌<◌, OnOk, length};
ghost use Rattle.soil_changes.specs.Acts.{each};
ghost use Rattle.soil_changes.specs.Creating.{create, create_all, create_given, create_named, create_new, create_unnamed, refuse_unless_name};
ghost use Rattle.soil_changes.specs.Progress.{Gives};

use crate::fault::breaks_x;
use crate::{ChangeFault, Transaction};
use class_model::ClassNo;
use object_names::{is_name, made_name};
use object_state::creation;
use ocl_values::{Text, Value};

impl Transaction {
    /// X14 where a text is no name.
    fn check_name(&self, name: &Text) -> Result<(), ChangeFault>
        ensures { Gives (refuse_unless_name name.now self.now) result self.now }
    {
        if is_name(self.alloc, name.as_str().as_bytes())? {
            Ok(())
        } else {
            Err(breaks_x(14))
        }
    }

    fn check_names(&self, names: &[Text]) -> Result<(), ChangeFault>
        ensures { Gives (each refuse_unless_name names.now self.now) result self.now }
    {
        'names: for name in names {
            self.check_name(name)?;
        }
        Ok(())
    }

    /// Creates an object of nulls at the next number.
    fn create(&mut self, class: ClassNo, name: &Text) -> Result<(), ChangeFault>
        requires { class < length self.old.layout.classes }
        ensures gives { Gives (create class name.now self.old) result self.new }
        ensures layout { OnOk result (self.new.layout ≡ self.old.layout) }
    {
        let copy = Text::copy_of(self.alloc, name.as_str())?;
        let change = creation(self.alloc, &self.store, copy, class)?;
        self.make(change)
    }

    fn create_each(&mut self, class: ClassNo, names: &[Text]) -> Result<(), ChangeFault>
        requires { class < length self.old.layout.classes }
        ensures { Gives (each (create class) names.now self.old) result self.new }
    {
        'names: for name in names {
            self.create(class, name)?;
        }
        Ok(())
    }

    /// Creates an object of each name, one after another.
    pub fn create_all(&mut self, class: ClassNo, names: &[Text]) -> Result<(), ChangeFault>
        requires { class < length self.old.layout.classes }
        ensures { Gives (create_all class names.now self.old) result self.new }
    {
        self.check_names(names)?;
        self.create_each(class, names)
    }

    /// Creates an object of a name.
    fn create_named(&mut self, class: ClassNo, name: Text) -> Result<(), ChangeFault>
        requires { class < length self.old.layout.classes }
        ensures { Gives (create_named class name self.old) result self.new }
    {
        self.check_name(&name)?;
        self.create(class, &name)
    }

    /// Creates an object whose name is made of its class's name and a number.
    fn create_unnamed(&mut self, class: ClassNo, word: &str) -> Result<(), ChangeFault>
        requires { class < length self.old.layout.classes }
        ensures { Gives (create_unnamed class word.now self.old) result self.new }
    {
        let name = made_name(self.alloc, &self.store, word)?;
        self.create_named(class, name)
    }

    /// Creates an object whose name is a value; X14 where that is no String.
    fn create_given(&mut self, class: ClassNo, given: Value) -> Result<(), ChangeFault>
        requires { class < length self.old.layout.classes }
        ensures { Gives (create_given class given self.old) result self.new }
    {
        match given {
            Value::Str(name) => self.create_named(class, name),
            _ => Err(breaks_x(14)),
        }
    }

    /// Creates an object whose name is given, or made of its class's name and a number.
    pub fn create_new(
        &mut self,
        class: ClassNo,
        word: &str,
        given: Option<Value>,
    ) -> Result<(), ChangeFault>
        requires { class < length self.old.layout.classes }
        ensures { Gives (create_new class word.now given self.old) result self.new }
    {
        match given {
            None => self.create_unnamed(class, word),
            Some(name) => self.create_given(class, name),
        }
    }
}
