ghost use Rattle.std.specs.Prelude.{◌≡◌, OnOk, OnErr, IfOk};
ghost use Rattle.object_state.specs.Changes.{apply, inverse};
ghost use Rattle.object_state.specs.Faults.{Fits};

use crate::objects::object_of;
use crate::{Change, PlainStore};
use ocl_values::Text;
use std::alloc::AllocError;

impl PlainStore {
    /// Carries a change out, from copies of what it brings.
    fn carry_out(&mut self, change: &Change) -> Result<(), AllocError>
        requires { Fits self.old.layout self.old.state change.now }
        ensures ok { OnOk result (self.new ≡ record self.old { state = apply self.old.layout self.old.state change.now }) }
        ensures err { OnErr result (self.new ≡ self.old) }
    {
        match change {
            Change::Create(new) => {
                let object = object_of(self.alloc, new)?;
                self.objects.insert(new.object, object)?;
                self.next_object = new.after;
                Ok(())
            }
            Change::Remove(old) => {
                self.objects.remove(&old.object);
                self.next_object = old.after;
                Ok(())
            }
            Change::SetSlot {
                object,
                attr,
                new,
                ..
            } => {
                let value = new.try_copy(self.alloc)?;
                self.objects
                    .set_slot(self.alloc, &self.layout, *object, *attr, value);
                Ok(())
            }
            Change::Link(new) => {
                self.links
                    .insert((new.assoc, new.stamp), (new.first, new.second))?;
                self.next_stamp = new.after;
                Ok(())
            }
            Change::Unlink(old) => {
                self.links.remove(&(old.assoc, old.stamp));
                self.next_stamp = old.after;
                Ok(())
            }
            Change::Bind { name, new, .. } => {
                let key = Text::copy_of(self.alloc, name.as_str())?;
                self.variables.insert(key, new.try_copy(self.alloc)?)?;
                Ok(())
            }
            Change::Unbind { name, .. } => {
                self.variables.remove(name);
                Ok(())
            }
        }
    }

    /// Carries a change out that fits, and gives the change that takes it back. After `AllocError`
    /// the state is as it was.
    pub fn apply(&mut self, change: Change) -> Result<Change, AllocError>
        requires { Fits self.old.layout self.old.state change }
        ensures back { IfOk result (λ back. back ≡ inverse change) }
        ensures applied { OnOk result (self.new ≡ record self.old { state = apply self.old.layout self.old.state change }) }
        ensures refused { OnErr result (self.new ≡ self.old) }
    {
        self.carry_out(&change)?;
        Ok(change.inverse())
    }
}
