ghost use Rattle.std.specs.Prelude.{◌≡◌, ◌+◌, ◌≤◌, OnOk, OnErr, IfOk};
ghost use Rattle.object_state.specs.Changes.{apply, inverse};
ghost use Rattle.object_state.specs.Faults.{Fits};
ghost use Rattle.object_state.specs.Valid.{max_weight};
ghost use Rattle.object_state.specs.Weights.{gained, lost};

use crate::Store;
use object_state::Change;
use std::alloc::AllocError;

/// What a state of some weight weighs after a change.
fn weight_after(weight: u64, change: &Change) -> u64
    requires lost { lost change.now ≤ max_weight }
    requires gained { weight + gained change.now ≤ max_weight + max_weight }
    requires there { lost change.now ≤ weight + gained change.now }
    ensures { result + lost change.now ≡ weight + gained change.now }
{
    weight + change.gained() - change.lost()
}

impl Store {
    /// Carries a change out that fits, from copies of what it brings. After `AllocError` the state is
    /// as it was.
    pub fn carry_out(&mut self, change: &Change) -> Result<(), AllocError>
        requires { Fits self.old.layout self.old.state change.now }
        ensures ok { OnOk result (self.new ≡ record self.old { state = apply self.old.layout self.old.state change.now }) }
        ensures err { OnErr result (self.new ≡ self.old) }
    {
        let weight = weight_after(self.weight, change);
        match change {
            Change::Create(new) => {
                self.objects.insert(self.alloc, new)?;
                self.next_object = new.after;
                self.weight = weight;
                Ok(())
            }
            Change::Remove(old) => {
                self.objects.remove(old);
                self.next_object = old.after;
                self.weight = weight;
                Ok(())
            }
            Change::SetSlot {
                object,
                attr,
                new,
                ..
            } => {
                let value = new.try_copy(self.alloc)?;
                self.objects.set_slot(self.alloc, *object, *attr, value);
                self.weight = weight;
                Ok(())
            }
            Change::Link(new) => {
                self.links.insert(self.alloc, new)?;
                self.next_stamp = new.after;
                self.weight = weight;
                Ok(())
            }
            Change::Unlink(old) => {
                self.links.remove(old);
                self.next_stamp = old.after;
                self.weight = weight;
                Ok(())
            }
            Change::Bind { name, new, .. } => {
                let value = new.try_copy(self.alloc)?;
                self.variables.insert(self.alloc, name.as_str(), value)?;
                self.weight = weight;
                Ok(())
            }
            Change::Unbind { name, .. } => {
                self.variables.remove(name.as_str());
                self.weight = weight;
                Ok(())
            }
        }
    }

    /// The same, and gives the change that takes it back.
    pub fn apply(&mut self, change: Change) -> Result<Change, AllocError>
        requires { Fits self.old.layout self.old.state change }
        ensures back { IfOk result (λ back. back ≡ inverse change) }
        ensures applied { OnOk result (self.new ≡ record self.old { state = apply self.old.layout self.old.state change }) }
        ensures refused { OnErr result (self.new ≡ self.old) }
    {
        self.carry_out(&change)?;
        Ok(change.inverse())
    }
}
