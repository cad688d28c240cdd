ghost use Rattle.std.specs.Prelude.{◌≡◌, IfOk};
ghost use Rattle.entry_states.specs.Frames.{bare};

use crate::Overlay;
use crate::looks::copy_values;
use class_model::OpNo;
use ocl_values::{ObjNo, Value};
use std::alloc::{AllocError, Global};
use use_lists::Items;

/// A call of an operation: the one that was chosen for the receiver's class.
#[derive(Debug, Drop)]
pub struct Call {
    pub op: OpNo,
    pub receiver: ObjNo,
    pub args: Items<Value>,
}

/// A call that is open, and what cells held that were altered since it was entered.
#[derive(Debug, Drop)]
pub struct Frame {
    pub call: Call,
    pub overlay: Overlay,
}

impl Call {
    /// An equal call.
    pub fn try_copy(&self, alloc: Global) -> Result<Call, AllocError>
        ensures { IfOk result (λ call. call ≡ self.now) }
    {
        Ok(Call {
            op: self.op,
            receiver: self.receiver,
            args: copy_values(alloc, &self.args)?,
        })
    }
}

impl Frame {
    /// An equal frame.
    pub fn try_copy(&self, alloc: Global) -> Result<Frame, AllocError>
        ensures { IfOk result (λ frame. frame ≡ self.now) }
    {
        Ok(Frame {
            call: self.call.try_copy(alloc)?,
            overlay: self.overlay.try_copy(alloc)?,
        })
    }

    /// A frame of the same call, as it is at its entry.
    pub fn bare_copy(&self, alloc: Global) -> Result<Frame, AllocError>
        ensures { IfOk result (λ frame. frame ≡ bare self.now) }
    {
        Ok(Frame {
            call: self.call.try_copy(alloc)?,
            overlay: Overlay::new(alloc),
        })
    }
}
