ghost use Rattle.std.specs.Prelude.{◌≡◌};
ghost use Rattle.contract_frames.specs.declared.fault.FrameFault.TheVariants.{Memory};

use ocl_core::ContractNo;
use ocl_values::Value;
use std::alloc::AllocError;
use thiserror::Error;

/// Why a call is not entered, or none is left.
#[derive(Debug, Drop, Error)]
pub enum FrameFault {
    #[error("out of memory")]
    Memory,
    /// As many calls are open as may be.
    #[error("too many open operations")]
    TooMany,
    /// The budget of a precondition's evaluation is spent.
    #[error("evaluation budget is spent")]
    Over(ContractNo),
    /// A precondition has another value than true: false, null or invalid.
    #[error("precondition is not true")]
    Broken(ContractNo, Value),
    /// No call is open.
    #[error("no operation is open")]
    Nothing,
}

impl From<AllocError> for FrameFault {
    ghost from_gives = { λ _ e. e ≡ Memory };

    fn from(_: AllocError) -> Self {
        FrameFault::Memory
    }
}
