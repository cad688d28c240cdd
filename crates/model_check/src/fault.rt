ghost use Rattle.std.specs.Prelude.{◌≡◌};
ghost use Rattle.model_check.specs.declared.fault.ModelFault.TheVariants.{Memory};

use class_rules::RuleFault;
use ocl_rules::TypeFault;
use std::alloc::AllocError;
use thiserror::Error;
use use_text::Refusal;

/// Why a model has no program.
#[derive(Clone, Copy, Debug, PartialEq, Eq, Error)]
pub enum ModelFault {
    #[error("out of memory")]
    Memory,
    #[error("{0}")]
    Refused(Refusal),
}

impl From<AllocError> for ModelFault {
    ghost from_gives = { λ _ e. e ≡ Memory };

    fn from(_: AllocError) -> Self {
        ModelFault::Memory
    }
}

impl From<RuleFault> for ModelFault {
    ghost use Rattle.model_check.specs.Faults.{of_rules};

    ghost from_gives = { λ fault e. e ≡ of_rules fault };

    fn from(fault: RuleFault) -> Self {
        match fault {
            RuleFault::Memory => ModelFault::Memory,
            RuleFault::Refused(refusal) => ModelFault::Refused(refusal),
        }
    }
}

impl From<TypeFault> for ModelFault {
    ghost use Rattle.model_check.specs.Faults.{of_types};

    ghost from_gives = { λ fault e. e ≡ of_types fault };

    fn from(fault: TypeFault) -> Self {
        match fault {
            TypeFault::Memory => ModelFault::Memory,
            TypeFault::Refused(refusal) => ModelFault::Refused(refusal),
        }
    }
}
