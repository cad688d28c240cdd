ghost use Rattle.std.specs.Prelude.{◌≡◌};
ghost use Rattle.std.specs.Result.{result_err};
ghost use Rattle.soil_changes.specs.declared.fault.ChangeFault.TheVariants.{Memory, Refused};
ghost use Rattle.soil_changes.specs.Progress.{code_for, x_code};

use object_state::StoreFault;
use std::alloc::AllocError;
use thiserror::Error;
use use_text::{Code, Family};

/// Why an act is not carried out.
#[derive(Clone, Copy, Debug, PartialEq, Eq, Error)]
pub enum ChangeFault {
    #[error("out of memory")]
    Memory,
    #[error("{0}")]
    Refused(Code),
}

impl From<AllocError> for ChangeFault {
    ghost from_gives = { λ _ e. e ≡ Memory };

    fn from(_: AllocError) -> Self {
        ChangeFault::Memory
    }
}

/// The rule of a number for the run of statements.
fn x_code(number: u8) -> Code
    ensures { result ≡ x_code number }
{
    Code {
        family: Family::X,
        number,
    }
}

/// That rule is broken.
pub(crate) fn breaks_x(number: u8) -> ChangeFault
    ensures { result ≡ Refused (x_code number) }
{
    ChangeFault::Refused(x_code(number))
}

/// The rule that a change with this fault breaks.
pub(crate) fn breaks(fault: StoreFault) -> ChangeFault
    ensures { result ≡ Refused (code_for fault) }
{
    match fault {
        StoreFault::X1 => breaks_x(1),
        StoreFault::X2 => breaks_x(2),
        StoreFault::X3 => breaks_x(3),
        StoreFault::X4 => breaks_x(4),
        StoreFault::X5 => breaks_x(5),
        StoreFault::X6 => breaks_x(6),
        StoreFault::X7 => breaks_x(7),
        StoreFault::X15 => breaks_x(15),
        StoreFault::X8 => breaks_x(8),
    }
}
