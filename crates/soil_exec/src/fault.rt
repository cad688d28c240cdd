ghost use Rattle.std.specs.Prelude.{◌≡◌};
ghost use Rattle.use_text.specs.declared.code.Family.TheVariants.{B, C, X};
ghost use Rattle.use_text.specs.Codes.{code_of};
ghost use Rattle.use_text.specs.Refusals.{refusal_at};
ghost use Rattle.soil_changes.specs.declared.fault.ChangeFault.TheVariants as change;
ghost use Rattle.soil_exec.specs.declared.fault.ExecFault.TheVariants.{Broken, Memory, Refused};
ghost use Rattle.soil_exec.specs.Faults.{fault_at};

use ocl_core::ContractNo;
use ocl_values::Value;
use soil_changes::ChangeFault;
use std::alloc::AllocError;
use thiserror::Error;
use use_text::{Code, Family, Place, Refusal};

/// Why a list of statements is not carried out.
#[derive(Debug, Drop, Error)]
pub enum ExecFault {
    #[error("out of memory")]
    Memory,
    #[error("{0}")]
    Refused(Refusal),
    /// The first contract of a call that is not true, and its value: false, null or invalid.
    #[error("{refusal}")]
    Broken {
        refusal: Refusal,
        contract: ContractNo,
        value: Value,
    },
}

impl From<AllocError> for ExecFault {
    ghost from_gives = { λ _ e. e ≡ Memory };

    fn from(_: AllocError) -> Self {
        ExecFault::Memory
    }
}

fn breaks(family: Family, number: u8, place: Place) -> ExecFault
    ensures { result ≡ Refused (refusal_at (code_of family number) place) }
{
    ExecFault::Refused(Refusal {
        code: Code { family, number },
        place,
    })
}

/// A rule of budgets is broken.
pub(crate) fn breaks_b(number: u8, place: Place) -> ExecFault
    ensures { result ≡ Refused (refusal_at (code_of B number) place) }
{
    breaks(Family::B, number, place)
}

/// A rule of the run of statements is broken.
pub(crate) fn breaks_x(number: u8, place: Place) -> ExecFault
    ensures { result ≡ Refused (refusal_at (code_of X number) place) }
{
    breaks(Family::X, number, place)
}

/// A contract of a call is not true: C1 of a precondition, C2 of a postcondition.
pub(crate) fn breaks_c(number: u8, place: Place, contract: ContractNo, value: Value) -> ExecFault
    ensures { result ≡ Broken (refusal_at (code_of C number) place) contract value }
{
    ExecFault::Broken {
        refusal: Refusal {
            code: Code {
                family: Family::C,
                number,
            },
            place,
        },
        contract,
        value,
    }
}

/// What refuses an act, told with its place.
pub(crate) fn placed(fault: ChangeFault, place: Place) -> ExecFault
    ensures { result ≡ fault_at place fault }
{
    match fault {
        ChangeFault::Memory => ExecFault::Memory,
        ChangeFault::Refused(code) => ExecFault::Refused(Refusal { code, place }),
    }
}
