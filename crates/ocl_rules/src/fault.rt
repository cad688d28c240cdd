ghost use Rattle.std.specs.Prelude.{◌≡◌};
ghost use Rattle.use_text.specs.Codes.{code_of};
ghost use Rattle.use_text.specs.Refusals.{refusal_at};
ghost use Rattle.use_text.specs.declared.code.Family.TheVariants.{N, T};
ghost use Rattle.ocl_rules.specs.declared.fault.TypeFault.TheVariants.{Memory, Refused};

use std::alloc::AllocError;
use thiserror::Error;
use use_text::{Code, Family, Place, Refusal};

/// Why an expression has no type.
#[derive(Clone, Copy, Debug, PartialEq, Eq, Error)]
pub enum TypeFault {
    #[error("out of memory")]
    Memory,
    #[error("{0}")]
    Refused(Refusal),
}

impl From<AllocError> for TypeFault {
    ghost from_gives = { λ _ e. e ≡ Memory };

    fn from(_: AllocError) -> Self {
        TypeFault::Memory
    }
}

fn refusal(family: Family, number: u8, place: Place) -> Refusal
    ensures { result ≡ refusal_at (code_of family number) place }
{
    Refusal {
        code: Code { family, number },
        place,
    }
}

/// The refusal of a rule of types that is broken at a place.
pub(crate) fn type_refusal(number: u8, place: Place) -> Refusal
    ensures { result ≡ refusal_at (code_of T number) place }
{
    refusal(Family::T, number, place)
}

/// A rule of names that is broken at a place.
pub fn breaks_n(number: u8, place: Place) -> TypeFault
    ensures { result ≡ Refused (refusal_at (code_of N number) place) }
{
    TypeFault::Refused(refusal(Family::N, number, place))
}

/// A rule of types that is broken at a place.
pub fn breaks_t(number: u8, place: Place) -> TypeFault
    ensures { result ≡ Refused (refusal_at (code_of T number) place) }
{
    TypeFault::Refused(type_refusal(number, place))
}
