ghost use Rattle.std.specs.Prelude.{◌≡◌};

use std::alloc::AllocError;
use thiserror::Error;
use use_text::Refusal;

/// Why a text gives no tree.
#[derive(Clone, Copy, Debug, PartialEq, Eq, Error)]
pub enum SyntaxFault {
    /// Memory ran out.
    #[error("out of memory")]
    Memory,
    /// The text is refused by L1 to L5, S1 or S2.
    #[error("{0}")]
    Refused(Refusal),
}

impl From<AllocError> for SyntaxFault {
    ghost use Rattle.use_syntax.specs.declared.fault.SyntaxFault.TheVariants.{Memory};

    ghost from_gives = { λ _ e. e ≡ Memory };

    fn from(_: AllocError) -> Self {
        SyntaxFault::Memory
    }
}
