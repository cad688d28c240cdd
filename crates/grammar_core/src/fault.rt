ghost use Rattle.std.specs.Prelude.{◌≡◌};

use std::alloc::AllocError;
use thiserror::Error;

/// Why a table gives no grammar.
#[derive(Clone, Copy, Debug, PartialEq, Eq, Error)]
pub enum GrammarFault {
    /// Memory ran out.
    #[error("out of memory")]
    Memory,
    /// The first production, by its place, with which a parse need not end with exactly one answer.
    #[error("production {prod} is unfit")]
    Unfit { prod: u16 },
}

impl From<AllocError> for GrammarFault {
    ghost use Rattle.grammar_core.specs.declared.fault.GrammarFault.TheVariants.{Memory};

    ghost from_gives = { λ _ e. e ≡ Memory };

    fn from(_: AllocError) -> Self {
        GrammarFault::Memory
    }
}

/// Why tokens have no tree. A token is given by its place in the list.
#[derive(Clone, Copy, Debug, PartialEq, Eq, Error)]
pub enum ParseFault {
    /// Memory ran out.
    #[error("out of memory")]
    Memory,
    /// The first token that the table allows no branch for.
    #[error("no branch allows token {token}")]
    Stuck { token: u32 },
    /// The token at which more rules that nest would be open than are allowed.
    #[error("token {token} is nested too deep")]
    Deep { token: u32 },
}

impl From<AllocError> for ParseFault {
    ghost use Rattle.grammar_core.specs.declared.fault.ParseFault.TheVariants.{Memory};

    ghost from_gives = { λ _ e. e ≡ Memory };

    fn from(_: AllocError) -> Self {
        ParseFault::Memory
    }
}
