ghost use Rattle.std.specs.Prelude.{◌≡◌};
ghost use Rattle.use_text.specs.Codes.{text_among, texts_of, text_of};
ghost use Rattle.use_text.specs.CodeRows.{rows_of};

use crate::texts;
use std::fmt;

/// The kind of rule that a refusal names.
#[derive(Clone, Copy, Debug, PartialEq, Eq)]
pub enum Family {
    /// How the stream is cut into commands.
    K,
    /// Tokens.
    L,
    /// Grammar.
    S,
    /// The declarations of a model.
    M,
    /// Names.
    N,
    /// Types.
    T,
    /// The run of a statement.
    X,
    /// Budgets.
    B,
    /// Contracts of operations.
    C,
    /// Undo and redo.
    U,
    /// Files.
    F,
    /// Views.
    V,
}

/// The rule that a refusal names, written as its family's letter and its number, as in `X12`.
#[derive(Clone, Copy, Debug, PartialEq, Eq)]
pub struct Code {
    pub family: Family,
    pub number: u8,
}

impl Family {
    ghost use Rattle.use_text.specs.Codes.{letter_of};

    pub(crate) fn letter(self) -> &'static str
        ensures { result.now ≡ letter_of self }
    {
        match self {
            Family::K => "K",
            Family::L => "L",
            Family::S => "S",
            Family::M => "M",
            Family::N => "N",
            Family::T => "T",
            Family::X => "X",
            Family::B => "B",
            Family::C => "C",
            Family::U => "U",
            Family::F => "F",
            Family::V => "V",
        }
    }
}

impl fmt::Display for Code {
    ghost use Rattle.std.specs.Prelude.{Some};
    ghost use Rattle.use_text.specs.Codes.{code_text};

    ghost output = { λ c. Some (code_text c) };

    fn fmt<W: fmt::Write>(&self, f: &mut fmt::Formatter<W>) -> fmt::Result {
        write!(f, "{}{}", self.family.letter(), self.number)
    }
}

impl Code {
    /// A command that is too long.
    pub const K1: Code = Code {
        family: Family::K,
        number: 1,
    };
    /// A block that the input's end cut off.
    pub const K2: Code = Code {
        family: Family::K,
        number: 2,
    };
    /// A text that is not UTF-8.
    pub const L1: Code = Code {
        family: Family::L,
        number: 1,
    };
    /// Bytes at which no token begins.
    pub const L2: Code = Code {
        family: Family::L,
        number: 2,
    };
    /// A number past the range.
    pub const L3: Code = Code {
        family: Family::L,
        number: 3,
    };
    /// A string or a comment that is not closed.
    pub const L4: Code = Code {
        family: Family::L,
        number: 4,
    };
    /// A name that is too long.
    pub const L5: Code = Code {
        family: Family::L,
        number: 5,
    };
    /// A form that is not built yet.
    pub const S0: Code = Code {
        family: Family::S,
        number: 0,
    };
    /// A token where the grammar allows none.
    pub const S1: Code = Code {
        family: Family::S,
        number: 1,
    };
    /// Rules that are nested too deep.
    pub const S2: Code = Code {
        family: Family::S,
        number: 2,
    };
    /// No such file.
    pub const F1: Code = Code {
        family: Family::F,
        number: 1,
    };
    /// A file that is too long.
    pub const F2: Code = Code {
        family: Family::F,
        number: 2,
    };
}

/// The text of a number among rows, or an empty one.
fn text_among(rows: &[(u8, &'static str)], number: u8) -> &'static str
    ensures { result.now ≡ text_among (rows_of rows.now (λ t. t.now)) number }
{
    'rows: for row in rows {
        if row.0 == number {
            return row.1;
        }
    }
    ""
}

/// The texts of a family, each with its number.
fn texts_of(family: Family) -> &'static [(u8, &'static str)]
    ensures { rows_of result.now (λ t. t.now) ≡ texts_of family }
{
    match family {
        Family::K => &texts::K_TEXTS,
        Family::L => &texts::L_TEXTS,
        Family::S => &texts::S_TEXTS,
        Family::M => &texts::M_TEXTS,
        Family::N => &texts::N_TEXTS,
        Family::T => &texts::T_TEXTS,
        Family::X => &texts::X_TEXTS,
        Family::B => &texts::B_TEXTS,
        Family::C => &texts::C_TEXTS,
        Family::U => &texts::U_TEXTS,
        Family::F => &texts::F_TEXTS,
        Family::V => &texts::V_TEXTS,
    }
}

/// The text of a code, or an empty one where there is no such code. In those of C1 and C2 the
/// letters C, N and V stand for the class, the contract's name and the value.
#[tactic(auto, unfolding(crate::specs::Codes::text_of))]
pub fn text_of(code: Code) -> &'static str
    ensures { result.now ≡ text_of code }
{
    text_among(texts_of(code.family), code.number)
}
