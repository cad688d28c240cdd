ghost use Rattle.std.specs.Prelude.{◌≡◌};

use crate::Place;

/// What a token is. A grammar's table names a kind by its number.
#[derive(Clone, Copy, Debug, PartialEq, Eq)]
pub enum TokenKind {
    /// The end of the text.
    End,
    /// An ASCII letter or `_`, and then letters, digits and `_`, that is no word below.
    Name,
    /// ASCII digits, in the range of Integer.
    Int,
    /// A string between single quotes.
    Str,
    /// `@pre`
    AtPre,
    /// `(`
    LeftParen,
    /// `)`
    RightParen,
    /// `{`
    LeftBrace,
    /// `}`
    RightBrace,
    /// `[`
    LeftBracket,
    /// `]`
    RightBracket,
    /// `,`
    Comma,
    /// `;`
    Semicolon,
    /// `::`
    DoubleColon,
    /// `:=`
    Assign,
    /// `:`
    Colon,
    /// `..`
    DoubleDot,
    /// `.`
    Dot,
    /// `->`
    Arrow,
    /// `-`
    Minus,
    /// `<=`
    LessEqual,
    /// `<>`
    NotEqual,
    /// `<`
    Less,
    /// `>=`
    GreaterEqual,
    /// `>`
    Greater,
    /// `=`
    Equal,
    /// `+`
    Plus,
    /// `*`
    Star,
    /// `|`
    Bar,
    /// `#`
    Hash,
    /// `!`
    Bang,
    /// `?`
    Question,
    /// The reserved word `abstract`.
    Abstract,
    /// The reserved word `aggregation`.
    Aggregation,
    /// The reserved word `and`.
    And,
    /// The reserved word `association`.
    Association,
    /// The reserved word `attributes`.
    Attributes,
    /// The reserved word `Bag`.
    Bag,
    /// The reserved word `begin`.
    Begin,
    /// The reserved word `between`.
    Between,
    /// The reserved word `class`.
    Class,
    /// The reserved word `composition`.
    Composition,
    /// The reserved word `constraints`.
    Constraints,
    /// The reserved word `context`.
    Context,
    /// The reserved word `declare`.
    Declare,
    /// The reserved word `delete`.
    Delete,
    /// The reserved word `destroy`.
    Destroy,
    /// The reserved word `div`.
    Div,
    /// The reserved word `do`.
    Do,
    /// The reserved word `else`.
    Else,
    /// The reserved word `end`.
    EndWord,
    /// The reserved word `endif`.
    Endif,
    /// The reserved word `enum`.
    Enum,
    /// The reserved word `false`.
    False,
    /// The reserved word `for`.
    For,
    /// The reserved word `from`.
    From,
    /// The reserved word `if`.
    If,
    /// The reserved word `implies`.
    Implies,
    /// The reserved word `in`.
    In,
    /// The reserved word `insert`.
    Insert,
    /// The reserved word `into`.
    Into,
    /// The reserved word `inv`.
    Inv,
    /// The reserved word `invalid`.
    Invalid,
    /// The reserved word `let`.
    Let,
    /// The reserved word `mod`.
    Mod,
    /// The reserved word `model`.
    Model,
    /// The reserved word `new`.
    New,
    /// The reserved word `not`.
    Not,
    /// The reserved word `null`.
    Null,
    /// The reserved word `operations`.
    Operations,
    /// The reserved word `or`.
    Or,
    /// The reserved word `ordered`.
    Ordered,
    /// The reserved word `OrderedSet`.
    OrderedSet,
    /// The reserved word `post`.
    Post,
    /// The reserved word `pre`.
    Pre,
    /// The reserved word `role`.
    Role,
    /// The reserved word `Sequence`.
    Sequence,
    /// The reserved word `Set`.
    Set,
    /// The reserved word `then`.
    Then,
    /// The reserved word `true`.
    True,
    /// The reserved word `Undefined`.
    Undefined,
    /// The reserved word `while`.
    While,
    /// The reserved word `xor`.
    Xor,
    /// The command word `check`, which a grammar may take as a name.
    Check,
    /// The command word `create`, which a grammar may take as a name.
    Create,
    /// The command word `exit`, which a grammar may take as a name.
    Exit,
    /// The command word `info`, which a grammar may take as a name.
    Info,
    /// The command word `open`, which a grammar may take as a name.
    Open,
    /// The command word `opexit`, which a grammar may take as a name.
    Opexit,
    /// The command word `openter`, which a grammar may take as a name.
    Openter,
    /// The command word `quit`, which a grammar may take as a name.
    Quit,
    /// The command word `redo`, which a grammar may take as a name.
    Redo,
    /// The command word `reset`, which a grammar may take as a name.
    Reset,
    /// The command word `set`, which a grammar may take as a name.
    SetWord,
    /// The command word `undo`, which a grammar may take as a name.
    Undo,
    /// The command word `view`, which a grammar may take as a name.
    View,
}

impl TokenKind {
    ghost use Rattle.use_text.specs.Kinds.{number_of};

    pub fn number(self) -> u16
        ensures { result ≡ number_of self }
    {
        self as u16
    }
}

/// A token: its kind's number, the bytes of the text from `start` to `end`, and its place.
#[derive(Clone, Copy, Debug, PartialEq, Eq)]
pub struct Token {
    pub kind: u16,
    pub start: u32,
    pub end: u32,
    pub place: Place,
}
