// The kinds of token that a form may begin with.
use use_text::TokenKind;
use use_text::TokenKind::{
    Bag, Check, Create, Declare, Delete, Destroy, Exit, False, For, Hash, If, Info, Insert, Int,
    Invalid, LeftParen, Let, Minus, Name, New, Not, Null, Open, Openter, Opexit, OrderedSet, Quit,
    Redo, Reset, Sequence, Set, SetWord, Str, True, Undefined, Undo, View, While,
};

/// A name: command words are names wherever they begin no command.
pub(crate) const NAMES: &[TokenKind] = &[
    Name, Check, Create, Exit, Info, Open, Opexit, Openter, Quit, Redo, Reset, SetWord, Undo, View,
];

/// The kinds of collection.
pub(crate) const KINDS: &[TokenKind] = &[Set, OrderedSet, Bag, Sequence];

/// What an expression begins with.
pub(crate) const EXPRESSIONS: &[TokenKind] = &[
    Int, Str, True, False, Null, Undefined, Invalid, Hash, Set, OrderedSet, Bag, Sequence, Name,
    Check, Create, Exit, Info, Open, Opexit, Openter, Quit, Redo, Reset, SetWord, Undo, View,
    LeftParen, If, Not, Minus, Let,
];

/// What a statement begins with.
pub(crate) const STATEMENTS: &[TokenKind] = &[
    New, Destroy, Insert, Delete, Declare, For, While, Int, Str, True, False, Null, Undefined,
    Invalid, Hash, Set, OrderedSet, Bag, Sequence, Name, Check, Create, Exit, Info, Open, Opexit,
    Openter, Quit, Redo, Reset, SetWord, Undo, View, LeftParen, If, Not, Minus, Let,
];
