use crate::Rule;
use crate::production::Production;
use use_text::TokenKind;

/// What a production names: a token of a kind, a rule, or a production with a name.
#[derive(Clone, Copy, Debug, PartialEq, Eq)]
pub(crate) enum Symbol {
    Token(TokenKind),
    Rule(Rule),
    Production(Production),
}

/// A production, in constants. A choice is made by the next token: each branch lists the kinds that
/// it begins with.
#[derive(Clone, Copy, Debug)]
pub(crate) enum Row {
    /// Each in turn.
    Each(&'static [Symbol]),
    /// The branch that lists the next token.
    Choice(&'static [(&'static [TokenKind], Symbol)]),
    /// The branch that lists the next token, or else the other one.
    OrElse(&'static [(&'static [TokenKind], Symbol)], Symbol),
    /// Nothing, unless it begins with the next token.
    Optional(&'static [TokenKind], Symbol),
    /// As often as it begins with the next token.
    Repeated(&'static [TokenKind], Symbol),
}
