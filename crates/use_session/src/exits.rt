ghost use Rattle.std.specs.Prelude.{◌≡◌};
ghost use Rattle.std.specs.Option.{option_copied};
ghost use Rattle.use_session.specs.Commands.{has_kind, has_mark, is_exit, word_place};

use crate::Start;
use use_text::{Code, Family, Place, Token, TokenKind};

/// No operation is open.
pub(crate) const C3: Code = Code {
    family: Family::C,
    number: 3,
};

/// Whether there is a token, and it is of a kind.
fn has_kind(kind: TokenKind, token: Option<&Token>) -> bool
    ensures { result ≡ has_kind kind (option_copied token.entry) }
{
    match token {
        None => false,
        Some(token) => token.kind == kind.number(),
    }
}

/// Whether the first token is `!`.
fn has_mark(tokens: &[Token]) -> bool
    ensures { result ≡ has_mark tokens.now }
{
    has_kind(TokenKind::Bang, tokens.get(0))
}

/// The place of the word of a command, which may stand behind `!`.
pub(crate) fn word_place(at: Start, tokens: &[Token]) -> Place
    ensures { result ≡ word_place at tokens.now }
{
    if has_mark(tokens) {
        at.second
    } else {
        at.first
    }
}

/// Whether a command leaves a call.
pub(crate) fn is_exit(tokens: &[Token]) -> bool
    ensures { result ≡ is_exit tokens.now }
{
    let word = if has_mark(tokens) { 1 } else { 0 };
    has_kind(TokenKind::Opexit, tokens.get(word))
}
