ghost use Rattle.std.specs.Prelude.{◌≡◌, ◌+◌, ◌<◌, ◌≤◌, ◌^◌, ◌-◌, length, drop, IfOk, IfErr, IfSome, IfNone, OnOk, All, ◌++◌, option_to_list};
ghost use Rattle.std.specs.Str.Lossy.{utf8_valid_len};
ghost use Rattle.use_text.specs.Places.{behind, behind_all, IsAdvanced};
ghost use Rattle.use_text.specs.Tokens.{tokens, tokens_of_utf8, utf8_end, tokens_from, Lexes, IsWithin};
ghost use Rattle.use_text.specs.TokenSteps.{IsFront, IsPieceAt, IsNearStart, ReadsOn};
ghost use Rattle.use_text.specs.Limits.{max_lines, max_text};
ghost use Rattle.use_text.specs.Pieces.{piece_of};
ghost use Rattle.use_text.specs.declared.piece.Piece.TheVariants.{White, Token as TokenPiece};

use crate::piece::{Piece, line_length, piece_of};
use crate::{Code, Place, Refusal, Token, TokenKind, Tokens};
use std::alloc::{AllocError, AllocFailed, Global};
use thiserror::Error;
use use_lists::Items;

/// Why a text gives no tokens.
#[derive(Clone, Copy, Debug, PartialEq, Eq, Error)]
pub enum LexFault {
    #[error("out of memory")]
    Memory,
    #[error("{0}")]
    Bad(Refusal),
}

impl From<AllocError> for LexFault {
    ghost use Rattle.use_text.specs.declared.lexer.LexFault.TheVariants.{Memory};

    ghost from_gives = { λ _ e. e ≡ Memory };

    fn from(_: AllocError) -> Self {
        LexFault::Memory
    }
}

impl<T: Drop> From<AllocFailed<T>> for LexFault {
    ghost use Rattle.use_text.specs.declared.lexer.LexFault.TheVariants.{Memory};

    ghost from_gives = { λ _ e. e ≡ Memory };

    fn from(_: AllocFailed<T>) -> Self {
        LexFault::Memory
    }
}

/// Where the reading of a text has come: the bytes read, their end's place, and the token that would
/// end the list here. A step may have read one token.
#[derive(Drop)]
struct Step {
    token: Option<Token>,
    at: usize,
    place: Place,
    end: Token,
}

/// The place behind a byte.
fn behind(place: Place, b: u8) -> Place
    requires line { place.line + 1 < 2 ^ 32 }
    requires col { place.col + 1 < 2 ^ 32 }
    ensures { result ≡ behind place b }
{
    if b == b'\n' {
        Place {
            line: place.line + 1,
            col: 1,
        }
    } else {
        Place {
            line: place.line,
            col: place.col + 1,
        }
    }
}

/// The place behind bytes that begin at a place.
pub fn behind_all(place: Place, bytes: &[u8]) -> Place
    requires line { place.line + length bytes.now < 2 ^ 32 }
    requires col { place.col + length bytes.now < 2 ^ 32 }
    ensures place { result ≡ behind_all place bytes.now }
    ensures advanced { IsAdvanced place result (length bytes.now) }
{
    // Most bytes that are read at once stand in one line.
    if line_length(bytes) == bytes.len() {
        return Place {
            line: place.line,
            col: place.col + bytes.len() as u32,
        };
    }
    let mut place = place;
    'bytes: for b in bytes {
        place = behind(place, *b);
    }
    place
}

/// What stands at a place of a text, and where it ends.
fn piece_at(text: &[u8], at: usize) -> Piece
    requires { at < length text.now }
    ensures piece { result ≡ piece_of (drop at text.now) }
    ensures front { IsFront result (length (drop at text.now)) }
{
    piece_of(&text[at..])
}

/// The step over white space of so many bytes.
fn white_step(text: &[u8], at: usize, place: Place, end: Token, count: usize) -> Step
    requires white { IsPieceAt text.now at (White count) count }
    requires near { IsNearStart text.now at place }
    requires end { IsWithin (length text.now) end }
    ensures { ReadsOn text.now at place end result }
{
    Step {
        token: None,
        at: at + count,
        place: behind_all(place, &text[at..at + count]),
        end,
    }
}

/// The step over a token of so many bytes.
fn token_step(
    text: &[u8],
    at: usize,
    place: Place,
    end: Token,
    kind: TokenKind,
    count: usize,
) -> Step
    requires token { IsPieceAt text.now at (TokenPiece kind count) count }
    requires near { IsNearStart text.now at place }
    requires end { IsWithin (length text.now) end }
    ensures { ReadsOn text.now at place end result }
{
    let start = at as u32;
    let stop = (at + count) as u32;
    Step {
        token: Some(Token {
            kind: kind.number(),
            start,
            end: stop,
            place,
        }),
        at: at + count,
        place: behind_all(place, &text[at..at + count]),
        end: Token {
            kind: TokenKind::End.number(),
            start: stop,
            end: stop,
            place: Place {
                line: place.line,
                col: place.col + count as u32,
            },
        },
    }
}

/// One step of the reading: what stands at `at` is a token, white space, or refused.
fn next_step(text: &[u8], at: usize, place: Place, end: Token) -> Result<Step, Refusal>
    requires within { at < length text.now }
    requires near { IsNearStart text.now at place }
    requires end { IsWithin (length text.now) end }
    ensures ok { IfOk result (ReadsOn text.now at place end) }
    ensures bad { IfErr result (λ r. tokens_from 0 at place end (drop at text.now) ≡ Err r) }
{
    match piece_at(text, at) {
        Piece::White { length } => Ok(white_step(text, at, place, end, length)),
        Piece::Token { kind, length } => Ok(token_step(text, at, place, end, kind, length)),
        Piece::Bad { code } => Err(Refusal { code, place }),
    }
}

fn push_if_some(tokens: &mut Vec<Token>, token: Option<Token>) -> Result<(), AllocError>
    ensures { OnOk result (tokens.new.items ≡ tokens.old.items ++ option_to_list token) }
{
    if let Some(token) = token {
        tokens.push(token)?;
    }
    Ok(())
}

/// The tokens of a text that is UTF-8, in the room of other tokens.
fn lex_utf8(old: Tokens, text: &[u8], first_line: u32) -> Result<Tokens, LexFault>
    requires text { length text.now ≤ max_text }
    requires line { first_line ≤ max_lines }
    ensures tokens { Lexes (tokens_of_utf8 first_line text.now) result }
    ensures within { IfOk result (All (IsWithin (length text.now))) }
{
    let mut tokens = old.into_vec();
    tokens.clear();
    let mut at = 0usize;
    let mut place = Place {
        line: first_line,
        col: 1,
    };
    let mut end = Token {
        kind: TokenKind::End.number(),
        start: 0,
        end: 0,
        place,
    };
    'pieces: while at < text.len() {
        let next = match next_step(text, at, place, end) {
            Ok(next) => next,
            Err(refusal) => return Err(LexFault::Bad(refusal)),
        };
        push_if_some(&mut tokens, next.token)?;
        at = next.at;
        place = next.place;
        end = next.end;
    }
    tokens.push(end)?;
    Ok(Items::from_vec(tokens))
}

/// The place of the first byte that is not UTF-8, if there is one.
fn first_fault(text: &[u8], first_line: u32) -> Option<Place>
    requires text { length text.now ≤ max_text }
    requires line { first_line ≤ max_lines }
    ensures fault { IfSome result (λ place. (utf8_valid_len text.now < length text.now) × (place ≡ utf8_end first_line text.now)) }
    ensures none { IfNone result (utf8_valid_len text.now ≡ length text.now) }
{
    let start = Place {
        line: first_line,
        col: 1,
    };
    match str::from_utf8(text) {
        Ok(_) => None,
        Err(e) => Some(behind_all(start, &text[..e.valid_up_to()])),
    }
}

/// The tokens of a text whose first line has this number. A text that is not UTF-8 is refused L1 at
/// its first byte that is not; else the first bytes that begin no token are, by L2 to L5.
pub fn lex(alloc: Global, text: &[u8], first_line: u32) -> Result<Tokens, LexFault>
    requires text { length text.now ≤ max_text }
    requires line { first_line ≤ max_lines }
    ensures tokens { Lexes (tokens first_line text.now) result }
    ensures within { IfOk result (All (IsWithin (length text.now))) }
{
    lex_into(Items::new(alloc), text, first_line)
}

/// The same, in the room of tokens that are no longer wanted.
pub fn lex_into(old: Tokens, text: &[u8], first_line: u32) -> Result<Tokens, LexFault>
    requires text { length text.now ≤ max_text }
    requires line { first_line ≤ max_lines }
    ensures tokens { Lexes (tokens first_line text.now) result }
    ensures within { IfOk result (All (IsWithin (length text.now))) }
{
    match first_fault(text, first_line) {
        Some(place) => Err(LexFault::Bad(Refusal {
            code: Code::L1,
            place,
        })),
        None => lex_utf8(old, text, first_line),
    }
}
