//! From bytes to commands and tokens: cuts of a stream, tokens with their places, and refusals.
#![tactic(auto)]

mod block;
mod code;
mod cut;
mod cutter;
mod law;
mod lexer;
mod line;
mod marks;
mod pending;
mod piece;
mod place;
mod quoted;
mod refusal;
mod texts;
mod token;
mod words;

pub use code::{Code, Family, text_of};
pub use cut::{Cut, Fate};
pub use cutter::Cutter;
pub use law::tokens_are_the_lexemes;
pub use lexer::{LexFault, behind_all, lex, lex_into};
pub use piece::{is_name_byte, number_of_digits, white_length};
pub use place::Place;
pub use quoted::string_of_quoted;
pub use refusal::Refusal;
pub use token::{Token, TokenKind};
use use_lists::Items;

/// Bytes that contracts see as their list.
pub type Bytes = Items<u8>;

/// The tokens of a text; the last one is `End`.
pub type Tokens = Items<Token>;
