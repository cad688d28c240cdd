ghost use Rattle.std.specs.Prelude.{◌≡◌, ◌^◌, ◌-◌, ◌+◌, ◌*◌, ◌<◌, ◌≤◌, ◌∷◌, List, ℕ, false, min, length, drop, take_while};
ghost use Rattle.use_text.specs.declared.words.TheConstants.{SYMBOLS, WORDS};
ghost use Rattle.use_text.specs.Pieces.{is_white, white_length, is_letter, is_digit, is_name_byte, is_in_line, digits_value, same_text, begins, kind_among, word_kind, word_piece, number_of_digits, number_piece, string_end, string_piece, comment_end, comment_piece, at_piece, symbol_among, symbol_piece, mark_piece, piece_of};

use crate::words::{SYMBOLS, WORDS};
use crate::{Code, TokenKind};

/// What stands at the front of bytes: white space or a comment, a token, or bytes that a rule
/// refuses.
#[derive(Clone, Copy, Debug, PartialEq, Eq)]
pub enum Piece {
    White { length: usize },
    Token { kind: TokenKind, length: usize },
    Bad { code: Code },
}

/// The most bytes of a name.
const MAX_NAME: usize = 64;

fn is_white(b: u8) -> bool
    ensures { result ≡ is_white b }
{
    b == b' ' || b == b'\t' || b == b'\r' || b == b'\n'
}

fn is_letter(b: u8) -> bool
    ensures { result ≡ is_letter b }
{
    b.is_ascii_lowercase() || b.is_ascii_uppercase() || b == b'_'
}

fn is_digit(b: u8) -> bool
    ensures { result ≡ is_digit b }
{
    b.is_ascii_digit()
}

/// Whether a byte is an ASCII letter, a digit or `_`.
pub fn is_name_byte(b: u8) -> bool
    ensures { result ≡ is_name_byte b }
{
    is_letter(b) || is_digit(b)
}

/// How many bytes of white space the bytes begin with.
pub fn white_length(bytes: &[u8]) -> usize
    ensures length { result ≡ white_length bytes.now }
    ensures within { result ≤ length bytes.now }
{
    bytes.iter().take_while(|b| is_white(**b)).count()
}

fn name_length(bytes: &[u8]) -> usize
    ensures { result ≡ length (take_while is_name_byte bytes.now) }
{
    bytes.iter().take_while(|b| is_name_byte(**b)).count()
}

fn digits_length(bytes: &[u8]) -> usize
    ensures { result ≡ length (take_while is_digit bytes.now) }
{
    bytes.iter().take_while(|b| is_digit(**b)).count()
}

/// How many bytes stand before the first line feed.
pub(crate) fn line_length(bytes: &[u8]) -> usize
    ensures { result ≡ length (take_while is_in_line bytes.now) }
{
    bytes.iter().take_while(|b| **b != b'\n').count()
}

fn is_word(word: &[u8], text: &str) -> bool
    ensures { result ≡ same_text word.now text.now }
{
    // Most rows of a table differ in their first byte.
    let text = text.as_bytes();
    match (word, text) {
        ([w, ..], [t, ..]) if w != t => false,
        _ => word == text,
    }
}

fn begins(bytes: &[u8], front: &str) -> bool
    ensures { result ≡ begins bytes.now front.now }
{
    // Most rows of a table differ in their first byte.
    let front = front.as_bytes();
    match (bytes, front) {
        ([b, ..], [f, ..]) if b != f => false,
        ([_, ..], [_]) => true,
        _ => bytes.starts_with(front),
    }
}

/// The kind that the first row of a word gives it, or a name's.
fn kind_among(rows: &[(&str, TokenKind)], word: &[u8]) -> TokenKind
    ensures { result ≡ kind_among rows.now (λ t. t.now) word.now }
{
    'rows: for row in rows {
        if is_word(word, row.0) {
            return row.1;
        }
    }
    TokenKind::Name
}

/// The words that begin with this capital letter, or all words.
fn capital_words_from(b: u8) -> &'static [(&'static str, TokenKind)]
    ensures { (rest : List ℕ) → kind_among result.now (λ t. t.now) (b ∷ rest) ≡ kind_among WORDS (λ t. t.now) (b ∷ rest) }
{
    match b {
        b'A' => &[],
        b'B' => &WORDS[..1],
        b'C' => &[],
        b'D' => &[],
        b'E' => &[],
        b'F' => &[],
        b'G' => &[],
        b'H' => &[],
        b'I' => &[],
        b'J' => &[],
        b'K' => &[],
        b'L' => &[],
        b'M' => &[],
        b'N' => &[],
        b'O' => &WORDS[1..2],
        b'P' => &[],
        b'Q' => &[],
        b'R' => &[],
        b'S' => &WORDS[2..4],
        b'T' => &[],
        b'U' => &WORDS[4..5],
        b'V' => &[],
        b'W' => &[],
        b'X' => &[],
        b'Y' => &[],
        b'Z' => &[],
        _ => &WORDS,
    }
}

/// The words that begin with this letter, or all words.
fn words_from(b: u8) -> &'static [(&'static str, TokenKind)]
    ensures { (rest : List ℕ) → kind_among result.now (λ t. t.now) (b ∷ rest) ≡ kind_among WORDS (λ t. t.now) (b ∷ rest) }
{
    match b {
        b'_' => &[],
        b'a' => &WORDS[5..10],
        b'b' => &WORDS[10..12],
        b'c' => &WORDS[12..18],
        b'd' => &WORDS[18..23],
        b'e' => &WORDS[23..28],
        b'f' => &WORDS[28..31],
        b'g' => &[],
        b'h' => &[],
        b'i' => &WORDS[31..39],
        b'j' => &[],
        b'k' => &[],
        b'l' => &WORDS[39..40],
        b'm' => &WORDS[40..42],
        b'n' => &WORDS[42..45],
        b'o' => &WORDS[45..51],
        b'p' => &WORDS[51..53],
        b'q' => &WORDS[53..54],
        b'r' => &WORDS[54..57],
        b's' => &WORDS[57..58],
        b't' => &WORDS[58..60],
        b'u' => &WORDS[60..61],
        b'v' => &WORDS[61..62],
        b'w' => &WORDS[62..63],
        b'x' => &WORDS[63..],
        b'y' => &[],
        b'z' => &[],
        _ => capital_words_from(b),
    }
}

#[tactic(auto, unfolding(crate::specs::Pieces::word_kind))]
fn word_kind(word: &[u8]) -> TokenKind
    ensures { result ≡ word_kind word.now }
{
    match word {
        [] => TokenKind::Name,
        [b, ..] => kind_among(words_from(*b), word),
    }
}

/// A word of these bytes.
fn word_piece(word: &[u8]) -> Piece
    ensures { result ≡ word_piece word.now }
{
    if word.len() <= MAX_NAME {
        Piece::Token {
            kind: word_kind(word),
            length: word.len(),
        }
    } else {
        Piece::Bad { code: Code::L5 }
    }
}

/// A number with one more digit, or 2 ^ 128 - 1 where it is larger.
fn with_digit(value: u128, digit: u8) -> u128
    ensures { result ≡ min (10 * value + digit) (2 ^ 128 - 1) }
{
    // Most numbers are small, and a product of two words costs less than one of four.
    match u64::try_from(value) {
        Ok(small) => u128::from(small) * 10 + u128::from(digit),
        Err(_) => value.saturating_mul(10).saturating_add(u128::from(digit)),
    }
}

/// The number that digits write, or 2 ^ 128 - 1 where it is larger.
fn digits_value(digits: &[u8]) -> u128
    ensures { result ≡ min (digits_value digits.now) (2 ^ 128 - 1) }
{
    let mut value = 0u128;
    'digits: for digit in digits {
        value = with_digit(value, digit.saturating_sub(b'0'));
    }
    value
}

/// The number in the program's range that digits write.
pub fn number_of_digits(digits: &[u8]) -> Option<i128>
    ensures { result ≡ number_of_digits digits.now }
{
    let value = digits_value(digits);
    if value < 1 << 127 {
        Some(value as i128)
    } else {
        None
    }
}

/// A number of these digits.
fn number_piece(digits: &[u8]) -> Piece
    ensures { result ≡ number_piece digits.now }
{
    match number_of_digits(digits) {
        Some(_) => Piece::Token {
            kind: TokenKind::Int,
            length: digits.len(),
        },
        None => Piece::Bad { code: Code::L3 },
    }
}

/// Where a string ends, given the bytes behind its first quote.
fn string_end(bytes: &[u8]) -> Option<usize>
    ensures { result ≡ string_end 1 false bytes.now }
{
    let mut taken = false;
    'bytes: for (i, b) in bytes.iter().enumerate() {
        if *b == b'\n' {
            return None;
        }
        if *b == b'\'' && !taken {
            return Some(i + 2);
        }
        taken = *b == b'\\' && !taken;
    }
    None
}

/// The string whose first quote these bytes are behind.
fn string_piece(rest: &[u8]) -> Piece
    ensures { result ≡ string_piece rest.now }
{
    match string_end(rest) {
        Some(length) => Piece::Token {
            kind: TokenKind::Str,
            length,
        },
        None => Piece::Bad { code: Code::L4 },
    }
}

/// Where a comment ends, given the bytes behind its `/*`.
fn comment_end(bytes: &[u8]) -> Option<usize>
    ensures { result ≡ comment_end 2 false bytes.now }
{
    let mut star = false;
    'bytes: for (i, b) in bytes.iter().enumerate() {
        if *b != b'/' {
            star = *b == b'*';
            continue;
        }
        if star {
            return Some(i + 3);
        }
        star = false;
    }
    None
}

/// The comment whose `/*` these bytes are behind.
fn comment_piece(rest: &[u8]) -> Piece
    ensures { result ≡ comment_piece rest.now }
{
    match comment_end(rest) {
        Some(length) => Piece::White { length },
        None => Piece::Bad { code: Code::L4 },
    }
}

/// The `@` that this word is behind.
fn at_piece(word: &[u8]) -> Piece
    ensures { result ≡ at_piece word.now }
{
    if is_word(word, "pre") {
        Piece::Token {
            kind: TokenKind::AtPre,
            length: word.len() + 1,
        }
    } else {
        Piece::Bad { code: Code::L2 }
    }
}

/// The first symbol among rows that the bytes begin with.
fn symbol_among(rows: &[(&str, TokenKind)], bytes: &[u8]) -> Piece
    ensures { result ≡ symbol_among rows.now (λ t. t.now) bytes.now }
{
    'rows: for row in rows {
        if begins(bytes, row.0) {
            return Piece::Token {
                kind: row.1,
                length: row.0.len(),
            };
        }
    }
    Piece::Bad { code: Code::L2 }
}

/// The symbols from one on before which none begins with this byte.
fn symbols_from(b: u8) -> &'static [(&'static str, TokenKind)]
    ensures { (rest : List ℕ) → symbol_among result.now (λ t. t.now) (b ∷ rest) ≡ symbol_among SYMBOLS (λ t. t.now) (b ∷ rest) }
{
    match b {
        b')' => &SYMBOLS[1..],
        b'{' => &SYMBOLS[2..],
        b'}' => &SYMBOLS[3..],
        b'[' => &SYMBOLS[4..],
        b']' => &SYMBOLS[5..],
        b',' => &SYMBOLS[6..],
        b';' => &SYMBOLS[7..],
        b':' => &SYMBOLS[8..],
        b'.' => &SYMBOLS[11..],
        b'-' => &SYMBOLS[13..],
        b'<' => &SYMBOLS[15..],
        b'>' => &SYMBOLS[18..],
        b'=' => &SYMBOLS[20..],
        b'+' => &SYMBOLS[21..],
        b'*' => &SYMBOLS[22..],
        b'|' => &SYMBOLS[23..],
        b'#' => &SYMBOLS[24..],
        b'!' => &SYMBOLS[25..],
        b'?' => &SYMBOLS[26..],
        _ => &SYMBOLS,
    }
}

#[tactic(auto, unfolding(crate::specs::Pieces::symbol_piece))]
fn symbol_piece(bytes: &[u8]) -> Piece
    ensures { result ≡ symbol_piece bytes.now }
{
    match bytes {
        [] => Piece::Bad { code: Code::L2 },
        [b, ..] => symbol_among(symbols_from(*b), bytes),
    }
}

/// The comment or the symbol at the front of bytes.
fn mark_piece(bytes: &[u8]) -> Piece
    ensures { result ≡ mark_piece bytes.now }
{
    if begins(bytes, "--") || begins(bytes, "//") {
        return Piece::White {
            length: line_length(bytes),
        };
    }
    if begins(bytes, "/*") {
        return comment_piece(&bytes[2..]);
    }
    symbol_piece(bytes)
}

/// What stands at the front of bytes.
pub fn piece_of(bytes: &[u8]) -> Piece
    ensures { result ≡ piece_of bytes.now }
{
    let Some(&first) = bytes.first() else {
        return Piece::Bad { code: Code::L2 };
    };
    if is_white(first) {
        return Piece::White {
            length: white_length(bytes),
        };
    }
    if is_letter(first) {
        return word_piece(&bytes[..name_length(bytes)]);
    }
    if is_digit(first) {
        return number_piece(&bytes[..digits_length(bytes)]);
    }
    match first {
        b'\'' => string_piece(&bytes[1..]),
        b'@' => at_piece(&bytes[1..1 + name_length(&bytes[1..])]),
        _ => mark_piece(bytes),
    }
}
