ghost use Rattle.std.specs.Prelude.{◌≡◌, IfOk};
ghost use Rattle.ocl_syntax.specs.Tokens.{arithmetic_operator, binary_operator, comparison_or_arithmetic, place_at, place_of_mark, string_at, unary_operator, literal_at, word_literal};

use crate::{WrittenBinary, WrittenLiteral, WrittenUnary};
use ocl_values::Text;
use std::alloc::{AllocError, Global};
use use_decls::Lexed;
use use_nodes::{NodeRef, Select};
use use_text::{Place, TokenKind, string_of_quoted};

/// The place of a token.
pub(crate) fn place_at(lexed: &Lexed<'_>, node: &NodeRef<'_>) -> Place
    ensures { result ≡ place_at lexed.now node.now }
{
    lexed.place_at(node)
}

/// The place of the first token of a kind right below a node.
pub(crate) fn place_of_mark(lexed: &Lexed<'_>, kind: TokenKind, node: &NodeRef<'_>) -> Place
    ensures { result ≡ place_of_mark lexed.now kind node.now }
{
    match node.part(Select::Token(kind)) {
        None => Place { line: 0, col: 0 },
        Some(mark) => lexed.place_at(&mark),
    }
}

fn word_literal(node: &NodeRef<'_>) -> Option<WrittenLiteral>
    ensures { result ≡ word_literal node.now }
{
    if node.is_token(TokenKind::True) {
        Some(WrittenLiteral::Bool(true))
    } else if node.is_token(TokenKind::False) {
        Some(WrittenLiteral::Bool(false))
    } else if node.is_token(TokenKind::Null) {
        Some(WrittenLiteral::Null)
    } else if node.is_token(TokenKind::Undefined) {
        Some(WrittenLiteral::Null)
    } else if node.is_token(TokenKind::Invalid) {
        Some(WrittenLiteral::Invalid)
    } else {
        None
    }
}

#[inline(never)]
fn string_at(
    alloc: Global,
    lexed: &Lexed<'_>,
    node: &NodeRef<'_>,
) -> Result<WrittenLiteral, AllocError>
    ensures { IfOk result (λ v. v ≡ string_at lexed.now node.now) }
{
    let bytes = string_of_quoted(alloc, lexed.bytes_at(node))?;
    let text = String::from_utf8_lossy(alloc, bytes.as_slice())?;
    Ok(WrittenLiteral::Str(Text::from_string(text)))
}

/// The literal that a token is.
pub(crate) fn literal_at(
    alloc: Global,
    lexed: &Lexed<'_>,
    node: &NodeRef<'_>,
) -> Result<Option<WrittenLiteral>, AllocError>
    ensures { IfOk result (λ v. v ≡ literal_at lexed.now node.now) }
{
    if node.is_token(TokenKind::Int) {
        Ok(lexed.number_at(node).map(|n| WrittenLiteral::Int(n)))
    } else if node.is_token(TokenKind::Str) {
        Ok(Some(string_at(alloc, lexed, node)?))
    } else {
        Ok(word_literal(node))
    }
}

/// The operator before an operand.
pub(crate) fn unary_operator(node: &NodeRef<'_>) -> WrittenUnary
    ensures { result ≡ unary_operator node.now }
{
    if node.is_token(TokenKind::Not) {
        WrittenUnary::Not
    } else {
        WrittenUnary::Neg
    }
}

fn arithmetic_operator(node: &NodeRef<'_>) -> WrittenBinary
    ensures { result ≡ arithmetic_operator node.now }
{
    if node.is_token(TokenKind::Plus) {
        WrittenBinary::Add
    } else if node.is_token(TokenKind::Minus) {
        WrittenBinary::Sub
    } else if node.is_token(TokenKind::Star) {
        WrittenBinary::Mul
    } else if node.is_token(TokenKind::Div) {
        WrittenBinary::Div
    } else {
        WrittenBinary::Mod
    }
}

fn comparison_or_arithmetic(node: &NodeRef<'_>) -> WrittenBinary
    ensures { result ≡ comparison_or_arithmetic node.now }
{
    if node.is_token(TokenKind::Equal) {
        WrittenBinary::Eq
    } else if node.is_token(TokenKind::NotEqual) {
        WrittenBinary::Ne
    } else if node.is_token(TokenKind::Less) {
        WrittenBinary::Lt
    } else if node.is_token(TokenKind::LessEqual) {
        WrittenBinary::Le
    } else if node.is_token(TokenKind::Greater) {
        WrittenBinary::Gt
    } else if node.is_token(TokenKind::GreaterEqual) {
        WrittenBinary::Ge
    } else {
        arithmetic_operator(node)
    }
}

/// The operator between operands.
pub(crate) fn binary_operator(node: &NodeRef<'_>) -> WrittenBinary
    ensures { result ≡ binary_operator node.now }
{
    if node.is_token(TokenKind::And) {
        WrittenBinary::And
    } else if node.is_token(TokenKind::Or) {
        WrittenBinary::Or
    } else if node.is_token(TokenKind::Xor) {
        WrittenBinary::Xor
    } else if node.is_token(TokenKind::Implies) {
        WrittenBinary::Implies
    } else {
        comparison_or_arithmetic(node)
    }
}
