ghost use Rattle.std.specs.Prelude.{◌≡◌, IfOk, Ok};
ghost use Rattle.std.specs.Str.Lossy.{utf8_lossy};
ghost use Rattle.use_decls.specs.Names.{begins_with_no_name, bytes_at, is_name_kind, is_reserved, lowered, role_at, role_of_class};

use crate::lexed::Lexed;
use class_decls::Name;
use ocl_values::Text;
use std::alloc::{AllocError, Global};
use use_nodes::NodeRef;
use use_text::{LexFault, Token, TokenKind, lex};

/// The most bytes of a name.
const MAX_NAME: usize = 64;

/// The kinds of token that are names.
const NAMES: [TokenKind; 14] = [
    TokenKind::Name,
    TokenKind::Check,
    TokenKind::Create,
    TokenKind::Exit,
    TokenKind::Info,
    TokenKind::Open,
    TokenKind::Opexit,
    TokenKind::Openter,
    TokenKind::Quit,
    TokenKind::Redo,
    TokenKind::Reset,
    TokenKind::SetWord,
    TokenKind::Undo,
    TokenKind::View,
];

/// Whether a kind of token is that of a name: a plain one, or a command word.
pub fn is_name_kind(kind: u16) -> bool
    ensures { result ≡ is_name_kind kind }
{
    NAMES.iter().any(|name| name.number() == kind)
}

fn begins_with_no_name(tokens: &[Token]) -> bool
    ensures { result ≡ begins_with_no_name (Ok tokens.now) }
{
    match tokens.first() {
        None => false,
        Some(token) => !is_name_kind(token.kind),
    }
}

/// Whether a word is read as another token than a name.
fn is_reserved(alloc: Global, word: &[u8]) -> Result<bool, AllocError>
    ensures { IfOk result (λ b. b ≡ is_reserved word.now) }
{
    if word.len() > MAX_NAME {
        return Ok(false);
    }
    match lex(alloc, word, 1) {
        Ok(tokens) => Ok(begins_with_no_name(tokens.as_slice())),
        Err(LexFault::Bad(_)) => Ok(false),
        Err(LexFault::Memory) => Err(AllocError),
    }
}

/// A name with its first letter in ASCII lower case.
fn lowered(alloc: Global, name: &[u8]) -> Result<Vec<u8>, AllocError>
    ensures { IfOk result (λ v. v.items ≡ lowered name.now) }
{
    let mut lowered = Vec::new(alloc);
    if let [first, rest @ ..] = name {
        lowered.push(first.to_ascii_lowercase())?;
        lowered.extend_from_slice(rest)?;
    }
    Ok(lowered)
}

/// The role of a class that writes none.
fn role_of_class(alloc: Global, name: &[u8]) -> Result<Text, AllocError>
    ensures { IfOk result (λ t. t ≡ utf8_lossy (role_of_class name.now)) }
{
    let lowered = lowered(alloc, name)?;
    let role = if is_reserved(alloc, lowered.as_slice())? {
        name
    } else {
        lowered.as_slice()
    };
    let text = String::from_utf8_lossy(alloc, role)?;
    Ok(Text::from_string(text))
}

/// A role, which stands at the class where it is not written.
pub(crate) fn role_at(
    alloc: Global,
    lexed: &Lexed<'_>,
    class: &NodeRef<'_>,
    role: Option<NodeRef<'_>>,
) -> Result<Name, AllocError>
    ensures { IfOk result (λ n. n ≡ role_at lexed.now class.now role.entry) }
{
    match role {
        None => Ok(Name {
            text: role_of_class(alloc, lexed.bytes_at(class))?,
            place: lexed.place_at(class),
        }),
        Some(role) => lexed.name_at(alloc, &role),
    }
}
