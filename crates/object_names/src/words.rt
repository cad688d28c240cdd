ghost use Rattle.std.specs.Prelude.{◌≡◌, IfOk, Ok};
ghost use Rattle.object_names.specs.Names.{is_name, is_only_name};

use std::alloc::{AllocError, Global};
use use_decls::is_name_kind;
use use_text::{LexFault, Token, lex};

/// The most bytes of a name.
const MAX_NAME: usize = 64;

/// Whether some tokens are a name that covers a text, and the end.
fn is_only_name(text: &[u8], tokens: &[Token]) -> bool
    ensures { result ≡ is_only_name text.now (Ok tokens.now) }
{
    match tokens {
        [name, _end] => {
            name.start == 0 && name.end as usize == text.len() && is_name_kind(name.kind)
        }
        _ => false,
    }
}

/// Whether a text is a name: a word of at most 64 bytes that is not reserved.
pub fn is_name(alloc: Global, text: &[u8]) -> Result<bool, AllocError>
    ensures { IfOk result (λ b. b ≡ is_name text.now) }
{
    if text.len() > MAX_NAME {
        return Ok(false);
    }
    match lex(alloc, text, 1) {
        Ok(tokens) => Ok(is_only_name(text, tokens.as_slice())),
        Err(LexFault::Bad(_)) => Ok(false),
        Err(LexFault::Memory) => Err(AllocError),
    }
}
