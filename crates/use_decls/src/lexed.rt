ghost use Rattle.std.specs.Prelude.{◌≡◌, All, IfOk, length};
ghost use Rattle.use_text.specs.Tokens.{IsWithin};
ghost use Rattle.use_syntax.specs.Reading.{place_or};
ghost use Rattle.use_decls.specs.Names.{bytes_at, name_at, number_at, text_at};

use class_decls::Name;
use ocl_values::Text;
use std::alloc::{AllocError, Global};
use std::marker::Model;
use use_nodes::NodeRef;
use use_syntax::Parsed;
use use_text::{Place, Token};

/// Tokens, and the text in which they stand.
#[derive(Drop)]
pub struct Lexed<'a> {
    text: &'a [u8],
    tokens: &'a [Token],
}

impl<'a> Model for Lexed<'a> {
    ghost use Rattle.std.specs.Prelude.{All, length};
    ghost use Rattle.use_text.specs.Tokens.{IsWithin};
    ghost use Rattle.use_decls.specs.Names.{LexedText};

    ghost Value = { LexedText };

    ghost view = { λ l. record { text = l.text.now; tokens = l.tokens.now } };

    ghost invariant = { λ l. All (IsWithin (length l.text.now)) l.tokens.now };
}

fn place_or(token: Option<Token>) -> Place
    ensures { result ≡ place_or token }
{
    match token {
        None => Place { line: 0, col: 0 },
        Some(token) => token.place,
    }
}

impl<'a> Lexed<'a> {
    /// The tokens and the text of what was read.
    pub fn of(parsed: &'a Parsed) -> Lexed<'a>
        requires { All (IsWithin (length parsed.now.text)) parsed.now.tokens }
        ensures { result ≡ record { text = parsed.now.text; tokens = parsed.now.tokens } }
    {
        Lexed {
            text: parsed.text.as_slice(),
            tokens: parsed.tokens.as_slice(),
        }
    }

    /// The bytes of a token.
    pub fn bytes_at(&self, node: &NodeRef<'_>) -> &'a [u8]
        ensures { result.now ≡ bytes_at self.now node.now }
    {
        match node.token_in(self.tokens) {
            None => &[],
            Some(token) => &self.text[token.start as usize..token.end as usize],
        }
    }

    /// The same as a text.
    pub fn text_at(&self, alloc: Global, node: &NodeRef<'_>) -> Result<Text, AllocError>
        ensures { IfOk result (λ t. t ≡ text_at self.now node.now) }
    {
        let text = String::from_utf8_lossy(alloc, self.bytes_at(node))?;
        Ok(Text::from_string(text))
    }

    /// Where a token stands.
    pub fn place_at(&self, node: &NodeRef<'_>) -> Place
        ensures { result ≡ (name_at self.now node.now).place }
    {
        place_or(node.token_in(self.tokens))
    }

    /// A name that is written.
    pub fn name_at(&self, alloc: Global, node: &NodeRef<'_>) -> Result<Name, AllocError>
        ensures { IfOk result (λ n. n ≡ name_at self.now node.now) }
    {
        Ok(Name {
            text: self.text_at(alloc, node)?,
            place: self.place_at(node),
        })
    }

    /// The number that a token writes, if it writes one.
    pub fn number_at(&self, node: &NodeRef<'_>) -> Option<i128>
        ensures { result ≡ number_at self.now node.now }
    {
        node.number_in(self.text, self.tokens)
    }
}
