ghost use Rattle.std.specs.Prelude.{◌≡◌, All, IfSome, length};
ghost use Rattle.std.specs.Int.{IsNonNegative};
ghost use Rattle.use_text.specs.Tokens.{IsWithin};
ghost use Rattle.use_nodes.specs.Written.{number_in};

use crate::NodeRef;
use use_text::{Token, TokenKind, number_of_digits};

impl<'a> NodeRef<'a> {
    /// The number that it writes, where it is a token that does, of those that the tree was read from.
    pub fn number_in(&self, text: &[u8], tokens: &[Token]) -> Option<i128>
        requires { All (IsWithin (length text.now)) tokens.now }
        ensures number { result ≡ number_in text.now tokens.now self.now }
        ensures not_negative { IfSome result IsNonNegative }
    {
        if !self.is_token(TokenKind::Int) {
            return None;
        }
        let token = self.token_in(tokens)?;
        number_of_digits(&text[token.start as usize..token.end as usize])
    }
}
