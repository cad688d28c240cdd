ghost use Rattle.std.specs.Prelude.{◌≡◌, All, IfOk, IsTrue, length};
ghost use Rattle.use_text.specs.Tokens.{IsWithin};
ghost use Rattle.command_cache.specs.Meanings.{IsMeant};
ghost use Rattle.command_cache.specs.Prepared.{Notes};

use crate::Named;
use crate::bound::{copy_bound, is_bound_so};
use crate::meanings::{are_meant, names_of};
use soil_check::{Bindings, Scope};
use std::alloc::{AllocError, Global};
use use_lists::Items;
use use_syntax::Parsed;
use use_text::{Bytes, Tokens};

/// What tells a command again: its text with its tokens, what the names in it stood for, and what the
/// open operation bound.
#[derive(Drop)]
pub struct Noted {
    pub text: Bytes,
    pub tokens: Tokens,
    pub names: Items<Named>,
    pub bound: Option<Bindings>,
}

impl Noted {
    /// What tells a command again that was read.
    pub(crate) fn of<S: Scope>(
        alloc: Global,
        scope: &S,
        parsed: &Parsed,
    ) -> Result<Noted, AllocError>
        requires { All (IsWithin (length parsed.now.text)) parsed.now.tokens }
        ensures { IfOk result (Notes (S.known scope.now) (S.bound scope.now) parsed.now.text parsed.now.tokens) }
    {
        let text = parsed.text.as_slice();
        let tokens = parsed.tokens.as_slice();
        Ok(Noted {
            text: Bytes::from_slice(alloc, text)?,
            tokens: Tokens::from_slice(alloc, tokens)?,
            names: names_of(alloc, scope, text, tokens)?,
            bound: copy_bound(alloc, scope.frame())?,
        })
    }

    /// Whether it tells a command of this text.
    pub(crate) fn tells<S: Scope>(&self, scope: &S, text: &[u8]) -> bool
        ensures text { IsTrue result → self.now.text ≡ text.now }
        ensures bound { IsTrue result → S.bound scope.now ≡ self.now.bound }
        ensures meant { IsTrue result → All (IsMeant (S.known scope.now)) self.now.names }
    {
        self.text.as_slice() == text
            && is_bound_so(scope.frame(), self.bound.as_ref())
            && are_meant(scope, self.names.as_slice())
    }
}
