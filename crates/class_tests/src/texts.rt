ghost use Rattle.std.specs.Prelude.{◌≡◌, All, IfOk, IfSome, length};
ghost use Rattle.use_syntax.specs.Language.{language};
ghost use Rattle.use_text.specs.Tokens.{IsWithin};

use class_builder::build;
use class_decls::Decls;
use class_model::ClassModel;
use grammar_core::Grammar;
use std::alloc::Global;
use std::test::Fail;
use use_decls::decls;
use use_syntax::{Parsed, grammar, read_model};

/// The grammar of models, if memory was not wanting.
pub(crate) fn language(alloc: Global) -> Result<Option<Grammar>, Fail>
    ensures { IfOk result (λ o. IfSome o (λ g. g ≡ language)) }
{
    match grammar(alloc) {
        Ok(g) => Ok(Some(g)),
        Err(_) => Ok(None),
    }
}

fn read(alloc: Global, g: &Grammar, text: &str) -> Result<Option<Parsed>, Fail>
    requires { g.now ≡ language }
    ensures { IfOk result (λ o. IfSome o (λ p. All (IsWithin (length p.text)) p.tokens)) }
{
    if text.len() > 10_000 {
        return Ok(None);
    }
    match read_model(alloc, g, text.as_bytes()) {
        Ok(parsed) => Ok(Some(parsed)),
        Err(_) => Ok(None),
    }
}

/// What a model declares, if its text is one of the grammar.
pub(crate) fn decls_of(alloc: Global, g: &Grammar, text: &str) -> Result<Option<Decls>, Fail>
    requires { g.now ≡ language }
{
    match read(alloc, g, text)? {
        None => Ok(None),
        Some(parsed) => Ok(Some(decls(alloc, &parsed)?)),
    }
}

/// The object model of a text, if it breaks no rule.
pub(crate) fn model_of(alloc: Global, g: &Grammar, text: &str) -> Result<Option<ClassModel>, Fail>
    requires { g.now ≡ language }
{
    match decls_of(alloc, g, text)? {
        None => Ok(None),
        Some(decls) => match build(alloc, decls) {
            Ok(model) => Ok(Some(model)),
            Err(_) => Ok(None),
        },
    }
}
