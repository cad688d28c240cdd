ghost use Rattle.std.specs.Prelude.{◌≡◌, ◌≤◌, All, IfOk, length};
ghost use Rattle.use_text.specs.Tokens.{IsWithin};
ghost use Rattle.use_syntax.specs.Language.{language};
ghost use Rattle.use_syntax.specs.Reading.{max_line, max_text, read, read_command, read_model, Reads};
ghost use Rattle.use_syntax.specs.Numbers.{number_of_rule};

use crate::{Parsed, Reader, Rule, SyntaxFault, TokenTree};
use grammar_core::Grammar;
use std::alloc::Global;
use use_lists::Items;

/// Reads a text as a rule.
fn read(
    alloc: Global,
    g: &Grammar,
    start: Rule,
    text: &[u8],
    first_line: u32,
) -> Result<Parsed, SyntaxFault>
    requires table { g.now ≡ language }
    requires text { length text.now ≤ max_text }
    requires line { first_line ≤ max_line }
    ensures reading { Reads (read (number_of_rule start) first_line text.now) text.now result }
    ensures within { IfOk result (λ p. All (IsWithin (length p.text)) p.tokens) }
{
    match Reader::new(alloc).read(g, start, text, first_line) {
        Ok(TokenTree { tree, tokens }) => Ok(Parsed {
            tree,
            tokens,
            text: Items::from_slice(alloc, text)?,
        }),
        Err(e) => Err(e),
    }
}

/// Reads the text of a model. It is refused by L1 to L5 where it has no tokens, then S1 at the token
/// where no branch of the grammar fits, or S2 at the one where more than 200 rules that nest would be
/// open.
pub fn read_model(alloc: Global, g: &Grammar, text: &[u8]) -> Result<Parsed, SyntaxFault>
    requires table { g.now ≡ language }
    requires text { length text.now ≤ max_text }
    ensures reading { Reads (read_model text.now) text.now result }
    ensures within { IfOk result (λ p. All (IsWithin (length p.text)) p.tokens) }
{
    read(alloc, g, Rule::File, text, 1)
}

/// Reads the text of a command whose first line has this number. It is refused as a model is.
pub fn read_command(
    alloc: Global,
    g: &Grammar,
    text: &[u8],
    first_line: u32,
) -> Result<Parsed, SyntaxFault>
    requires table { g.now ≡ language }
    requires text { length text.now ≤ max_text }
    requires line { first_line ≤ max_line }
    ensures reading { Reads (read_command first_line text.now) text.now result }
    ensures within { IfOk result (λ p. All (IsWithin (length p.text)) p.tokens) }
{
    read(alloc, g, Rule::Command, text, first_line)
}
