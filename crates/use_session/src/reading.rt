ghost use Rattle.std.specs.Prelude.{◌≡◌, ◌+◌, ◌≤◌, All, IfOk, length};
ghost use Rattle.use_text.specs.Cuts.{IsCommand};
ghost use Rattle.use_text.specs.Limits.{max_command, max_lines};
ghost use Rattle.use_text.specs.Places.{place_at};
ghost use Rattle.use_text.specs.Refusals.{refusal_at};
ghost use Rattle.use_text.specs.Tokens.{IsWithin};
ghost use Rattle.use_syntax.specs.Language.{language};
ghost use Rattle.use_syntax.specs.Numbers.{number_of_rule};
ghost use Rattle.use_syntax.specs.Reading.{ReadsTree, max_text, read_command, read_tokens};
ghost use Rattle.use_syntax.specs.declared.rule.Rule.TheVariants as r;
ghost use Rattle.use_session.specs.Commands.{reading_of};
ghost use Rattle.use_session.specs.Readings.{Reads};
ghost use Rattle.use_session.specs.Shapes.{IsTreeOf};

use crate::shapes::Shapes;
use grammar_core::{Grammar, Tree};
use std::alloc::{AllocError, Global};
use use_syntax::{Parsed, Reader, SyntaxFault, TokenTree};
use use_text::{Bytes, Code, Cut, Fate, Place, Refusal, Tokens};

/// What a command of the stream is read as.
#[derive(Drop)]
pub(crate) enum Reading {
    /// Its tree, its tokens and its text.
    Parsed(Parsed),
    /// It breaks a rule of cuts, tokens or grammar.
    Refused(Refusal),
}

/// A command that was not cut out whole, by this rule.
fn uncut(code: Code) -> Reading
    ensures { result ≡ Reading.Refused (refusal_at code (place_at 0 1)) }
{
    Reading::Refused(Refusal {
        code,
        place: Place { line: 0, col: 1 },
    })
}

/// What was read, with its text.
fn with_text(alloc: Global, text: &[u8], read: TokenTree) -> Result<Parsed, AllocError>
    ensures text { IfOk result (λ p. p.text ≡ text.now) }
    ensures tokens { IfOk result (λ p. p.tokens ≡ read.tokens) }
    ensures tree { IfOk result (λ p. p.tree ≡ read.tree) }
{
    let TokenTree { tree, tokens } = read;
    Ok(Parsed {
        tree,
        tokens,
        text: Bytes::from_slice(alloc, text)?,
    })
}

/// Reads the commands of a stream, each by the grammar or as an earlier one with tokens of its kinds.
#[derive(Drop)]
pub(crate) struct CommandReader {
    alloc: Global,
    reader: Reader,
    shapes: Shapes,
}

impl CommandReader {
    /// A reader that has read nothing yet.
    pub(crate) fn new(alloc: Global) -> Result<CommandReader, AllocError> {
        Ok(CommandReader {
            alloc,
            reader: Reader::new(alloc),
            shapes: Shapes::new(alloc)?,
        })
    }

    fn read_tokens(&mut self, grammar: &Grammar, tokens: Tokens) -> Result<TokenTree, SyntaxFault>
        requires table { grammar.now ≡ language }
        requires few { length tokens ≤ max_text + 1 }
        ensures reading { ReadsTree (read_tokens (number_of_rule r.Command) tokens) result }
        ensures same { IfOk result (λ p. p.tokens ≡ tokens) }
        ensures tree { IfOk result (λ p. IsTreeOf p.tokens p.tree) }
    {
        match self.shapes.take(tokens.as_slice()) {
            Some(tree) => Ok(TokenTree { tree, tokens }),
            None => self.reader.read_lexed(grammar, tokens),
        }
    }

    fn read_command(&mut self, grammar: &Grammar, text: &[u8]) -> Result<TokenTree, SyntaxFault>
        requires table { grammar.now ≡ language }
        requires text { length text.now ≤ max_command }
        ensures reading { ReadsTree (read_command 0 text.now) result }
        ensures within { IfOk result (λ p. All (IsWithin (length text.now)) p.tokens) }
        ensures tree { IfOk result (λ p. IsTreeOf p.tokens p.tree) }
    {
        let tokens = self.reader.lex(text, 0)?;
        self.read_tokens(grammar, tokens)
    }

    fn read_text(&mut self, grammar: &Grammar, text: &[u8]) -> Result<Reading, AllocError>
        requires table { grammar.now ≡ language }
        requires text { length text.now ≤ max_command }
        ensures { IfOk result (Reads text.now (read_command 0 text.now)) }
    {
        match self.read_command(grammar, text) {
            Ok(read) => Ok(Reading::Parsed(with_text(self.alloc, text, read)?)),
            Err(SyntaxFault::Refused(refusal)) => Ok(Reading::Refused(refusal)),
            Err(SyntaxFault::Memory) => Err(AllocError),
        }
    }

    /// Reads a command of the stream that opens no file.
    pub(crate) fn read_cut(&mut self, grammar: &Grammar, cut: &Cut) -> Result<Reading, AllocError>
        requires table { grammar.now ≡ language }
        requires command { IsCommand max_lines cut.now }
        ensures { IfOk result (Reads cut.now.text (reading_of cut.now)) }
    {
        match cut.fate {
            Fate::Whole => self.read_text(grammar, cut.text.as_slice()),
            Fate::TooLong => Ok(uncut(Code::K1)),
            Fate::Unfinished => Ok(uncut(Code::K2)),
        }
    }

    /// Takes back what a command was read as and is needed no more.
    pub(crate) fn take_back(&mut self, tokens: Tokens, tree: Tree) -> Result<(), AllocError>
        requires { IsTreeOf tokens tree }
    {
        match self.shapes.keep(tokens.as_slice(), tree)? {
            Some(tree) => self.reader.take_back(TokenTree { tree, tokens }),
            None => self.reader.take_back_tokens(tokens),
        }
        Ok(())
    }
}
