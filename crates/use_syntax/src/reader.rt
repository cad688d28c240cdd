ghost use Rattle.std.specs.Prelude.{◌≡◌, ◌+◌, ◌≤◌, All, IfOk, length};
ghost use Rattle.use_text.specs.Tokens.{IsWithin, tokens};
ghost use Rattle.use_syntax.specs.Language.{language};
ghost use Rattle.use_syntax.specs.Reading.{max_line, max_text, place_in, read, read_command, read_model, read_tokens, ReadsTokens, ReadsTree};
ghost use Rattle.use_syntax.specs.declared.rule.Rule.TheVariants as r;
ghost use Rattle.use_syntax.specs.Numbers.{number_of_rule};

use crate::{Rule, SyntaxFault, TokenTree};
use grammar_core::{Grammar, ParseFault, Parser};
use std::alloc::Global;
use std::mem;
use use_lists::Items;
use use_text::{Code, LexFault, Place, Refusal, Token, Tokens, lex_into};

/// The lists that reading works with, kept from one text to the next. What was read before changes
/// nothing.
#[derive(Drop)]
pub struct Reader {
    alloc: Global,
    parser: Parser,
    /// The room of the next tokens.
    tokens: Tokens,
}

/// The place of a token, by its number in the list.
fn place_in(tokens: &[Token], at: u32) -> Place
    ensures { result ≡ place_in tokens.now at }
{
    match tokens.get(at as usize) {
        Some(token) => token.place,
        None => Place { line: 0, col: 0 },
    }
}

/// Reads the tokens of a text as a rule. Tokens that are refused go back to the room of the next.
fn read_tokens(
    parser: &mut Parser,
    room: &mut Tokens,
    g: &Grammar,
    start: Rule,
    tokens: Tokens,
) -> Result<TokenTree, SyntaxFault>
    requires table { g.now ≡ language }
    requires few { length tokens ≤ max_text + 1 }
    ensures reading { ReadsTree (read_tokens (number_of_rule start) tokens) result }
    ensures same { IfOk result (λ p. p.tokens ≡ tokens) }
{
    match parser.parse(g, start.number(), tokens.as_slice()) {
        Ok(tree) => Ok(TokenTree { tree, tokens }),
        Err(ParseFault::Memory) => Err(SyntaxFault::Memory),
        Err(ParseFault::Stuck { token }) => {
            let place = place_in(tokens.as_slice(), token);
            *room = tokens;
            Err(SyntaxFault::Refused(Refusal {
                code: Code::S1,
                place,
            }))
        }
        Err(ParseFault::Deep { token }) => {
            let place = place_in(tokens.as_slice(), token);
            *room = tokens;
            Err(SyntaxFault::Refused(Refusal {
                code: Code::S2,
                place,
            }))
        }
    }
}

impl Reader {
    /// With lists that hold nothing yet.
    pub fn new(alloc: Global) -> Reader {
        Reader {
            alloc,
            parser: Parser::new(alloc),
            tokens: Items::new(alloc),
        }
    }

    /// The tokens of a text, in the lists of what was read before. Its first line has this number.
    pub fn lex(&mut self, text: &[u8], first_line: u32) -> Result<Tokens, SyntaxFault>
        requires text { length text.now ≤ max_text }
        requires line { first_line ≤ max_line }
        ensures tokens { ReadsTokens (tokens first_line text.now) result }
        ensures within { IfOk result (All (IsWithin (length text.now))) }
        ensures few { IfOk result (λ tokens. length tokens ≤ max_text + 1) }
    {
        let room = mem::replace(&mut self.tokens, Items::new(self.alloc));
        match lex_into(room, text, first_line) {
            Ok(tokens) => Ok(tokens),
            Err(LexFault::Memory) => Err(SyntaxFault::Memory),
            Err(LexFault::Bad(refusal)) => Err(SyntaxFault::Refused(refusal)),
        }
    }

    /// Reads the tokens of a command.
    pub fn read_lexed(&mut self, g: &Grammar, tokens: Tokens) -> Result<TokenTree, SyntaxFault>
        requires table { g.now ≡ language }
        requires few { length tokens ≤ max_text + 1 }
        ensures reading { ReadsTree (read_tokens (number_of_rule r.Command) tokens) result }
        ensures same { IfOk result (λ p. p.tokens ≡ tokens) }
    {
        read_tokens(&mut self.parser, &mut self.tokens, g, Rule::Command, tokens)
    }

    /// Reads a text as a rule.
    pub(crate) fn read(
        &mut self,
        g: &Grammar,
        start: Rule,
        text: &[u8],
        first_line: u32,
    ) -> Result<TokenTree, SyntaxFault>
        requires table { g.now ≡ language }
        requires text { length text.now ≤ max_text }
        requires line { first_line ≤ max_line }
        ensures reading { ReadsTree (read (number_of_rule start) first_line text.now) result }
        ensures within { IfOk result (λ p. All (IsWithin (length text.now)) p.tokens) }
    {
        let tokens = self.lex(text, first_line)?;
        read_tokens(&mut self.parser, &mut self.tokens, g, start, tokens)
    }

    /// Reads the text of a model, as the function `read_model`.
    pub fn read_model(&mut self, g: &Grammar, text: &[u8]) -> Result<TokenTree, SyntaxFault>
        requires table { g.now ≡ language }
        requires text { length text.now ≤ max_text }
        ensures reading { ReadsTree (read_model text.now) result }
        ensures within { IfOk result (λ p. All (IsWithin (length text.now)) p.tokens) }
    {
        self.read(g, Rule::File, text, 1)
    }

    /// Reads the text of a command, as the function `read_command`.
    pub fn read_command(
        &mut self,
        g: &Grammar,
        text: &[u8],
        first_line: u32,
    ) -> Result<TokenTree, SyntaxFault>
        requires table { g.now ≡ language }
        requires text { length text.now ≤ max_text }
        requires line { first_line ≤ max_line }
        ensures reading { ReadsTree (read_command first_line text.now) result }
        ensures within { IfOk result (λ p. All (IsWithin (length text.now)) p.tokens) }
    {
        self.read(g, Rule::Command, text, first_line)
    }

    /// Takes back the lists of what was read and is needed no more, for the next text.
    pub fn take_back(&mut self, read: TokenTree) {
        let TokenTree { tree, tokens } = read;
        self.parser.take_back(tree);
        self.tokens = tokens;
    }

    /// Takes back a list of tokens that is needed no more, for the next text.
    pub fn take_back_tokens(&mut self, tokens: Tokens) {
        self.tokens = tokens;
    }
}
