ghost use Rattle.std.specs.Prelude.{◌<◌, ◌≤◌, ◌^◌, length, IfOk, IfErr};
ghost use Rattle.grammar_core.specs.Arena.{root_tree};
ghost use Rattle.grammar_core.specs.Derives.{Derives, Holds, Verdict, kinds};
ghost use Rattle.grammar_core.specs.Parses.{IsFaultOf, IsWithin, Tells, verdict};

use crate::builder::Builder;
use crate::machine::{Work, run};
use crate::{Grammar, ParseFault, Tree};
use std::alloc::Global;
use use_text::Token;

/// The lists that parses work with, kept from one to the next.
#[derive(Drop)]
pub struct Parser {
    alloc: Global,
    work: Work,
}

impl Parser {
    /// With lists that hold nothing yet.
    pub fn new(alloc: Global) -> Parser {
        Parser {
            alloc,
            work: Work {
                stack: Vec::new(alloc),
                built: Builder::new(alloc),
            },
        }
    }

    /// As `parse`.
    pub fn parse(&mut self, g: &Grammar, start: u16, tokens: &[Token]) -> Result<Tree, ParseFault>
        requires rule { start < length g.now.rules }
        requires few { length tokens.now < 2 ^ 32 }
        ensures ok { IfOk result (λ t. Derives g.now (kinds tokens.now) start (root_tree t)) }
        ensures err { IfErr result (IsFaultOf g.now (kinds tokens.now) start) }
        ensures within { IfErr result (IsWithin (length tokens.now)) }
        ensures verdict { Tells result (verdict g.now (kinds tokens.now) start) }
        ensures only { (v : Verdict) → Holds g.now (kinds tokens.now) start v → Tells result v }
    {
        let _ = g.table();
        self.work.stack.clear();
        self.work.built.clear();
        match run(g, tokens, start, &mut self.work) {
            Ok(to) if to as usize == tokens.len() => self.work.built.take_tree(self.alloc),
            Ok(to) => Err(ParseFault::Stuck { token: to }),
            Err(e) => Err(e),
        }
    }

    /// Takes back the list of a tree that is needed no more, for the next one.
    pub fn take_back(&mut self, tree: Tree) {
        self.work.built.take_back(tree);
    }
}

/// Parses all the tokens as the rule `start`, with at most 200 rules that nest open at a time.
pub fn parse(alloc: Global, g: &Grammar, start: u16, tokens: &[Token]) -> Result<Tree, ParseFault>
    requires rule { start < length g.now.rules }
    requires few { length tokens.now < 2 ^ 32 }
    ensures ok { IfOk result (λ t. Derives g.now (kinds tokens.now) start (root_tree t)) }
    ensures err { IfErr result (IsFaultOf g.now (kinds tokens.now) start) }
    ensures within { IfErr result (IsWithin (length tokens.now)) }
    ensures verdict { Tells result (verdict g.now (kinds tokens.now) start) }
    ensures only { (v : Verdict) → Holds g.now (kinds tokens.now) start v → Tells result v }
{
    Parser::new(alloc).parse(g, start, tokens)
}
