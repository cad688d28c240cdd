ghost use Rattle.std.specs.Prelude.{◌≡◌, drop, filter, slice_get, length};
ghost use Rattle.std.specs.Iterator.{YieldsFirst, item_count};
ghost use Rattle.use_nodes.specs.Nodes.{part, parts, second, selects};

use crate::NodeRef;
use std::fmt;
use std::marker::Model;
use use_syntax::Rule;
use use_text::TokenKind;

/// What is sought among the nodes right below another.
#[derive(Clone, Copy, Debug, PartialEq, Eq)]
pub enum Select {
    /// The nodes of a rule.
    Rule(Rule),
    /// The nodes of any rule.
    Rules,
    /// The dots and arrows behind a source.
    Steps,
    /// The tokens of a kind.
    Token(TokenKind),
    /// The tokens.
    Tokens,
    /// The nodes that are no token of this kind.
    Except(TokenKind),
}

/// Nodes that stand right below another, from left to right.
#[derive(Drop)]
pub struct Parts<'a> {
    node: NodeRef<'a>,
    at: u64,
    select: Select,
}

impl<'a> Model for Parts<'a> {
    ghost use Rattle.std.specs.Prelude.{List, drop, filter};
    ghost use Rattle.std.specs.Coded.{coded_list};
    ghost use Rattle.grammar_core.specs.Trees.{ParseTree, below};
    ghost use Rattle.use_nodes.specs.TreeCode.{tree_code};
    ghost use Rattle.use_nodes.specs.Nodes.{selects};

    ghost Value = { List ParseTree };

    ghost coded = { coded_list tree_code };

    ghost view = { λ p. filter (selects p.select) (drop p.at (below p.node)) };
}

impl<'a> Iterator for Parts<'a> {
    type Item = NodeRef<'a>;

    ghost next_gives = { YieldsFirst (λ p. p) };

    ghost remaining = { item_count (λ p. p) };

    fn next(&mut self) -> Option<NodeRef<'a>> {
        let count = self.node.len();
        'seek: while self.at < count {
            let node = self.node.below_at(self.at);
            self.at += 1;
            if takes(self.select, &node) {
                return Some(node);
            }
        }
        None
    }
}

impl<'a> Parts<'a> {
    /// The same nodes.
    pub fn copy(&self) -> Parts<'a>
        ensures { result ≡ self.now }
    {
        Parts {
            node: self.node.copy(),
            at: self.at,
            select: self.select,
        }
    }
}

impl fmt::Debug for Parts<'_> {
    /// The nodes that are left.
    fn fmt<W: fmt::Write>(&self, f: &mut fmt::Formatter<W>) -> fmt::Result {
        f.write_str("[")?;
        'nodes: for node in self.copy() {
            write!(f, " {node:?}")?;
        }
        f.write_str(" ]")
    }
}

fn takes(select: Select, node: &NodeRef<'_>) -> bool
    ensures { result ≡ selects select node.now }
{
    match select {
        Select::Rule(rule) => node.is_rule(rule),
        Select::Rules => node.is_node(),
        Select::Steps => node.is_rule(Rule::Dot) || node.is_rule(Rule::Arrow),
        Select::Token(kind) => node.is_token(kind),
        Select::Tokens => !node.is_node(),
        Select::Except(kind) => !node.is_token(kind),
    }
}

impl<'a> NodeRef<'a> {
    /// The nodes right below this one that are sought.
    pub fn parts(&self, select: Select) -> Parts<'a>
        ensures { result ≡ parts select self.now }
    {
        Parts {
            node: self.copy(),
            at: 0,
            select,
        }
    }

    /// The first of these.
    pub fn part(&self, select: Select) -> Option<NodeRef<'a>>
        ensures { result ≡ part select self.now }
    {
        self.parts(select).next()
    }

    /// The second token of a kind right below.
    pub fn second(&self, kind: TokenKind) -> Option<NodeRef<'a>>
        ensures { result ≡ second kind self.now }
    {
        let mut tokens = self.parts(Select::Token(kind));
        tokens.next()?;
        tokens.next()
    }
}
