ghost use Rattle.std.specs.Prelude.{◌≡◌, ◌+◌, ◌<◌, ◌∷◌, length, drop, slice_get};
ghost use Rattle.grammar_core.specs.Arena.{root_tree};
ghost use Rattle.grammar_core.specs.Trees.{below, place_of};
ghost use Rattle.use_nodes.specs.Nodes.{behind, child, has, is_node, is_rule, alone, second_but, through, token_in, is_token, next_to};

use crate::{Parts, Select};
use grammar_core::{NodeNo, Tree};
use std::fmt;
use std::marker::Model;
use use_syntax::Rule;
use use_text::{Token, TokenKind};

/// A node of a tree.
#[derive(Drop)]
pub struct NodeRef<'a> {
    tree: &'a Tree,
    number: NodeNo,
}

impl<'a> Model for NodeRef<'a> {
    ghost use Rattle.std.specs.Prelude.{◌<◌, length};
    ghost use Rattle.grammar_core.specs.Arena.{tree_at};
    ghost use Rattle.grammar_core.specs.Trees.{ParseTree};
    ghost use Rattle.use_nodes.specs.TreeCode.{tree_code};

    ghost Value = { ParseTree };

    ghost coded = { tree_code };

    ghost view = { λ n. tree_at n.tree.now n.number };

    ghost invariant = { λ n. n.number < length n.tree.now };
}

impl<'a> NodeRef<'a> {
    /// The node that is below no other.
    pub fn root(tree: &'a Tree) -> NodeRef<'a>
        ensures { result ≡ root_tree tree.now }
    {
        NodeRef {
            tree,
            number: tree.root(),
        }
    }

    /// The same node.
    pub fn copy(&self) -> NodeRef<'a>
        ensures { result ≡ self.now }
    {
        NodeRef {
            tree: self.tree,
            number: self.number,
        }
    }

    /// The place of a token in the list of tokens.
    pub fn token(&self) -> Option<u32>
        ensures { result ≡ place_of self.now }
    {
        self.tree.token(self.number)
    }

    /// Whether it is a rule, and no token.
    pub fn is_node(&self) -> bool
        ensures { result ≡ is_node self.now }
    {
        self.tree.token(self.number).is_none()
    }

    /// Whether it is this rule.
    pub fn is_rule(&self, rule: Rule) -> bool
        ensures { result ≡ is_rule rule self.now }
    {
        self.is_node() && self.tree.kind(self.number) == rule.number()
    }

    /// Whether it is a token of this kind.
    pub fn is_token(&self, kind: TokenKind) -> bool
        ensures { result ≡ is_token kind self.now }
    {
        !self.is_node() && self.tree.kind(self.number) == kind.number()
    }

    /// How many nodes stand right below this one.
    pub fn len(&self) -> u64
        ensures { result ≡ length (below self.now) }
    {
        self.tree.children(self.number)
    }

    /// The node right below this one at a place, from the left.
    pub fn child(&self, i: u64) -> Option<NodeRef<'a>>
        ensures { result ≡ child i self.now }
    {
        let number = self.tree.child(self.number, i)?;
        Some(NodeRef {
            tree: self.tree,
            number,
        })
    }

    /// Whether a token of this kind stands right below.
    pub fn has(&self, kind: TokenKind) -> bool
        ensures { result ≡ has kind self.now }
    {
        self.part(Select::Token(kind)).is_some()
    }

    /// The node right below at a place that is there.
    pub(crate) fn below_at(&self, i: u64) -> NodeRef<'a>
        requires { i < length (below self.now) }
        ensures { drop i (below self.now) ≡ result ∷ drop (i + 1) (below self.now) }
    {
        match self.child(i) {
            Some(node) => node,
            None => unreachable!(),
        }
    }

    /// The first node right below from a place on.
    #[tactic(auto, using(crate::proofs::Rows::first_from))]
    fn first_from(&self, i: u64) -> Option<NodeRef<'a>>
        ensures { result ≡ slice_get (drop i (below self.now)) 0 }
    {
        self.child(i)
    }

    /// What stands right behind the first token of this kind below.
    pub fn behind(&self, kind: TokenKind) -> Option<NodeRef<'a>>
        ensures { result ≡ behind kind self.now }
    {
        'seek: for i in 0..self.len() {
            if self.below_at(i).is_token(kind) {
                return self.first_from(i + 1);
            }
        }
        None
    }

    /// The second node right below, unless it is a token of this kind.
    pub fn second_but(&self, kind: TokenKind) -> Option<NodeRef<'a>>
        ensures { result ≡ second_but kind self.now }
    {
        let node = self.child(1)?;
        if node.is_token(kind) {
            None
        } else {
            Some(node)
        }
    }

    /// The token that it is, of those that the tree was read from.
    pub fn token_in(&self, tokens: &[Token]) -> Option<Token>
        ensures { result ≡ token_in tokens.now self.now }
    {
        tokens.get(self.token()? as usize).copied()
    }

    /// The only node right below, where that is this rule.
    pub fn alone(&self, rule: Rule) -> Option<NodeRef<'a>>
        ensures { result ≡ alone rule self.now }
    {
        let node = self.child(0)?;
        if self.len() == 1 && node.is_rule(rule) {
            Some(node)
        } else {
            None
        }
    }

    /// The node of the last of these rules, where each is alone below the one before it.
    pub fn through(&self, rules: &[Rule]) -> Option<NodeRef<'a>>
        ensures { result ≡ through rules.now self.now }
    {
        let mut node = self.copy();
        'rules: for rule in rules {
            match node.alone(*rule) {
                Some(next) => node = next,
                None => return None,
            }
        }
        Some(node)
    }
}

impl fmt::Debug for NodeRef<'_> {
    /// The place of its first token in the list of tokens.
    fn fmt<W: fmt::Write>(&self, f: &mut fmt::Formatter<W>) -> fmt::Result {
        let mut number = self.number;
        'down: while let Some(first) = self.tree.child(number, 0) {
            number = first;
        }
        match self.tree.token(number) {
            Some(place) => write!(f, "{place}"),
            None => f.write_str("empty"),
        }
    }
}
