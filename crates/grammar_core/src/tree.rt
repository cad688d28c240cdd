ghost use Rattle.std.specs.Prelude.{◌≡◌, ◌+◌, ◌<◌, ◌≤◌, length, slice_get, Some, MatchOption};
ghost use Rattle.grammar_core.specs.Trees.{below, kind_of, place_of};
ghost use Rattle.grammar_core.specs.Arena.{IsTree, tree_at};

use crate::Node;
use std::marker::Model;

/// The number of a node of a tree.
pub type NodeNo = u64;

/// The tree of a parse: its leaves are tokens and its other nodes are rules. A node is read in
/// constant time.
#[derive(Debug, Drop)]
pub struct Tree {
    nodes: Vec<Node>,
}

impl Model for Tree {
    ghost use Rattle.std.specs.Prelude.{List};
    ghost use Rattle.grammar_core.specs.declared.node.Node.{Node};
    ghost use Rattle.grammar_core.specs.Arena.{IsTree};

    ghost Value = { List Node };

    ghost view = { λ t. t.nodes.items };

    ghost invariant = { λ t. IsTree t.nodes.items };
}

impl Tree {
    pub(crate) fn from_nodes(nodes: Vec<Node>) -> Tree
        requires { IsTree nodes.items }
        ensures { result ≡ nodes.items }
    {
        Tree { nodes }
    }

    pub(crate) fn into_nodes(self) -> Vec<Node> {
        self.nodes
    }

    /// The node that is below no other.
    pub fn root(&self) -> NodeNo
        ensures { result + 1 ≡ length self.now }
    {
        (self.nodes.len() - 1) as u64
    }

    fn node(&self, n: NodeNo) -> Node
        requires { n < length self.now }
        ensures node { slice_get self.now n ≡ Some result }
        ensures tree { IsTree self.now }
    {
        self.nodes[n as usize]
    }

    /// The kind of a token, or the number of a rule.
    pub fn kind(&self, n: NodeNo) -> u16
        requires { n < length self.now }
        ensures { result ≡ kind_of (tree_at self.now n) }
    {
        match self.node(n) {
            Node::Token(kind, _) => kind,
            Node::Rule(rule, _, _) => rule,
        }
    }

    /// How many nodes stand right below this one.
    pub fn children(&self, n: NodeNo) -> u64
        requires { n < length self.now }
        ensures { result ≡ length (below (tree_at self.now n)) }
    {
        match self.node(n) {
            Node::Token(_, _) => 0,
            Node::Rule(_, _, count) => count,
        }
    }

    /// The node right below this one at the place `i`, from the left.
    pub fn child(&self, n: NodeNo, i: u64) -> Option<NodeNo>
        requires { n < length self.now }
        ensures { MatchOption result (length (below (tree_at self.now n)) ≤ i)
            (λ m. (m < n) × (slice_get (below (tree_at self.now n)) i ≡ Some (tree_at self.now m))) }
    {
        match self.node(n) {
            Node::Token(_, _) => None,
            Node::Rule(_, first, count) => { if i < count { Some(first + i) } else { None } }
        }
    }

    /// The place of a token in the list of tokens.
    pub fn token(&self, n: NodeNo) -> Option<u32>
        requires { n < length self.now }
        ensures { result ≡ place_of (tree_at self.now n) }
    {
        match self.node(n) {
            Node::Token(_, token) => Some(token),
            Node::Rule(_, _, _) => None,
        }
    }
}
