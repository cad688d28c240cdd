ghost use Rattle.std.specs.Prelude.{◌≡◌, ◌<◌, ◌+◌, ◌++◌, [], ◌∷◌, ◌-◌, length, slice_get, Some, MatchResult};
ghost use Rattle.grammar_core.specs.Trees.{leaf};
ghost use Rattle.grammar_core.specs.Arena.{closed, read_trees, root_tree};

use crate::{Node, ParseFault, Tree};
use std::alloc::Global;
use std::marker::Model;
use std::mem;

/// The trees that were read so far, each by its node in `waiting`. The nodes below these stand in
/// `nodes`, those with one parent side by side.
#[derive(Drop)]
pub(crate) struct Builder {
    nodes: Vec<Node>,
    waiting: Vec<Node>,
}

impl Model for Builder {
    ghost use Rattle.grammar_core.specs.Arena.{Built, IsBuilt};

    ghost Value = { Built };

    ghost view = { λ b. record { nodes = b.nodes.items; waiting = b.waiting.items } };

    ghost invariant = { λ b. IsBuilt (record { nodes = b.nodes.items; waiting = b.waiting.items }) };
}

fn put(nodes: &mut Vec<Node>, node: Node) -> Result<(), ParseFault>
    ensures { MatchResult result (λ u. nodes.new.items ≡ nodes.old.items ++ node ∷ []) (λ e. (e ≡ ParseFault.Memory) × (nodes.new.items ≡ nodes.old.items)) }
{
    match nodes.push(node) {
        Ok(()) => Ok(()),
        Err(_) => Err(ParseFault::Memory),
    }
}

impl Builder {
    pub(crate) fn new(alloc: Global) -> Builder
        ensures { read_trees result ≡ [] }
    {
        Builder {
            nodes: Vec::new(alloc),
            waiting: Vec::new(alloc),
        }
    }

    /// How many trees were read.
    pub(crate) fn len(&self) -> usize
        ensures { result ≡ length (read_trees self.now) }
    {
        self.waiting.len()
    }

    /// Adds the tree of a token.
    pub(crate) fn push_token(&mut self, kind: u16, token: u32) -> Result<(), ParseFault>
        ensures { MatchResult result (λ u. read_trees self.new ≡ read_trees self.old ++ leaf kind token ∷ []) (λ e. e ≡ ParseFault.Memory) }
    {
        put(&mut self.waiting, Node::Token(kind, token))
    }

    /// Puts the trees from `start` on below a rule.
    #[inline]
    pub(crate) fn close(&mut self, rule: u16, start: u64) -> Result<(), ParseFault>
        ensures { MatchResult result (λ u. read_trees self.new ≡ closed rule start (read_trees self.old)) (λ e. e ≡ ParseFault.Memory) }
    {
        let start = self.waiting.len().min(start as usize);
        if start + 1 == self.waiting.len() {
            return self.close_one(rule, start);
        }
        let first = self.nodes.len() as u64;
        let count = (self.waiting.len() - start) as u64;
        if self
            .nodes
            .extend_from_slice(&self.waiting[start..])
            .is_err()
        {
            return Err(ParseFault::Memory);
        }
        self.waiting.truncate(start);
        put(&mut self.waiting, Node::Rule(rule, first, count))
    }

    /// Puts the last tree below a rule, as most rules have one part. The rule takes its place.
    #[inline]
    fn close_one(&mut self, rule: u16, at: usize) -> Result<(), ParseFault>
        requires { at + 1 ≡ length self.old.waiting }
        ensures { MatchResult result (λ u. read_trees self.new ≡ closed rule at (read_trees self.old)) (λ e. e ≡ ParseFault.Memory) }
    {
        let first = self.nodes.len() as u64;
        let node = self.waiting[at];
        put(&mut self.nodes, node)?;
        self.waiting[at] = Node::Rule(rule, first, 1);
        Ok(())
    }

    /// Forgets the trees.
    pub(crate) fn clear(&mut self)
        ensures { read_trees self.new ≡ [] }
    {
        self.nodes.clear();
        self.waiting.clear();
    }

    /// The tree that was read last, as a tree of its own. The others are forgotten.
    pub(crate) fn take_tree(&mut self, alloc: Global) -> Result<Tree, ParseFault>
        requires { 0 < length (read_trees self.old) }
        ensures { MatchResult result (λ t. slice_get (read_trees self.old) (length (read_trees self.old) - 1) ≡ Some (root_tree t))
            (λ e. e ≡ ParseFault.Memory) }
    {
        match self.waiting.pop() {
            Some(root) => {
                let mut nodes = mem::replace(&mut self.nodes, Vec::new(alloc));
                self.waiting.clear();
                put(&mut nodes, root)?;
                Ok(Tree::from_nodes(nodes))
            }
            None => unreachable!(),
        }
    }

    /// Keeps the list of a tree for the next one.
    pub(crate) fn take_back(&mut self, tree: Tree) {
        self.waiting.clear();
        self.nodes = tree.into_nodes();
        self.nodes.clear();
    }
}
