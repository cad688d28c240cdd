ghost use Rattle.std.specs.Prelude.{◌≡◌};
ghost use Rattle.use_nodes.specs.TypeNodes.{names_node, type_node};

use crate::{NodeRef, Parts, Select};
use use_syntax::Rule;
use use_text::TokenKind;

/// `names := NAME { ',' NAME }`
#[derive(Debug, Drop)]
pub struct NamesNode<'a> {
    pub names: Parts<'a>,
}

impl<'a> NamesNode<'a> {
    /// The parts of such a node.
    pub fn of(node: &NodeRef<'a>) -> Option<NamesNode<'a>>
        ensures { result ≡ names_node node.now }
    {
        if !node.is_rule(Rule::Names) {
            return None;
        }
        Some(NamesNode {
            names: node.parts(Select::Except(TokenKind::Comma)),
        })
    }
}

/// `type := NAME | kind '(' type ')'`
#[derive(Debug, Drop)]
pub struct TypeNode<'a> {
    /// A name, or the kind of a collection.
    pub word: NodeRef<'a>,
    /// The type of the elements, where it is a collection.
    pub element: Option<NodeRef<'a>>,
}

impl<'a> TypeNode<'a> {
    /// The parts of such a node.
    pub fn of(node: &NodeRef<'a>) -> Option<TypeNode<'a>>
        ensures { result ≡ type_node node.now }
    {
        if !node.is_rule(Rule::Type) {
            return None;
        }
        Some(TypeNode {
            word: node.child(0)?,
            element: node.behind(TokenKind::LeftParen),
        })
    }
}
