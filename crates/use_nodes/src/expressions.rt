ghost use Rattle.std.specs.Prelude.{◌≡◌};
ghost use Rattle.use_nodes.specs.ExpressionNodes.{args_node, arrow_node, bind_node, chain_node, choice_node, collection_node, dot_node, group_node, is_chain, item_node, let_node, literal_node, named_node, part_node, postfix_node, primary_node, unary_node};

use crate::{NodeRef, Parts, Select};
use use_syntax::Rule;
use use_text::TokenKind;

/// `item := expr [ ':' type [ '=' expr ] ]`
#[derive(Debug, Drop)]
pub struct ItemNode<'a> {
    pub expression: NodeRef<'a>,
    pub of_type: Option<NodeRef<'a>>,
    pub start: Option<NodeRef<'a>>,
}

impl<'a> ItemNode<'a> {
    /// The parts of such a node.
    pub fn of(node: &NodeRef<'a>) -> Option<ItemNode<'a>>
        ensures { result ≡ item_node node.now }
    {
        if !node.is_rule(Rule::Item) {
            return None;
        }
        Some(ItemNode {
            expression: node.child(0)?,
            of_type: node.behind(TokenKind::Colon),
            start: node.behind(TokenKind::Equal),
        })
    }
}

/// `args := '(' [ item { ',' item } [ ';' item ] [ '|' expr ] ] ')'`
#[derive(Debug, Drop)]
pub struct ArgsNode<'a> {
    /// All items, the accumulator too.
    pub items: Parts<'a>,
    pub accumulator: Option<NodeRef<'a>>,
    pub body: Option<NodeRef<'a>>,
}

impl<'a> ArgsNode<'a> {
    /// The parts of such a node.
    pub fn of(node: &NodeRef<'a>) -> Option<ArgsNode<'a>>
        ensures { result ≡ args_node node.now }
    {
        if !node.is_rule(Rule::Args) {
            return None;
        }
        Some(ArgsNode {
            items: node.parts(Select::Rule(Rule::Item)),
            accumulator: node.behind(TokenKind::Semicolon),
            body: node.behind(TokenKind::Bar),
        })
    }
}

/// `part := expr [ '..' expr ]`
#[derive(Debug, Drop)]
pub struct PartNode<'a> {
    pub first: NodeRef<'a>,
    pub last: Option<NodeRef<'a>>,
}

impl<'a> PartNode<'a> {
    /// The parts of such a node.
    pub fn of(node: &NodeRef<'a>) -> Option<PartNode<'a>>
        ensures { result ≡ part_node node.now }
    {
        if !node.is_rule(Rule::Part) {
            return None;
        }
        Some(PartNode {
            first: node.child(0)?,
            last: node.behind(TokenKind::DoubleDot),
        })
    }
}

/// `collection := kind '{' [ part { ',' part } ] '}'`
#[derive(Debug, Drop)]
pub struct CollectionNode<'a> {
    pub kind: NodeRef<'a>,
    pub parts: Parts<'a>,
}

impl<'a> CollectionNode<'a> {
    /// The parts of such a node.
    pub fn of(node: &NodeRef<'a>) -> Option<CollectionNode<'a>>
        ensures { result ≡ collection_node node.now }
    {
        if !node.is_rule(Rule::Collection) {
            return None;
        }
        Some(CollectionNode {
            kind: node.child(0)?,
            parts: node.parts(Select::Rule(Rule::Part)),
        })
    }
}

/// `named := NAME [ '::' NAME ] [ '@pre' ] [ args ]`
#[derive(Debug, Drop)]
pub struct NamedNode<'a> {
    pub name: NodeRef<'a>,
    /// The literal of the enumeration that the name stands for.
    pub literal: Option<NodeRef<'a>>,
    /// Whether it is read in the state before the operation.
    pub is_before: bool,
    pub arguments: Option<NodeRef<'a>>,
}

impl<'a> NamedNode<'a> {
    /// The parts of such a node.
    pub fn of(node: &NodeRef<'a>) -> Option<NamedNode<'a>>
        ensures { result ≡ named_node node.now }
    {
        if !node.is_rule(Rule::Named) {
            return None;
        }
        Some(NamedNode {
            name: node.child(0)?,
            literal: node.behind(TokenKind::DoubleColon),
            is_before: node.has(TokenKind::AtPre),
            arguments: node.part(Select::Rule(Rule::Args)),
        })
    }
}

/// `literal := '#' NAME`
#[derive(Debug, Drop)]
pub struct LiteralNode<'a> {
    pub name: NodeRef<'a>,
}

impl<'a> LiteralNode<'a> {
    /// The parts of such a node.
    pub fn of(node: &NodeRef<'a>) -> Option<LiteralNode<'a>>
        ensures { result ≡ literal_node node.now }
    {
        if !node.is_rule(Rule::Literal) {
            return None;
        }
        Some(LiteralNode {
            name: node.behind(TokenKind::Hash)?,
        })
    }
}

/// `group := '(' expr ')'`
#[derive(Debug, Drop)]
pub struct GroupNode<'a> {
    pub expression: NodeRef<'a>,
}

impl<'a> GroupNode<'a> {
    /// The parts of such a node.
    pub fn of(node: &NodeRef<'a>) -> Option<GroupNode<'a>>
        ensures { result ≡ group_node node.now }
    {
        if !node.is_rule(Rule::Group) {
            return None;
        }
        Some(GroupNode {
            expression: node.behind(TokenKind::LeftParen)?,
        })
    }
}

/// `choice := 'if' expr 'then' expr 'else' expr 'endif'`
#[derive(Debug, Drop)]
pub struct ChoiceNode<'a> {
    pub condition: NodeRef<'a>,
    pub consequence: NodeRef<'a>,
    pub alternative: NodeRef<'a>,
}

impl<'a> ChoiceNode<'a> {
    /// The parts of such a node.
    pub fn of(node: &NodeRef<'a>) -> Option<ChoiceNode<'a>>
        ensures { result ≡ choice_node node.now }
    {
        if !node.is_rule(Rule::Choice) {
            return None;
        }
        Some(ChoiceNode {
            condition: node.behind(TokenKind::If)?,
            consequence: node.behind(TokenKind::Then)?,
            alternative: node.behind(TokenKind::Else)?,
        })
    }
}

/// `primary := INT | STRING | 'true' | 'false' | 'null' | 'Undefined' | 'invalid' | literal | collection | named | group | choice`
#[derive(Debug, Drop)]
pub struct PrimaryNode<'a> {
    pub form: NodeRef<'a>,
}

impl<'a> PrimaryNode<'a> {
    /// The parts of such a node.
    pub fn of(node: &NodeRef<'a>) -> Option<PrimaryNode<'a>>
        ensures { result ≡ primary_node node.now }
    {
        if !node.is_rule(Rule::Primary) {
            return None;
        }
        Some(PrimaryNode {
            form: node.child(0)?,
        })
    }
}

/// `dot := '.' ( NAME [ '@pre' ] [ args ] | ( 'div' | 'mod' ) args )`
#[derive(Debug, Drop)]
pub struct DotNode<'a> {
    /// A name, or the word `div` or `mod`.
    pub name: NodeRef<'a>,
    /// Whether it is read in the state before the operation.
    pub is_before: bool,
    pub arguments: Option<NodeRef<'a>>,
}

impl<'a> DotNode<'a> {
    /// The parts of such a node.
    pub fn of(node: &NodeRef<'a>) -> Option<DotNode<'a>>
        ensures { result ≡ dot_node node.now }
    {
        if !node.is_rule(Rule::Dot) {
            return None;
        }
        Some(DotNode {
            name: node.behind(TokenKind::Dot)?,
            is_before: node.has(TokenKind::AtPre),
            arguments: node.part(Select::Rule(Rule::Args)),
        })
    }
}

/// `arrow := '->' NAME [ args ]`
#[derive(Debug, Drop)]
pub struct ArrowNode<'a> {
    pub name: NodeRef<'a>,
    pub arguments: Option<NodeRef<'a>>,
}

impl<'a> ArrowNode<'a> {
    /// The parts of such a node.
    pub fn of(node: &NodeRef<'a>) -> Option<ArrowNode<'a>>
        ensures { result ≡ arrow_node node.now }
    {
        if !node.is_rule(Rule::Arrow) {
            return None;
        }
        Some(ArrowNode {
            name: node.behind(TokenKind::Arrow)?,
            arguments: node.part(Select::Rule(Rule::Args)),
        })
    }
}

/// `postfix := primary { dot | arrow }`
#[derive(Debug, Drop)]
pub struct PostfixNode<'a> {
    pub source: NodeRef<'a>,
    /// What follows the source: each is a dot or an arrow.
    pub steps: Parts<'a>,
}

impl<'a> PostfixNode<'a> {
    /// The parts of such a node.
    pub fn of(node: &NodeRef<'a>) -> Option<PostfixNode<'a>>
        ensures { result ≡ postfix_node node.now }
    {
        if !node.is_rule(Rule::Postfix) {
            return None;
        }
        Some(PostfixNode {
            source: node.child(0)?,
            steps: node.parts(Select::Steps),
        })
    }
}

/// `bind := NAME [ ':' type ] '=' expr`
#[derive(Debug, Drop)]
pub struct BindNode<'a> {
    pub name: NodeRef<'a>,
    pub of_type: Option<NodeRef<'a>>,
    pub value: NodeRef<'a>,
}

impl<'a> BindNode<'a> {
    /// The parts of such a node.
    pub fn of(node: &NodeRef<'a>) -> Option<BindNode<'a>>
        ensures { result ≡ bind_node node.now }
    {
        if !node.is_rule(Rule::Bind) {
            return None;
        }
        Some(BindNode {
            name: node.child(0)?,
            of_type: node.behind(TokenKind::Colon),
            value: node.behind(TokenKind::Equal)?,
        })
    }
}

/// `let := 'let' bind { ',' bind } 'in' expr`
#[derive(Debug, Drop)]
pub struct LetNode<'a> {
    pub binds: Parts<'a>,
    pub body: NodeRef<'a>,
}

impl<'a> LetNode<'a> {
    /// The parts of such a node.
    pub fn of(node: &NodeRef<'a>) -> Option<LetNode<'a>>
        ensures { result ≡ let_node node.now }
    {
        if !node.is_rule(Rule::Let) {
            return None;
        }
        Some(LetNode {
            binds: node.parts(Select::Rule(Rule::Bind)),
            body: node.behind(TokenKind::In)?,
        })
    }
}

/// `unary := ( 'not' | '-' ) unary | let | postfix`
#[derive(Debug, Drop)]
pub struct UnaryNode<'a> {
    pub operator: Option<NodeRef<'a>>,
    pub operand: NodeRef<'a>,
}

impl<'a> UnaryNode<'a> {
    /// The parts of such a node.
    pub fn of(node: &NodeRef<'a>) -> Option<UnaryNode<'a>>
        ensures { result ≡ unary_node node.now }
    {
        if !node.is_rule(Rule::Unary) {
            return None;
        }
        Some(UnaryNode {
            operator: node.part(Select::Tokens),
            operand: node.part(Select::Rules)?,
        })
    }
}

/// A row of operands of one rule with operators between them, which group from the left.
#[derive(Debug, Drop)]
pub struct ChainNode<'a> {
    pub operands: Parts<'a>,
    pub operators: Parts<'a>,
}

// Whether it is a node of one of the rules of such rows.
fn is_chain(node: &NodeRef<'_>) -> bool
    ensures { result ≡ is_chain node.now }
{
    node.is_rule(Rule::Muls)
        || node.is_rule(Rule::Sums)
        || node.is_rule(Rule::Rels)
        || node.is_rule(Rule::Eqs)
        || node.is_rule(Rule::Ands)
        || node.is_rule(Rule::Ors)
        || node.is_rule(Rule::Xors)
        || node.is_rule(Rule::Expr)
}

impl<'a> ChainNode<'a> {
    /// The parts of such a node.
    pub fn of(node: &NodeRef<'a>) -> Option<ChainNode<'a>>
        ensures { result ≡ chain_node node.now }
    {
        if !is_chain(node) {
            return None;
        }
        Some(ChainNode {
            operands: node.parts(Select::Rules),
            operators: node.parts(Select::Tokens),
        })
    }
}
