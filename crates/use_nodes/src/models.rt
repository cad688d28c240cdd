ghost use Rattle.std.specs.Prelude.{◌≡◌};
ghost use Rattle.use_nodes.specs.ModelNodes.{assoc_end_node, assoc_node, attribute_node, class_node, cond_node, constraints_node, context_node, enum_node, file_node, head_node, inv_node, mult_node, oper_node, param_node, params_node, parents_node};

use crate::{NodeRef, Parts, Select};
use use_syntax::Rule;
use use_text::TokenKind;

/// `enum := 'enum' NAME '{' names '}' [ ';' ]`
#[derive(Debug, Drop)]
pub struct EnumNode<'a> {
    pub name: NodeRef<'a>,
    pub literals: NodeRef<'a>,
}

impl<'a> EnumNode<'a> {
    /// The parts of such a node.
    pub fn of(node: &NodeRef<'a>) -> Option<EnumNode<'a>>
        ensures { result ≡ enum_node node.now }
    {
        if !node.is_rule(Rule::Enum) {
            return None;
        }
        Some(EnumNode {
            name: node.behind(TokenKind::Enum)?,
            literals: node.behind(TokenKind::LeftBrace)?,
        })
    }
}

/// `param := NAME ':' type`
#[derive(Debug, Drop)]
pub struct ParamNode<'a> {
    pub name: NodeRef<'a>,
    pub of_type: NodeRef<'a>,
}

impl<'a> ParamNode<'a> {
    /// The parts of such a node.
    pub fn of(node: &NodeRef<'a>) -> Option<ParamNode<'a>>
        ensures { result ≡ param_node node.now }
    {
        if !node.is_rule(Rule::Param) {
            return None;
        }
        Some(ParamNode {
            name: node.child(0)?,
            of_type: node.behind(TokenKind::Colon)?,
        })
    }
}

/// `params := NAME ':' type { ',' NAME ':' type }`
#[derive(Debug, Drop)]
pub struct ParamsNode<'a> {
    pub parameters: Parts<'a>,
}

impl<'a> ParamsNode<'a> {
    /// The parts of such a node.
    pub fn of(node: &NodeRef<'a>) -> Option<ParamsNode<'a>>
        ensures { result ≡ params_node node.now }
    {
        if !node.is_rule(Rule::Params) {
            return None;
        }
        Some(ParamsNode {
            parameters: node.parts(Select::Rule(Rule::Param)),
        })
    }
}

/// `head := NAME '(' [ params ] ')' [ ':' type ]`
#[derive(Debug, Drop)]
pub struct HeadNode<'a> {
    pub name: NodeRef<'a>,
    pub parameters: Option<NodeRef<'a>>,
    pub of_type: Option<NodeRef<'a>>,
}

impl<'a> HeadNode<'a> {
    /// The parts of such a node.
    pub fn of(node: &NodeRef<'a>) -> Option<HeadNode<'a>>
        ensures { result ≡ head_node node.now }
    {
        if !node.is_rule(Rule::Head) {
            return None;
        }
        Some(HeadNode {
            name: node.child(0)?,
            parameters: node.part(Select::Rule(Rule::Params)),
            of_type: node.behind(TokenKind::Colon),
        })
    }
}

/// `cond := ( 'pre' | 'post' ) [ NAME ] ':' expr`
#[derive(Debug, Drop)]
pub struct CondNode<'a> {
    pub kind: NodeRef<'a>,
    pub name: Option<NodeRef<'a>>,
    pub condition: NodeRef<'a>,
}

impl<'a> CondNode<'a> {
    /// The parts of such a node.
    pub fn of(node: &NodeRef<'a>) -> Option<CondNode<'a>>
        ensures { result ≡ cond_node node.now }
    {
        if !node.is_rule(Rule::Cond) {
            return None;
        }
        Some(CondNode {
            kind: node.child(0)?,
            name: node.second_but(TokenKind::Colon),
            condition: node.behind(TokenKind::Colon)?,
        })
    }
}

/// `inv := 'inv' [ NAME ] ':' expr`
#[derive(Debug, Drop)]
pub struct InvNode<'a> {
    pub name: Option<NodeRef<'a>>,
    pub condition: NodeRef<'a>,
}

impl<'a> InvNode<'a> {
    /// The parts of such a node.
    pub fn of(node: &NodeRef<'a>) -> Option<InvNode<'a>>
        ensures { result ≡ inv_node node.now }
    {
        if !node.is_rule(Rule::Inv) {
            return None;
        }
        Some(InvNode {
            name: node.second_but(TokenKind::Colon),
            condition: node.behind(TokenKind::Colon)?,
        })
    }
}

/// `oper := head [ '=' expr | 'begin' block 'end' ] [ ';' ] { cond }`
#[derive(Debug, Drop)]
pub struct OperNode<'a> {
    pub head: NodeRef<'a>,
    pub query: Option<NodeRef<'a>>,
    pub statements: Option<NodeRef<'a>>,
    pub conditions: Parts<'a>,
}

impl<'a> OperNode<'a> {
    /// The parts of such a node.
    pub fn of(node: &NodeRef<'a>) -> Option<OperNode<'a>>
        ensures { result ≡ oper_node node.now }
    {
        if !node.is_rule(Rule::Oper) {
            return None;
        }
        Some(OperNode {
            head: node.child(0)?,
            query: node.behind(TokenKind::Equal),
            statements: node.behind(TokenKind::Begin),
            conditions: node.parts(Select::Rule(Rule::Cond)),
        })
    }
}

/// `attribute := NAME ':' type [ '=' expr ] [ ';' ]`
#[derive(Debug, Drop)]
pub struct AttributeNode<'a> {
    pub name: NodeRef<'a>,
    pub of_type: NodeRef<'a>,
    pub value: Option<NodeRef<'a>>,
}

impl<'a> AttributeNode<'a> {
    /// The parts of such a node.
    pub fn of(node: &NodeRef<'a>) -> Option<AttributeNode<'a>>
        ensures { result ≡ attribute_node node.now }
    {
        if !node.is_rule(Rule::Attribute) {
            return None;
        }
        Some(AttributeNode {
            name: node.child(0)?,
            of_type: node.behind(TokenKind::Colon)?,
            value: node.behind(TokenKind::Equal),
        })
    }
}

/// `parents := '<' names`
#[derive(Debug, Drop)]
pub struct ParentsNode<'a> {
    pub names: NodeRef<'a>,
}

impl<'a> ParentsNode<'a> {
    /// The parts of such a node.
    pub fn of(node: &NodeRef<'a>) -> Option<ParentsNode<'a>>
        ensures { result ≡ parents_node node.now }
    {
        if !node.is_rule(Rule::Parents) {
            return None;
        }
        Some(ParentsNode {
            names: node.behind(TokenKind::Less)?,
        })
    }
}

/// `class := [ 'abstract' ] 'class' NAME [ parents ] [ 'attributes' { attribute } ] [ 'operations' { oper } ] [ 'constraints' { inv } ] 'end'`
#[derive(Debug, Drop)]
pub struct ClassNode<'a> {
    pub is_abstract: bool,
    pub name: NodeRef<'a>,
    pub parents: Option<NodeRef<'a>>,
    pub attributes: Parts<'a>,
    pub operations: Parts<'a>,
    pub invariants: Parts<'a>,
}

impl<'a> ClassNode<'a> {
    /// The parts of such a node.
    pub fn of(node: &NodeRef<'a>) -> Option<ClassNode<'a>>
        ensures { result ≡ class_node node.now }
    {
        if !node.is_rule(Rule::Class) {
            return None;
        }
        Some(ClassNode {
            is_abstract: node.has(TokenKind::Abstract),
            name: node.behind(TokenKind::Class)?,
            parents: node.part(Select::Rule(Rule::Parents)),
            attributes: node.parts(Select::Rule(Rule::Attribute)),
            operations: node.parts(Select::Rule(Rule::Oper)),
            invariants: node.parts(Select::Rule(Rule::Inv)),
        })
    }
}

/// `mult := '*' | INT [ '..' ( INT | '*' ) ]`
#[derive(Debug, Drop)]
pub struct MultNode<'a> {
    pub low: NodeRef<'a>,
    pub high: Option<NodeRef<'a>>,
}

impl<'a> MultNode<'a> {
    /// The parts of such a node.
    pub fn of(node: &NodeRef<'a>) -> Option<MultNode<'a>>
        ensures { result ≡ mult_node node.now }
    {
        if !node.is_rule(Rule::Mult) {
            return None;
        }
        Some(MultNode {
            low: node.child(0)?,
            high: node.behind(TokenKind::DoubleDot),
        })
    }
}

/// `assocend := NAME '[' mult { ',' mult } ']' [ 'role' NAME ] [ 'ordered' ] [ ';' ]`
#[derive(Debug, Drop)]
pub struct AssocEndNode<'a> {
    pub class: NodeRef<'a>,
    pub multiplicities: Parts<'a>,
    pub role: Option<NodeRef<'a>>,
    pub is_ordered: bool,
}

impl<'a> AssocEndNode<'a> {
    /// The parts of such a node.
    pub fn of(node: &NodeRef<'a>) -> Option<AssocEndNode<'a>>
        ensures { result ≡ assoc_end_node node.now }
    {
        if !node.is_rule(Rule::AssocEnd) {
            return None;
        }
        Some(AssocEndNode {
            class: node.child(0)?,
            multiplicities: node.parts(Select::Rule(Rule::Mult)),
            role: node.behind(TokenKind::Role),
            is_ordered: node.has(TokenKind::Ordered),
        })
    }
}

/// `assoc := ( 'association' | 'aggregation' | 'composition' ) NAME 'between' assocend assocend 'end'`
#[derive(Debug, Drop)]
pub struct AssocNode<'a> {
    pub kind: NodeRef<'a>,
    pub name: NodeRef<'a>,
    pub first: NodeRef<'a>,
    pub second: NodeRef<'a>,
}

impl<'a> AssocNode<'a> {
    /// The parts of such a node.
    pub fn of(node: &NodeRef<'a>) -> Option<AssocNode<'a>>
        ensures { result ≡ assoc_node node.now }
    {
        if !node.is_rule(Rule::Assoc) {
            return None;
        }
        Some(AssocNode {
            kind: node.child(0)?,
            name: node.child(1)?,
            first: node.behind(TokenKind::Between)?,
            second: node.child(4)?,
        })
    }
}

/// `context := 'context' NAME ( ':' NAME inv { inv } | '::' head cond { cond } | inv { inv } )`
#[derive(Debug, Drop)]
pub struct ContextNode<'a> {
    /// The class, or the variable in front of it.
    pub name: NodeRef<'a>,
    /// The class behind a variable.
    pub class: Option<NodeRef<'a>>,
    /// The operation of the class.
    pub head: Option<NodeRef<'a>>,
    pub invariants: Parts<'a>,
    pub conditions: Parts<'a>,
}

impl<'a> ContextNode<'a> {
    /// The parts of such a node.
    pub fn of(node: &NodeRef<'a>) -> Option<ContextNode<'a>>
        ensures { result ≡ context_node node.now }
    {
        if !node.is_rule(Rule::Context) {
            return None;
        }
        Some(ContextNode {
            name: node.behind(TokenKind::Context)?,
            class: node.behind(TokenKind::Colon),
            head: node.behind(TokenKind::DoubleColon),
            invariants: node.parts(Select::Rule(Rule::Inv)),
            conditions: node.parts(Select::Rule(Rule::Cond)),
        })
    }
}

/// `constraints := 'constraints' { context }`
#[derive(Debug, Drop)]
pub struct ConstraintsNode<'a> {
    pub contexts: Parts<'a>,
}

impl<'a> ConstraintsNode<'a> {
    /// The parts of such a node.
    pub fn of(node: &NodeRef<'a>) -> Option<ConstraintsNode<'a>>
        ensures { result ≡ constraints_node node.now }
    {
        if !node.is_rule(Rule::Constraints) {
            return None;
        }
        Some(ConstraintsNode {
            contexts: node.parts(Select::Rule(Rule::Context)),
        })
    }
}

/// `file := 'model' NAME { enum | class | assoc | constraints } End`
#[derive(Debug, Drop)]
pub struct FileNode<'a> {
    pub name: NodeRef<'a>,
    pub declarations: Parts<'a>,
}

impl<'a> FileNode<'a> {
    /// The parts of such a node.
    pub fn of(node: &NodeRef<'a>) -> Option<FileNode<'a>>
        ensures { result ≡ file_node node.now }
    {
        if !node.is_rule(Rule::File) {
            return None;
        }
        Some(FileNode {
            name: node.behind(TokenKind::Model)?,
            declarations: node.parts(Select::Rules),
        })
    }
}
