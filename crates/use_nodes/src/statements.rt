ghost use Rattle.std.specs.Prelude.{◌≡◌};
ghost use Rattle.use_nodes.specs.StatementNodes.{assign_node, block_node, branch_node, create_node, declare_node, delete_node, destroy_node, for_node, insert_node, new_node, rhs_node, set_node, stmt_node, while_node};

use crate::{NodeRef, Parts, Select};
use use_syntax::Rule;
use use_text::TokenKind;

/// `block := [ stmt ] { ';' [ stmt ] }`
#[derive(Debug, Drop)]
pub struct BlockNode<'a> {
    pub statements: Parts<'a>,
}

impl<'a> BlockNode<'a> {
    /// The parts of such a node.
    pub fn of(node: &NodeRef<'a>) -> Option<BlockNode<'a>>
        ensures { result ≡ block_node node.now }
    {
        if !node.is_rule(Rule::Block) {
            return None;
        }
        Some(BlockNode {
            statements: node.parts(Select::Rule(Rule::Stmt)),
        })
    }
}

/// `new := 'new' NAME [ '(' [ expr ] ')' ]`
#[derive(Debug, Drop)]
pub struct NewNode<'a> {
    pub class: NodeRef<'a>,
    pub name: Option<NodeRef<'a>>,
}

impl<'a> NewNode<'a> {
    /// The parts of such a node.
    pub fn of(node: &NodeRef<'a>) -> Option<NewNode<'a>>
        ensures { result ≡ new_node node.now }
    {
        if !node.is_rule(Rule::New) {
            return None;
        }
        Some(NewNode {
            class: node.behind(TokenKind::New)?,
            name: node.part(Select::Rule(Rule::Expr)),
        })
    }
}

/// `rhs := new | expr`
#[derive(Debug, Drop)]
pub struct RhsNode<'a> {
    pub form: NodeRef<'a>,
}

impl<'a> RhsNode<'a> {
    /// The parts of such a node.
    pub fn of(node: &NodeRef<'a>) -> Option<RhsNode<'a>>
        ensures { result ≡ rhs_node node.now }
    {
        if !node.is_rule(Rule::Rhs) {
            return None;
        }
        Some(RhsNode {
            form: node.child(0)?,
        })
    }
}

/// `create := 'create' names ':' NAME`
#[derive(Debug, Drop)]
pub struct CreateNode<'a> {
    pub names: NodeRef<'a>,
    pub class: NodeRef<'a>,
}

impl<'a> CreateNode<'a> {
    /// The parts of such a node.
    pub fn of(node: &NodeRef<'a>) -> Option<CreateNode<'a>>
        ensures { result ≡ create_node node.now }
    {
        if !node.is_rule(Rule::Create) {
            return None;
        }
        Some(CreateNode {
            names: node.behind(TokenKind::Create)?,
            class: node.behind(TokenKind::Colon)?,
        })
    }
}

/// `set := 'set' expr ':=' rhs`
#[derive(Debug, Drop)]
pub struct SetNode<'a> {
    pub target: NodeRef<'a>,
    pub value: NodeRef<'a>,
}

impl<'a> SetNode<'a> {
    /// The parts of such a node.
    pub fn of(node: &NodeRef<'a>) -> Option<SetNode<'a>>
        ensures { result ≡ set_node node.now }
    {
        if !node.is_rule(Rule::Set) {
            return None;
        }
        Some(SetNode {
            target: node.behind(TokenKind::SetWord)?,
            value: node.behind(TokenKind::Assign)?,
        })
    }
}

/// `destroy := 'destroy' expr { ',' expr }`
#[derive(Debug, Drop)]
pub struct DestroyNode<'a> {
    pub objects: Parts<'a>,
}

impl<'a> DestroyNode<'a> {
    /// The parts of such a node.
    pub fn of(node: &NodeRef<'a>) -> Option<DestroyNode<'a>>
        ensures { result ≡ destroy_node node.now }
    {
        if !node.is_rule(Rule::Destroy) {
            return None;
        }
        Some(DestroyNode {
            objects: node.parts(Select::Rule(Rule::Expr)),
        })
    }
}

/// `insert := 'insert' '(' expr ',' expr ')' 'into' NAME`
#[derive(Debug, Drop)]
pub struct InsertNode<'a> {
    pub first: NodeRef<'a>,
    pub second: NodeRef<'a>,
    pub association: NodeRef<'a>,
}

impl<'a> InsertNode<'a> {
    /// The parts of such a node.
    pub fn of(node: &NodeRef<'a>) -> Option<InsertNode<'a>>
        ensures { result ≡ insert_node node.now }
    {
        if !node.is_rule(Rule::Insert) {
            return None;
        }
        Some(InsertNode {
            first: node.behind(TokenKind::LeftParen)?,
            second: node.behind(TokenKind::Comma)?,
            association: node.behind(TokenKind::Into)?,
        })
    }
}

/// `delete := 'delete' '(' expr ',' expr ')' 'from' NAME`
#[derive(Debug, Drop)]
pub struct DeleteNode<'a> {
    pub first: NodeRef<'a>,
    pub second: NodeRef<'a>,
    pub association: NodeRef<'a>,
}

impl<'a> DeleteNode<'a> {
    /// The parts of such a node.
    pub fn of(node: &NodeRef<'a>) -> Option<DeleteNode<'a>>
        ensures { result ≡ delete_node node.now }
    {
        if !node.is_rule(Rule::Delete) {
            return None;
        }
        Some(DeleteNode {
            first: node.behind(TokenKind::LeftParen)?,
            second: node.behind(TokenKind::Comma)?,
            association: node.behind(TokenKind::From)?,
        })
    }
}

/// `declare := 'declare' names ':' type`
#[derive(Debug, Drop)]
pub struct DeclareNode<'a> {
    pub names: NodeRef<'a>,
    pub of_type: NodeRef<'a>,
}

impl<'a> DeclareNode<'a> {
    /// The parts of such a node.
    pub fn of(node: &NodeRef<'a>) -> Option<DeclareNode<'a>>
        ensures { result ≡ declare_node node.now }
    {
        if !node.is_rule(Rule::Declare) {
            return None;
        }
        Some(DeclareNode {
            names: node.behind(TokenKind::Declare)?,
            of_type: node.behind(TokenKind::Colon)?,
        })
    }
}

/// `branch := 'if' expr 'then' block [ 'else' block ] 'end'`
#[derive(Debug, Drop)]
pub struct BranchNode<'a> {
    pub condition: NodeRef<'a>,
    pub consequence: NodeRef<'a>,
    pub alternative: Option<NodeRef<'a>>,
}

impl<'a> BranchNode<'a> {
    /// The parts of such a node.
    pub fn of(node: &NodeRef<'a>) -> Option<BranchNode<'a>>
        ensures { result ≡ branch_node node.now }
    {
        if !node.is_rule(Rule::Branch) {
            return None;
        }
        Some(BranchNode {
            condition: node.behind(TokenKind::If)?,
            consequence: node.behind(TokenKind::Then)?,
            alternative: node.behind(TokenKind::Else),
        })
    }
}

/// `for := 'for' NAME 'in' expr 'do' block 'end'`
#[derive(Debug, Drop)]
pub struct ForNode<'a> {
    pub variable: NodeRef<'a>,
    pub source: NodeRef<'a>,
    pub body: NodeRef<'a>,
}

impl<'a> ForNode<'a> {
    /// The parts of such a node.
    pub fn of(node: &NodeRef<'a>) -> Option<ForNode<'a>>
        ensures { result ≡ for_node node.now }
    {
        if !node.is_rule(Rule::For) {
            return None;
        }
        Some(ForNode {
            variable: node.behind(TokenKind::For)?,
            source: node.behind(TokenKind::In)?,
            body: node.behind(TokenKind::Do)?,
        })
    }
}

/// `while := 'while' expr 'do' block 'end'`
#[derive(Debug, Drop)]
pub struct WhileNode<'a> {
    pub condition: NodeRef<'a>,
    pub body: NodeRef<'a>,
}

impl<'a> WhileNode<'a> {
    /// The parts of such a node.
    pub fn of(node: &NodeRef<'a>) -> Option<WhileNode<'a>>
        ensures { result ≡ while_node node.now }
    {
        if !node.is_rule(Rule::While) {
            return None;
        }
        Some(WhileNode {
            condition: node.behind(TokenKind::While)?,
            body: node.behind(TokenKind::Do)?,
        })
    }
}

/// `assign := expr [ ':=' rhs ]`
#[derive(Debug, Drop)]
pub struct AssignNode<'a> {
    pub target: NodeRef<'a>,
    pub value: Option<NodeRef<'a>>,
}

impl<'a> AssignNode<'a> {
    /// The parts of such a node.
    pub fn of(node: &NodeRef<'a>) -> Option<AssignNode<'a>>
        ensures { result ≡ assign_node node.now }
    {
        if !node.is_rule(Rule::Assign) {
            return None;
        }
        Some(AssignNode {
            target: node.child(0)?,
            value: node.behind(TokenKind::Assign),
        })
    }
}

/// `stmt := create | set | new | destroy | insert | delete | declare | branch | for | while | assign`
#[derive(Debug, Drop)]
pub struct StmtNode<'a> {
    pub form: NodeRef<'a>,
}

impl<'a> StmtNode<'a> {
    /// The parts of such a node.
    pub fn of(node: &NodeRef<'a>) -> Option<StmtNode<'a>>
        ensures { result ≡ stmt_node node.now }
    {
        if !node.is_rule(Rule::Stmt) {
            return None;
        }
        Some(StmtNode {
            form: node.child(0)?,
        })
    }
}
