ghost use Rattle.std.specs.Prelude.{◌≡◌};
ghost use Rattle.use_nodes.specs.CommandNodes.{check_node, command_node, enter_node, execute_node, exit_node, info_node, query_node, view_node};

use crate::{NodeRef, Select};
use use_syntax::Rule;
use use_text::TokenKind;

/// `enter := 'openter' expr NAME args`
#[derive(Debug, Drop)]
pub struct EnterNode<'a> {
    pub receiver: NodeRef<'a>,
    pub operation: NodeRef<'a>,
    pub arguments: NodeRef<'a>,
}

impl<'a> EnterNode<'a> {
    /// The parts of such a node.
    pub fn of(node: &NodeRef<'a>) -> Option<EnterNode<'a>>
        ensures { result ≡ enter_node node.now }
    {
        if !node.is_rule(Rule::Enter) {
            return None;
        }
        Some(EnterNode {
            receiver: node.child(1)?,
            operation: node.child(2)?,
            arguments: node.part(Select::Rule(Rule::Args))?,
        })
    }
}

/// `exit := 'opexit' [ expr ]`
#[derive(Debug, Drop)]
pub struct ExitNode<'a> {
    pub value: Option<NodeRef<'a>>,
}

impl<'a> ExitNode<'a> {
    /// The parts of such a node.
    pub fn of(node: &NodeRef<'a>) -> Option<ExitNode<'a>>
        ensures { result ≡ exit_node node.now }
    {
        if !node.is_rule(Rule::Exit) {
            return None;
        }
        Some(ExitNode {
            value: node.part(Select::Rule(Rule::Expr)),
        })
    }
}

/// `execute := '!' ( enter | exit | block )`
#[derive(Debug, Drop)]
pub struct ExecuteNode<'a> {
    pub form: NodeRef<'a>,
}

impl<'a> ExecuteNode<'a> {
    /// The parts of such a node.
    pub fn of(node: &NodeRef<'a>) -> Option<ExecuteNode<'a>>
        ensures { result ≡ execute_node node.now }
    {
        if !node.is_rule(Rule::Execute) {
            return None;
        }
        Some(ExecuteNode {
            form: node.behind(TokenKind::Bang)?,
        })
    }
}

/// `query := '?' [ '?' ] expr`
#[derive(Debug, Drop)]
pub struct QueryNode<'a> {
    /// The second `?`: the parts of the expression are asked for too.
    pub explained: Option<NodeRef<'a>>,
    pub expression: NodeRef<'a>,
}

impl<'a> QueryNode<'a> {
    /// The parts of such a node.
    pub fn of(node: &NodeRef<'a>) -> Option<QueryNode<'a>>
        ensures { result ≡ query_node node.now }
    {
        if !node.is_rule(Rule::Query) {
            return None;
        }
        Some(QueryNode {
            explained: node.second(TokenKind::Question),
            expression: node.part(Select::Rule(Rule::Expr))?,
        })
    }
}

/// `check := 'check' [ '-' NAME ]`
#[derive(Debug, Drop)]
pub struct CheckNode<'a> {
    pub option: Option<NodeRef<'a>>,
}

impl<'a> CheckNode<'a> {
    /// The parts of such a node.
    pub fn of(node: &NodeRef<'a>) -> Option<CheckNode<'a>>
        ensures { result ≡ check_node node.now }
    {
        if !node.is_rule(Rule::Check) {
            return None;
        }
        Some(CheckNode {
            option: node.behind(TokenKind::Minus),
        })
    }
}

/// `info := 'info' ( 'class' NAME | 'model' | NAME )`
#[derive(Debug, Drop)]
pub struct InfoNode<'a> {
    /// The word `class` or `model`, or a name.
    pub subject: NodeRef<'a>,
    pub class: Option<NodeRef<'a>>,
}

impl<'a> InfoNode<'a> {
    /// The parts of such a node.
    pub fn of(node: &NodeRef<'a>) -> Option<InfoNode<'a>>
        ensures { result ≡ info_node node.now }
    {
        if !node.is_rule(Rule::Info) {
            return None;
        }
        Some(InfoNode {
            subject: node.child(1)?,
            class: node.behind(TokenKind::Class),
        })
    }
}

/// `view := 'view' ( INT | NAME INT )`
#[derive(Debug, Drop)]
pub struct ViewNode<'a> {
    /// The number, or a name.
    pub subject: NodeRef<'a>,
    pub number: NodeRef<'a>,
}

impl<'a> ViewNode<'a> {
    /// The parts of such a node.
    pub fn of(node: &NodeRef<'a>) -> Option<ViewNode<'a>>
        ensures { result ≡ view_node node.now }
    {
        if !node.is_rule(Rule::View) {
            return None;
        }
        Some(ViewNode {
            subject: node.child(1)?,
            number: node.part(Select::Token(TokenKind::Int))?,
        })
    }
}

/// `command := [ execute | enter | exit | query | check | info | view | 'undo' | 'redo' | 'reset' | 'quit' | 'exit' ] End`
#[derive(Debug, Drop)]
pub struct CommandNode<'a> {
    pub form: Option<NodeRef<'a>>,
}

impl<'a> CommandNode<'a> {
    /// The parts of such a node.
    pub fn of(node: &NodeRef<'a>) -> Option<CommandNode<'a>>
        ensures { result ≡ command_node node.now }
    {
        if !node.is_rule(Rule::Command) {
            return None;
        }
        Some(CommandNode {
            form: node.part(Select::Except(TokenKind::End)),
        })
    }
}
