//! Nodes of the trees that texts are read as, with their parts by name.
#![tactic(auto)]

mod commands;
mod expressions;
mod law;
mod models;
mod node;
mod parts;
mod statements;
mod types;
mod written;

pub use commands::{
    CheckNode, CommandNode, EnterNode, ExecuteNode, ExitNode, InfoNode, QueryNode, ViewNode,
};
pub use expressions::{
    ArgsNode, ArrowNode, BindNode, ChainNode, ChoiceNode, CollectionNode, DotNode, GroupNode,
    ItemNode, LetNode, LiteralNode, NamedNode, PartNode, PostfixNode, PrimaryNode, UnaryNode,
};
pub use law::{integers_are_numbers, trees_are_shallow, trees_are_typed, trees_are_whole};
pub use models::{
    AssocEndNode, AssocNode, AttributeNode, ClassNode, CondNode, ConstraintsNode, ContextNode,
    EnumNode, FileNode, HeadNode, InvNode, MultNode, OperNode, ParamNode, ParamsNode, ParentsNode,
};
pub use node::NodeRef;
pub use parts::{Parts, Select};
pub use statements::{
    AssignNode, BlockNode, BranchNode, CreateNode, DeclareNode, DeleteNode, DestroyNode, ForNode,
    InsertNode, NewNode, RhsNode, SetNode, StmtNode, WhileNode,
};
pub use types::{NamesNode, TypeNode};
pub use use_syntax::place_of_first;
