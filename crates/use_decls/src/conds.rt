ghost use Rattle.std.specs.Prelude.{◌≡◌, ◌++◌, [], IfOk, OnOk, length};
ghost use Rattle.std.specs.List.{filter_map, flat_map};
ghost use Rattle.std.specs.Option.{option_map, option_map_or, option_to_list};
ghost use Rattle.use_decls.specs.Classes.{head_decl};
ghost use Rattle.use_decls.specs.Conds.{behind_heads, class_conds, conds_at, constraints_conds, context_class, context_conds};
ghost use Rattle.use_decls.specs.Conds.{contract_kind, contract_part, heads_at, heads_in, inv_part, op_at, oper_conds};
ghost use Rattle.use_decls.specs.Names.{name_at};
ghost use Rattle.class_decls.specs.declared.decls.BodyKind.TheVariants.{Bare};
ghost use Rattle.use_decls.specs.declared.conds.Oper.TheVariants as Oper;

use crate::classes::head_decl;
use crate::declared::push_some;
use crate::lexed::Lexed;
use class_decls::{BodyKind, CondKind, Name, OpDecl, OpOf};
use std::alloc::{AllocError, Global};
use use_lists::Items;
use use_nodes::{
    ClassNode, CondNode, ConstraintsNode, ContextNode, HeadNode, InvNode, NodeRef, OperNode, Parts,
};
use use_text::TokenKind;

/// A condition as it is written.
#[derive(Debug, Drop)]
pub(crate) struct CondPart {
    pub kind: CondKind,
    pub class: Name,
    /// The word that it begins with: `inv`, `pre` or `post`.
    pub word: Name,
    /// The name behind this word, if there is one.
    pub written: Option<Name>,
}

/// The operation of contracts, by where its head stands.
#[derive(Debug, Drop)]
pub(crate) enum Oper<'a> {
    /// The contracts stand behind it in a class.
    BesideHead(HeadNode<'a>),
    /// A context names it: the place of its head in `Decls::context_heads`.
    InContext(usize),
}

fn op_at(alloc: Global, lexed: &Lexed<'_>, oper: &Oper<'_>) -> Result<OpOf, AllocError>
    ensures { IfOk result (λ op. op ≡ op_at lexed.now oper.now) }
{
    match oper {
        Oper::BesideHead(head) => Ok(OpOf::Here(lexed.name_at(alloc, &head.name)?)),
        Oper::InContext(at) => Ok(OpOf::Named(*at)),
    }
}

fn name_if(
    alloc: Global,
    lexed: &Lexed<'_>,
    node: &Option<NodeRef<'_>>,
) -> Result<Option<Name>, AllocError>
    ensures { IfOk result (λ n. n ≡ option_map (name_at lexed.now) node.now) }
{
    match node {
        None => Ok(None),
        Some(node) => Ok(Some(lexed.name_at(alloc, node)?)),
    }
}

/// An invariant of a class.
fn inv_part(
    alloc: Global,
    lexed: &Lexed<'_>,
    class: &NodeRef<'_>,
    node: &NodeRef<'_>,
) -> Result<Option<CondPart>, AllocError>
    ensures { IfOk result (λ p. p ≡ inv_part lexed.now class.now node.now) }
{
    let Some(inv) = InvNode::of(node) else {
        return Ok(None);
    };
    match node.child(0) {
        None => Ok(None),
        Some(word) => Ok(Some(CondPart {
            kind: CondKind::Inv,
            class: lexed.name_at(alloc, class)?,
            word: lexed.name_at(alloc, &word)?,
            written: name_if(alloc, lexed, &inv.name)?,
        })),
    }
}

fn contract_kind(word: &NodeRef<'_>, op: OpOf) -> CondKind
    ensures { result ≡ contract_kind word.now op }
{
    if word.is_token(TokenKind::Pre) {
        CondKind::Pre(op)
    } else {
        CondKind::Post(op)
    }
}

/// A contract of an operation of a class.
fn contract_part(
    alloc: Global,
    lexed: &Lexed<'_>,
    class: &NodeRef<'_>,
    oper: &Oper<'_>,
    node: &NodeRef<'_>,
) -> Result<Option<CondPart>, AllocError>
    ensures { IfOk result (λ p. p ≡ contract_part lexed.now class.now (op_at lexed.now oper.now) node.now) }
{
    match CondNode::of(node) {
        None => Ok(None),
        Some(cond) => Ok(Some(CondPart {
            kind: contract_kind(&cond.kind, op_at(alloc, lexed, oper)?),
            class: lexed.name_at(alloc, class)?,
            word: lexed.name_at(alloc, &cond.kind)?,
            written: name_if(alloc, lexed, &cond.name)?,
        })),
    }
}

fn add_invs(
    alloc: Global,
    lexed: &Lexed<'_>,
    class: &NodeRef<'_>,
    nodes: Parts<'_>,
    found: &mut Vec<CondPart>,
) -> Result<(), AllocError>
    ensures { OnOk result (found.new.items ≡ found.old.items ++ filter_map (inv_part lexed.now class.now) nodes.entry) }
{
    'nodes: for node in nodes {
        let part = inv_part(alloc, lexed, class, &node)?;
        push_some(part, found)?;
    }
    Ok(())
}

fn add_contracts(
    alloc: Global,
    lexed: &Lexed<'_>,
    class: &NodeRef<'_>,
    oper: &Oper<'_>,
    nodes: Parts<'_>,
    found: &mut Vec<CondPart>,
) -> Result<(), AllocError>
    ensures { OnOk result (found.new.items ≡ found.old.items ++ filter_map (contract_part lexed.now class.now (op_at lexed.now oper.now)) nodes.entry) }
{
    'nodes: for node in nodes {
        let part = contract_part(alloc, lexed, class, oper, &node)?;
        push_some(part, found)?;
    }
    Ok(())
}

/// Adds the contracts behind the head of an operation.
fn add_oper_conds(
    alloc: Global,
    lexed: &Lexed<'_>,
    class: &NodeRef<'_>,
    node: &NodeRef<'_>,
    found: &mut Vec<CondPart>,
) -> Result<(), AllocError>
    ensures { OnOk result (found.new.items ≡ found.old.items ++ oper_conds lexed.now class.now node.now) }
{
    let Some(oper) = OperNode::of(node) else {
        return Ok(());
    };
    match HeadNode::of(&oper.head) {
        None => Ok(()),
        Some(head) => add_contracts(
            alloc,
            lexed,
            class,
            &Oper::BesideHead(head),
            oper.conditions,
            found,
        ),
    }
}

fn add_opers_conds(
    alloc: Global,
    lexed: &Lexed<'_>,
    class: &NodeRef<'_>,
    nodes: Parts<'_>,
    found: &mut Vec<CondPart>,
) -> Result<(), AllocError>
    ensures { OnOk result (found.new.items ≡ found.old.items ++ flat_map (oper_conds lexed.now class.now) nodes.entry) }
{
    'nodes: for node in nodes {
        add_oper_conds(alloc, lexed, class, &node, found)?;
    }
    Ok(())
}

/// Adds the conditions of a class.
fn add_class_conds(
    alloc: Global,
    lexed: &Lexed<'_>,
    node: &NodeRef<'_>,
    found: &mut Vec<CondPart>,
) -> Result<(), AllocError>
    ensures { OnOk result (found.new.items ≡ found.old.items ++ class_conds lexed.now node.now) }
{
    match ClassNode::of(node) {
        None => Ok(()),
        Some(class) => {
            let ClassNode {
                name,
                operations,
                invariants,
                ..
            } = class;
            add_opers_conds(alloc, lexed, &name, operations, found)?;
            add_invs(alloc, lexed, &name, invariants, found)
        }
    }
}

/// The class of a context.
fn context_class<'a>(node: &ContextNode<'a>) -> NodeRef<'a>
    ensures { result ≡ context_class node.now }
{
    match &node.class {
        None => node.name.copy(),
        Some(class) => class.copy(),
    }
}

/// Adds the contracts of a context that names an operation, and its head.
fn add_context_contracts(
    alloc: Global,
    lexed: &Lexed<'_>,
    class: &NodeRef<'_>,
    head: Option<HeadNode<'_>>,
    nodes: Parts<'_>,
    heads: &mut Items<OpDecl>,
    found: &mut Vec<CondPart>,
) -> Result<(), AllocError>
    ensures conds { OnOk result (found.new.items ≡ found.old.items ++ option_map_or
        (λ h. filter_map (contract_part lexed.now class.now (op_at lexed.now (Oper.InContext (length heads.old)))) nodes.entry) head.entry []) }
    ensures heads { OnOk result (heads.new ≡ heads.old ++ option_to_list (option_map (head_decl lexed.now Bare) head.entry)) }
{
    match head {
        None => Ok(()),
        Some(head) => {
            let oper = Oper::InContext(heads.len());
            heads.push(head_decl(alloc, lexed, BodyKind::Bare, &head)?)?;
            add_contracts(alloc, lexed, class, &oper, nodes, found)
        }
    }
}

/// Adds the conditions of a context, and the head that it names.
fn add_context_conds(
    alloc: Global,
    lexed: &Lexed<'_>,
    node: &NodeRef<'_>,
    heads: &mut Items<OpDecl>,
    found: &mut Vec<CondPart>,
) -> Result<(), AllocError>
    ensures conds { OnOk result (found.new.items ≡ found.old.items ++ context_conds lexed.now (length heads.old) node.now) }
    ensures heads { OnOk result (heads.new ≡ heads.old ++ heads_in lexed.now node.now) }
{
    let Some(context) = ContextNode::of(node) else {
        return Ok(());
    };
    let class = context_class(&context);
    match &context.head {
        None => add_invs(alloc, lexed, &class, context.invariants, found),
        Some(head) => add_context_contracts(
            alloc,
            lexed,
            &class,
            HeadNode::of(head),
            context.conditions,
            heads,
            found,
        ),
    }
}

fn add_contexts_conds(
    alloc: Global,
    lexed: &Lexed<'_>,
    nodes: Parts<'_>,
    heads: &mut Items<OpDecl>,
    found: &mut Vec<CondPart>,
) -> Result<(), AllocError>
    ensures conds { OnOk result (found.new.items ≡ found.old.items
        ++ behind_heads (heads_in lexed.now) (context_conds lexed.now) (length heads.old) nodes.entry) }
    ensures heads { OnOk result (heads.new ≡ heads.old ++ flat_map (heads_in lexed.now) nodes.entry) }
{
    'nodes: for node in nodes {
        add_context_conds(alloc, lexed, &node, heads, found)?;
    }
    Ok(())
}

fn add_constraints_conds(
    alloc: Global,
    lexed: &Lexed<'_>,
    node: &NodeRef<'_>,
    heads: &mut Items<OpDecl>,
    found: &mut Vec<CondPart>,
) -> Result<(), AllocError>
    ensures conds { OnOk result (found.new.items ≡ found.old.items ++ constraints_conds lexed.now (length heads.old) node.now) }
    ensures heads { OnOk result (heads.new ≡ heads.old ++ heads_at lexed.now node.now) }
{
    match ConstraintsNode::of(node) {
        None => Ok(()),
        Some(node) => add_contexts_conds(alloc, lexed, node.contexts, heads, found),
    }
}

/// Adds the conditions of a declaration, and the heads that its contexts name.
fn add_conds(
    alloc: Global,
    lexed: &Lexed<'_>,
    node: &NodeRef<'_>,
    heads: &mut Items<OpDecl>,
    found: &mut Vec<CondPart>,
) -> Result<(), AllocError>
    ensures conds { OnOk result (found.new.items ≡ found.old.items ++ conds_at lexed.now (length heads.old) node.now) }
    ensures heads { OnOk result (heads.new ≡ heads.old ++ heads_at lexed.now node.now) }
{
    add_class_conds(alloc, lexed, node, found)?;
    add_constraints_conds(alloc, lexed, node, heads, found)
}

/// The conditions of declarations, in the order of the text; the heads that their contexts name are
/// added to those before them.
pub(crate) fn all_conds(
    alloc: Global,
    lexed: &Lexed<'_>,
    nodes: Parts<'_>,
    heads: &mut Items<OpDecl>,
) -> Result<Vec<CondPart>, AllocError>
    ensures conds { IfOk result (λ parts. parts.items ≡ behind_heads (heads_at lexed.now) (conds_at lexed.now) (length heads.old) nodes.entry) }
    ensures heads { OnOk result (heads.new ≡ heads.old ++ flat_map (heads_at lexed.now) nodes.entry) }
{
    let mut found = Vec::new(alloc);
    'nodes: for node in nodes {
        add_conds(alloc, lexed, &node, heads, &mut found)?;
    }
    Ok(found)
}
