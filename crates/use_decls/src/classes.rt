ghost use Rattle.std.specs.Prelude.{◌≡◌, [], IfOk};
ghost use Rattle.std.specs.List.{filter_map};
ghost use Rattle.std.specs.Option.{option_map_or};
ghost use Rattle.use_decls.specs.Classes.{attr_decl, body_kind, class_decl, enum_decl, head_decl, names_at, oper_decl, param_decl, params_at, parents_at};

use crate::declared::{Declared, all_declared, all_names};
use crate::lexed::Lexed;
use crate::types::{type_decl, type_if};
use class_decls::{AttrDecl, BodyKind, ClassDecl, EnumDecl, Name, OpDecl, ParamDecl};
use std::alloc::{AllocError, Global};
use use_lists::Items;
use use_nodes::{
    AttributeNode, ClassNode, EnumNode, HeadNode, NamesNode, NodeRef, OperNode, ParamNode,
    ParamsNode, ParentsNode,
};

/// The names of a list of names.
fn names_at(alloc: Global, lexed: &Lexed<'_>, node: &NodeRef<'_>) -> Result<Items<Name>, AllocError>
    ensures { IfOk result (λ names. names ≡ names_at lexed.now node.now) }
{
    match NamesNode::of(node) {
        None => Ok(Items::new(alloc)),
        Some(node) => all_names(alloc, lexed, node.names),
    }
}

impl Declared for EnumDecl {
    ghost declared_by = { enum_decl };

    fn of(
        alloc: Global,
        lexed: &Lexed<'_>,
        node: &NodeRef<'_>,
    ) -> Result<Option<Self>, AllocError> {
        match EnumNode::of(node) {
            None => Ok(None),
            Some(node) => Ok(Some(EnumDecl {
                name: lexed.name_at(alloc, &node.name)?,
                literals: names_at(alloc, lexed, &node.literals)?,
            })),
        }
    }
}

impl Declared for ParamDecl {
    ghost declared_by = { param_decl };

    fn of(
        alloc: Global,
        lexed: &Lexed<'_>,
        node: &NodeRef<'_>,
    ) -> Result<Option<Self>, AllocError> {
        match ParamNode::of(node) {
            None => Ok(None),
            Some(node) => Ok(Some(ParamDecl {
                name: lexed.name_at(alloc, &node.name)?,
                of_type: type_decl(alloc, lexed, &node.of_type)?,
            })),
        }
    }
}

fn params_of(
    alloc: Global,
    lexed: &Lexed<'_>,
    node: Option<ParamsNode<'_>>,
) -> Result<Items<ParamDecl>, AllocError>
    ensures { IfOk result (λ params. params ≡ option_map_or (λ n. filter_map (param_decl lexed.now) n.parameters) node.entry []) }
{
    match node {
        None => Ok(Items::new(alloc)),
        Some(node) => all_declared(alloc, lexed, node.parameters),
    }
}

/// The parameters of a head, which may have none.
fn params_at(
    alloc: Global,
    lexed: &Lexed<'_>,
    node: &Option<NodeRef<'_>>,
) -> Result<Items<ParamDecl>, AllocError>
    ensures { IfOk result (λ params. params ≡ params_at lexed.now node.now) }
{
    match node {
        None => Ok(Items::new(alloc)),
        Some(node) => params_of(alloc, lexed, ParamsNode::of(node)),
    }
}

/// The head of an operation, with the kind of body that stands behind it.
pub(crate) fn head_decl(
    alloc: Global,
    lexed: &Lexed<'_>,
    body: BodyKind,
    node: &HeadNode<'_>,
) -> Result<OpDecl, AllocError>
    ensures { IfOk result (λ op. op ≡ head_decl lexed.now body node.now) }
{
    Ok(OpDecl {
        name: lexed.name_at(alloc, &node.name)?,
        params: params_at(alloc, lexed, &node.parameters)?,
        result_type: type_if(alloc, lexed, &node.of_type)?,
        body,
    })
}

fn body_kind(node: &OperNode<'_>) -> BodyKind
    ensures { result ≡ body_kind node.now }
{
    if node.query.is_some() {
        BodyKind::Query
    } else if node.statements.is_some() {
        BodyKind::Soil
    } else {
        BodyKind::Bare
    }
}

impl Declared for OpDecl {
    ghost declared_by = { oper_decl };

    fn of(
        alloc: Global,
        lexed: &Lexed<'_>,
        node: &NodeRef<'_>,
    ) -> Result<Option<Self>, AllocError> {
        let Some(node) = OperNode::of(node) else {
            return Ok(None);
        };
        match HeadNode::of(&node.head) {
            None => Ok(None),
            Some(head) => Ok(Some(head_decl(alloc, lexed, body_kind(&node), &head)?)),
        }
    }
}

impl Declared for AttrDecl {
    ghost declared_by = { attr_decl };

    fn of(
        alloc: Global,
        lexed: &Lexed<'_>,
        node: &NodeRef<'_>,
    ) -> Result<Option<Self>, AllocError> {
        match AttributeNode::of(node) {
            None => Ok(None),
            Some(node) => Ok(Some(AttrDecl {
                name: lexed.name_at(alloc, &node.name)?,
                of_type: type_decl(alloc, lexed, &node.of_type)?,
                is_derived: node.value.is_some(),
            })),
        }
    }
}

/// The parents of a class, which may have none.
fn parents_at(
    alloc: Global,
    lexed: &Lexed<'_>,
    node: Option<NodeRef<'_>>,
) -> Result<Items<Name>, AllocError>
    ensures { IfOk result (λ names. names ≡ parents_at lexed.now node.entry) }
{
    let Some(node) = node else {
        return Ok(Items::new(alloc));
    };
    match ParentsNode::of(&node) {
        None => Ok(Items::new(alloc)),
        Some(node) => names_at(alloc, lexed, &node.names),
    }
}

impl Declared for ClassDecl {
    ghost declared_by = { class_decl };

    fn of(
        alloc: Global,
        lexed: &Lexed<'_>,
        node: &NodeRef<'_>,
    ) -> Result<Option<Self>, AllocError> {
        match ClassNode::of(node) {
            None => Ok(None),
            Some(node) => Ok(Some(ClassDecl {
                name: lexed.name_at(alloc, &node.name)?,
                is_abstract: node.is_abstract,
                parents: parents_at(alloc, lexed, node.parents)?,
                attrs: all_declared(alloc, lexed, node.attributes)?,
                ops: all_declared(alloc, lexed, node.operations)?,
            })),
        }
    }
}
