ghost use Rattle.std.specs.Prelude.{◌≡◌, ◌++◌, IfOk, OnOk, string_bytes};
ghost use Rattle.std.specs.List.{flat_map};
ghost use Rattle.use_decls.specs.Assocs.{assoc_decl, end_decl, high_at, low_at, mult_part, mult_text};
ghost use Rattle.use_decls.specs.Names.{text_at};

use crate::declared::{Declared, all_declared};
use crate::lexed::Lexed;
use crate::roles::role_at;
use class_decls::{AssocDecl, EndDecl, MultPart};
use ocl_values::Text;
use std::alloc::{AllocError, Global};
use use_nodes::{AssocEndNode, AssocNode, MultNode, NodeRef, Parts, Select};

/// The lower bound of a part of a multiplicity; that of `*` is 0.
fn low_at(lexed: &Lexed<'_>, node: &MultNode<'_>) -> i128
    ensures { result ≡ low_at lexed.now node.now }
{
    lexed.number_at(&node.low).unwrap_or(0)
}

/// The upper bound; `*` is none.
fn high_at(lexed: &Lexed<'_>, node: &MultNode<'_>) -> Option<i128>
    ensures { result ≡ high_at lexed.now node.now }
{
    match &node.high {
        None => lexed.number_at(&node.low),
        Some(high) => lexed.number_at(high),
    }
}

/// Adds the texts of tokens.
fn add_texts(
    alloc: Global,
    lexed: &Lexed<'_>,
    nodes: Parts<'_>,
    text: &mut String,
) -> Result<(), AllocError>
    ensures { OnOk result (string_bytes text.new ≡ string_bytes text.old ++ flat_map (text_at lexed.now) nodes.entry) }
{
    'nodes: for node in nodes {
        let more = lexed.text_at(alloc, &node)?;
        text.push_str(more.as_str())?;
    }
    Ok(())
}

/// The tokens of a part of a multiplicity, with no white space between them.
fn mult_text(alloc: Global, lexed: &Lexed<'_>, node: &NodeRef<'_>) -> Result<Text, AllocError>
    ensures { IfOk result (λ t. t ≡ mult_text lexed.now node.now) }
{
    let mut text = String::new(alloc);
    add_texts(alloc, lexed, node.parts(Select::Tokens), &mut text)?;
    Ok(Text::from_string(text))
}

impl Declared for MultPart {
    ghost declared_by = { mult_part };

    fn of(
        alloc: Global,
        lexed: &Lexed<'_>,
        node: &NodeRef<'_>,
    ) -> Result<Option<Self>, AllocError> {
        match MultNode::of(node) {
            None => Ok(None),
            Some(part) => Ok(Some(MultPart {
                place: lexed.place_at(&part.low),
                text: mult_text(alloc, lexed, node)?,
                low: low_at(lexed, &part),
                high: high_at(lexed, &part),
            })),
        }
    }
}

impl Declared for EndDecl {
    ghost declared_by = { end_decl };

    fn of(
        alloc: Global,
        lexed: &Lexed<'_>,
        node: &NodeRef<'_>,
    ) -> Result<Option<Self>, AllocError> {
        match AssocEndNode::of(node) {
            None => Ok(None),
            Some(node) => {
                let AssocEndNode {
                    class,
                    multiplicities,
                    role,
                    is_ordered,
                } = node;
                Ok(Some(EndDecl {
                    class: lexed.name_at(alloc, &class)?,
                    parts: all_declared(alloc, lexed, multiplicities)?,
                    role: role_at(alloc, lexed, &class, role)?,
                    is_ordered,
                }))
            }
        }
    }
}

impl Declared for AssocDecl {
    ghost declared_by = { assoc_decl };

    fn of(
        alloc: Global,
        lexed: &Lexed<'_>,
        node: &NodeRef<'_>,
    ) -> Result<Option<Self>, AllocError> {
        let Some(node) = AssocNode::of(node) else {
            return Ok(None);
        };
        let Some(first) = EndDecl::of(alloc, lexed, &node.first)? else {
            return Ok(None);
        };
        let Some(second) = EndDecl::of(alloc, lexed, &node.second)? else {
            return Ok(None);
        };
        Ok(Some(AssocDecl {
            name: lexed.name_at(alloc, &node.name)?,
            first,
            second,
        }))
    }
}
