ghost use Rattle.std.specs.Prelude.{◌≡◌, ◌++◌, true, false, map, flat_map, IfOk, OnOk};
ghost use Rattle.std.specs.Option.{option_map};
ghost use Rattle.ocl_syntax.specs.Layers.{argument_head, argument_heads, argument_inner, arguments_at, arguments_of, item_head, item_inner, items_before, part_head, part_inner};

use crate::collected::items_before;
use crate::layer::{ArgumentHead, ArgumentLayer, PartHead, Piece};
use crate::tokens::place_of_mark;
use class_decls::TypeDecl;
use std::alloc::{AllocError, Global};
use use_decls::{Lexed, push_some, type_if};
use use_lists::Items;
use use_nodes::{ArgsNode, ItemNode, NodeRef, PartNode, Parts};
use use_text::TokenKind;

/// The piece of a node, if there is one.
fn piece_if<'a>(node: &Option<NodeRef<'a>>) -> Option<Piece<'a>>
    ensures { result ≡ option_map Piece.Node node.now }
{
    match node {
        None => None,
        Some(node) => Some(Piece::Node(node.copy())),
    }
}

fn argument_head(is_accumulator: bool, of_type: Option<TypeDecl>, has_start: bool) -> ArgumentHead
    ensures { result ≡ argument_head is_accumulator of_type has_start }
{
    if is_accumulator {
        ArgumentHead::Accumulator(of_type, has_start)
    } else {
        ArgumentHead::Item(of_type, has_start)
    }
}

/// An item of arguments, or the accumulator.
fn item_head(
    alloc: Global,
    lexed: &Lexed<'_>,
    is_accumulator: bool,
    node: &NodeRef<'_>,
) -> Result<ArgumentHead, AllocError>
    ensures { IfOk result (λ h. h ≡ item_head lexed.now is_accumulator node.now) }
{
    match ItemNode::of(node) {
        None => Ok(argument_head(is_accumulator, None, false)),
        Some(node) => {
            let of_type = type_if(alloc, lexed, &node.of_type)?;
            Ok(argument_head(is_accumulator, of_type, node.start.is_some()))
        }
    }
}

/// The accumulator, if there is one.
fn accumulator_head(
    alloc: Global,
    lexed: &Lexed<'_>,
    node: &Option<NodeRef<'_>>,
) -> Result<Option<ArgumentHead>, AllocError>
    ensures { IfOk result (λ h. h ≡ option_map (item_head lexed.now true) node.now) }
{
    match node {
        None => Ok(None),
        Some(node) => Ok(Some(item_head(alloc, lexed, true, node)?)),
    }
}

fn body_head(node: &Option<NodeRef<'_>>) -> Option<ArgumentHead>
    ensures { result ≡ option_map (λ body. ArgumentHead.Body) node.now }
{
    match node {
        None => None,
        Some(_) => Some(ArgumentHead::Body),
    }
}

fn item_heads(
    alloc: Global,
    lexed: &Lexed<'_>,
    items: &[NodeRef<'_>],
) -> Result<Vec<ArgumentHead>, AllocError>
    ensures { IfOk result (λ v. v.items ≡ map (item_head lexed.now false) items.now) }
{
    let mut found = Vec::new(alloc);
    'items: for item in items {
        found.push(item_head(alloc, lexed, false, item)?)?;
    }
    Ok(found)
}

/// Arguments in the order of the text.
fn argument_heads(
    alloc: Global,
    lexed: &Lexed<'_>,
    node: &ArgsNode<'_>,
) -> Result<Items<ArgumentHead>, AllocError>
    ensures { IfOk result (λ v. v ≡ argument_heads lexed.now node.now) }
{
    let items = items_before(alloc, node)?;
    let mut found = item_heads(alloc, lexed, items.as_slice())?;
    let accumulator = accumulator_head(alloc, lexed, &node.accumulator)?;
    push_some(accumulator, &mut found)?;
    push_some(body_head(&node.body), &mut found)?;
    Ok(Items::from_vec(found))
}

/// Adds the expressions in an item: what is passed, and its start.
fn add_item<'a>(node: &NodeRef<'a>, found: &mut Vec<Piece<'a>>) -> Result<(), AllocError>
    ensures { OnOk result (found.new.items ≡ found.old.items ++ item_inner node.now) }
{
    match ItemNode::of(node) {
        None => {
            found.push(Piece::Node(node.copy()))?;
            Ok(())
        }
        Some(node) => {
            found.push(Piece::Node(node.expression.copy()))?;
            push_some(piece_if(&node.start), found)
        }
    }
}

fn items_inner<'a>(alloc: Global, items: Parts<'a>) -> Result<Vec<Piece<'a>>, AllocError>
    ensures { IfOk result (λ v. v.items ≡ flat_map item_inner items.entry) }
{
    let mut found = Vec::new(alloc);
    'items: for node in items {
        add_item(&node, &mut found)?;
    }
    Ok(found)
}

/// The expressions in arguments.
fn argument_inner<'a>(alloc: Global, node: &ArgsNode<'a>) -> Result<Items<Piece<'a>>, AllocError>
    ensures { IfOk result (λ v. v ≡ argument_inner node.now) }
{
    let mut found = items_inner(alloc, node.items.copy())?;
    push_some(piece_if(&node.body), &mut found)?;
    Ok(Items::from_vec(found))
}

fn arguments_of<'a>(
    alloc: Global,
    lexed: &Lexed<'_>,
    node: &ArgsNode<'a>,
) -> Result<ArgumentLayer<'a>, AllocError>
    ensures { IfOk result (λ y. y ≡ arguments_of lexed.now node.now) }
{
    let heads = argument_heads(alloc, lexed, node)?;
    let inner = argument_inner(alloc, node)?;
    Ok(ArgumentLayer {
        heads: Some(heads),
        inner,
    })
}

/// Arguments, if there are parentheses.
pub(crate) fn arguments_at<'a>(
    alloc: Global,
    lexed: &Lexed<'_>,
    node: &Option<NodeRef<'a>>,
) -> Result<ArgumentLayer<'a>, AllocError>
    ensures { IfOk result (λ y. y ≡ arguments_at lexed.now node.now) }
{
    let Some(node) = node else {
        return Ok(ArgumentLayer {
            heads: None,
            inner: Items::new(alloc),
        });
    };
    match ArgsNode::of(node) {
        None => Ok(ArgumentLayer {
            heads: Some(Items::new(alloc)),
            inner: Items::new(alloc),
        }),
        Some(node) => arguments_of(alloc, lexed, &node),
    }
}

/// A part of a collection literal.
fn part_head(lexed: &Lexed<'_>, node: &NodeRef<'_>) -> PartHead
    ensures { result ≡ part_head lexed.now node.now }
{
    match PartNode::of(node) {
        None => PartHead::One,
        Some(parts) => match parts.last {
            None => PartHead::One,
            Some(_) => PartHead::Range(place_of_mark(lexed, TokenKind::DoubleDot, node)),
        },
    }
}

pub(crate) fn part_heads(
    alloc: Global,
    lexed: &Lexed<'_>,
    parts: Parts<'_>,
) -> Result<Items<PartHead>, AllocError>
    ensures { IfOk result (λ v. v ≡ map (part_head lexed.now) parts.entry) }
{
    let mut found = Vec::new(alloc);
    'parts: for node in parts {
        found.push(part_head(lexed, &node))?;
    }
    Ok(Items::from_vec(found))
}

/// Adds the expressions in a part of a collection literal.
fn add_part<'a>(node: &NodeRef<'a>, found: &mut Vec<Piece<'a>>) -> Result<(), AllocError>
    ensures { OnOk result (found.new.items ≡ found.old.items ++ part_inner node.now) }
{
    match PartNode::of(node) {
        None => {
            found.push(Piece::Node(node.copy()))?;
            Ok(())
        }
        Some(node) => {
            found.push(Piece::Node(node.first.copy()))?;
            push_some(piece_if(&node.last), found)
        }
    }
}

pub(crate) fn parts_inner<'a>(
    alloc: Global,
    parts: Parts<'a>,
) -> Result<Items<Piece<'a>>, AllocError>
    ensures { IfOk result (λ v. v ≡ flat_map part_inner parts.entry) }
{
    let mut found = Vec::new(alloc);
    'parts: for node in parts {
        add_part(&node, &mut found)?;
    }
    Ok(Items::from_vec(found))
}
