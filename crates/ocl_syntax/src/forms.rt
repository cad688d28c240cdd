ghost use Rattle.std.specs.Prelude.{◌≡◌, [], ◌∷◌, map, reverse, IfOk};
ghost use Rattle.std.specs.Option.{option_map};
ghost use Rattle.ocl_syntax.specs.Layers.{arrow_layer, behind_layer, bind_layer, binds_layer, chain_layer, choice_layer, collection_layer, dot_layer, group_layer, lacking, layer_of, let_layer, literal_layer, named_layer, node_layer, only_literal_layer, operators_of, postfix_layer, primary_layer, row_layer, same, step_layer, unary_layer};
ghost use Rattle.use_decls.specs.Names.{name_at};

use crate::layer::{ArgumentLayer, Behind, Head, Layer, Piece};
use crate::passed::{arguments_at, part_heads, parts_inner};
use crate::plain::plain;
use crate::tokens::{binary_operator, literal_at, place_at, place_of_mark, unary_operator};
use class_decls::Name;
use std::alloc::{AllocError, Global};
use use_decls::{Lexed, kind_at, type_if};
use use_lists::Items;
use use_nodes::{
    ArrowNode, BindNode, ChainNode, ChoiceNode, CollectionNode, DotNode, GroupNode, LetNode,
    LiteralNode, NamedNode, NodeRef, Parts, PostfixNode, PrimaryNode, UnaryNode,
};
use use_text::{Place, TokenKind};

/// A node that lacks a part.
fn lacking<'a>(alloc: Global) -> Layer<'a>
    ensures { result ≡ lacking }
{
    Layer {
        head: Head::Lacking,
        inner: Items::new(alloc),
    }
}

/// A form with one expression in it.
fn over_one<'a>(alloc: Global, head: Head, piece: Piece<'a>) -> Result<Layer<'a>, AllocError>
    ensures { IfOk result (λ y. y ≡ record { head = head; inner = piece.entry ∷ [] }) }
{
    let mut inner = Items::new(alloc);
    inner.push(piece)?;
    Ok(Layer { head, inner })
}

/// A form with two expressions in it.
fn over_two<'a>(
    alloc: Global,
    head: Head,
    first: Piece<'a>,
    second: Piece<'a>,
) -> Result<Layer<'a>, AllocError>
    ensures { IfOk result (λ y. y ≡ record { head = head; inner = first.entry ∷ second.entry ∷ [] }) }
{
    let mut inner = Items::new(alloc);
    inner.push(first)?;
    inner.push(second)?;
    Ok(Layer { head, inner })
}

/// The pieces of a source and of what stands behind it.
fn behind_source<'a>(
    alloc: Global,
    source: Piece<'a>,
    others: Items<Piece<'a>>,
) -> Result<Items<Piece<'a>>, AllocError>
    ensures { IfOk result (λ v. v ≡ source.entry ∷ others.entry) }
{
    let mut inner = Vec::new(alloc);
    inner.push(source)?;
    let mut others = others.into_vec();
    inner.append(&mut others)?;
    Ok(Items::from_vec(inner))
}

pub(crate) fn name_if(
    alloc: Global,
    lexed: &Lexed<'_>,
    node: &Option<NodeRef<'_>>,
) -> Result<Option<Name>, AllocError>
    ensures { IfOk result (λ n. n ≡ option_map (name_at lexed.now) node.now) }
{
    match node {
        None => Ok(None),
        Some(node) => Ok(Some(lexed.name_at(alloc, node)?)),
    }
}

fn dot_layer<'a>(
    alloc: Global,
    lexed: &Lexed<'_>,
    source: Piece<'a>,
    node: &DotNode<'a>,
) -> Result<Layer<'a>, AllocError>
    ensures { IfOk result (λ y. y ≡ dot_layer lexed.now source.entry node.now) }
{
    let name = lexed.name_at(alloc, &node.name)?;
    let ArgumentLayer { heads, inner } = arguments_at(alloc, lexed, &node.arguments)?;
    let inner = behind_source(alloc, source, inner)?;
    Ok(Layer {
        head: Head::Dot(name, node.is_before, heads),
        inner,
    })
}

fn arrow_layer<'a>(
    alloc: Global,
    lexed: &Lexed<'_>,
    source: Piece<'a>,
    node: &ArrowNode<'a>,
) -> Result<Layer<'a>, AllocError>
    ensures { IfOk result (λ y. y ≡ arrow_layer lexed.now source.entry node.now) }
{
    let name = lexed.name_at(alloc, &node.name)?;
    let ArgumentLayer { heads, inner } = arguments_at(alloc, lexed, &node.arguments)?;
    let inner = behind_source(alloc, source, inner)?;
    Ok(Layer {
        head: Head::Arrow(name, heads),
        inner,
    })
}

/// A dot or an arrow behind a source.
pub(crate) fn step_layer<'a>(
    alloc: Global,
    lexed: &Lexed<'_>,
    source: Piece<'a>,
    node: &NodeRef<'a>,
) -> Result<Layer<'a>, AllocError>
    ensures { IfOk result (λ y. y ≡ step_layer lexed.now source.entry node.now) }
{
    if let Some(node) = DotNode::of(node) {
        return dot_layer(alloc, lexed, source, &node);
    }
    match ArrowNode::of(node) {
        None => Ok(lacking(alloc)),
        Some(node) => arrow_layer(alloc, lexed, source, &node),
    }
}

/// Operators and the operands on their right.
pub(crate) fn operators_of<'a>(
    alloc: Global,
    operators: Parts<'a>,
    mut operands: Parts<'a>,
) -> Result<Items<Behind<'a>>, AllocError>
    ensures { IfOk result (λ v. v ≡ operators_of operators.entry operands.entry) }
{
    let mut found = Vec::new(alloc);
    'operators: for operator in operators {
        match operands.next() {
            None => return Ok(Items::from_vec(found)),
            Some(operand) => found.push(Behind::Operator(operator, operand))?,
        }
    }
    Ok(Items::from_vec(found))
}

pub(crate) fn steps_of<'a>(alloc: Global, steps: Parts<'a>) -> Result<Items<Behind<'a>>, AllocError>
    ensures { IfOk result (λ v. v ≡ map Behind.Step steps.entry) }
{
    let mut found = Vec::new(alloc);
    'steps: for step in steps {
        found.push(Behind::Step(step))?;
    }
    Ok(Items::from_vec(found))
}

fn bind_layer<'a>(
    alloc: Global,
    lexed: &Lexed<'_>,
    word: Option<Place>,
    behind: Piece<'a>,
    node: &BindNode<'a>,
) -> Result<Layer<'a>, AllocError>
    ensures { IfOk result (λ y. y ≡ bind_layer lexed.now word behind.entry node.now) }
{
    let place = word.unwrap_or(place_at(lexed, &node.name));
    let name = lexed.name_at(alloc, &node.name)?;
    let of_type = type_if(alloc, lexed, &node.of_type)?;
    let head = Head::Let(place, name, of_type);
    over_two(alloc, head, Piece::Node(node.value.copy()), behind)
}

/// The binds of a `let` and its body.
pub(crate) fn binds_layer<'a>(
    alloc: Global,
    lexed: &Lexed<'_>,
    word: Option<Place>,
    mut binds: Parts<'a>,
    body: NodeRef<'a>,
) -> Result<Layer<'a>, AllocError>
    ensures { IfOk result (λ y. y ≡ binds_layer lexed.now word binds.entry body.entry) }
{
    let Some(bind) = binds.next() else {
        return over_one(alloc, Head::Same, Piece::Node(body));
    };
    match BindNode::of(&bind) {
        None => Ok(lacking(alloc)),
        Some(node) => bind_layer(alloc, lexed, word, Piece::Binds(None, binds, body), &node),
    }
}

pub(crate) fn let_layer<'a>(
    alloc: Global,
    lexed: &Lexed<'_>,
    node: &NodeRef<'a>,
    parts: &LetNode<'a>,
) -> Result<Layer<'a>, AllocError>
    ensures { IfOk result (λ y. y ≡ let_layer lexed.now node.now parts.now) }
{
    let word = place_of_mark(lexed, TokenKind::Let, node);
    binds_layer(
        alloc,
        lexed,
        Some(word),
        parts.binds.copy(),
        parts.body.copy(),
    )
}

pub(crate) fn only_literal_layer<'a>(
    alloc: Global,
    lexed: &Lexed<'_>,
    node: &NodeRef<'a>,
    parts: &LiteralNode<'a>,
) -> Result<Layer<'a>, AllocError>
    ensures { IfOk result (λ y. y ≡ only_literal_layer lexed.now node.now parts.now) }
{
    let place = place_of_mark(lexed, TokenKind::Hash, node);
    let name = lexed.name_at(alloc, &parts.name)?;
    Ok(Layer {
        head: Head::OnlyLiteral(place, name),
        inner: Items::new(alloc),
    })
}

pub(crate) fn collection_layer<'a>(
    alloc: Global,
    lexed: &Lexed<'_>,
    node: &CollectionNode<'a>,
) -> Result<Layer<'a>, AllocError>
    ensures { IfOk result (λ y. y ≡ collection_layer lexed.now node.now) }
{
    let heads = part_heads(alloc, lexed, node.parts.copy())?;
    let inner = parts_inner(alloc, node.parts.copy())?;
    Ok(Layer {
        head: Head::Collection(place_at(lexed, &node.kind), kind_at(&node.kind), heads),
        inner,
    })
}

pub(crate) fn named_layer<'a>(
    alloc: Global,
    lexed: &Lexed<'_>,
    node: &NamedNode<'a>,
) -> Result<Layer<'a>, AllocError>
    ensures { IfOk result (λ y. y ≡ named_layer lexed.now node.now) }
{
    let name = lexed.name_at(alloc, &node.name)?;
    let literal = name_if(alloc, lexed, &node.literal)?;
    let ArgumentLayer { heads, inner } = arguments_at(alloc, lexed, &node.arguments)?;
    Ok(Layer {
        head: Head::Named(name, literal, node.is_before, heads),
        inner,
    })
}

pub(crate) fn choice_layer<'a>(
    alloc: Global,
    lexed: &Lexed<'_>,
    node: &NodeRef<'a>,
    parts: &ChoiceNode<'a>,
) -> Result<Layer<'a>, AllocError>
    ensures { IfOk result (λ y. y ≡ choice_layer lexed.now node.now parts.now) }
{
    let place = place_of_mark(lexed, TokenKind::If, node);
    let mut inner = Items::new(alloc);
    inner.push(Piece::Node(parts.condition.copy()))?;
    inner.push(Piece::Node(parts.consequence.copy()))?;
    inner.push(Piece::Node(parts.alternative.copy()))?;
    Ok(Layer {
        head: Head::If(place),
        inner,
    })
}
