ghost use Rattle.std.specs.Prelude.{◌≡◌, IfOk, map, reverse, None};
ghost use Rattle.ocl_syntax.specs.Expressions.{expression_in, layered, written};
ghost use Rattle.ocl_syntax.specs.Layers.{behind_layer, binds_layer, chain_layer, choice_layer, collection_layer, group_layer, let_layer, literal_layer, named_layer, node_layer, only_literal_layer, postfix_layer, primary_layer, row_layer, step_layer, unary_layer};
ghost use Rattle.ocl_syntax.specs.declared.layer.Behind.TheVariants.{Operator};
ghost use Rattle.ocl_syntax.specs.declared.layer.Piece.TheVariants.{Node, Row};

use crate::Written;
use crate::forms::{
    binds_layer, choice_layer, collection_layer, let_layer, name_if, named_layer,
    only_literal_layer, operators_of, step_layer, steps_of,
};
use crate::layer::{Behind, Layer, Piece};
use crate::made::{Made, boxed_if, deeper, head_place, left_out, levels_in, made_of};
use crate::plain::plain;
use crate::tokens::{binary_operator, literal_at, place_at, place_of_mark, unary_operator};
use std::alloc::{AllocError, Global};
use use_decls::Lexed;
use use_lists::{Boxed, Items};
use use_nodes::{
    ChainNode, ChoiceNode, CollectionNode, GroupNode, LetNode, LiteralNode, NamedNode, NodeRef,
    Parts, PostfixNode, PrimaryNode, UnaryNode,
};
use use_text::{Place, TokenKind};

/// How many forms may be nested: more than an expression that was read nests. At most 257 take a
/// level, with one other around each, and 200 are parentheses.
const MAX_FORMS: usize = 1000;

/// How deep written nodes may nest, parentheses not counted.
const MAX_DEPTH: usize = 256;

/// The literal of a primary.
#[inline(never)]
fn of_literal(
    alloc: Global,
    lexed: &Lexed<'_>,
    fuel: usize,
    levels: usize,
    node: &PrimaryNode<'_>,
) -> Result<Written, AllocError>
    ensures { IfOk result (λ w. w ≡ layered fuel lexed.now levels (literal_layer lexed.now node.now)) }
{
    let Some(literal) = literal_at(alloc, lexed, &node.form)? else {
        return Ok(left_out());
    };
    let place = place_at(lexed, &node.form);
    match deeper(levels) {
        None => Ok(Written::TooDeep(place)),
        Some(_) => Ok(Written::Literal(place, literal)),
    }
}

/// A name without arguments.
#[inline(never)]
fn of_bare_name(
    alloc: Global,
    lexed: &Lexed<'_>,
    fuel: usize,
    levels: usize,
    node: &NamedNode<'_>,
) -> Result<Written, AllocError>
    requires bare { node.now.arguments ≡ None }
    ensures { IfOk result (λ w. w ≡ layered fuel lexed.now levels (named_layer lexed.now node.now)) }
{
    let name = lexed.name_at(alloc, &node.name)?;
    match deeper(levels) {
        None => Ok(Written::TooDeep(name.place)),
        Some(_) => {
            let literal = name_if(alloc, lexed, &node.literal)?;
            let literal = boxed_if(alloc, literal)?;
            Ok(Written::Named(name, literal, node.is_before, None))
        }
    }
}

/// The expressions at some pieces.
#[cycle(expression)]
#[inline(never)]
fn all_at(
    alloc: Global,
    lexed: &Lexed<'_>,
    fuel: usize,
    levels: usize,
    pieces: Items<Piece<'_>>,
) -> Result<Made, AllocError>
    ensures { IfOk result (λ m. m ≡ map (expression_in fuel lexed.now levels) pieces.entry) }
{
    let mut made = Vec::new(alloc);
    'pieces: for piece in pieces.into_vec() {
        made.push(at_piece(alloc, lexed, fuel, levels, piece)?)?;
    }
    Ok(Made::of(made))
}

/// The expression of a form by the pieces in it.
#[cycle(expression)]
#[inline(never)]
fn of_layer(
    alloc: Global,
    lexed: &Lexed<'_>,
    fuel: usize,
    levels: usize,
    layer: Layer<'_>,
) -> Result<Written, AllocError>
    ensures { IfOk result (λ w. w ≡ layered fuel lexed.now levels layer.entry) }
{
    let Layer { head, inner } = layer;
    let Some(inside) = levels_in(levels, &head) else {
        return Ok(Written::TooDeep(head_place(&head)));
    };
    let made = all_at(alloc, lexed, fuel, inside, inner)?;
    made_of(alloc, head, made)
}

/// `#a`
#[cycle(expression)]
#[inline(never)]
fn of_enum_literal<'a>(
    alloc: Global,
    lexed: &Lexed<'_>,
    fuel: usize,
    levels: usize,
    node: &NodeRef<'a>,
    parts: &LiteralNode<'a>,
) -> Result<Written, AllocError>
    ensures { IfOk result (λ w. w ≡ layered fuel lexed.now levels (only_literal_layer lexed.now node.now parts.now)) }
{
    let layer = only_literal_layer(alloc, lexed, node, parts)?;
    of_layer(alloc, lexed, fuel, levels, layer)
}

/// A collection literal.
#[cycle(expression)]
#[inline(never)]
fn of_collection(
    alloc: Global,
    lexed: &Lexed<'_>,
    fuel: usize,
    levels: usize,
    node: &CollectionNode<'_>,
) -> Result<Written, AllocError>
    ensures { IfOk result (λ w. w ≡ layered fuel lexed.now levels (collection_layer lexed.now node.now)) }
{
    let layer = collection_layer(alloc, lexed, node)?;
    of_layer(alloc, lexed, fuel, levels, layer)
}

/// `if`
#[cycle(expression)]
#[inline(never)]
fn of_choice<'a>(
    alloc: Global,
    lexed: &Lexed<'_>,
    fuel: usize,
    levels: usize,
    node: &NodeRef<'a>,
    parts: &ChoiceNode<'a>,
) -> Result<Written, AllocError>
    ensures { IfOk result (λ w. w ≡ layered fuel lexed.now levels (choice_layer lexed.now node.now parts.now)) }
{
    let layer = choice_layer(alloc, lexed, node, parts)?;
    of_layer(alloc, lexed, fuel, levels, layer)
}

/// `let`
#[cycle(expression)]
#[inline(never)]
fn of_let<'a>(
    alloc: Global,
    lexed: &Lexed<'_>,
    fuel: usize,
    levels: usize,
    node: &NodeRef<'a>,
    parts: &LetNode<'a>,
) -> Result<Written, AllocError>
    ensures { IfOk result (λ w. w ≡ layered fuel lexed.now levels (let_layer lexed.now node.now parts.now)) }
{
    let layer = let_layer(alloc, lexed, node, parts)?;
    of_layer(alloc, lexed, fuel, levels, layer)
}

/// Further binds of a `let`, and its body.
#[cycle(expression)]
#[inline(never)]
fn of_binds<'a>(
    alloc: Global,
    lexed: &Lexed<'_>,
    fuel: usize,
    levels: usize,
    word: Option<Place>,
    binds: Parts<'a>,
    body: NodeRef<'a>,
) -> Result<Written, AllocError>
    ensures { IfOk result (λ w. w ≡ layered fuel lexed.now levels (binds_layer lexed.now word binds.entry body.entry)) }
{
    let layer = binds_layer(alloc, lexed, word, binds, body)?;
    of_layer(alloc, lexed, fuel, levels, layer)
}

/// A dot or an arrow behind a source.
#[cycle(expression)]
#[inline(never)]
fn of_step<'a>(
    alloc: Global,
    lexed: &Lexed<'_>,
    fuel: usize,
    levels: usize,
    source: Piece<'a>,
    node: &NodeRef<'a>,
) -> Result<Written, AllocError>
    ensures { IfOk result (λ w. w ≡ layered fuel lexed.now levels (step_layer lexed.now source.entry node.now)) }
{
    let layer = step_layer(alloc, lexed, source, node)?;
    of_layer(alloc, lexed, fuel, levels, layer)
}

/// The expression at a piece, in which at most so many forms are nested.
#[cycle(expression)]
fn at_piece(
    alloc: Global,
    lexed: &Lexed<'_>,
    fuel: usize,
    levels: usize,
    piece: Piece<'_>,
) -> Result<Written, AllocError>
    ensures { IfOk result (λ w. w ≡ expression_in fuel lexed.now levels piece.entry) }
{
    match piece {
        Piece::Node(node) => at_node(alloc, lexed, fuel, levels, &node),
        Piece::Row(first, behind) => at_row(alloc, lexed, fuel, levels, first, behind),
        Piece::Binds(word, binds, body) => match deeper(fuel) {
            None => Ok(left_out()),
            Some(fuel) => of_binds(alloc, lexed, fuel, levels, word, binds, body),
        },
    }
}

/// The expression at a node, in which at most so many forms are nested.
#[cycle(expression)]
fn at_node(
    alloc: Global,
    lexed: &Lexed<'_>,
    fuel: usize,
    levels: usize,
    node: &NodeRef<'_>,
) -> Result<Written, AllocError>
    ensures { IfOk result (λ w. w ≡ expression_in fuel lexed.now levels (Node node.now)) }
{
    match deeper(fuel) {
        None => Ok(left_out()),
        Some(fuel) => of_node(alloc, lexed, fuel, levels, &plain(node)),
    }
}

/// The same in a box.
#[cycle(expression)]
fn boxed_at(
    alloc: Global,
    lexed: &Lexed<'_>,
    fuel: usize,
    levels: usize,
    node: &NodeRef<'_>,
) -> Result<Boxed<Written>, AllocError>
    ensures { IfOk result (λ w. w ≡ expression_in fuel lexed.now levels (Node node.now)) }
{
    Boxed::new(alloc, at_node(alloc, lexed, fuel, levels, node)?)
}

/// The expression at a row of operands or steps, in which at most so many forms are nested.
#[cycle(expression)]
fn at_row<'a>(
    alloc: Global,
    lexed: &Lexed<'_>,
    fuel: usize,
    levels: usize,
    first: NodeRef<'a>,
    behind: Items<Behind<'a>>,
) -> Result<Written, AllocError>
    ensures { IfOk result (λ w. w ≡ expression_in fuel lexed.now levels (Row first.entry behind.entry)) }
{
    match deeper(fuel) {
        None => Ok(left_out()),
        Some(fuel) => of_row(alloc, lexed, fuel, levels, first, behind),
    }
}

/// A row, whose last part is the outermost.
#[cycle(expression)]
fn of_row<'a>(
    alloc: Global,
    lexed: &Lexed<'_>,
    fuel: usize,
    levels: usize,
    first: NodeRef<'a>,
    mut behind: Items<Behind<'a>>,
) -> Result<Written, AllocError>
    ensures { IfOk result (λ w. w ≡ layered fuel lexed.now levels (row_layer lexed.now first.entry (reverse behind.entry))) }
{
    match behind.pop() {
        None => at_node(alloc, lexed, fuel, levels, &first),
        Some(Behind::Operator(operator, operand)) => of_binary(
            alloc, lexed, fuel, levels, first, behind, &operator, &operand,
        ),
        Some(Behind::Step(node)) => {
            of_step(alloc, lexed, fuel, levels, Piece::Row(first, behind), &node)
        }
    }
}

/// A row, the operator behind it, and the operand behind that.
#[cycle(expression)]
fn of_binary<'a>(
    alloc: Global,
    lexed: &Lexed<'_>,
    fuel: usize,
    levels: usize,
    first: NodeRef<'a>,
    before: Items<Behind<'a>>,
    operator: &NodeRef<'_>,
    operand: &NodeRef<'_>,
) -> Result<Written, AllocError>
    ensures { IfOk result (λ w. w ≡ layered fuel lexed.now levels (behind_layer lexed.now (Row first.entry before.entry) (Operator operator.now operand.now))) }
{
    let place = place_at(lexed, operator);
    let Some(inside) = deeper(levels) else {
        return Ok(Written::TooDeep(place));
    };
    let left = Boxed::new(alloc, at_row(alloc, lexed, fuel, inside, first, before)?)?;
    let right = boxed_at(alloc, lexed, fuel, inside, operand)?;
    Ok(Written::Binary(place, binary_operator(operator), left, right))
}

/// Operands with operators between them.
#[cycle(expression)]
#[inline(never)]
fn of_chain(
    alloc: Global,
    lexed: &Lexed<'_>,
    fuel: usize,
    levels: usize,
    node: ChainNode<'_>,
) -> Result<Written, AllocError>
    ensures { IfOk result (λ w. w ≡ layered fuel lexed.now levels (chain_layer lexed.now node.entry)) }
{
    let ChainNode {
        mut operands,
        operators,
    } = node;
    match operands.next() {
        None => Ok(left_out()),
        Some(first) => {
            let behind = operators_of(alloc, operators, operands)?;
            of_row(alloc, lexed, fuel, levels, first, behind)
        }
    }
}

/// A source with steps behind it.
#[cycle(expression)]
#[inline(never)]
fn of_postfix(
    alloc: Global,
    lexed: &Lexed<'_>,
    fuel: usize,
    levels: usize,
    node: PostfixNode<'_>,
) -> Result<Written, AllocError>
    ensures { IfOk result (λ w. w ≡ layered fuel lexed.now levels (postfix_layer lexed.now node.entry)) }
{
    let steps = steps_of(alloc, node.steps)?;
    of_row(alloc, lexed, fuel, levels, node.source, steps)
}

/// An operator and its operand.
#[cycle(expression)]
#[inline(never)]
fn of_unary(
    alloc: Global,
    lexed: &Lexed<'_>,
    fuel: usize,
    levels: usize,
    node: &UnaryNode<'_>,
) -> Result<Written, AllocError>
    ensures { IfOk result (λ w. w ≡ layered fuel lexed.now levels (unary_layer lexed.now node.now)) }
{
    let Some(operator) = &node.operator else {
        return Ok(left_out());
    };
    let place = place_at(lexed, operator);
    let Some(inside) = deeper(levels) else {
        return Ok(Written::TooDeep(place));
    };
    let operand = boxed_at(alloc, lexed, fuel, inside, &node.operand)?;
    Ok(Written::Unary(place, unary_operator(operator), operand))
}

/// What stands in parentheses.
#[cycle(expression)]
#[inline(never)]
fn of_group<'a>(
    alloc: Global,
    lexed: &Lexed<'_>,
    fuel: usize,
    levels: usize,
    node: &NodeRef<'a>,
    parts: &GroupNode<'a>,
) -> Result<Written, AllocError>
    ensures { IfOk result (λ w. w ≡ layered fuel lexed.now levels (group_layer lexed.now node.now parts.now)) }
{
    let place = place_of_mark(lexed, TokenKind::LeftParen, node);
    let inner = boxed_at(alloc, lexed, fuel, levels, &parts.expression)?;
    Ok(Written::Group(place, inner))
}

/// A name, an enumeration's literal or a call.
#[cycle(expression)]
#[inline(never)]
fn of_named(
    alloc: Global,
    lexed: &Lexed<'_>,
    fuel: usize,
    levels: usize,
    node: &NamedNode<'_>,
) -> Result<Written, AllocError>
    ensures { IfOk result (λ w. w ≡ layered fuel lexed.now levels (named_layer lexed.now node.now)) }
{
    if node.arguments.is_none() {
        return of_bare_name(alloc, lexed, fuel, levels, node);
    }
    let layer = named_layer(alloc, lexed, node)?;
    of_layer(alloc, lexed, fuel, levels, layer)
}

/// A node that is no row of operands, unary, `let` or source with steps.
#[tactic(auto, unfolding(crate::specs::Layers::primary_layer))]
#[cycle(expression)]
#[inline(never)]
fn of_primary(
    alloc: Global,
    lexed: &Lexed<'_>,
    fuel: usize,
    levels: usize,
    node: &NodeRef<'_>,
) -> Result<Written, AllocError>
    ensures { IfOk result (λ w. w ≡ layered fuel lexed.now levels (primary_layer lexed.now node.now)) }
{
    if let Some(parts) = PrimaryNode::of(node) {
        return of_literal(alloc, lexed, fuel, levels, &parts);
    }
    if let Some(parts) = LiteralNode::of(node) {
        return of_enum_literal(alloc, lexed, fuel, levels, node, &parts);
    }
    if let Some(parts) = CollectionNode::of(node) {
        return of_collection(alloc, lexed, fuel, levels, &parts);
    }
    if let Some(parts) = NamedNode::of(node) {
        return of_named(alloc, lexed, fuel, levels, &parts);
    }
    if let Some(parts) = ChoiceNode::of(node) {
        return of_choice(alloc, lexed, fuel, levels, node, &parts);
    }
    match GroupNode::of(node) {
        None => Ok(left_out()),
        Some(parts) => of_group(alloc, lexed, fuel, levels, node, &parts),
    }
}

/// The expression at a node that stands for no other.
#[tactic(auto, unfolding(crate::specs::Layers::node_layer))]
#[cycle(expression)]
fn of_node(
    alloc: Global,
    lexed: &Lexed<'_>,
    fuel: usize,
    levels: usize,
    node: &NodeRef<'_>,
) -> Result<Written, AllocError>
    ensures { IfOk result (λ w. w ≡ layered fuel lexed.now levels (node_layer lexed.now node.now)) }
{
    if let Some(parts) = ChainNode::of(node) {
        return of_chain(alloc, lexed, fuel, levels, parts);
    }
    if let Some(parts) = UnaryNode::of(node) {
        return of_unary(alloc, lexed, fuel, levels, &parts);
    }
    if let Some(parts) = LetNode::of(node) {
        return of_let(alloc, lexed, fuel, levels, node, &parts);
    }
    match PostfixNode::of(node) {
        None => of_primary(alloc, lexed, fuel, levels, node),
        Some(parts) => of_postfix(alloc, lexed, fuel, levels, parts),
    }
}

/// The expression at a node of the tree that these tokens were read as.
#[tactic(auto, unfolding(crate::specs::Expressions::written))]
pub fn written(alloc: Global, lexed: &Lexed<'_>, node: &NodeRef<'_>) -> Result<Written, AllocError>
    ensures { IfOk result (λ w. w ≡ written lexed.now node.now) }
{
    at_node(alloc, lexed, MAX_FORMS, MAX_DEPTH, node)
}
