ghost use Rattle.std.specs.Prelude.{◌≡◌, IfOk};
ghost use Rattle.std.specs.Option.{option_map};
ghost use Rattle.use_decls.specs.Types.{kind_at, named_type, type_decl, type_in};

use crate::lexed::Lexed;
use class_decls::TypeDecl;
use ocl_values::Kind;
use std::alloc::{AllocError, Global};
use use_lists::Items;
use use_nodes::{NodeRef, TypeNode};
use use_text::TokenKind;

/// How deep types may nest.
const MAX_DEPTH: usize = 200;

/// The kind of collection that a word names.
pub fn kind_at(word: &NodeRef<'_>) -> Kind
    ensures { result ≡ kind_at word.now }
{
    if word.is_token(TokenKind::Set) {
        Kind::Set
    } else if word.is_token(TokenKind::OrderedSet) {
        Kind::OrderedSet
    } else if word.is_token(TokenKind::Bag) {
        Kind::Bag
    } else {
        Kind::Sequence
    }
}

fn named_type(
    alloc: Global,
    lexed: &Lexed<'_>,
    outer: Items<Kind>,
    word: &NodeRef<'_>,
) -> Result<TypeDecl, AllocError>
    ensures { IfOk result (λ t. t ≡ named_type lexed.now outer word.now) }
{
    Ok(TypeDecl {
        kinds: outer,
        name: lexed.name_at(alloc, word)?,
    })
}

/// A type in collections of these kinds that nests at most `depth` deep.
fn type_in(
    alloc: Global,
    lexed: &Lexed<'_>,
    depth: usize,
    mut outer: Items<Kind>,
    node: &NodeRef<'_>,
) -> Result<TypeDecl, AllocError>
    ensures { IfOk result (λ t. t ≡ type_in depth lexed.now outer node.now) }
{
    if depth == 0 {
        return named_type(alloc, lexed, outer, node);
    }
    match TypeNode::of(node) {
        None => named_type(alloc, lexed, outer, node),
        Some(node) => {
            let TypeNode { word, element } = node;
            match element {
                None => named_type(alloc, lexed, outer, &word),
                Some(element) => {
                    outer.push(kind_at(&word))?;
                    type_in(alloc, lexed, depth - 1, outer, &element)
                }
            }
        }
    }
}

/// A type.
pub fn type_decl(
    alloc: Global,
    lexed: &Lexed<'_>,
    node: &NodeRef<'_>,
) -> Result<TypeDecl, AllocError>
    ensures { IfOk result (λ t. t ≡ type_decl lexed.now node.now) }
{
    type_in(alloc, lexed, MAX_DEPTH, Items::new(alloc), node)
}

/// A type that may be absent.
pub fn type_if(
    alloc: Global,
    lexed: &Lexed<'_>,
    node: &Option<NodeRef<'_>>,
) -> Result<Option<TypeDecl>, AllocError>
    ensures { IfOk result (λ t. t ≡ option_map (type_decl lexed.now) node.now) }
{
    match node {
        None => Ok(None),
        Some(node) => Ok(Some(type_decl(alloc, lexed, node)?)),
    }
}
