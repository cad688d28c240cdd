ghost use Rattle.std.specs.Prelude.{◌≡◌, ◌<◌, All, IfOk, IfSome, IsTrue};
ghost use Rattle.grammar_core.specs.Derives.{kinds};
ghost use Rattle.use_session.specs.Shapes.{IsShape, IsTreeOf};

use grammar_core::Tree;
use std::alloc::{AllocError, Global};
use std::marker::Model;
use std::mem;
use use_text::Token;

/// For how many lists of kinds a tree is kept.
const PLACES: usize = 64;

/// The most tokens of a command whose tree is kept.
const MAX_TOKENS: usize = 1_024;

/// The kinds of the tokens of a command, and its tree unless that was taken out.
#[derive(Drop)]
pub(crate) struct Shape {
    kinds: Vec<u16>,
    tree: Option<Tree>,
}

/// The trees of commands that were read, by the kinds of their tokens. The kinds alone tell the tree,
/// and most commands of a script have the kinds of an earlier one.
#[derive(Drop)]
pub(crate) struct Shapes {
    alloc: Global,
    places: Vec<Shape>,
}

impl Model for Shapes {
    ghost use Rattle.std.specs.Prelude.{List, All};
    ghost use Rattle.use_session.specs.declared.shapes.Shape.{Shape};
    ghost use Rattle.use_session.specs.Shapes.{IsShape};

    ghost Value = { List Shape };

    ghost view = { λ s. s.places.items };

    ghost invariant = { λ s. All IsShape s.places.items };
}

/// Where the tree of a command with these tokens is kept, and no other's.
fn place_of(tokens: &[Token]) -> usize
    ensures { result < 64 }
{
    let mut sum: u32 = 0;
    'tokens: for token in tokens {
        sum = sum.wrapping_mul(31).wrapping_add(token.kind as u32);
    }
    sum as usize % PLACES
}

/// Whether tokens are of these kinds.
fn are_of(known: &[u16], tokens: &[Token]) -> bool
    ensures { IsTrue result → kinds tokens.now ≡ known.now }
{
    if known.len() != tokens.len() {
        return false;
    }
    'tokens: for (i, token) in tokens.iter().enumerate() {
        if token.kind != known[i] {
            return false;
        }
    }
    true
}

/// The kinds of tokens.
fn kinds_of(alloc: Global, tokens: &[Token]) -> Result<Vec<u16>, AllocError>
    ensures { IfOk result (λ v. v.items ≡ kinds tokens.now) }
{
    let mut found = Vec::new(alloc);
    'tokens: for token in tokens {
        found.push(token.kind)?;
    }
    Ok(found)
}

impl Shape {
    /// Takes the tree out, where it is that of these tokens.
    fn take(&mut self, tokens: &[Token]) -> Option<Tree>
        requires { IsShape self.old }
        ensures shape { IsShape self.new }
        ensures tree { IfSome result (IsTreeOf tokens.now) }
    {
        if are_of(self.kinds.as_slice(), tokens) {
            mem::replace(&mut self.tree, None)
        } else {
            None
        }
    }

    /// Keeps the tree of these tokens, and gives back the one that was kept.
    fn keep(
        &mut self,
        alloc: Global,
        tokens: &[Token],
        tree: Tree,
    ) -> Result<Option<Tree>, AllocError>
        requires shape { IsShape self.old }
        requires tree { IsTreeOf tokens.now tree }
        ensures { IsShape self.new }
    {
        if !are_of(self.kinds.as_slice(), tokens) {
            self.kinds = kinds_of(alloc, tokens)?;
        }
        Ok(mem::replace(&mut self.tree, Some(tree)))
    }
}

/// Places without trees.
fn no_shapes(alloc: Global) -> Result<Vec<Shape>, AllocError>
    ensures { IfOk result (λ v. All IsShape v.items) }
{
    let mut places = Vec::new(alloc);
    'places: for _ in 0..PLACES {
        places.push(Shape {
            kinds: Vec::new(alloc),
            tree: None,
        })?;
    }
    Ok(places)
}

impl Shapes {
    /// Without trees.
    pub(crate) fn new(alloc: Global) -> Result<Shapes, AllocError> {
        Ok(Shapes {
            alloc,
            places: no_shapes(alloc)?,
        })
    }

    /// Takes out the tree of a command with tokens of these kinds, if it is kept.
    pub(crate) fn take(&mut self, tokens: &[Token]) -> Option<Tree>
        ensures { IfSome result (IsTreeOf tokens.now) }
    {
        match self.places.get_mut(place_of(tokens)) {
            Some(shape) => shape.take(tokens),
            None => None,
        }
    }

    /// Keeps the tree of a command with these tokens. Gives back a tree that is not kept.
    pub(crate) fn keep(&mut self, tokens: &[Token], tree: Tree) -> Result<Option<Tree>, AllocError>
        requires { IsTreeOf tokens.now tree }
    {
        if tokens.len() > MAX_TOKENS {
            return Ok(Some(tree));
        }
        match self.places.get_mut(place_of(tokens)) {
            Some(shape) => shape.keep(self.alloc, tokens, tree),
            None => Ok(Some(tree)),
        }
    }
}
