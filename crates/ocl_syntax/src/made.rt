ghost use Rattle.std.specs.Prelude.{◌≡◌, IfOk, IfSome, OnOk, ◌+◌};
ghost use Rattle.ocl_syntax.specs.Made.{argument, arguments, arguments_if, behind_argument, behind_part, behind_start, deeper, first, head_place, left_out, levels_in, made_of, part, parts, rest, start_of};

use crate::layer::{ArgumentHead, Head, PartHead};
use crate::{Argument, Written, WrittenBinary, WrittenPart, WrittenUnary};
use class_decls::{Name, TypeDecl};
use ocl_values::Kind;
use std::alloc::{AllocError, Global};
use std::marker::Model;
use use_lists::{Boxed, Items};
use use_text::Place;

/// One level less, if one is left.
pub(crate) fn deeper(levels: usize) -> Option<usize>
    ensures value { result ≡ deeper levels }
    ensures below { IfSome result (λ less. levels ≡ less + 1) }
{
    levels.checked_sub(1)
}

/// What is said of a node that lacks a part.
pub(crate) fn left_out() -> Written
    ensures { result ≡ left_out }
{
    Written::TooDeep(Place { line: 0, col: 0 })
}

/// Expressions that were made, to be taken one after the other.
#[derive(Drop)]
pub(crate) struct Made {
    reversed: Vec<Written>,
}

impl Model for Made {
    ghost use Rattle.std.specs.Prelude.{List, reverse};
    ghost use Rattle.std.specs.Coded.{codes};
    ghost use Rattle.ocl_syntax.specs.contracts.tree.Written as e;
    ghost use Rattle.ocl_syntax.specs.declared.tree.Written.{Written};

    ghost Value = { List Written };

    ghost coded = { Prim.hlevel (codes, e.the_row.coded) };

    ghost view = { λ m. reverse m.reversed.items };
}

impl Made {
    /// These expressions.
    pub(crate) fn of(made: Vec<Written>) -> Made
        ensures { result ≡ made.items }
    {
        let mut reversed = made;
        reversed.reverse();
        Made { reversed }
    }

    /// The first that is left.
    fn take(&mut self) -> Written
        ensures value { result ≡ first self.old }
        ensures left { self.new ≡ rest self.old }
    {
        match self.reversed.pop() {
            None => left_out(),
            Some(expression) => expression,
        }
    }

    /// The same in a box.
    fn boxed(&mut self, alloc: Global) -> Result<Boxed<Written>, AllocError>
        ensures value { IfOk result (λ b. b ≡ first self.old) }
        ensures left { self.new ≡ rest self.old }
    {
        Boxed::new(alloc, self.take())
    }
}

fn start(
    alloc: Global,
    has_start: bool,
    made: &mut Made,
) -> Result<Option<Boxed<Written>>, AllocError>
    ensures value { IfOk result (λ s. s ≡ start_of has_start made.old) }
    ensures left { OnOk result (made.new ≡ behind_start has_start made.old) }
{
    if has_start {
        Ok(Some(made.boxed(alloc)?))
    } else {
        Ok(None)
    }
}

fn argument(alloc: Global, head: ArgumentHead, made: &mut Made) -> Result<Argument, AllocError>
    ensures value { IfOk result (λ a. a ≡ argument head made.old) }
    ensures left { OnOk result (made.new ≡ behind_argument head made.old) }
{
    match head {
        ArgumentHead::Item(of_type, has_start) => {
            let expression = made.take();
            let start = start(alloc, has_start, made)?;
            Ok(Argument::Item(expression, of_type, start))
        }
        ArgumentHead::Accumulator(of_type, has_start) => {
            let expression = made.take();
            let start = start(alloc, has_start, made)?;
            Ok(Argument::Accumulator(expression, of_type, start))
        }
        ArgumentHead::Body => Ok(Argument::Body(made.take())),
    }
}

fn arguments(
    alloc: Global,
    heads: Items<ArgumentHead>,
    mut made: Made,
) -> Result<Items<Argument>, AllocError>
    ensures { IfOk result (λ a. a ≡ arguments heads made) }
{
    let mut found = Vec::new(alloc);
    'heads: for head in heads.into_vec() {
        found.push(argument(alloc, head, &mut made)?)?;
    }
    Ok(Items::from_vec(found))
}

fn arguments_if(
    alloc: Global,
    heads: Option<Items<ArgumentHead>>,
    made: Made,
) -> Result<Option<Items<Argument>>, AllocError>
    ensures { IfOk result (λ a. a ≡ arguments_if heads made) }
{
    match heads {
        None => Ok(None),
        Some(heads) => Ok(Some(arguments(alloc, heads, made)?)),
    }
}

fn part(head: PartHead, made: &mut Made) -> WrittenPart
    ensures value { result ≡ part head made.old }
    ensures left { made.new ≡ behind_part head made.old }
{
    match head {
        PartHead::One => WrittenPart::One(made.take()),
        PartHead::Range(place) => {
            let first = made.take();
            let last = made.take();
            WrittenPart::Range(place, first, last)
        }
    }
}

fn parts(
    alloc: Global,
    heads: Items<PartHead>,
    mut made: Made,
) -> Result<Items<WrittenPart>, AllocError>
    ensures { IfOk result (λ a. a ≡ parts heads made) }
{
    let mut found = Vec::new(alloc);
    'heads: for head in heads.into_vec() {
        found.push(part(head, &mut made))?;
    }
    Ok(Items::from_vec(found))
}

/// What is seldom there, in a box, so that a node takes little room.
pub(crate) fn boxed_if<T: Drop>(
    alloc: Global,
    value: Option<T>,
) -> Result<Option<Boxed<T>>, AllocError>
    ensures { IfOk result (λ b. b ≡ value) }
{
    match value {
        None => Ok(None),
        Some(value) => Ok(Some(Boxed::new(alloc, value)?)),
    }
}

fn named(
    alloc: Global,
    name: Name,
    literal: Option<Name>,
    is_before: bool,
    heads: Option<Items<ArgumentHead>>,
    made: Made,
) -> Result<Written, AllocError>
    ensures { IfOk result (λ w. w ≡ made_of (Head.Named name literal is_before heads) made) }
{
    let literal = boxed_if(alloc, literal)?;
    let arguments = arguments_if(alloc, heads, made)?;
    Ok(Written::Named(name, literal, is_before, arguments))
}

fn collection(
    alloc: Global,
    place: Place,
    kind: Kind,
    heads: Items<PartHead>,
    made: Made,
) -> Result<Written, AllocError>
    ensures { IfOk result (λ w. w ≡ made_of (Head.Collection place kind heads) made) }
{
    let parts = parts(alloc, heads, made)?;
    Ok(Written::Collection(place, kind, parts))
}

fn choice(alloc: Global, place: Place, mut made: Made) -> Result<Written, AllocError>
    ensures { IfOk result (λ w. w ≡ made_of (Head.If place) made) }
{
    let condition = made.boxed(alloc)?;
    let consequence = made.boxed(alloc)?;
    let alternative = made.boxed(alloc)?;
    Ok(Written::If(place, condition, consequence, alternative))
}

fn bind(
    alloc: Global,
    place: Place,
    name: Name,
    of_type: Option<TypeDecl>,
    mut made: Made,
) -> Result<Written, AllocError>
    ensures { IfOk result (λ w. w ≡ made_of (Head.Let place name of_type) made) }
{
    let value = made.boxed(alloc)?;
    let behind = made.boxed(alloc)?;
    let of_type = boxed_if(alloc, of_type)?;
    Ok(Written::Let(place, name, of_type, value, behind))
}

fn unary(
    alloc: Global,
    place: Place,
    operator: WrittenUnary,
    mut made: Made,
) -> Result<Written, AllocError>
    ensures { IfOk result (λ w. w ≡ made_of (Head.Unary place operator) made) }
{
    let operand = made.boxed(alloc)?;
    Ok(Written::Unary(place, operator, operand))
}

fn binary(
    alloc: Global,
    place: Place,
    operator: WrittenBinary,
    mut made: Made,
) -> Result<Written, AllocError>
    ensures { IfOk result (λ w. w ≡ made_of (Head.Binary place operator) made) }
{
    let left = made.boxed(alloc)?;
    let right = made.boxed(alloc)?;
    Ok(Written::Binary(place, operator, left, right))
}

fn dot(
    alloc: Global,
    name: Name,
    is_before: bool,
    heads: Option<Items<ArgumentHead>>,
    mut made: Made,
) -> Result<Written, AllocError>
    ensures { IfOk result (λ w. w ≡ made_of (Head.Dot name is_before heads) made) }
{
    let source = made.boxed(alloc)?;
    let arguments = arguments_if(alloc, heads, made)?;
    Ok(Written::Dot(source, name, is_before, arguments))
}

fn arrow(
    alloc: Global,
    name: Name,
    heads: Option<Items<ArgumentHead>>,
    mut made: Made,
) -> Result<Written, AllocError>
    ensures { IfOk result (λ w. w ≡ made_of (Head.Arrow name heads) made) }
{
    let source = made.boxed(alloc)?;
    let arguments = arguments_if(alloc, heads, made)?;
    Ok(Written::Arrow(source, name, arguments))
}

fn group(alloc: Global, place: Place, mut made: Made) -> Result<Written, AllocError>
    ensures { IfOk result (λ w. w ≡ made_of (Head.Group place) made) }
{
    let inner = made.boxed(alloc)?;
    Ok(Written::Group(place, inner))
}

/// The expression of a form and of the expressions in it.
pub(crate) fn made_of(alloc: Global, head: Head, mut made: Made) -> Result<Written, AllocError>
    ensures { IfOk result (λ w. w ≡ made_of head made) }
{
    match head {
        Head::Lacking => Ok(left_out()),
        Head::Same => Ok(made.take()),
        Head::Literal(place, literal) => Ok(Written::Literal(place, literal)),
        Head::OnlyLiteral(place, name) => Ok(Written::OnlyLiteral(place, name)),
        Head::Named(name, literal, is_before, heads) => {
            named(alloc, name, literal, is_before, heads, made)
        }
        Head::Collection(place, kind, heads) => collection(alloc, place, kind, heads, made),
        Head::If(place) => choice(alloc, place, made),
        Head::Let(place, name, of_type) => bind(alloc, place, name, of_type, made),
        Head::Unary(place, operator) => unary(alloc, place, operator, made),
        Head::Binary(place, operator) => binary(alloc, place, operator, made),
        Head::Dot(name, is_before, heads) => dot(alloc, name, is_before, heads, made),
        Head::Arrow(name, heads) => arrow(alloc, name, heads, made),
        Head::Group(place) => group(alloc, place, made),
    }
}

/// The levels that are left inside a form: each takes one but parentheses.
pub(crate) fn levels_in(levels: usize, head: &Head) -> Option<usize>
    ensures { result ≡ levels_in levels head.now }
{
    match head {
        Head::Lacking => Some(levels),
        Head::Same => Some(levels),
        Head::Group(_) => Some(levels),
        _ => deeper(levels),
    }
}

/// Where a form is spoken of.
pub(crate) fn head_place(head: &Head) -> Place
    ensures { result ≡ head_place head.now }
{
    match head {
        Head::Lacking => Place { line: 0, col: 0 },
        Head::Same => Place { line: 0, col: 0 },
        Head::Literal(place, _)
        | Head::OnlyLiteral(place, _)
        | Head::Collection(place, _, _)
        | Head::If(place)
        | Head::Unary(place, _)
        | Head::Binary(place, _)
        | Head::Group(place) => *place,
        Head::Named(name, _, _, _)
        | Head::Let(_, name, _)
        | Head::Dot(name, _, _)
        | Head::Arrow(name, _) => name.place,
    }
}
