ghost use Rattle.std.specs.Prelude.{◌≡◌, ◌<◌, ◌==◌, ℕ, List, [], ◌∷◌, if◌then◌else◌, length, slice_get, Some, IfOk, IfSome};
ghost use Rattle.grammar_core.specs.Choices.{AreByKind, IsByKind, choice};
ghost use Rattle.grammar_core.specs.Derives.{begins, kinds};
ghost use Rattle.grammar_core.specs.declared.table.Prod.{Prod};
ghost use Rattle.grammar_core.specs.declared.table.Prod.TheVariants.{Case, Star};

use crate::{Branch, Prod};
use std::alloc::{AllocError, Global};
use use_lists::Items;
use use_text::Token;

/// How many kinds of token have a cell. Others are looked up along the lists of a production.
const CELLS: usize = 128;

/// What a choice leads to, by the kind of the next token.
pub(crate) type Cells = Items<Option<u16>>;

/// Cells that all lead to one production, or to none.
fn cells_with(alloc: Global, to: Option<u16>) -> Result<Vec<Option<u16>>, AllocError>
    ensures { IfOk result (λ cells. (k : ℕ) → k < length cells.items → slice_get cells.items k ≡ Some to) }
{
    let mut cells = Vec::with_capacity(alloc, CELLS)?;
    'cells: for _ in 0..CELLS {
        cells.push(to)?;
    }
    Ok(cells)
}

/// Puts a production into the cell of a kind, if there is one.
fn set_cell(cells: &mut Vec<Option<u16>>, kind: u16, to: u16)
    ensures long { length cells.new.items ≡ length cells.old.items }
    ensures set { (k : ℕ) → k < length cells.old.items → slice_get cells.new.items k ≡ (if k == kind then Some (Some to) else slice_get cells.old.items k) }
{
    let at = kind as usize;
    if at < cells.len() {
        cells[at] = Some(to);
    }
}

/// Puts a production into the cells of some kinds.
fn set_all(cells: &mut Vec<Option<u16>>, firsts: &[u16], to: u16)
    ensures long { length cells.new.items ≡ length cells.old.items }
    ensures set { (k : ℕ) → k < length cells.old.items → slice_get cells.new.items k
        ≡ (if begins (k ∷ []) 0 firsts.now then Some (Some to) else slice_get cells.old.items k) }
{
    'kinds: for kind in firsts {
        set_cell(cells, *kind, to);
    }
}

fn cells_of_branches(
    alloc: Global,
    branches: &[Branch],
    other: Option<u16>,
) -> Result<Vec<Option<u16>>, AllocError>
    ensures { IfOk result (λ cells. IsByKind (Case branches.now other) cells.items) }
{
    let mut cells = cells_with(alloc, other)?;
    let mut i = branches.len();
    'branches: while i > 0 {
        i -= 1;
        set_all(&mut cells, branches[i].firsts.as_slice(), branches[i].to);
    }
    Ok(cells)
}

fn cells_of_star(alloc: Global, firsts: &[u16], q: u16) -> Result<Vec<Option<u16>>, AllocError>
    ensures { IfOk result (λ cells. IsByKind (Star firsts.now q) cells.items) }
{
    let mut cells = cells_with(alloc, None)?;
    set_all(&mut cells, firsts, q);
    Ok(cells)
}

fn cells_of(alloc: Global, x: &Prod) -> Result<Cells, AllocError>
    ensures { IfOk result (λ cells. IsByKind x.now cells) }
{
    match x {
        Prod::Tok(_) | Prod::Call(_) | Prod::Seq(_) => Ok(Items::new(alloc)),
        Prod::Case(branches, other) => Ok(Items::from_vec(cells_of_branches(
            alloc,
            branches.as_slice(),
            *other,
        )?)),
        Prod::Star(firsts, q) => {
            Ok(Items::from_vec(cells_of_star(alloc, firsts.as_slice(), *q)?))
        }
    }
}

/// The cells of each production.
pub(crate) fn all_cells(alloc: Global, prods: &[Prod]) -> Result<Vec<Cells>, AllocError>
    ensures { IfOk result (λ all. AreByKind prods.now all.items) }
{
    let mut all = Vec::with_capacity(alloc, prods.len())?;
    'prods: for x in prods {
        all.push(cells_of(alloc, x)?)?;
    }
    Ok(all)
}

/// What a choice leads to at a place, where a cell tells it.
pub(crate) fn told_choice(all: &[Cells], tokens: &[Token], at: u32, p: u16) -> Option<Option<u16>>
    ensures { IfSome result (λ told. (prods : List Prod) (x : Prod) → AreByKind prods all.now → slice_get prods p ≡ Some x
        → told ≡ choice (kinds tokens.now) at x) }
{
    match (tokens.get(at as usize), all.get(p as usize)) {
        (Some(token), Some(cells)) => cells.get(token.kind as usize).copied(),
        _ => None,
    }
}
