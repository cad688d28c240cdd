ghost use Rattle.std.specs.Prelude.{◌≡◌};
ghost use Rattle.use_syntax.specs.Language.{language};
ghost use Rattle.ocl_core.specs.Trees.{IsSound};

use crate::queries::expression;
use crate::row_fault::RowFault;
use crate::scene::{language, made_scene};
use eval_outcomes::{Scene, is_done, shown};
use grammar_core::Grammar;
use ocl_core::Expr;
use std::alloc::{AllocError, Global};

/// A query; its value and the cells that are read, or `exhausted`; and a number of units: how many it
/// spends, or 0 where that is not asked; of a padded query, how many are left to its expression.
pub type Row = (&'static str, &'static str, usize);

/// How the queries of some rows are evaluated.
#[derive(Clone, Copy)]
pub struct How {
    /// In a postcondition.
    pub is_post: bool,
    /// After other expressions, which leave them few units.
    pub is_padded: bool,
}

/// In no postcondition, with all units.
pub const ALONE: How = How {
    is_post: false,
    is_padded: false,
};

/// In a postcondition, with all units.
pub const AT_EXIT: How = How {
    is_post: true,
    is_padded: false,
};

/// In no postcondition, with few units.
pub const PADDED: How = How {
    is_post: false,
    is_padded: true,
};

/// In a postcondition, with few units.
pub const PADDED_AT_EXIT: How = How {
    is_post: true,
    is_padded: true,
};

/// A query that pays for `filler` twenty times, then for `tail`, and then asks of an expression whether
/// it is invalid.
const BEFORE: &str =
    "? let spare = if true then if true then if true then if true then if true then if \
    true then if true then if true then if true then if true then if true then if true \
    then if true then if true then if true then if true then if true then if true then \
    if true then filler else '' endif else '' endif else '' endif else '' endif else '' \
    endif else '' endif else '' endif else '' endif else '' endif else '' endif else '' \
    endif else '' endif else '' endif else '' endif else '' endif else '' endif else '' \
    endif else '' endif else '' endif, rest = tail in (";

const BEHIND: &str = ").oclIsInvalid()";

/// How many bytes `tail` has where nothing is left to the expression: before it are spent 998,439 units,
/// and the size of `tail`.
const LONGEST: usize = 1_560;

/// How many units are spent behind the expression.
const SPENT_BEHIND: usize = 3;

/// Whether a padded query has a value over both stores where so many units are left to its expression,
/// and over neither where there is one less.
fn is_done_from(alloc: Global, scene: &Scene, e: &Expr, left: usize) -> Result<bool, AllocError>
    requires { IsSound e.now }
{
    let tail = LONGEST.saturating_sub(left);
    let last = is_done(alloc, scene, e, tail, true)?;
    let first = is_done(alloc, scene, e, tail.saturating_add(1), false)?;
    Ok(last && first)
}

/// What a query comes to, as a text, with a `tail` of so many bytes.
fn found(
    alloc: Global,
    g: &Grammar,
    scene: &Scene,
    how: How,
    text: &str,
    tail: usize,
) -> Result<String, AllocError>
    requires { g.now ≡ language }
{
    match expression(alloc, g, scene.program.model(), how.is_post, text)? {
        None => String::from_str(alloc, "no query"),
        Some(e) => shown(alloc, scene, &e, tail),
    }
}

fn joined(alloc: Global, before: &str, text: &str, behind: &str) -> Result<String, AllocError> {
    format!(in alloc; "{}{}{}", before, text, behind)
}

/// What is found of the query of a row.
fn found_alone(
    alloc: Global,
    g: &Grammar,
    scene: &Scene,
    how: How,
    row: &Row,
) -> Result<String, AllocError>
    requires { g.now ≡ language }
{
    let text = joined(alloc, "? ", row.0, "")?;
    found(alloc, g, scene, how, text.as_str(), 0)
}

/// What is found of the query of a row where the units are left to it that the row tells.
fn found_padded(
    alloc: Global,
    g: &Grammar,
    scene: &Scene,
    how: How,
    row: &Row,
) -> Result<String, AllocError>
    requires { g.now ≡ language }
{
    let text = joined(alloc, BEFORE, row.0, BEHIND)?;
    let tail = LONGEST.saturating_sub(row.2);
    found(alloc, g, scene, how, text.as_str(), tail)
}

/// Whether the query of a row spends the units that the row tells; where they are 0, that is not asked.
fn has_units(
    alloc: Global,
    g: &Grammar,
    scene: &Scene,
    how: How,
    row: &Row,
) -> Result<bool, AllocError>
    requires { g.now ≡ language }
{
    if row.2 == 0 {
        return Ok(true);
    }
    let text = joined(alloc, BEFORE, row.0, BEHIND)?;
    match expression(alloc, g, scene.program.model(), how.is_post, text.as_str())? {
        None => Ok(false),
        Some(e) => {
            let left = row.2.saturating_add(SPENT_BEHIND);
            Ok(is_done_from(alloc, scene, &e, left)?)
        }
    }
}

/// What is found where a query has another value than its row tells, or spends other units.
fn other_alone(
    alloc: Global,
    g: &Grammar,
    scene: &Scene,
    how: How,
    row: &Row,
) -> Result<Option<String>, AllocError>
    requires { g.now ≡ language }
{
    let text = found_alone(alloc, g, scene, how, row)?;
    if text.as_str() != row.1 {
        return Ok(Some(format!(in alloc; "{}: {}", row.0, text.as_str())?));
    }
    if has_units(alloc, g, scene, how, row)? {
        Ok(None)
    } else {
        Ok(Some(format!(in alloc; "{}: other units", row.0)?))
    }
}

/// What is found where a query has another value than its row tells, with few units left to it.
fn other_padded(
    alloc: Global,
    g: &Grammar,
    scene: &Scene,
    how: How,
    row: &Row,
) -> Result<Option<String>, AllocError>
    requires { g.now ≡ language }
{
    let text = found_padded(alloc, g, scene, how, row)?;
    if text.as_str() == row.1 {
        Ok(None)
    } else {
        Ok(Some(format!(in alloc; "{} in {}: {}", row.0, row.2, text.as_str())?))
    }
}

/// What is found where a query is not as its row tells.
fn other_of(
    alloc: Global,
    g: &Grammar,
    scene: &Scene,
    how: How,
    row: &Row,
) -> Result<Option<String>, AllocError>
    requires { g.now ≡ language }
{
    if how.is_padded {
        other_padded(alloc, g, scene, how, row)
    } else {
        other_alone(alloc, g, scene, how, row)
    }
}

fn rows_hold_in(
    alloc: Global,
    g: &Grammar,
    scene: &Scene,
    how: How,
    rows: &[Row],
) -> Result<(), RowFault>
    requires { g.now ≡ language }
{
    'rows: for row in rows {
        if let Some(other) = other_of(alloc, g, scene, how, row)? {
            return Err(RowFault::Other(other));
        }
    }
    Ok(())
}

fn rows_hold_by(alloc: Global, g: &Grammar, how: How, rows: &[Row]) -> Result<(), RowFault>
    requires { g.now ≡ language }
{
    let scene = made_scene(alloc, g)?;
    rows_hold_in(alloc, g, &scene, how, rows)
}

/// Fails where the query of a row has another value than the row tells, reads other cells, or spends
/// another number of units.
pub fn rows_hold(alloc: Global, how: How, rows: &[Row]) -> Result<(), RowFault> {
    let g = language(alloc)?;
    rows_hold_by(alloc, &g, how, rows)
}
