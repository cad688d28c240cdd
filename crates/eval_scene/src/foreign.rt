ghost use Rattle.std.specs.Prelude.{◌≡◌};
ghost use Rattle.use_syntax.specs.Language.{language};

use crate::queries::expression;
use crate::row_fault::RowFault;
use crate::scene::{language, program, studio};
use class_model::ClassModel;
use eval_outcomes::{Scene, shown};
use eval_states::{at_entry, now};
use grammar_core::Grammar;
use ocl_program::Program;
use std::alloc::{AllocError, Global};

/// A model of nothing: all numbers of another model are past its own.
const EMPTY: &str = "model Empty";

/// A query of another model, and its value with the cells that are read.
type Row = (&'static str, &'static str);

static ROWS: &[Row] = &[
    ("ada", "ada"),
    ("ada.age", "invalid reads Slot(1,1)"),
    ("ada.team", "invalid reads Nav(0,Second,1)"),
    ("t.staff", "invalid reads Nav(0,First,4)"),
    ("Person.allInstances()", "invalid reads Extent(1)"),
    ("ada.next", "invalid reads Kind(1)"),
    ("cy.rank()", "invalid reads Kind(3)"),
    ("ada.sum(bob.age, 1)", "invalid reads Kind(1) Slot(2,1)"),
    ("ada.oclIsKindOf(Person)", "invalid reads Kind(1)"),
    ("cy.oclAsType(Chief)", "invalid reads Kind(3)"),
    ("1.oclIsTypeOf(Color)", "invalid"),
    ("1.oclIsKindOf(Person)", "invalid"),
];

/// What a query of a model comes to in another scene.
fn found(
    alloc: Global,
    g: &Grammar,
    model: &ClassModel,
    other: &Scene,
    text: &str,
) -> Result<String, AllocError>
    requires { g.now ≡ language }
{
    let text = format!(in alloc; "? {}", text)?;
    match expression(alloc, g, model, false, text.as_str())? {
        None => String::from_str(alloc, "no query"),
        Some(e) => shown(alloc, other, &e, 0),
    }
}

fn rows_hold_in(
    alloc: Global,
    g: &Grammar,
    model: &ClassModel,
    other: &Scene,
) -> Result<(), RowFault>
    requires { g.now ≡ language }
{
    'rows: for row in ROWS {
        let text = found(alloc, g, model, other, row.0)?;
        if text.as_str() != row.1 {
            let other = format!(in alloc; "{}: {}", row.0, text.as_str())?;
            return Err(RowFault::Other(other));
        }
    }
    Ok(())
}

/// A program in the states of another model.
fn elsewhere(alloc: Global, model: &ClassModel, program: Program) -> Result<Scene, RowFault> {
    let now = now(alloc, model)?;
    let entry = at_entry(alloc, model)?;
    Ok(Scene {
        program,
        now,
        entry,
    })
}

fn made_elsewhere(alloc: Global, g: &Grammar, model: &ClassModel) -> Result<Scene, RowFault>
    requires { g.now ≡ language }
{
    let empty = program(alloc, g, EMPTY)?;
    elsewhere(alloc, model, empty)
}

fn rows_hold_of(alloc: Global, g: &Grammar, model: &ClassModel) -> Result<(), RowFault>
    requires { g.now ≡ language }
{
    let other = made_elsewhere(alloc, g, model)?;
    rows_hold_in(alloc, g, model, &other)
}

fn rows_hold_by(alloc: Global, g: &Grammar) -> Result<(), RowFault>
    requires { g.now ≡ language }
{
    let program = studio(alloc, g)?;
    rows_hold_of(alloc, g, program.model())
}

/// Fails where a query is not as it should be where a program without its classes evaluates it.
pub fn rows_hold_elsewhere(alloc: Global) -> Result<(), RowFault> {
    let g = language(alloc)?;
    rows_hold_by(alloc, &g)
}
