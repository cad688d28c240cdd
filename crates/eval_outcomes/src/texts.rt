use class_model::End;
use object_state::{Cell, Cells, StateReader};
use ocl_core::ProgramParts;
use ocl_eval::Outcome;
use ocl_values::Value;
use std::alloc::{AllocError, Global};
use use_info::append_value;

fn end_name(end: End) -> &'static str {
    match end {
        End::First => "First",
        End::Second => "Second",
    }
}

fn cell_text(alloc: Global, cell: &Cell) -> Result<String, AllocError> {
    match cell {
        Cell::Kind(object) => format!(in alloc; " Kind({})", *object),
        Cell::Slot(object, attr) => format!(in alloc; " Slot({},{})", *object, *attr),
        Cell::Nav(assoc, end, object) => {
            format!(in alloc; " Nav({},{},{})", *assoc, end_name(*end), *object)
        }
        Cell::Extent(class) => format!(in alloc; " Extent({})", *class),
    }
}

/// The text of some cells.
pub fn cells_text(alloc: Global, reads: &Cells) -> Result<String, AllocError> {
    let mut text = String::new(alloc);
    'cells: for cell in reads.iter() {
        let one = cell_text(alloc, cell)?;
        text.push_str(one.as_str())?;
    }
    Ok(text)
}

fn value_text<S: StateReader>(
    alloc: Global,
    program: &ProgramParts,
    now: &S,
    value: &Value,
) -> Result<String, AllocError> {
    let mut text = Vec::new(alloc);
    append_value(alloc, &program.model, now, value, &mut text)?;
    String::from_utf8_lossy(alloc, text.as_slice())
}

/// The text of an outcome.
pub(crate) fn outcome_text<S: StateReader>(
    alloc: Global,
    program: &ProgramParts,
    now: &S,
    outcome: &Outcome,
) -> Result<String, AllocError> {
    match outcome {
        Outcome::Exhausted => String::from_str(alloc, "exhausted"),
        Outcome::Done(value) => value_text(alloc, program, now, value),
    }
}

/// Whether there is a value.
pub fn is_value(outcome: &Outcome) -> bool {
    match outcome {
        Outcome::Exhausted => false,
        Outcome::Done(_) => true,
    }
}
