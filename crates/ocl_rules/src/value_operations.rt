ghost use Rattle.std.specs.Prelude.{◌≡◌};
ghost use Rattle.ocl_rules.specs.Typings.{Tells};
ghost use Rattle.ocl_rules.specs.ValueOperations.{param_types, result_type, row_among, value_operation, value_rule};
ghost use Rattle.std.specs.Prelude.{IfOk};

use crate::arguments::{broken_plain, conforms_plain, source_and_args};
use crate::fault::breaks_t;
use crate::{
    PlainType, TypeFault, Typed, VALUE_OPERATIONS, ValueOperation, ValueParams, ValueResult,
};
use class_model::{ClassModel, OclType};
use ocl_core::Expr;
use ocl_values::Kind;
use std::alloc::{AllocError, Global};
use use_lists::Boxed;
use use_text::Place;

/// The first row of a name whose source a type conforms to.
fn row_among(
    model: &ClassModel,
    of_type: &OclType,
    rows: &[(&str, ValueOperation)],
    name: &str,
) -> Option<ValueOperation>
    ensures { result ≡ row_among model.now of_type.now rows.now (λ t. t.now) name.now }
{
    'rows: for row in rows {
        if row.0 == name && conforms_plain(model, of_type, row.1.source) {
            return Some(row.1);
        }
    }
    None
}

/// The operation of a name that values of a type have.
#[tactic(auto, unfolding(crate::specs::ValueOperations::value_operation))]
pub fn value_operation(model: &ClassModel, of_type: &OclType, name: &str) -> Option<ValueOperation>
    ensures { result ≡ value_operation model.now of_type.now name.now }
{
    row_among(model, of_type, &VALUE_OPERATIONS, name)
}

/// The types of the parameters.
fn param_types(params: ValueParams) -> &'static [PlainType]
    ensures { result.now ≡ param_types params }
{
    match params {
        ValueParams::Nothing => &[],
        ValueParams::Int => &[PlainType::Int],
        ValueParams::TwoInts => &[PlainType::Int, PlainType::Int],
        ValueParams::Str => &[PlainType::Str],
    }
}

fn result_type(alloc: Global, gives: ValueResult) -> Result<OclType, AllocError>
    ensures { IfOk result (λ t. t ≡ result_type gives) }
{
    match gives {
        ValueResult::Int => Ok(OclType::Int),
        ValueResult::Str => Ok(OclType::Str),
        ValueResult::Strings => {
            Ok(OclType::Coll(Kind::Sequence, Boxed::new(alloc, OclType::Str)?))
        }
    }
}

/// A call of an operation of values.
pub fn value_rule(
    alloc: Global,
    model: &ClassModel,
    place: Place,
    is_before: bool,
    row: &ValueOperation,
    source: Typed,
    args: Vec<Typed>,
) -> Result<Typed, TypeFault>
    ensures { Tells (value_rule model.now place is_before row.now source args.items) result }
{
    if let Some(number) = broken_plain(model, param_types(row.params), args.as_slice()) {
        return Err(breaks_t(number, place));
    }
    if is_before {
        return Err(breaks_t(9, place));
    }
    Ok(Typed {
        expr: Expr::Plain(row.op, source_and_args(alloc, source.expr, args)?),
        of_type: result_type(alloc, row.gives)?,
    })
}
