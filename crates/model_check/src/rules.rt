ghost use Rattle.std.specs.Prelude.{◌≡◌};
ghost use Rattle.std.specs.Option.{option_copied};
ghost use Rattle.ocl_rules.specs.Typings.{Tells};
ghost use Rattle.model_check.specs.Rules.{condition_rule, result_rule, value_rule};

use class_model::{ClassModel, OclType};
use ocl_core::Expr;
use ocl_rules::{TypeFault, breaks_t};
use soil_scope::Placed;

/// A value conforms to the type that is declared for it, or else T5.
pub fn value_rule(model: &ClassModel, of_type: &OclType, value: Placed) -> Result<Expr, TypeFault>
    ensures { Tells (value_rule model.now of_type.now value) result }
{
    if model.conforms(&value.typed.of_type, of_type) {
        Ok(value.typed.expr)
    } else {
        Err(breaks_t(5, value.place))
    }
}

/// An invariant or a contract is Boolean, or else T4.
pub(crate) fn condition_rule(model: &ClassModel, condition: Placed) -> Result<Expr, TypeFault>
    ensures { Tells (condition_rule model.now condition) result }
{
    if model.conforms(&condition.typed.of_type, &OclType::Bool) {
        Ok(condition.typed.expr)
    } else {
        Err(breaks_t(4, condition.place))
    }
}

/// The value of a query conforms to the result of its operation, or else T5; T12 where that has none.
pub(crate) fn result_rule(
    model: &ClassModel,
    result_type: Option<&OclType>,
    value: Placed,
) -> Result<Expr, TypeFault>
    ensures { Tells (result_rule model.now (option_copied result_type.entry) value) result }
{
    match result_type {
        None => Err(breaks_t(12, value.place)),
        Some(of_type) => value_rule(model, of_type, value),
    }
}
