ghost use Rattle.std.specs.Prelude.{◌≡◌};
ghost use Rattle.ocl_rules.specs.Typings.{Tells};
ghost use Rattle.class_model.specs.declared.types.OclType.TheVariants as T;
ghost use Rattle.ocl_core.specs.declared.expression.Expr.TheVariants as E;
ghost use Rattle.ocl_values.specs.declared.value.Value.TheVariants as V;
ghost use Rattle.ocl_scope.specs.Literals.{literal_found, literal_of_type, literal_type, only_literal_rule, plain_literal, qualified};

use crate::Environment;
use crate::names::type_wanted;
use class_decls::Name;
use class_model::{ClassModel, EnumNo, LitNo, OclType};
use ocl_core::Expr;
use ocl_rules::{TypeFault, Typed, breaks_n, breaks_t};
use ocl_values::Value;
use use_text::Place;

/// The type of a literal that is no enumeration's.
pub fn literal_type(value: &Value) -> OclType
    ensures { result ≡ literal_type value.now }
{
    match value {
        Value::Bool(_) => OclType::Bool,
        Value::Int(_) => OclType::Int,
        Value::Str(_) => OclType::Str,
        _ => OclType::Void,
    }
}

fn enum_literal(literal: (EnumNo, LitNo)) -> Typed
    ensures { result ≡ record { expr = E.Literal (V.Enum literal.0 literal.1); of_type = T.Enum literal.0 } }
{
    Typed {
        expr: Expr::Literal(Value::Enum(literal.0, literal.1)),
        of_type: OclType::Enum(literal.0),
    }
}

/// `#a`.
pub fn only_literal_rule(model: &ClassModel, name: &Name) -> Result<Typed, TypeFault>
    ensures { Tells (only_literal_rule model.now name.now) result }
{
    match model.only_literal(name.text.as_str()) {
        None => Err(breaks_n(3, name.place)),
        Some(literal) => Ok(enum_literal(literal)),
    }
}

/// The literal of a name in a type; an enumeration that the model does not have has none.
fn literal_of_type(model: &ClassModel, of_type: &OclType, name: &Name) -> Option<(EnumNo, LitNo)>
    ensures { result ≡ literal_of_type model.now of_type.now name.now }
{
    match of_type {
        OclType::Enum(number) if *number < model.enum_count() => {
            match model.literal(*number, name.text.as_str()) {
                None => None,
                Some(literal) => Some((*number, literal)),
            }
        }
        _ => None,
    }
}

fn plain_literal(
    place: Place,
    is_before: bool,
    is_called: bool,
    literal: Option<(EnumNo, LitNo)>,
) -> Result<Typed, TypeFault>
    ensures { Tells (plain_literal place is_before is_called literal) result }
{
    match literal {
        None => Err(breaks_n(3, place)),
        Some(found) => {
            if is_called {
                Err(breaks_t(2, place))
            } else if is_before {
                Err(breaks_t(9, place))
            } else {
                Ok(enum_literal(found))
            }
        }
    }
}

/// `E::a`; the flags say that `@pre` and parentheses follow.
pub fn qualified(
    model: &ClassModel,
    env: &Environment,
    name: &Name,
    literal: &Name,
    is_before: bool,
    is_called: bool,
) -> Result<Typed, TypeFault>
    ensures { Tells (qualified model.now env.now name.now literal.now is_before is_called) result }
{
    let of_type = type_wanted(model, env, name)?;
    let found = literal_of_type(model, &of_type, literal);
    plain_literal(literal.place, is_before, is_called, found)
}
